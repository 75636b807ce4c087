//! What holds of the worlds that runs show, as contracts of functions that do nothing: laws of wopi_world.
pub use wopi_world::laws::{deliver_is_entry, entries_run, safe_always};
