//! Runs of schedules: some sessions, a host over files in memory, and what happens between them.
//!
//! A [`Schedule`](schedule_text::Schedule) has the files and the sessions at the opening, and the events in their order.
//! [`World::run`] runs it. Each request goes to the host as the bytes that
//! a client writes, and the host's reader takes it from them; each reply that a session takes goes back
//! as bytes in the same way. At a restart the host's shard ends, what it leaves is kept, and another
//! one opens over its files. Between the two ends lies a [`Wire`]. Over one that gives back what it is
//! given, the run shows the world of wopi_world to which the schedule leads, and that world is safe.
//! [`trace_text`] writes what each event showed and how the files were left, [`summary_text`] how much
//! was sent, answered, refused and saved.
#![tactic(auto)]

mod acting;
mod carrying;
mod counting;
mod delivering;
mod exchanging;
mod faultless;
mod foreign;
mod history;
pub mod laws;
mod lookups;
mod member;
mod replies;
mod running;
mod sessions;
mod showing;
mod stage;
mod starting;
mod tracing;
mod watched;
mod wire;
mod words;
mod world;

pub use faultless::FaultlessFolder;
pub use history::Item;
pub use member::{Member, Request, Told};
pub use replies::Reply;
pub use stage::Stage;
pub use tracing::{summary_text, trace_text};
pub use watched::Watched;
pub use wire::{Carried, ScriptWire, Straight, Wire};
pub use world::World;
