//! The JSON bodies of two operations of WOPI: what CheckFileInfo tells of a file, and what
//! PutRelativeFile tells of the file that it made; and what an editor is told beside them of a file's
//! last save.
//!
//! Both are objects, written without spaces, their members in the order of the members' names. They
//! are read from any JSON object that has the members, each of its kind, whatever else it has. What
//! is written reads back as what it was written of, and as nothing else (the clauses of
//! [`info_text`] and [`relative_text`], and the functions of [`laws`]).
#![tactic(auto)]

mod fault;
mod info;
pub mod laws;
mod members;
mod relative;
mod save;
mod saved;

pub use fault::{InfoFault, Required};
pub use info::{Info, info_read, info_text};
pub use relative::{relative_read, relative_text};
pub use save::Saved;
pub use saved::{put_saved, save_text};
