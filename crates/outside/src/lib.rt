//! The outside world as the program sees it.
//!
//! A trait stands for each thing outside: `Source` and `Sink` for streams of bytes, `Link` for both
//! ends of a connection, `Log` for a sink whose bytes are kept and synced, `Folder` for files by name, `Listener` for where
//! connections come from, `Dialer` for one request and its reply, `Clock` for the time. Each trait has a written meaning
//! that an object may tell or not. Each but `Clock` has a count of faults that never falls: a call
//! answers `Failed` only where the count rose in this call.
//!
//! `memory` has a fake of each, which tells all that its trait leaves optional and fails at the
//! calls that it was told to fail at. The real things stand in the crate `adapters`. `read_link`,
//! `read_piece`, `write_link` and `write_whole` are what the crates above read and write by. `ask_link`
//! sends a request, all of it before it reads, and reads its reply no further than to the end that a
//! `ReplyEnd` tells.
#![tactic(auto)]

mod asking;
mod clock;
mod dialer;
mod faults;
mod folder;
mod link;
mod listener;
mod log;
mod memory;
mod names;
mod transfer;

pub use asking::{AskFault, ReplyEnd, ask_link};
pub use clock::Clock;
pub use dialer::{Dialer, Exchange};
pub use faults::{Failed, OutFault};
pub use folder::{Folder, FolderRead};
pub use link::{Link, Sink, Source};
pub use listener::{Accepted, Listener};
pub use log::Log;
pub use memory::{
    Failing, Lent, MemFolder, MemListener, MemLog, MemSink, MemSource, Pair, ScriptClock,
    ScriptDialer,
};
pub use names::Names;
pub use transfer::{append, piece_room, read_link, read_piece, write_link, write_whole};
