//! The segments of a shard's log: a beginning written from what is live, and a whole segment read back into that.
//!
//! A shard that keeps none of its entries in memory appends the line of each to a log, and is opened again from there.
//! So that this takes no longer with each day, a log comes in segments, of which the last alone is read. A segment first
//! tells what the shard had where it begins: its first line ([`Head`]), and for each name that was met the version, the
//! size, the lock and the ids that are refused. Then it tells each entry as it was made. Each of these lines is a
//! [`Row`]. Behind an entry's line `off` takes it back, and behind that of a store fault `holds` tells what stands under
//! its name. Contents that were accepted stand behind their line as they are; those of a file that didn't change in the
//! segment stand in the folder alone.
//!
//! [`write_opening`] appends the beginning of a segment to a sink. What makes an entry appends its line.
//!
//! [`read_segment`] reads a source once, to its end, and gives what stands then ([`Restored`]): the shard's time, its last
//! stamp, and of each name that was met what its lines leave ([`ToldFile`]), with the contents that they brought. It
//! promises this much:
//!
//! - The bytes are the lines of a segment, and behind them at most a part of one more, or a line whose contents aren't
//!   all there, as a writer leaves it that was stopped. `used` says where that begins, so that it can be cut off.
//! - What is given is what the lines tell, each by its ruling alone: no call is judged again.
//! - A segment is refused for its first line, or for the first line that can't stand where it does, whatever follows, and
//!   that one is named by its number. A line may be too long, the segment may have more bytes than can be counted, a read
//!   may fail, and memory may be wanting; nothing else is refused.
//!
//! [`watch_segment`] does the same, and shows each line to a [`Watcher`] as it comes.
//!
//! [`ToldShard::into_life`] gives what was restored as the life with which a shard of host_core goes on.
//!
//! What each line makes of what was told before it is one step of a [`State`], and no line but the last is kept. So a
//! reading takes the memory of what is live, and twice that of the longest line with its contents.
//!
//! Bytes are those of one segment at most, what stands of one whose writing was stopped is one with fewer lines, and the
//! lines of a beginning tell just what it was written from. Where a shard may have made the entries whose lines count,
//! what a segment restores is what they leave, and the life tells where that shard stands: one that begins with it goes
//! on as if it had never stopped. What a store of host_log appends are such lines. These are the laws of [`laws`].
#![tactic(auto)]

mod file;
pub mod laws;
mod reading;
mod rows;
mod shelf;
mod state;
#[cfg(test)]
mod tests;
mod told;
mod walking;
mod watching;
mod writing;

pub use file::ToldFile;
pub use reading::{Restored, read_segment, watch_segment};
pub use rows::{Head, Row};
pub use shelf::Shelf;
pub use state::State;
pub use told::ToldShard;
pub use walking::SegmentFault;
pub use watching::Watcher;
pub use writing::write_opening;
