//! A segment of a shard's log, judged by the rules of a host.
//!
//! A host that keeps logs writes one a shard, and a log comes in segments ([`journal_segments`] reads them). A segment
//! first tells what its shard had: of each name that was met the version, the size, the lock and the ids that are refused.
//! Then it tells each entry as it was made. So it can be judged by itself, without what came before: [`audit_segment`]
//! reads a source once, to its end, and says whether a host that keeps the rules may have written it. It promises this
//! much:
//!
//! - The bytes are the lines of a segment, and behind them what a writer left that was stopped: a half line at the end is
//!   nothing wrong. Where they aren't, it fails as [`journal_segments::read_segment`] does, with the number of the first
//!   line that can't stand where it does.
//! - [`SegmentVerdict::Legal`]: each entry is an outcome of the step, in status, lock, reason and version, on its file as
//!   the lines before it tell it, settled at the entry's time; and what is taken back is an accepted save or removal.
//!   An entry that is taken back is judged as each other: the host had accepted it, before its folder failed.
//! - [`SegmentVerdict::Bad`]: the line of that number is the first of which this doesn't hold. The rest is read all the
//!   same: bytes that are no segment have no verdict.
//!
//! Just one of the two is said of a segment, and only the right one.
//!
//! What is decided of a call asks of contents only whether they are there and how many bytes they have, so it is judged
//! by sizes alone. The reading itself keeps what journal_segments keeps: what is live, with the contents that lines
//! brought last, and the line that comes, with its contents.
#![tactic(auto)]

mod auditing;
mod judging;
pub mod laws;
mod sized;
#[cfg(test)]
mod tests;
mod verdict;

pub use auditing::{SegmentAudit, audit_segment};
pub use verdict::{RowFault, SegmentVerdict};
