//! Whole journals.
ghost use Rattle.std.specs.Prelude.{◌≡◌, ◌↔◌, ◌<◌, ℕ, Err, IfOk, length};
ghost use Rattle.journal_text.specs.declared.journal.JournalFault.TheVariants.{BadLine, TooLong};
ghost use Rattle.journal_text.specs.Journals.{IsBadLine, IsReading, most_bytes};
ghost use Rattle.journal_text.specs.SoFar.{IsRead};

use crate::keeping::{Keeper, Kept};
use crate::pieces::LineReader;
use crate::reading::Reader;
use crate::text::JournalText;
use std::alloc::Global;
use thiserror::Error;
use wopi_text::Memory;

/// The most bytes of a journal.
pub(crate) const MOST_BYTES: usize = 268_435_456;

/// Why bytes are no journal.
#[derive(Clone, Copy, Debug, PartialEq, Eq, Error)]
pub enum JournalFault {
    #[error("journal too long")]
    TooLong,
    /// The line with this number, counted from 1, is the first that can't stand where it does, or that is
    /// missing there.
    #[error("line {line}: bad line")]
    BadLine { line: u64 },
    #[error("out of memory")]
    Memory,
}

/// What the journal tells whose text these bytes are, in the first form or the second.
pub fn read_journal(alloc: Global, bytes: &[u8]) -> Result<JournalText, JournalFault>
    ensures read { IfOk result (λ text. IsReading bytes.now text) }
    ensures too_long { (result ≡ Err TooLong) ↔ (most_bytes < length bytes.now) }
    ensures bad { (line : ℕ) → result ≡ Err (BadLine line) → IsBadLine bytes.now line }
{
    match read_with(alloc, bytes, Kept::new(alloc)) {
        Ok((_reader, kept)) => return Ok(kept.finish()),
        Err(fault) => return Err(fault),
    }
}

/// Reads a journal line by line, and gives each to the keeper.
pub(crate) fn read_with<R: Keeper>(
    alloc: Global,
    bytes: &[u8],
    keeper: R,
) -> Result<(Reader, R), JournalFault>
    requires { R.is_new keeper }
    ensures read { IfOk result (λ read. IsRead R.keeps bytes.now read.0 read.1) }
    ensures too_long { (result ≡ Err TooLong) ↔ (most_bytes < length bytes.now) }
    ensures bad { (line : ℕ) → result ≡ Err (BadLine line) → IsBadLine bytes.now line }
{
    if bytes.len() > MOST_BYTES {
        return Err(JournalFault::TooLong);
    }
    let mut lines = LineReader::new(alloc, keeper);
    match lines.take_all(bytes) {
        Ok(()) => {}
        Err(Memory) => return Err(JournalFault::Memory),
    }
    match lines.finish() {
        Ok((reader, keeper)) => return Ok((reader, keeper)),
        Err(line) => return Err(JournalFault::BadLine { line }),
    }
}
