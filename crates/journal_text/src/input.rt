//! The bytes of an input that is a journal.
ghost use Rattle.std.specs.Prelude.{◌≡◌, ◌≢◌, ◌≤◌, List, ℕ, Err, IfOk, length};
ghost use Rattle.outside.specs.Faults.{Rose};
ghost use Rattle.line_text.specs.Inputs.{HasRead};
ghost use Rattle.line_text.specs.declared.input.InputFault.TheVariants.{Read, Text};
ghost use Rattle.journal_text.specs.Inputs.{IsBadInput, IsLong, AreFew, IsWhole};
ghost use Rattle.journal_text.specs.Coming.{IsKeptOf};
ghost use Rattle.journal_text.specs.declared.journal.JournalFault.TheVariants.{BadLine};
ghost use Rattle.journal_text.specs.declared.journal.JournalFault.TheVariants as journal;
ghost use Rattle.journal_text.specs.declared.input.SizeFault.TheVariants.{TooLong};

use crate::journal::{JournalFault, MOST_BYTES};
use crate::keeping::Keeper;
use crate::pieces::{LineReader, add};
use line_text::{InputFault, TakesText, read_text};
use outside::{Source, piece_room};
use std::alloc::Global;
use wopi_text::Memory;

/// The most bytes that are read at once.
const PIECE: usize = 65_536;

/// Why the bytes of an input are not taken.
#[derive(Clone, Copy, Debug, PartialEq, Eq)]
pub enum SizeFault {
    /// There are more bytes than a journal may have.
    TooLong,
    Memory,
}

/// The bytes that have come so far.
#[derive(Drop)]
struct Gathered {
    bytes: Vec<u8>,
}

impl TakesText for Gathered {
    ghost use Rattle.std.specs.Prelude.{◌≡◌, ◌≤◌, ◌+◌, ◌-◌, ℕ, List, length, min};
    ghost use Rattle.journal_text.specs.Inputs.{AreFew, AreTooMany};
    ghost use Rattle.journal_text.specs.Journals.{most_bytes};

    type Fault = SizeFault;

    ghost has_come = { λ gathered bytes. (gathered.bytes.items ≡ bytes) × AreFew bytes };

    ghost refuses = { AreTooMany };

    ghost portion = { λ gathered. min (most_bytes + 1 - length gathered.bytes.items) 65536 };

    ghost room = { λ gathered. most_bytes - length gathered.bytes.items };

    fn portion(&self) -> usize {
        (MOST_BYTES + 1 - self.bytes.len()).min(PIECE)
    }

    fn take(&mut self, piece: &[u8]) -> Result<(), SizeFault> {
        match add(&mut self.bytes, piece) {
            Ok(()) => {}
            Err(Memory) => return Err(SizeFault::Memory),
        }
        if self.bytes.len() > MOST_BYTES {
            return Err(SizeFault::TooLong);
        }
        Ok(())
    }
}

/// All bytes of an input, where they are no more than those of a journal. Of a longer input one byte more is
/// read than a journal may have, and no further one. The bytes take at most two and a quarter times their
/// number while they come.
pub fn read_bytes<S: Source>(
    alloc: Global,
    source: &mut S,
) -> Result<Vec<u8>, InputFault<SizeFault>>
    ensures whole { IfOk result (λ bytes. IsWhole (S.left source.old) (S.left source.new) bytes.items) }
    ensures long { result ≡ Err (Text TooLong) → IsLong (S.left source.old) (S.left source.new) }
    ensures prompt { result ≡ Err Read → HasRead (S.left source.old) (S.left source.new) AreFew }
    ensures beside { S.beside_reads source.new ≡ S.beside_reads source.old }
    ensures never_falls { S.read_faults source.old ≤ S.read_faults source.new }
    ensures fine { result ≢ Err Read → S.read_faults source.new ≡ S.read_faults source.old }
    ensures failed { result ≡ Err Read → Rose (S.read_faults source.old) (S.read_faults source.new) }
{
    let Ok(mut piece) = piece_room(alloc) else {
        return Err(InputFault::Text(SizeFault::Memory));
    };
    let mut gathered = Gathered {
        bytes: Vec::new(alloc),
    };
    match read_text(source, &mut piece[0..], &mut gathered) {
        Ok(()) => return Ok(gathered.bytes),
        Err(fault) => return Err(fault),
    }
}

impl<R: Keeper> TakesText for LineReader<R> {
    ghost use Rattle.std.specs.Prelude.{◌≡◌, ◌≤◌, ◌+◌, ◌-◌, ℕ, List, length, min};
    ghost use Rattle.journal_text.specs.Coming.{HasCome};
    ghost use Rattle.journal_text.specs.Inputs.{AreTooMany};
    ghost use Rattle.journal_text.specs.Journals.{most_bytes};

    type Fault = SizeFault;

    ghost has_come = { λ lines text. HasCome R.is_new R.keeps lines text };

    ghost refuses = { AreTooMany };

    ghost portion = { λ lines. min (most_bytes + 1 - lines.size) 65536 };

    ghost room = { λ lines. most_bytes - lines.size };

    fn portion(&self) -> usize {
        (MOST_BYTES + 1 - self.size).min(PIECE)
    }

    fn take(&mut self, piece: &[u8]) -> Result<(), SizeFault> {
        match self.take_all(piece) {
            Ok(()) => {}
            Err(Memory) => return Err(SizeFault::Memory),
        }
        self.size += piece.len();
        if self.size > MOST_BYTES {
            return Err(SizeFault::TooLong);
        }
        Ok(())
    }
}

/// Reads the journal that the whole input is, in the first form or the second, and gives each of its lines to
/// the keeper as soon as it has come. At the end it gives what is kept, and the number of entries. Of a longer
/// input than a journal may be one byte more is read, and no further one. Beside what the keeper takes this
/// takes the memory of one line, of its contents and their digits, and 64 KiB.
pub fn read_lines<S: Source, R: Keeper>(
    alloc: Global,
    source: &mut S,
    keeper: R,
) -> Result<(R, u64), InputFault<JournalFault>>
    requires { R.is_new keeper }
    ensures read { IfOk result (λ read. IsKeptOf R.keeps (S.left source.old) (S.left source.new) read.0 read.1) }
    ensures bad { (line : ℕ) → result ≡ Err (Text (BadLine line)) → IsBadInput (S.left source.old) (S.left source.new) line }
    ensures long { result ≡ Err (Text journal.TooLong) → IsLong (S.left source.old) (S.left source.new) }
    ensures prompt { result ≡ Err Read → HasRead (S.left source.old) (S.left source.new) AreFew }
    ensures beside { S.beside_reads source.new ≡ S.beside_reads source.old }
    ensures never_falls { S.read_faults source.old ≤ S.read_faults source.new }
    ensures fine { result ≢ Err Read → S.read_faults source.new ≡ S.read_faults source.old }
    ensures failed { result ≡ Err Read → Rose (S.read_faults source.old) (S.read_faults source.new) }
{
    let Ok(mut piece) = piece_room(alloc) else {
        return Err(InputFault::Text(JournalFault::Memory));
    };
    let mut lines = LineReader::new(alloc, keeper);
    match read_text(source, &mut piece[0..], &mut lines) {
        Ok(()) => {}
        Err(InputFault::Text(SizeFault::TooLong)) => {
            return Err(InputFault::Text(JournalFault::TooLong));
        }
        Err(InputFault::Text(SizeFault::Memory)) => {
            return Err(InputFault::Text(JournalFault::Memory));
        }
        Err(InputFault::Read) => return Err(InputFault::Read),
    }
    match lines.finish() {
        Ok((reader, keeper)) => return Ok((keeper, reader.entries)),
        Err(line) => return Err(InputFault::Text(JournalFault::BadLine { line })),
    }
}
