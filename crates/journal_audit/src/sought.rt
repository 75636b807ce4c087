//! The contents that a file had at a version, found while a journal comes.
ghost use Rattle.std.specs.Prelude.{◌≡◌, ◌≢◌, ◌≤◌, ℕ, Err, IfOk};
ghost use Rattle.outside.specs.Faults.{Rose};
ghost use Rattle.line_text.specs.Inputs.{HasRead};
ghost use Rattle.line_text.specs.declared.input.InputFault.TheVariants.{Read, Text};
ghost use Rattle.journal_text.specs.Inputs.{AreFew, IsBadInput, IsLong};
ghost use Rattle.journal_text.specs.declared.journal.JournalFault.TheVariants.{BadLine, TooLong};
ghost use Rattle.journal_audit.specs.Streams.{IsFoundIn};

use journal_text::{JournalFault, Keeper, Line, read_lines};
use line_text::InputFault;
use outside::Source;
use std::alloc::Global;
use wopi_text::{Bytes, FileName, Memory};

/// The contents that the file of a name had at a version, if it had that version in the lines so far. Where a
/// journal isn't legal and gives a version twice, the first counts.
#[derive(Drop)]
pub(crate) struct Sought {
    name: FileName,
    version: u64,
    /// The version of the opening files.
    first: u64,
    found: Option<Bytes>,
}

impl Keeper for Sought {
    ghost use Rattle.std.specs.Prelude.{◌≡◌, None};
    ghost use Rattle.journal_audit.specs.Streams.{Seeks};

    ghost is_new = { λ sought. sought.found ≡ None };

    ghost keeps = { Seeks };

    fn begin(&mut self, _opened: u64, first: u64) -> Result<(), Memory> {
        self.first = first;
        Ok(())
    }

    fn keep_file(&mut self, file: (FileName, Bytes)) -> Result<(), Memory> {
        if self.found.is_some() {
            return Ok(());
        }
        if self.version != self.first {
            return Ok(());
        }
        if file.0 != self.name {
            return Ok(());
        }
        self.found = Some(file.1);
        Ok(())
    }

    fn keep_line(&mut self, _number: u64, line: Line) -> Result<(), Memory> {
        if self.found.is_some() {
            return Ok(());
        }
        if line.version != Some(self.version) {
            return Ok(());
        }
        if line.name != self.name {
            return Ok(());
        }
        self.found = line.contents;
        Ok(())
    }
}

/// The contents that the file of a name had at a version, in the journal that the whole input is, if it had
/// that version. No other contents are kept: it takes the memory of these and of one line. Where a journal isn't
/// legal and gives a version twice, the first counts.
pub fn read_contents<S: Source>(
    alloc: Global,
    source: &mut S,
    name: &FileName,
    version: u64,
) -> Result<Option<Bytes>, InputFault<JournalFault>>
    ensures found { IfOk result (IsFoundIn (S.left source.old) (S.left source.new) name.now version) }
    ensures bad { (line : ℕ) → result ≡ Err (Text (BadLine line)) → IsBadInput (S.left source.old) (S.left source.new) line }
    ensures long { result ≡ Err (Text TooLong) → IsLong (S.left source.old) (S.left source.new) }
    ensures prompt { result ≡ Err Read → HasRead (S.left source.old) (S.left source.new) AreFew }
    ensures beside { S.beside_reads source.new ≡ S.beside_reads source.old }
    ensures never_falls { S.read_faults source.old ≤ S.read_faults source.new }
    ensures fine { result ≢ Err Read → S.read_faults source.new ≡ S.read_faults source.old }
    ensures failed { result ≡ Err Read → Rose (S.read_faults source.old) (S.read_faults source.new) }
{
    let sought = Sought {
        name: name.copy(),
        version,
        first: 0,
        found: None,
    };
    match read_lines(alloc, source, sought) {
        Ok((sought, _entries)) => {
            // What reading ensures doesn't say that the question is still the same, so it is asked again.
            if sought.name == *name && sought.version == version {
                return Ok(sought.found);
            }
            return Err(InputFault::Text(JournalFault::Memory));
        }
        Err(fault) => return Err(fault),
    }
}
