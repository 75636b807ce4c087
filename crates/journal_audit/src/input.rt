//! Journals, judged while they come.
ghost use Rattle.std.specs.Prelude.{◌≡◌, ◌≢◌, ◌≤◌, [], ℕ, Err, IfOk, OnOk};
ghost use Rattle.outside.specs.Faults.{Rose};
ghost use Rattle.line_text.specs.Inputs.{HasRead};
ghost use Rattle.line_text.specs.declared.input.InputFault.TheVariants.{Read, Text};
ghost use Rattle.journal_text.specs.Inputs.{AreFew, IsBadInput, IsLong};
ghost use Rattle.journal_text.specs.declared.journal.JournalFault.TheVariants.{BadLine, TooLong};
ghost use Rattle.journal_text.specs.declared.text.JournalText.{JournalText};
ghost use Rattle.journal_text.specs.Reader.{with_file};
ghost use Rattle.journal_audit.specs.Streams.{IsAudited, IsNew, IsNext, IsVerdict, KeepsJournal};
ghost use Rattle.journal_audit.specs.Tracks.{IsSound};

use crate::auditor::Auditor;
use crate::verdict::{AuditFault, Verdict};
use journal_text::{JournalFault, Keeper, Line, read_lines};
use line_text::InputFault;
use outside::Source;
use std::alloc::Global;
use wopi_text::{Bytes, FileName, Memory};

/// What an audit says of a journal, and how many entries that has.
#[derive(Clone, Copy, Debug, PartialEq, Eq)]
pub struct Audit {
    pub verdict: Verdict,
    pub entries: u64,
}

/// How far the lines of a journal were judged.
#[derive(Drop)]
pub(crate) enum Progress {
    /// No line has come.
    New,
    /// All lines so far are legal.
    Legal(Auditor),
    /// The line of that number is the first that isn't. No line behind it is judged.
    Bad { line: u64, fault: AuditFault },
}

/// What judges the lines of a journal while they come.
#[derive(Drop)]
pub(crate) struct LineAuditor {
    alloc: Global,
    progress: Progress,
}

impl Keeper for LineAuditor {
    ghost use Rattle.journal_audit.specs.Streams.{IsNew, KeepsJournal};

    ghost is_new = { λ auditor. IsNew auditor.progress };

    ghost keeps = { λ auditor text. KeepsJournal auditor.progress text };

    fn begin(&mut self, opened: u64, first: u64) -> Result<(), Memory> {
        let auditor = Auditor::new(self.alloc, opened, first)?;
        self.progress = Progress::Legal(auditor);
        Ok(())
    }

    fn keep_file(&mut self, file: (FileName, Bytes)) -> Result<(), Memory> {
        add_file(&mut self.progress, &file)
    }

    fn keep_line(&mut self, number: u64, line: Line) -> Result<(), Memory> {
        match next_fault(&mut self.progress, &line)? {
            None => return Ok(()),
            Some(fault) => {
                self.progress = Progress::Bad {
                    line: number,
                    fault,
                };
            }
        }
        Ok(())
    }
}

/// The line of an opening file has come.
fn add_file(progress: &mut Progress, file: &(FileName, Bytes)) -> Result<(), Memory>
    ensures { OnOk result ((text : JournalText) → text.lines ≡ [] → KeepsJournal progress.old text → KeepsJournal progress.new (with_file text file.now)) }
{
    match progress {
        Progress::Legal(auditor) => {
            match auditor.add_file(&file.0, file.1.as_slice().len() as u64) {
                Ok(()) => return Ok(()),
                Err(memory) => return Err(memory),
            }
        }
        Progress::New => return Ok(()),
        Progress::Bad { .. } => return Ok(()),
    }
}

/// What is wrong with the next line, if all lines before it are legal and it isn't.
fn next_fault(progress: &mut Progress, line: &Line) -> Result<Option<AuditFault>, Memory>
    requires { IsSound line.now }
    ensures { IfOk result (λ wrong. (text : JournalText) → KeepsJournal progress.old text → IsNext text line.entry.now wrong progress.new) }
{
    match progress {
        Progress::Legal(auditor) => match auditor.take(line) {
            Ok(wrong) => return Ok(wrong),
            Err(memory) => return Err(memory),
        },
        Progress::New => return Ok(None),
        Progress::Bad { .. } => return Ok(None),
    }
}

/// What is to be said of the journal, once all its lines have come.
fn verdict_of(progress: &Progress) -> Verdict
    requires { (text : JournalText) × KeepsJournal progress.now text }
    ensures { (text : JournalText) → KeepsJournal progress.now text → IsVerdict text result }
{
    match progress {
        Progress::New => unreachable!(),
        Progress::Legal(_) => return Verdict::Legal,
        Progress::Bad { line, fault } => {
            return Verdict::Bad {
                line: *line,
                fault: *fault,
            };
        }
    }
}

/// Whether a host that keeps the rules may have written the journal that the whole input is, and where not, at
/// which line. The lines are judged as they come, and none is kept: it takes time by the input's length, and
/// the memory of the files without their contents, of the locks that stand, of the ids that are spent, and of
/// one line. Behind a line that isn't legal the rest is read all the same: an input that is no journal has no
/// verdict.
pub fn audit_input<S: Source>(
    alloc: Global,
    source: &mut S,
) -> Result<Audit, InputFault<JournalFault>>
    ensures judged { IfOk result (IsAudited (S.left source.old) (S.left source.new)) }
    ensures bad { (line : ℕ) → result ≡ Err (Text (BadLine line)) → IsBadInput (S.left source.old) (S.left source.new) line }
    ensures long { result ≡ Err (Text TooLong) → IsLong (S.left source.old) (S.left source.new) }
    ensures prompt { result ≡ Err Read → HasRead (S.left source.old) (S.left source.new) AreFew }
    ensures beside { S.beside_reads source.new ≡ S.beside_reads source.old }
    ensures never_falls { S.read_faults source.old ≤ S.read_faults source.new }
    ensures fine { result ≢ Err Read → S.read_faults source.new ≡ S.read_faults source.old }
    ensures failed { result ≡ Err Read → Rose (S.read_faults source.old) (S.read_faults source.new) }
{
    let auditor = LineAuditor {
        alloc,
        progress: Progress::New,
    };
    match read_lines(alloc, source, auditor) {
        Ok((auditor, entries)) => {
            let verdict = verdict_of(&auditor.progress);
            return Ok(Audit { verdict, entries });
        }
        Err(fault) => return Err(fault),
    }
}
