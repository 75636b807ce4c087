//! The command `audit`: whether a host that keeps the rules may have written the journal that the input is.
ghost use Rattle.std.specs.Prelude.{◌≡◌, IfOk, [], length, map, string_bytes};
ghost use Rattle.outside.specs.Faults.{Rose};
ghost use Rattle.journal_text.specs.declared.text.JournalText.{JournalText};
ghost use Rattle.journal_audit.specs.Streams.{IsVerdict};
ghost use Rattle.wopi_program.specs.Audit.{AuditEnds, IsJudged, fault_line, fault_word, legal_line};
ghost use Rattle.wopi_program.specs.Edit.{Tells};
ghost use Rattle.wopi_program.specs.JournalRuns.{TakesJournal};
ghost use Rattle.wopi_program.specs.Words.{IsRow};

use crate::edit::{refuse_script, say};
use crate::upgrade::note_upgrade;
use crate::{Command, Meant, Outside};
use itoa::Buffer;
use journal_audit::{Audit, AuditFault, Verdict, audit_input};
use journal_text::JournalFault;
use line_text::InputFault;
use outside::{Clock, Dialer, Folder, Listener, Log, Sink, Source};
use std::alloc::Global;
use wopi_text::Memory;

/// The line of a legal journal with so many entries.
fn legal_line(alloc: Global, entries: u64) -> Result<Vec<u8>, Memory>
    ensures { IfOk result (λ line. line.items ≡ legal_line entries) }
{
    let mut digits = Buffer::new();
    let mut line = b"legal ".to_vec(alloc)?;
    line.extend_from_slice(digits.format(entries).as_bytes())?;
    line.extend_from_slice(b"\n")?;
    Ok(line)
}

/// The word for what is wrong with a line.
fn fault_word(wrong: AuditFault) -> &'static [u8]
    ensures { result.now ≡ fault_word wrong }
{
    match wrong {
        AuditFault::Order => b"order",
        AuditFault::Now => b"now",
        AuditFault::Ruling => b"ruling",
    }
}

/// The line of a journal whose first line that isn't legal has this number, and is wrong in this.
fn fault_line(alloc: Global, number: u64, wrong: AuditFault) -> Result<Vec<u8>, Memory>
    ensures { IfOk result (λ line. line.items ≡ fault_line number wrong) }
{
    let mut digits = Buffer::new();
    let mut line = b"line ".to_vec(alloc)?;
    line.extend_from_slice(digits.format(number).as_bytes())?;
    line.extend_from_slice(b": ")?;
    line.extend_from_slice(fault_word(wrong))?;
    line.extend_from_slice(b"\n")?;
    Ok(line)
}

/// Tells that a journal with so many entries is legal, and gives the status.
#[tactic(auto, using(crate::proofs::EditLemmas::tells_wanting, crate::proofs::AuditLemmas::some_legal_line))]
fn tell_legal<K: Sink>(alloc: Global, entries: u64, output: &mut K) -> u8
    ensures told { Tells (K.held output.old) (K.held output.new) result 0 [] (legal_line entries) }
    ensures cause { result ≡ 4 → Rose (K.write_faults output.old) (K.write_faults output.new) }
{
    match legal_line(alloc, entries) {
        Ok(line) => say(output, &line, 0),
        Err(Memory) => 6,
    }
}

/// Tells the first line that isn't legal, and what is wrong with it, and gives the status.
#[tactic(auto, using(crate::proofs::EditLemmas::tells_wanting, crate::proofs::AuditLemmas::some_fault_line))]
fn tell_fault<K: Sink>(alloc: Global, number: u64, wrong: AuditFault, output: &mut K) -> u8
    ensures told { Tells (K.held output.old) (K.held output.new) result 14 [] (fault_line number wrong) }
    ensures cause { result ≡ 4 → Rose (K.write_faults output.old) (K.write_faults output.new) }
{
    match fault_line(alloc, number, wrong) {
        Ok(line) => say(output, &line, 14),
        Err(Memory) => 6,
    }
}

/// Tells what an audit says, and gives the status.
fn tell_audit<K: Sink>(alloc: Global, audit: Audit, output: &mut K) -> u8
    ensures judged { (text : JournalText) → IsVerdict text audit.verdict → audit.entries ≡ length text.lines → IsJudged K.held text result output.old output.new }
    ensures cause { result ≡ 4 → Rose (K.write_faults output.old) (K.write_faults output.new) }
{
    match audit.verdict {
        Verdict::Legal => return tell_legal(alloc, audit.entries, output),
        Verdict::Bad { line, fault } => return tell_fault(alloc, line, fault, output),
    }
}

/// Tells whether the journal that the whole input is is legal, or tells its first bad line, and gives the status.
fn audit<S: Source, K: Sink, F: Folder, N: Listener, D: Dialer, C: Clock, G: Log>(
    alloc: Global,
    outside: &mut Outside<S, K, F, N, D, C, G>,
) -> u8
    ensures takes { TakesJournal ⟦<Outside<S, K, F, N, D, C, G> as Meant<S, K, F, N, D, C, G, N::Link>>⟧.meanings (IsJudged K.held) result outside.old outside.new }
    ensures notes { outside.new.notes ≡ outside.old.notes }
{
    match audit_input(alloc, &mut outside.input) {
        Ok(audit) => return tell_audit(alloc, audit, &mut outside.output),
        Err(InputFault::Text(JournalFault::TooLong)) => return 13,
        Err(InputFault::Text(JournalFault::BadLine { line })) => {
            return refuse_script(alloc, &mut outside.output, line);
        }
        Err(InputFault::Text(JournalFault::Memory)) => return 6,
        Err(InputFault::Read) => return 3,
    }
}

/// Reads a journal of either form from the input, and tells whether a host that keeps the rules may have
/// written it, or which is its first line that none may have written. The lines are judged as they come, and
/// none is kept.
pub fn run_audit<S: Source, K: Sink, F: Folder, N: Listener, D: Dialer, C: Clock, G: Log>(
    alloc: Global,
    words: &[String],
    outside: &mut Outside<S, K, F, N, D, C, G>,
) -> u8
    requires { IsRow (map string_bytes words.now) Command.Audit }
    ensures { AuditEnds ⟦<Outside<S, K, F, N, D, C, G> as Meant<S, K, F, N, D, C, G, N::Link>>⟧.meanings result outside.old outside.new }
{
    let _words = words;
    let status = audit(alloc, outside);
    note_upgrade(&mut outside.notes, status);
    status
}
