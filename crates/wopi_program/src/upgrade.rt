//! The command `upgrade`: the journal that the input is, in the second form.
ghost use Rattle.std.specs.Prelude.{◌≡◌, ◌≢◌, ◌≤◌, ℕ, [], length, map, string_bytes};
ghost use Rattle.outside.specs.Faults.{Rose};
ghost use Rattle.line_text.specs.Inputs.{HasRead};
ghost use Rattle.journal_text.specs.Inputs.{AreFew};
ghost use Rattle.journal_text.specs.declared.journal.JournalFault.TheVariants.{BadLine, Memory, TooLong};
ghost use Rattle.journal_text.specs.Journals.{most_bytes};
ghost use Rattle.wopi_program.specs.Edit.{Tells, bad_line};
ghost use Rattle.wopi_program.specs.Upgrade.{NotesForUpgrade, Rewrites, UpgradeEnds, Upgrades};
ghost use Rattle.wopi_program.specs.Words.{IsRow};

use crate::edit::{note_edit, refuse_script};
use crate::{Command, Meant, Outside, note};
use journal_text::{JournalFault, RewriteFault, SizeFault, read_bytes, rewrite};
use line_text::InputFault;
use outside::{Clock, Dialer, Folder, Listener, Log, Sink, Source};
use std::alloc::Global;

/// Writes the journal that the bytes are in the second form, or tells its first bad line, and gives the status.
fn upgrade_bytes<K: Sink>(alloc: Global, bytes: &[u8], output: &mut K) -> u8
    requires { length bytes.now ≤ most_bytes }
    ensures rewrites { Rewrites K.held bytes.now result output.old output.new }
    ensures cause { result ≡ 4 → Rose (K.write_faults output.old) (K.write_faults output.new) }
{
    match rewrite(alloc, output, bytes) {
        Ok(()) => return 0,
        Err(RewriteFault::Write) => return 4,
        Err(RewriteFault::Journal(fault)) => return refuse_journal(alloc, fault, output),
    }
}

/// Tells the first bad line of a journal, or wants memory, and gives the status.
fn refuse_journal<K: Sink>(alloc: Global, fault: JournalFault, output: &mut K) -> u8
    requires { fault ≡ TooLong → ⊥ }
    ensures bad { (line : ℕ) → fault ≡ BadLine line → Tells (K.held output.old) (K.held output.new) result 7 [] (bad_line line) }
    ensures memory { fault ≡ Memory → (result ≡ 6) × (output.new ≡ output.old) }
    ensures cause { result ≡ 4 → Rose (K.write_faults output.old) (K.write_faults output.new) }
{
    match fault {
        JournalFault::TooLong => unreachable!(),
        JournalFault::BadLine { line } => return refuse_script(alloc, output, line),
        JournalFault::Memory => return 6,
    }
}

/// Writes the journal that the whole input is in the second form, or tells its first bad line, and gives the status.
fn upgrade<S: Source, K: Sink, F: Folder, N: Listener, D: Dialer, C: Clock, G: Log>(
    alloc: Global,
    outside: &mut Outside<S, K, F, N, D, C, G>,
) -> u8
    ensures upgrades { Upgrades ⟦<Outside<S, K, F, N, D, C, G> as Meant<S, K, F, N, D, C, G, N::Link>>⟧.meanings result outside.old outside.new }
    ensures read_cause { result ≡ 3 → Rose (S.read_faults outside.old.input) (S.read_faults outside.new.input) }
    ensures read_cut { result ≡ 3 → HasRead (S.left outside.old.input) (S.left outside.new.input) AreFew }
    ensures read_fine { result ≢ 3 → S.read_faults outside.new.input ≡ S.read_faults outside.old.input }
    ensures write_cause { result ≡ 4 → Rose (K.write_faults outside.old.output) (K.write_faults outside.new.output) }
    ensures others { outside.new ≡ record outside.old { input = outside.new.input; output = outside.new.output } }
{
    match read_bytes(alloc, &mut outside.input) {
        Ok(bytes) => return upgrade_bytes(alloc, &bytes, &mut outside.output),
        Err(InputFault::Text(SizeFault::TooLong)) => return 13,
        Err(InputFault::Text(SizeFault::Memory)) => return 6,
        Err(InputFault::Read) => return 3,
    }
}

/// Says on the notes why a run ended otherwise than well, where the output doesn't say it.
pub(crate) fn note_upgrade<K: Sink>(notes: &mut K, status: u8)
    ensures { NotesForUpgrade K.held K.write_faults status notes.old notes.new }
{
    if status == 13 {
        note(notes, b"journal too long\n");
    } else {
        note_edit(notes, status);
    }
}

/// Reads a journal of either form from the input, and writes it in the second form. Nothing is written before
/// the whole input was read, and found to be a journal: so its bytes are kept, which is most of the memory that
/// this takes. They are read line by line, and no entry is kept.
pub fn run_upgrade<S: Source, K: Sink, F: Folder, N: Listener, D: Dialer, C: Clock, G: Log>(
    alloc: Global,
    words: &[String],
    outside: &mut Outside<S, K, F, N, D, C, G>,
) -> u8
    requires { IsRow (map string_bytes words.now) Command.Upgrade }
    ensures { UpgradeEnds ⟦<Outside<S, K, F, N, D, C, G> as Meant<S, K, F, N, D, C, G, N::Link>>⟧.meanings result outside.old outside.new }
{
    let _words = words;
    let status = upgrade(alloc, outside);
    note_upgrade(&mut outside.notes, status);
    status
}
