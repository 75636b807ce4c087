//! The command `contents`: what a file had at a version, of the journal that the input is.
ghost use Rattle.std.specs.Prelude.{◌≡◌, ℕ, List, map, string_bytes};
ghost use Rattle.outside.specs.Faults.{Rose};
ghost use Rattle.journal_text.specs.declared.text.JournalText.{JournalText};
ghost use Rattle.journal_audit.specs.Streams.{IsFound};
ghost use Rattle.wopi_program.specs.Contents.{ContentsEnds, IsLookedUp, NotesForContents};
ghost use Rattle.wopi_program.specs.JournalRuns.{TakesJournal};
ghost use Rattle.wopi_program.specs.Words.{IsRow};

use crate::contents_words::contents_words;
use crate::edit::refuse_script;
use crate::telling::say;
use crate::upgrade::note_upgrade;
use crate::{Command, Meant, Outside, note};
use journal_audit::read_contents;
use journal_text::JournalFault;
use line_text::InputFault;
use outside::{Clock, Dialer, Folder, Listener, Log, Sink, Source};
use std::alloc::Global;
use wopi_text::{Bytes, FileName};

/// Writes the contents that were found, and gives the status.
fn give_out<K: Sink>(found: Option<Bytes>, output: &mut K) -> u8
    ensures found { (name : List ℕ) (version : ℕ) (text : JournalText) → IsFound name version text found → IsLookedUp K.held name version text result output.old output.new }
    ensures cause { result ≡ 4 → Rose (K.write_faults output.old) (K.write_faults output.new) }
{
    match found {
        Some(contents) => return say(output, contents.as_slice()),
        None => return 15,
    }
}

/// Writes the contents that a file had at a version of the journal that the whole input is, or tells its first
/// bad line, and gives the status.
fn look_up<S: Source, K: Sink, F: Folder, N: Listener, D: Dialer, C: Clock, G: Log>(
    alloc: Global,
    name: &FileName,
    version: u64,
    outside: &mut Outside<S, K, F, N, D, C, G>,
) -> u8
    ensures takes { TakesJournal ⟦<Outside<S, K, F, N, D, C, G> as Meant<S, K, F, N, D, C, G, N::Link>>⟧.meanings (IsLookedUp K.held name.now version) result outside.old outside.new }
    ensures notes { outside.new.notes ≡ outside.old.notes }
{
    match read_contents(alloc, &mut outside.input, name, version) {
        Ok(found) => return give_out(found, &mut outside.output),
        Err(InputFault::Text(JournalFault::TooLong)) => return 13,
        Err(InputFault::Text(JournalFault::BadLine { line })) => {
            return refuse_script(alloc, &mut outside.output, line);
        }
        Err(InputFault::Text(JournalFault::Memory)) => return 6,
        Err(InputFault::Read) => return 3,
    }
}

/// Says on the notes why nothing was written, where the output doesn't say it.
fn note_contents<K: Sink>(notes: &mut K, status: u8)
    ensures { NotesForContents K.held K.write_faults status notes.old notes.new }
{
    if status == 15 {
        note(notes, b"no such version\n");
    } else {
        note_upgrade(notes, status);
    }
}

/// Reads a journal of either form from the input, and writes the contents that the words' file had at the
/// words' version. Nothing is written before the whole input was read, and found to be a journal. Of its lines
/// these contents alone are kept.
pub fn run_contents<S: Source, K: Sink, F: Folder, N: Listener, D: Dialer, C: Clock, G: Log>(
    alloc: Global,
    words: &[String],
    outside: &mut Outside<S, K, F, N, D, C, G>,
) -> u8
    requires { IsRow (map string_bytes words.now) Command.Contents }
    ensures { ContentsEnds ⟦<Outside<S, K, F, N, D, C, G> as Meant<S, K, F, N, D, C, G, N::Link>>⟧.meanings (map string_bytes words.now) result outside.old outside.new }
{
    let Some((name, version)) = contents_words(words) else {
        unreachable!()
    };
    let status = look_up(alloc, &name, version, outside);
    note_contents(&mut outside.notes, status);
    status
}
