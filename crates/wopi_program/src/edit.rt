//! The command `edit`: the script that the input is, run over a sheet at a host.
ghost use Rattle.std.specs.Prelude.{◌≡◌, ◌≢◌, ◌⊎◌, ◌<◌, ◌≤◌, Err, List, length, Option, ℕ, [], map, string_bytes, IfOk};
ghost use Rattle.std.specs.Io.KnownBytes.{Appends};
ghost use Rattle.outside.specs.Faults.{Rose};
ghost use Rattle.line_text.specs.Inputs.{HasRead};
ghost use Rattle.grid_editor.specs.Inputs.{IsUndecided};
ghost use Rattle.wopi_program.specs.Words.{IsRow};
ghost use Rattle.wopi_program.specs.Edit.{EditEnds, Edits, HasRun, IsNewEditor, NotesForEdit, Tells, bad_line, last_line, status_of};

use crate::edit_words::edit_words;
use crate::telling::want;
use crate::{Command, Meant, Outside, note};
use grid_editor::{EditFault, Editor, Script, ScriptFault, Went, read_script};
use itoa::Buffer;
use line_text::InputFault;
use outside::{Clock, Dialer, Failed, Folder, Listener, Log, Sink, Source, write_whole};
use save_session::{Nonce, Outcome};
use std::alloc::Global;
use wopi_client::Desktop;
use wopi_text::{Bytes, FileName, Memory};

/// The status of how a script ended.
fn status_of(ended: &Result<Went, EditFault>) -> u8
    ensures { result ≡ status_of ended.now }
{
    match ended {
        Ok(Went::On) => 0,
        Ok(Went::Ended(Outcome::NoAnswer)) => 9,
        Ok(Went::Ended(_)) => 8,
        Err(EditFault::BadReply { .. }) => 11,
        Err(EditFault::WriteFault) => 4,
        Err(EditFault::Memory) => 6,
    }
}

/// The editor of the words.
fn editor_of(
    alloc: Global,
    authority: &str,
    file: FileName,
    token: &str,
    nonce: Nonce,
) -> Result<Editor, Memory>
    ensures { IfOk result (λ editor. IsNewEditor editor (record { authority = authority.now; file = file; token = token.now; nonce = nonce })) }
{
    let token = Bytes::from_slice(alloc, token.as_bytes())?;
    let authority = String::from_str(alloc, authority)?;
    let desktop = Desktop::new(file, token, authority);
    Editor::new(alloc, desktop, nonce)
}

/// The line that a bad reply adds to those of the script.
fn bad_reply_line(alloc: Global, at: usize) -> Result<Vec<u8>, Memory>
    ensures { IfOk result (λ line. line.items ≡ last_line (Err (EditFault.BadReply at))) }
{
    let mut digits = Buffer::new();
    let mut line = b"bad reply ".to_vec(alloc)?;
    line.extend_from_slice(digits.format(at).as_bytes())?;
    line.extend_from_slice(b"\n")?;
    Ok(line)
}

/// The line of a script's first bad line.
fn bad_line(alloc: Global, number: u64) -> Result<Vec<u8>, Memory>
    ensures { IfOk result (λ line. line.items ≡ bad_line number) }
{
    let mut digits = Buffer::new();
    let mut line = b"line ".to_vec(alloc)?;
    line.extend_from_slice(digits.format(number).as_bytes())?;
    line.extend_from_slice(b": bad line\n")?;
    Ok(line)
}

/// Writes a last line, and gives the status: the one that is wanted, or 4 where the write failed.
#[tactic(auto, using(crate::proofs::EditLemmas::tells_whole, crate::proofs::EditLemmas::tells_cut))]
pub(crate) fn say<K: Sink>(output: &mut K, line: &[u8], wanted: u8) -> u8
    requires { 0 < length line.now }
    ensures tells { (lines : List ℕ) (start : Option (List ℕ)) → Appends start (K.held output.old) lines → Tells start (K.held output.new) result wanted lines line.now }
    ensures never_falls { K.write_faults output.old ≤ K.write_faults output.new }
    ensures cause { result ≡ 4 → (wanted ≡ 4) ⊎ Rose (K.write_faults output.old) (K.write_faults output.new) }
{
    match write_whole(output, line) {
        Ok(()) => wanted,
        Err(Failed) => 4,
    }
}

/// Adds the line of a bad reply, where one ended the script, and gives the status.
#[tactic(auto, using(crate::proofs::EditLemmas::tells_no_last, crate::proofs::EditLemmas::tells_wanting, crate::proofs::EditLemmas::some_last, crate::proofs::EditLemmas::four_is_a_failed_write))]
fn finish<K: Sink>(alloc: Global, output: &mut K, ended: &Result<Went, EditFault>) -> u8
    ensures tells { (lines : List ℕ) (start : Option (List ℕ)) → Appends start (K.held output.old) lines
        → Tells start (K.held output.new) result (status_of ended.now) lines (last_line ended.now) }
    ensures never_falls { K.write_faults output.old ≤ K.write_faults output.new }
    ensures cause { result ≡ 4 → (ended.now ≡ Err EditFault.WriteFault) ⊎ Rose (K.write_faults output.old) (K.write_faults output.new) }
{
    match ended {
        Err(EditFault::BadReply { at }) => match bad_reply_line(alloc, *at) {
            Ok(line) => return say(output, &line, 11),
            Err(Memory) => return 6,
        },
        Err(EditFault::WriteFault) => return 4,
        Err(EditFault::Memory) => return 6,
        Ok(_) => return status_of(ended),
    }
}

/// Runs the script, and gives the status.
fn run_script<S: Source, K: Sink, F: Folder, N: Listener, D: Dialer, C: Clock, G: Log>(
    alloc: Global,
    mut editor: Editor,
    script: &Script,
    outside: &mut Outside<S, K, F, N, D, C, G>,
) -> u8
    ensures ran { HasRun ⟦<Outside<S, K, F, N, D, C, G> as Meant<S, K, F, N, D, C, G, N::Link>>⟧.meanings editor script.now result outside.old outside.new }
    ensures cause { result ≡ 4 → Rose (K.write_faults outside.old.output) (K.write_faults outside.new.output) }
    ensures others { outside.new ≡ record outside.old { output = outside.new.output; dialer = outside.new.dialer } }
{
    let ended = editor.run(&mut outside.dialer, &mut outside.output, script);
    finish(alloc, &mut outside.output, &ended)
}

/// Tells of a script's first bad line, and gives the status.
#[tactic(auto, using(crate::proofs::EditLemmas::tells_wanting, crate::proofs::EditLemmas::some_bad_line))]
pub(crate) fn refuse_script<K: Sink>(alloc: Global, output: &mut K, number: u64) -> u8
    ensures told { Tells (K.held output.old) (K.held output.new) result 7 [] (bad_line number) }
    ensures cause { result ≡ 4 → Rose (K.write_faults output.old) (K.write_faults output.new) }
{
    match bad_line(alloc, number) {
        Ok(line) => say(output, &line, 7),
        Err(Memory) => 6,
    }
}

/// Runs the script that the input is, and gives the status.
fn edit<S: Source, K: Sink, F: Folder, N: Listener, D: Dialer, C: Clock, G: Log>(
    alloc: Global,
    editor: Editor,
    outside: &mut Outside<S, K, F, N, D, C, G>,
) -> u8
    ensures edits { Edits ⟦<Outside<S, K, F, N, D, C, G> as Meant<S, K, F, N, D, C, G, N::Link>>⟧.meanings editor result outside.old outside.new }
    ensures read_cause { result ≡ 3 → Rose (S.read_faults outside.old.input) (S.read_faults outside.new.input) }
    ensures read_cut { result ≡ 3 → HasRead (S.left outside.old.input) (S.left outside.new.input) IsUndecided }
    ensures read_fine { result ≢ 3 → S.read_faults outside.new.input ≡ S.read_faults outside.old.input }
    ensures write_cause { result ≡ 4 → Rose (K.write_faults outside.old.output) (K.write_faults outside.new.output) }
    ensures others { outside.new ≡ record outside.old { input = outside.new.input; output = outside.new.output; dialer = outside.new.dialer } }
{
    match read_script(alloc, &mut outside.input) {
        Ok(script) => return run_script(alloc, editor, &script, outside),
        Err(InputFault::Text(ScriptFault::BadCommand { line })) => {
            return refuse_script(alloc, &mut outside.output, line);
        }
        Err(InputFault::Text(ScriptFault::Memory)) => return 6,
        Err(InputFault::Read) => return 3,
    }
}

/// Says on the notes why a run ended otherwise than well, where the output doesn't say it.
pub(crate) fn note_edit<K: Sink>(notes: &mut K, status: u8)
    ensures { NotesForEdit K.held K.write_faults status notes.old notes.new }
{
    if status == 3 {
        note(notes, b"read fault\n");
    } else if status == 4 {
        note(notes, b"write fault\n");
    } else if status == 6 {
        note(notes, b"out of memory\n");
    }
}

/// Runs the script that the input is over a sheet at the host of the words.
pub fn run_edit<S: Source, K: Sink, F: Folder, N: Listener, D: Dialer, C: Clock, G: Log>(
    alloc: Global,
    words: &[String],
    outside: &mut Outside<S, K, F, N, D, C, G>,
) -> u8
    requires { IsRow (map string_bytes words.now) Command.Edit }
    ensures { EditEnds ⟦<Outside<S, K, F, N, D, C, G> as Meant<S, K, F, N, D, C, G, N::Link>>⟧.meanings (map string_bytes words.now) result outside.old outside.new }
{
    let Some(ask) = edit_words(words) else {
        unreachable!()
    };
    let Ok(editor) = editor_of(alloc, ask.authority, ask.file, ask.token, ask.nonce) else {
        return want(outside);
    };
    let status = edit(alloc, editor, outside);
    note_edit(&mut outside.notes, status);
    status
}
