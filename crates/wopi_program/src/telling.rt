//! What commands that only write a text have in common, two of them, and words that are no command.
ghost use Rattle.std.specs.Prelude.{◌≡◌, ◌⊎◌};
ghost use Rattle.std.specs.Io.KnownBytes.{Appends};
ghost use Rattle.outside.specs.Faults.{Rose};
ghost use Rattle.outside.specs.Stream.{GrewByPrefix};
ghost use Rattle.wopi_program.specs.Notes.{NotesFor};
ghost use Rattle.wopi_program.specs.Telling.{TextEnds, UsageEnds, Wants, help_text, version_text};

use crate::{Meant, Outside, note};
use outside::{Clock, Dialer, Failed, Folder, Listener, Log, Sink, Source, write_whole};

/// Writes a text to the output, and gives the status.
pub(crate) fn say<K: Sink>(output: &mut K, text: &[u8]) -> u8
    ensures statuses { (result ≡ 0) ⊎ (result ≡ 4) }
    ensures done { result ≡ 0 → Appends (K.held output.old) (K.held output.new) text.now }
    ensures cut { result ≡ 4 → GrewByPrefix (K.held output.old) (K.held output.new) text.now }
    ensures cause { result ≡ 4 → Rose (K.write_faults output.old) (K.write_faults output.new) }
{
    match write_whole(output, text) {
        Ok(()) => 0,
        Err(Failed) => 4,
    }
}

/// Says on the notes that a write failed, where one did.
fn note_status<K: Sink>(notes: &mut K, status: u8)
    requires { (status ≡ 0) ⊎ (status ≡ 4) }
    ensures { NotesFor K.held K.write_faults status notes.old notes.new }
{
    if status == 4 {
        note(notes, b"write fault\n");
    }
}

/// Writes a text to the output.
pub fn tell<S: Source, K: Sink, F: Folder, N: Listener, D: Dialer, C: Clock, G: Log>(
    outside: &mut Outside<S, K, F, N, D, C, G>,
    text: &[u8],
) -> u8
    ensures { TextEnds ⟦<Outside<S, K, F, N, D, C, G> as Meant<S, K, F, N, D, C, G, N::Link>>⟧.meanings text.now result outside.old outside.new }
{
    let status = say(&mut outside.output, text);
    note_status(&mut outside.notes, status);
    status
}

/// Says that there was no memory to begin.
pub(crate) fn want<S: Source, K: Sink, F: Folder, N: Listener, D: Dialer, C: Clock, G: Log>(
    outside: &mut Outside<S, K, F, N, D, C, G>,
) -> u8
    ensures { Wants ⟦<Outside<S, K, F, N, D, C, G> as Meant<S, K, F, N, D, C, G, N::Link>>⟧.meanings result outside.old outside.new }
{
    note(&mut outside.notes, b"out of memory\n");
    6
}

/// The words that the program knows.
#[tactic(auto, unfolding(crate::specs::Telling::help_text))]
pub fn help() -> &'static [u8]
    ensures { result.now ≡ help_text }
{
    b"mokdrai once FOLDER KEY BASE [--editor [--origin ORIGIN]]\n    answers the requests of the input on the output\nmokdrai serve FOLDER PORT KEY BASE WORKERS [--journal J] [--each C] [--first V]\n    answers the requests of many connections, and then writes the journal on the output\nmokdrai serve .. [--links N] [--listen ADDRESS] [--idle S] [--patience S] [--grace S] [--verbose] [--editor [--origin ORIGIN]]\n    serves N connections at a time, at that address, with these limits in seconds\nmokdrai serve .. --keep LOGS [--ids I] [--sync all]\n    appends each entry to a log of its shard in that folder, and writes no journal\nmokdrai edit AUTHORITY ID TOKEN NONCE\n    runs the script of the input over a sheet at a host\nmokdrai edit AUTHORITY --file NAME TOKEN [--nonce NONCE] [--idle S]\n    does the same, with the name of the file and a nonce of its own\nmokdrai replay\n    runs the schedule of the input, and writes its trace on the output\nmokdrai replay SEED COUNT\n    runs a schedule that is made from two numbers, and writes its summary on the output\nmokdrai token KEY USER NAME RIGHTS SERIAL ISSUED EXPIRES\n    writes the text of an access token\nmokdrai token KEY --file NAME --user USER --for TIME [--write]\n    writes one that is issued now, and lasts for a time such as 10h\nmokdrai ctoken KEY USER RIGHTS SERIAL ISSUED EXPIRES\n    writes the text of a token of the container\nmokdrai ctoken KEY --user USER --for TIME [--write]\n    writes one that is issued now, and lasts for that time\nmokdrai upgrade\n    reads a journal from the input, and writes it in the second form on the output\nmokdrai audit\n    reads a journal from the input, and says whether it is legal, or its first line that isn't\nmokdrai contents ID VERSION\n    reads a journal from the input, and writes what the file had at that version on the output\nmokdrai --help\n    writes these lines\nmokdrai --version\n    writes the version\nKEY, and TOKEN of edit, may be @PATH: a file that only its owner may read\n"
}

/// The program's name and version.
#[tactic(auto, unfolding(crate::specs::Telling::version_text))]
pub fn version() -> &'static [u8]
    ensures { result.now ≡ version_text }
{
    b"mokdrai 0.1.0\n"
}

/// Says that the words are no command.
pub fn refuse<S: Source, K: Sink, F: Folder, N: Listener, D: Dialer, C: Clock, G: Log>(
    outside: &mut Outside<S, K, F, N, D, C, G>,
) -> u8
    ensures { UsageEnds ⟦<Outside<S, K, F, N, D, C, G> as Meant<S, K, F, N, D, C, G, N::Link>>⟧.meanings result outside.old outside.new }
{
    note(&mut outside.notes, b"usage\n");
    2
}
