//! The command `once`: one connection over the input and the output, and one shard over the folder.
ghost use Rattle.std.specs.Prelude.{◌≡◌, ◌≢◌, length, map, string_bytes, true, IfOk, IfSome, None};
ghost use Rattle.outside.specs.Faults.{Rose};
ghost use Rattle.host_core.specs.Single.{sight_of, SeesItsOwn};
ghost use Rattle.access_tokens.specs.Addresses.{is_base};
ghost use Rattle.access_tokens.specs.Origins.{IsOrigin};
ghost use Rattle.host_server.specs.Connection.{Serves};
ghost use Rattle.wopi_program.specs.Words.{IsRow};
ghost use Rattle.wopi_program.specs.Notes.{NotesFor};
ghost use Rattle.wopi_program.specs.Once.{OnceEnds, ServesShard, OnceRuns, OnceRunsIn, Untouched, end_of, Finishes, TooLargeEnds, too_large_line, over_folder, status_of};

use crate::editor_words::origin_from;
use crate::once_words::once_words;
use crate::telling::want;
use crate::{Command, Meant, Outside, note};
use access_tokens::Keys;
use host_core::{Kept, Shard, Single, StartFault, leave};
use host_server::{ConnEnd, Desk, serve_connection};
use host_table::free;
use outside::{Clock, Dialer, Folder, Lent, Listener, Log, Sink, Source};
use std::alloc::Global;
use wopi_text::{Bytes, FileName, Memory, id_text};

/// The most entries of the shard.
const CAPACITY: u32 = 4096;

/// How a run of `once` ended.
#[derive(Drop)]
pub enum OnceEnd {
    /// A connection was served, and ended so.
    Served(ConnEnd),
    /// The folder failed when it was opened.
    FolderFault,
    /// The folder has more than a shard keeps: the first file that passes a limit.
    TooLarge(FileName),
    Memory,
}

/// Serves the connection whose two directions are the source and the sink.
fn serve<S: Source, K: Sink, F: Folder, C: Clock>(
    alloc: Global,
    desk: &Desk,
    single: &mut Single<Kept<F>>,
    source: &mut S,
    sink: &mut K,
    clock: &mut C,
) -> ConnEnd
    ensures serves { Serves desk.now SeesItsOwn result (S.left source.old) (S.left source.new) (C.moments clock.old) (C.moments clock.new)
        (sight_of single.old.shard) (sight_of single.new.shard) (K.held sink.old) (K.held sink.new) }
    ensures kept { result ≢ ConnEnd.Lost }
    ensures fine { result ≢ ConnEnd.ReadFault → S.read_faults source.new ≡ S.read_faults source.old }
    ensures start { single.new.shard.start ≡ single.old.shard.start }
    ensures read_fault { result ≡ ConnEnd.ReadFault → Rose (S.read_faults source.old) (S.read_faults source.new) }
    ensures write_fault { result ≡ ConnEnd.WriteFault → Rose (K.write_faults sink.old) (K.write_faults sink.new) }
    ensures nothing_read { result ≡ ConnEnd.Memory → S.left source.new ≡ S.left source.old }
{
    let mut link = Lent::new(source, sink);
    serve_connection(alloc, single, desk, &mut link, clock)
}

/// Serves the connection over a shard, and gives the shard's folder back.
fn serve_over<S: Source, K: Sink, F: Folder, N: Listener, D: Dialer, C: Clock, G: Log>(
    alloc: Global,
    desk: &Desk,
    shard: Shard<Kept<F>>,
    clock: &mut C,
    outside: &mut Outside<S, K, F, N, D, C, G>,
) -> (F, ConnEnd)
    requires { shard.only ≡ None }
    ensures serves { ServesShard ⟦<Outside<S, K, F, N, D, C, G> as Meant<S, K, F, N, D, C, G, N::Link>>⟧.meanings desk.now result.1 (over_folder shard) result.0 clock.old clock.new outside.old outside.new }
    ensures others { outside.new ≡ record outside.old { input = outside.new.input; output = outside.new.output } }
    ensures fine { result.1 ≢ ConnEnd.ReadFault → S.read_faults outside.new.input ≡ S.read_faults outside.old.input }
    ensures read_fault { result.1 ≡ ConnEnd.ReadFault → Rose (S.read_faults outside.old.input) (S.read_faults outside.new.input) }
    ensures write_fault { result.1 ≡ ConnEnd.WriteFault → Rose (K.write_faults outside.old.output) (K.write_faults outside.new.output) }
    ensures nothing_read { result.1 ≡ ConnEnd.Memory → S.left outside.new.input ≡ S.left outside.old.input }
{
    let mut single = Single::new(shard);
    let end = serve(
        alloc,
        desk,
        &mut single,
        &mut outside.input,
        &mut outside.output,
        clock,
    );
    let shard = single.end();
    let (folder, _past) = leave(shard);
    (folder, end)
}

/// How a run ends where no shard was opened.
fn end_of(fault: StartFault) -> OnceEnd
    ensures { result ≡ end_of fault }
{
    match fault {
        StartFault::FolderFault => OnceEnd::FolderFault,
        StartFault::TooLarge { name } => OnceEnd::TooLarge(name),
        StartFault::Memory => OnceEnd::Memory,
    }
}

/// Opens a shard over the folder at the clock's first moment, and serves the connection over it.
fn once_over<S: Source, K: Sink, F: Folder, N: Listener, D: Dialer, C: Clock, G: Log>(
    alloc: Global,
    keys: Keys,
    base: Bytes,
    editor: bool,
    origin: Option<Bytes>,
    folder: F,
    clock: &mut C,
    outside: &mut Outside<S, K, F, N, D, C, G>,
) -> (F, OnceEnd)
    requires base { is_base base ≡ true }
    requires page { IfSome origin IsOrigin }
    ensures runs { OnceRuns ⟦<Outside<S, K, F, N, D, C, G> as Meant<S, K, F, N, D, C, G, N::Link>>⟧.meanings keys base editor origin result.1 folder result.0 clock.old clock.new outside.old outside.new }
    ensures others { outside.new ≡ record outside.old { input = outside.new.input; output = outside.new.output } }
    ensures untouched { Untouched result.1 outside.old outside.new }
    ensures fine { result.1 ≢ OnceEnd.Served ConnEnd.ReadFault → S.read_faults outside.new.input ≡ S.read_faults outside.old.input }
    ensures read_fault { result.1 ≡ OnceEnd.Served ConnEnd.ReadFault → Rose (S.read_faults outside.old.input) (S.read_faults outside.new.input) }
    ensures write_fault { result.1 ≡ OnceEnd.Served ConnEnd.WriteFault → Rose (K.write_faults outside.old.output) (K.write_faults outside.new.output) }
    ensures nothing_read { result.1 ≡ OnceEnd.Served ConnEnd.Memory → S.left outside.new.input ≡ S.left outside.old.input }
{
    let opened = clock.now();
    let desk = Desk::serving(keys, base, opened, editor, origin);
    let store = Kept::new(alloc, folder);
    match Shard::start(alloc, store, None, CAPACITY, opened, 1) {
        Ok(shard) => {
            let (folder, end) = serve_over(alloc, &desk, shard, clock, outside);
            (folder, OnceEnd::Served(end))
        }
        Err(refused) => {
            let (store, fault) = refused;
            (free(store), end_of(fault))
        }
    }
}

/// The same with the one folder and the one clock in their lists.
fn once_in<S: Source, K: Sink, F: Folder, N: Listener, D: Dialer, C: Clock, G: Log>(
    alloc: Global,
    keys: Keys,
    base: Bytes,
    editor: bool,
    origin: Option<Bytes>,
    outside: &mut Outside<S, K, F, N, D, C, G>,
) -> OnceEnd
    requires base { is_base base ≡ true }
    requires page { IfSome origin IsOrigin }
    requires folders { length outside.old.folders.items ≡ 1 }
    requires clocks { length outside.old.clocks.items ≡ 1 }
    ensures runs { OnceRunsIn ⟦<Outside<S, K, F, N, D, C, G> as Meant<S, K, F, N, D, C, G, N::Link>>⟧.meanings keys base editor origin result outside.old outside.new }
    ensures others { outside.new
        ≡ record outside.old { input = outside.new.input; output = outside.new.output; folders = outside.new.folders; clocks = outside.new.clocks } }
    ensures untouched { Untouched result outside.old outside.new }
    ensures fine { result ≢ OnceEnd.Served ConnEnd.ReadFault → S.read_faults outside.new.input ≡ S.read_faults outside.old.input }
    ensures read_fault { result ≡ OnceEnd.Served ConnEnd.ReadFault → Rose (S.read_faults outside.old.input) (S.read_faults outside.new.input) }
    ensures write_fault { result ≡ OnceEnd.Served ConnEnd.WriteFault → Rose (K.write_faults outside.old.output) (K.write_faults outside.new.output) }
    ensures nothing_read { result ≡ OnceEnd.Served ConnEnd.Memory → S.left outside.new.input ≡ S.left outside.old.input }
{
    let Some(folder) = outside.folders.pop() else {
        unreachable!()
    };
    let Some(mut clock) = outside.clocks.pop() else {
        unreachable!()
    };
    let (folder, end) = once_over(
        alloc, keys, base, editor, origin, folder, &mut clock, outside,
    );
    outside.folders.push_reserved(folder);
    outside.clocks.push_reserved(clock);
    end
}

/// The line that tells of a folder that is too large.
#[tactic(auto, unfolding(crate::specs::Once::too_large_line))]
fn too_large_line(alloc: Global, name: &FileName) -> Result<Vec<u8>, Memory>
    ensures { IfOk result (λ line. line.items ≡ too_large_line name.now) }
{
    let id = id_text(alloc, name)?;
    let mut line = Vec::new(alloc);
    line.extend_from_slice(b"folder too large ")?;
    line.extend_from_slice(id.as_slice())?;
    line.extend_from_slice(b"\n")?;
    Ok(line)
}

/// Tells of a folder that is too large, where there is memory for the line.
pub(crate) fn finish_too_large<K: Sink>(alloc: Global, notes: &mut K, name: &FileName) -> u8
    ensures { TooLargeEnds K.held K.write_faults result notes.old notes.new name.now }
{
    match too_large_line(alloc, name) {
        Ok(line) => {
            note(notes, &line);
            12
        }
        Err(Memory) => {
            note(notes, b"out of memory\n");
            6
        }
    }
}

/// Says how a connection ended, and gives the status.
fn finish_served<K: Sink>(notes: &mut K, end: ConnEnd) -> u8
    ensures status { result ≡ status_of end }
    ensures notes { NotesFor K.held K.write_faults result notes.old notes.new }
{
    match end {
        ConnEnd::Done => 0,
        ConnEnd::ReadFault => {
            note(notes, b"read fault\n");
            3
        }
        ConnEnd::WriteFault => {
            note(notes, b"write fault\n");
            4
        }
        ConnEnd::Lost => {
            note(notes, b"journal fault\n");
            16
        }
        ConnEnd::Memory => {
            note(notes, b"out of memory\n");
            6
        }
    }
}

/// Says how the run ended, and gives the status.
fn finish<K: Sink>(alloc: Global, notes: &mut K, end: &OnceEnd) -> u8
    ensures { Finishes K.held K.write_faults result notes.old notes.new end.now }
{
    match end {
        OnceEnd::Served(end) => finish_served(notes, *end),
        OnceEnd::FolderFault => {
            note(notes, b"folder fault\n");
            5
        }
        OnceEnd::TooLarge(name) => finish_too_large(alloc, notes, name),
        OnceEnd::Memory => {
            note(notes, b"out of memory\n");
            6
        }
    }
}

/// Answers the requests of the input on the output, in their order, by calls on one shard over the
/// folder.
pub fn run_once<S: Source, K: Sink, F: Folder, N: Listener, D: Dialer, C: Clock, G: Log>(
    alloc: Global,
    words: &[String],
    outside: &mut Outside<S, K, F, N, D, C, G>,
) -> u8
    requires words { IsRow (map string_bytes words.now) Command.Once }
    requires folders { length outside.old.folders.items ≡ 1 }
    requires clocks { length outside.old.clocks.items ≡ 1 }

    ensures { OnceEnds ⟦<Outside<S, K, F, N, D, C, G> as Meant<S, K, F, N, D, C, G, N::Link>>⟧.meanings (map string_bytes words.now) result outside.old outside.new }
{
    let Some((keys, base, editor)) = once_words(words) else {
        unreachable!()
    };
    let Ok(base) = Bytes::from_slice(alloc, base.as_bytes()) else {
        return want(outside);
    };
    let Ok(origin) = origin_from(alloc, words, 4) else {
        return want(outside);
    };
    let end = once_in(alloc, keys, base, editor, origin, outside);
    finish(alloc, &mut outside.notes, &end)
}
