//! Journals, written line by line in the second form.
ghost use Rattle.std.specs.Prelude.{◌≡◌, ◌≤◌, ◌++◌, Err, OnErr, length, option_map};
ghost use Rattle.std.specs.List.{flat_map};
ghost use Rattle.outside.specs.Faults.{Rose};
ghost use Rattle.host_table.specs.Writing.{Gathers, Writes};
ghost use Rattle.journal_text.specs.declared.text.Format.TheVariants.{Second};
ghost use Rattle.journal_text.specs.Journals.{file_text, first_text, last_text, line_text, rows_of, text_of};
ghost use Rattle.journal_text.specs.Written.{begin_text, end_text};

use crate::text::{JournalText, Line};
use host_table::lines::{
    act_pieces, end_pieces, file_pieces, first_pieces, head_pieces, last_pieces, optional_lock,
    ruling_pieces, token_pieces,
};
use host_table::putting::{put_pieces, send};
use host_table::{WriteEnd, WriteRoom};
use outside::{Failed, Sink};
use std::alloc::Global;
use wopi_text::{Bytes, FileName};

/// Puts the line of an opening file.
fn put_file<K: Sink>(
    sink: &mut K,
    room: &mut WriteRoom,
    file: &(FileName, Bytes),
) -> Result<(), Failed>
    ensures bytes { Gathers (K.held sink.old) (K.held sink.new) room.old.bytes.items room.new.bytes.items result (file_text file.now) }
    ensures never_falls { K.write_faults sink.old ≤ K.write_faults sink.new }
    ensures failed { OnErr result (Rose (K.write_faults sink.old) (K.write_faults sink.new)) }
{
    let (name, contents) = file;
    put_pieces(sink, room, &file_pieces(name, contents.as_slice()))
}

/// Puts the lines of the opening files.
fn put_files<K: Sink>(
    sink: &mut K,
    room: &mut WriteRoom,
    files: &[(FileName, Bytes)],
) -> Result<(), Failed>
    ensures bytes { Gathers (K.held sink.old) (K.held sink.new) room.old.bytes.items room.new.bytes.items result (flat_map file_text files.now) }
    ensures never_falls { K.write_faults sink.old ≤ K.write_faults sink.new }
    ensures failed { OnErr result (Rose (K.write_faults sink.old) (K.write_faults sink.new)) }
{
    'files: for file in files {
        match put_file(sink, room, file) {
            Ok(()) => {}
            Err(Failed) => return Err(Failed),
        }
    }
    Ok(())
}

/// Puts where an entry stands, and its call.
fn put_call<K: Sink>(sink: &mut K, room: &mut WriteRoom, line: &Line) -> Result<(), Failed>
    ensures bytes { Gathers (K.held sink.old) (K.held sink.new) room.old.bytes.items room.new.bytes.items result (begin_text line.entry.now) }
    ensures never_falls { K.write_faults sink.old ≤ K.write_faults sink.new }
    ensures failed { OnErr result (Rose (K.write_faults sink.old) (K.write_faults sink.new)) }
{
    let head = head_pieces(
        line.stamp,
        line.shard,
        line.pass,
        line.moment,
        line.now,
        &line.name,
    );
    match put_pieces(sink, room, &head) {
        Ok(()) => {}
        Err(Failed) => return Err(Failed),
    }
    match put_pieces(sink, room, &act_pieces(&line.act)) {
        Ok(()) => {}
        Err(Failed) => return Err(Failed),
    }
    put_pieces(sink, room, &token_pieces(&line.token))
}

/// The contents that an entry brought.
fn contents_of(contents: &Option<Bytes>) -> Option<&[u8]>
    ensures { option_map (λ bytes. bytes.now) result ≡ contents.now }
{
    match contents {
        None => None,
        Some(contents) => Some(contents.as_slice()),
    }
}

/// Puts an entry's ruling and the contents that it brought.
fn put_ruling<K: Sink>(sink: &mut K, room: &mut WriteRoom, line: &Line) -> Result<(), Failed>
    ensures bytes { Gathers (K.held sink.old) (K.held sink.new) room.old.bytes.items room.new.bytes.items result (end_text line.entry.now) }
    ensures never_falls { K.write_faults sink.old ≤ K.write_faults sink.new }
    ensures failed { OnErr result (Rose (K.write_faults sink.old) (K.write_faults sink.new)) }
{
    let lock = optional_lock(&line.lock);
    let ruling = ruling_pieces(line.status, lock, line.reason, line.version);
    match put_pieces(sink, room, &ruling) {
        Ok(()) => {}
        Err(Failed) => return Err(Failed),
    }
    put_pieces(sink, room, &end_pieces(contents_of(&line.contents)))
}

/// Puts the line of an entry.
fn put_line<K: Sink>(sink: &mut K, room: &mut WriteRoom, line: &Line) -> Result<(), Failed>
    ensures bytes { Gathers (K.held sink.old) (K.held sink.new) room.old.bytes.items room.new.bytes.items result (line_text Second line.entry.now) }
    ensures never_falls { K.write_faults sink.old ≤ K.write_faults sink.new }
    ensures failed { OnErr result (Rose (K.write_faults sink.old) (K.write_faults sink.new)) }
{
    match put_call(sink, room, line) {
        Ok(()) => {}
        Err(Failed) => return Err(Failed),
    }
    put_ruling(sink, room, line)
}

/// Puts the lines of the entries.
fn put_lines<K: Sink>(sink: &mut K, room: &mut WriteRoom, lines: &[Line]) -> Result<(), Failed>
    ensures bytes { Gathers (K.held sink.old) (K.held sink.new) room.old.bytes.items room.new.bytes.items result (flat_map (line_text Second) lines.now) }
    ensures never_falls { K.write_faults sink.old ≤ K.write_faults sink.new }
    ensures failed { OnErr result (Rose (K.write_faults sink.old) (K.write_faults sink.new)) }
{
    'lines: for line in lines {
        match put_line(sink, room, line) {
            Ok(()) => {}
            Err(Failed) => return Err(Failed),
        }
    }
    Ok(())
}

/// Puts the first line.
pub(crate) fn put_first<K: Sink>(
    sink: &mut K,
    room: &mut WriteRoom,
    opened: u64,
    first: u64,
) -> Result<(), Failed>
    ensures bytes { Gathers (K.held sink.old) (K.held sink.new) room.old.bytes.items room.new.bytes.items result (first_text Second opened first) }
    ensures never_falls { K.write_faults sink.old ≤ K.write_faults sink.new }
    ensures failed { OnErr result (Rose (K.write_faults sink.old) (K.write_faults sink.new)) }
{
    put_pieces(sink, room, &first_pieces(opened, first))
}

/// Puts the last line.
pub(crate) fn put_last<K: Sink>(
    sink: &mut K,
    room: &mut WriteRoom,
    entries: u64,
) -> Result<(), Failed>
    ensures bytes { Gathers (K.held sink.old) (K.held sink.new) room.old.bytes.items room.new.bytes.items result (last_text Second entries) }
    ensures never_falls { K.write_faults sink.old ≤ K.write_faults sink.new }
    ensures failed { OnErr result (Rose (K.write_faults sink.old) (K.write_faults sink.new)) }
{
    put_pieces(sink, room, &last_pieces(entries))
}

/// Puts all lines.
fn put_all<K: Sink>(sink: &mut K, room: &mut WriteRoom, text: &JournalText) -> Result<(), Failed>
    ensures bytes { Gathers (K.held sink.old) (K.held sink.new) room.old.bytes.items room.new.bytes.items result (first_text Second text.now.opened text.now.first ++ (flat_map file_text text.now.files ++ (flat_map (line_text Second) text.now.lines ++ last_text Second (length text.now.lines)))) }
    ensures never_falls { K.write_faults sink.old ≤ K.write_faults sink.new }
    ensures failed { OnErr result (Rose (K.write_faults sink.old) (K.write_faults sink.new)) }
{
    let lines = text.lines.as_slice();
    match put_first(sink, room, text.opened, text.first) {
        Ok(()) => {}
        Err(Failed) => return Err(Failed),
    }
    match put_files(sink, room, text.files.as_slice()) {
        Ok(()) => {}
        Err(Failed) => return Err(Failed),
    }
    match put_lines(sink, room, lines) {
        Ok(()) => {}
        Err(Failed) => return Err(Failed),
    }
    put_last(sink, room, lines.len() as u64)
}

/// Writes the text of a journal in the second form. Where a write fails, a front of the text was written. It
/// takes the memory of a [`WriteRoom`] before it writes anything, and no other.
pub fn write_lines<K: Sink>(alloc: Global, sink: &mut K, text: &JournalText) -> Result<(), WriteEnd>
    ensures bytes { Writes (K.held sink.old) (K.held sink.new) result (text_of (rows_of Second text.now)) }
    ensures never_falls { K.write_faults sink.old ≤ K.write_faults sink.new }
    ensures failed { result ≡ Err WriteEnd.Failed → Rose (K.write_faults sink.old) (K.write_faults sink.new) }
    ensures memory { result ≡ Err WriteEnd.Memory → sink.new ≡ sink.old }
{
    let Ok(room) = WriteRoom::new(alloc) else {
        return Err(WriteEnd::Memory);
    };
    match write_lines_into(sink, room, text) {
        Ok(()) => return Ok(()),
        Err(Failed) => return Err(WriteEnd::Failed),
    }
}

/// The same in room that was taken ahead, so that it wants no memory.
pub fn write_lines_into<K: Sink>(
    sink: &mut K,
    mut room: WriteRoom,
    text: &JournalText,
) -> Result<(), Failed>
    ensures bytes { Writes (K.held sink.old) (K.held sink.new) result (text_of (rows_of Second text.now)) }
    ensures never_falls { K.write_faults sink.old ≤ K.write_faults sink.new }
    ensures failed { OnErr result (Rose (K.write_faults sink.old) (K.write_faults sink.new)) }
{
    room.bytes.clear();
    match put_all(sink, &mut room, text) {
        Ok(()) => {}
        Err(Failed) => return Err(Failed),
    }
    send(sink, &mut room)
}
