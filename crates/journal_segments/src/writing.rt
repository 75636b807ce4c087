//! The beginning of a segment, written.
ghost use Rattle.std.specs.Prelude.{◌≡◌, ◌≤◌, OnErr, option_map};
ghost use Rattle.std.specs.List.{flat_map};
ghost use Rattle.outside.specs.Faults.{Rose};
ghost use Rattle.host_table.specs.Pieces.{piece_text};
ghost use Rattle.host_table.specs.Text.{hex_text, optional_number};
ghost use Rattle.host_table.specs.Writing.{Gathers, Writes};
ghost use Rattle.journal_text.specs.Journals.{row_text};
ghost use Rattle.journal_segments.specs.Rows.{at_words, head_words, held_words, spent_words};
ghost use Rattle.journal_segments.specs.Openings.{held_text, opening_text, place_text, spent_text};

use crate::file::ToldFile;
use crate::rows::Head;
use host_table::WriteRoom;
use host_table::lines::Piece;
use host_table::putting::{put_pieces, send};
use outside::{Failed, Sink};
use wopi_model::{Lock, Spent};
use wopi_text::FileName;

/// Bytes in hex.
fn hex_piece(bytes: &[u8]) -> Piece<'_>
    ensures { piece_text result ≡ hex_text bytes.now }
{
    if bytes.is_empty() {
        return Piece::Text(b"-");
    }
    Piece::Hex(bytes)
}

/// A number, if there is one.
fn size_piece<'a>(size: Option<u64>) -> Piece<'a>
    ensures { piece_text result ≡ optional_number size }
{
    match size {
        None => Piece::Text(b"-"),
        Some(size) => Piece::Number(size),
    }
}

fn at_pieces(name: &FileName, version: u64, size: Option<u64>) -> [Piece<'_>; 7]
    ensures { flat_map piece_text result ≡ row_text (at_words name.now version size) }
{
    [
        Piece::Text(b"at "),
        Piece::Hex(name.as_slice()),
        Piece::Text(b" v"),
        Piece::Number(version),
        Piece::Space,
        size_piece(size),
        Piece::LineFeed,
    ]
}

fn held_pieces<'a>(name: &'a FileName, lock: &'a Lock) -> [Piece<'a>; 9]
    ensures { flat_map piece_text result ≡ row_text (held_words name.now lock.now) }
{
    [
        Piece::Text(b"held "),
        Piece::Hex(name.as_slice()),
        Piece::Space,
        hex_piece(lock.id.as_slice()),
        Piece::Space,
        Piece::Number(lock.since),
        Piece::Space,
        Piece::Number(lock.until),
        Piece::LineFeed,
    ]
}

fn spent_pieces<'a>(name: &'a FileName, one: &'a Spent) -> [Piece<'a>; 7]
    ensures { flat_map piece_text result ≡ row_text (spent_words name.now one.now) }
{
    [
        Piece::Text(b"spent "),
        Piece::Hex(name.as_slice()),
        Piece::Space,
        hex_piece(one.id.as_slice()),
        Piece::Space,
        Piece::Number(one.until),
        Piece::LineFeed,
    ]
}

fn head_pieces<'a>(head: &Head) -> [Piece<'a>; 11]
    ensures { flat_map piece_text result ≡ row_text (head_words head.entry.now) }
{
    [
        Piece::Text(b"wopi journal 3 shard "),
        Piece::Number(u64::from(head.shard)),
        Piece::Text(b" opened "),
        Piece::Number(head.opened),
        Piece::Text(b" first "),
        Piece::Number(head.first),
        Piece::Text(b" now "),
        Piece::Number(head.now),
        Piece::Text(b" last "),
        Piece::Number(head.last),
        Piece::LineFeed,
    ]
}

/// Puts the line of a file's lock, if it has one.
fn put_held<K: Sink>(
    sink: &mut K,
    room: &mut WriteRoom,
    name: &FileName,
    lock: Option<&Lock>,
) -> Result<(), Failed>
    ensures bytes { Gathers (K.held sink.old) (K.held sink.new) room.old.bytes.items room.new.bytes.items result (held_text name.now (option_map (λ held. held.now) lock.entry)) }
    ensures beside { K.beside_writes sink.new ≡ K.beside_writes sink.old }
    ensures never_falls { K.write_faults sink.old ≤ K.write_faults sink.new }
    ensures failed { OnErr result (Rose (K.write_faults sink.old) (K.write_faults sink.new)) }
{
    match lock {
        None => return put_pieces(sink, room, &[]),
        Some(lock) => return put_pieces(sink, room, &held_pieces(name, lock)),
    }
}

/// Puts the line of a spent id.
fn put_spent<K: Sink>(
    sink: &mut K,
    room: &mut WriteRoom,
    name: &FileName,
    one: &Spent,
) -> Result<(), Failed>
    ensures bytes { Gathers (K.held sink.old) (K.held sink.new) room.old.bytes.items room.new.bytes.items result (spent_text name.now one.now) }
    ensures beside { K.beside_writes sink.new ≡ K.beside_writes sink.old }
    ensures never_falls { K.write_faults sink.old ≤ K.write_faults sink.new }
    ensures failed { OnErr result (Rose (K.write_faults sink.old) (K.write_faults sink.new)) }
{
    put_pieces(sink, room, &spent_pieces(name, one))
}

/// Puts the lines of a file's spent ids.
fn put_all_spent<K: Sink>(
    sink: &mut K,
    room: &mut WriteRoom,
    name: &FileName,
    spent: &[Spent],
) -> Result<(), Failed>
    ensures bytes { Gathers (K.held sink.old) (K.held sink.new) room.old.bytes.items room.new.bytes.items result (flat_map (spent_text name.now) spent.now) }
    ensures beside { K.beside_writes sink.new ≡ K.beside_writes sink.old }
    ensures never_falls { K.write_faults sink.old ≤ K.write_faults sink.new }
    ensures failed { OnErr result (Rose (K.write_faults sink.old) (K.write_faults sink.new)) }
{
    'ids: for one in spent {
        match put_spent(sink, room, name, one) {
            Ok(()) => {}
            Err(Failed) => return Err(Failed),
        }
    }
    Ok(())
}

/// Puts the lines of a file.
fn put_place<K: Sink>(
    sink: &mut K,
    room: &mut WriteRoom,
    file: &(FileName, ToldFile),
) -> Result<(), Failed>
    ensures bytes { Gathers (K.held sink.old) (K.held sink.new) room.old.bytes.items room.new.bytes.items result (place_text file.now) }
    ensures beside { K.beside_writes sink.new ≡ K.beside_writes sink.old }
    ensures never_falls { K.write_faults sink.old ≤ K.write_faults sink.new }
    ensures failed { OnErr result (Rose (K.write_faults sink.old) (K.write_faults sink.new)) }
{
    let (name, place) = file;
    match put_pieces(sink, room, &at_pieces(name, place.version(), place.size())) {
        Ok(()) => {}
        Err(Failed) => return Err(Failed),
    }
    match put_held(sink, room, name, place.lock()) {
        Ok(()) => {}
        Err(Failed) => return Err(Failed),
    }
    put_all_spent(sink, room, name, place.spent())
}

/// Puts the lines of all files.
fn put_places<K: Sink>(
    sink: &mut K,
    room: &mut WriteRoom,
    files: &[(FileName, ToldFile)],
) -> Result<(), Failed>
    ensures bytes { Gathers (K.held sink.old) (K.held sink.new) room.old.bytes.items room.new.bytes.items result (flat_map place_text files.now) }
    ensures beside { K.beside_writes sink.new ≡ K.beside_writes sink.old }
    ensures never_falls { K.write_faults sink.old ≤ K.write_faults sink.new }
    ensures failed { OnErr result (Rose (K.write_faults sink.old) (K.write_faults sink.new)) }
{
    'files: for file in files {
        match put_place(sink, room, file) {
            Ok(()) => {}
            Err(Failed) => return Err(Failed),
        }
    }
    Ok(())
}

/// Appends the beginning of a segment, in room that was taken ahead, so that it wants no memory.
pub fn write_opening<K: Sink>(
    sink: &mut K,
    mut room: WriteRoom,
    head: &Head,
    files: &[(FileName, ToldFile)],
) -> Result<(), Failed>
    ensures bytes { Writes (K.held sink.old) (K.held sink.new) result (opening_text head.entry.now files.now) }
    ensures beside { K.beside_writes sink.new ≡ K.beside_writes sink.old }
    ensures never_falls { K.write_faults sink.old ≤ K.write_faults sink.new }
    ensures failed { OnErr result (Rose (K.write_faults sink.old) (K.write_faults sink.new)) }
{
    room.bytes.clear();
    match put_pieces(sink, &mut room, &head_pieces(head)) {
        Ok(()) => {}
        Err(Failed) => return Err(Failed),
    }
    match put_places(sink, &mut room, files) {
        Ok(()) => {}
        Err(Failed) => return Err(Failed),
    }
    send(sink, &mut room)
}
