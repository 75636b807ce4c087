//! The text of a beginning or of an entry, appended to a log. It takes no memory.
ghost use Rattle.std.specs.Prelude.{◌≡◌, ◌≤◌, ◌∷◌, ◌++◌, [], length, OnErr, OnOk, option_map, slice_get, unwrap_or};
ghost use Rattle.std.specs.List.{flat_map};
ghost use Rattle.outside.specs.Faults.{Rose};
ghost use Rattle.outside.specs.Log.{IsFront};
ghost use Rattle.kept_locks.specs.Locks.{unlocked};
ghost use Rattle.host_core.specs.Entries.{accepted_contents, ruled};
ghost use Rattle.host_core.specs.Whole.{joined, whole};
ghost use Rattle.host_table.specs.Pieces.{piece_text};
ghost use Rattle.host_table.specs.Text.{hex_text, optional_number, ruling_text, space};
ghost use Rattle.host_table.specs.Writing.{Gathers, Writes};
ghost use Rattle.host_log.specs.Begins.{begin_in};
ghost use Rattle.host_log.specs.Rows.{asked_text, at_line, begin_text, brought_text, entry_text, file_text, head_line, held_line, held_text, locks_text, opened_text, size_in, spent_line, whole_text};

use crate::begun::Begun;
use crate::start::Start;
use host_core::{KeptFile, Ruling, ToldLocks};
use host_table::WriteRoom;
use host_table::lines::{Piece, lock_piece, ruling_pieces};
use host_table::putting::{put_pieces, send};
use outside::{Failed, Log};
use wopi_model::{Lock, Spent};
use wopi_text::FileName;

/// Bytes in hex.
fn hex_piece(bytes: &[u8]) -> Piece<'_>
    ensures { piece_text result ≡ hex_text bytes.now }
{
    if bytes.is_empty() {
        return Piece::Text(b"-");
    }
    Piece::Hex(bytes)
}

/// A size, if there is one.
fn size_piece<'a>(size: Option<u64>) -> Piece<'a>
    ensures { piece_text result ≡ optional_number size }
{
    match size {
        None => Piece::Text(b"-"),
        Some(size) => Piece::Number(size),
    }
}

/// The first line of a segment of that shard.
#[tactic(auto, unfolding(crate::specs::Rows::head_line))]
fn head_pieces<'a>(shard: u8, opened: u64, first: u64, time: u64, last: u64) -> [Piece<'a>; 11]
    ensures { flat_map piece_text result ≡ head_line shard opened first time last }
{
    [
        Piece::Text(b"wopi journal 3 shard "),
        Piece::Number(u64::from(shard)),
        Piece::Text(b" opened "),
        Piece::Number(opened),
        Piece::Text(b" first "),
        Piece::Number(first),
        Piece::Text(b" now "),
        Piece::Number(time),
        Piece::Text(b" last "),
        Piece::Number(last),
        Piece::LineFeed,
    ]
}

/// The line of a file that was met.
#[tactic(auto, unfolding(crate::specs::Rows::at_line))]
fn at_pieces(name: &FileName, version: u64, size: Option<u64>) -> [Piece<'_>; 7]
    ensures { flat_map piece_text result ≡ at_line name.now version size }
{
    [
        Piece::Text(b"at "),
        Piece::Hex(name.as_slice()),
        Piece::Text(b" v"),
        Piece::Number(version),
        Piece::Space,
        size_piece(size),
        Piece::LineFeed,
    ]
}

/// The line of a file's lock.
#[tactic(auto, unfolding(crate::specs::Rows::held_line))]
fn held_pieces<'a>(name: &'a FileName, lock: &'a Lock) -> [Piece<'a>; 9]
    ensures { flat_map piece_text result ≡ held_line name.now lock.now }
{
    [
        Piece::Text(b"held "),
        Piece::Hex(name.as_slice()),
        Piece::Space,
        hex_piece(lock.id.as_slice()),
        Piece::Space,
        Piece::Number(lock.since),
        Piece::Space,
        Piece::Number(lock.until),
        Piece::LineFeed,
    ]
}

/// The line of an id that is refused on a file.
#[tactic(auto, unfolding(crate::specs::Rows::spent_line))]
fn spent_pieces<'a>(name: &'a FileName, one: &'a Spent) -> [Piece<'a>; 7]
    ensures { flat_map piece_text result ≡ spent_line name.now one.now }
{
    [
        Piece::Text(b"spent "),
        Piece::Hex(name.as_slice()),
        Piece::Space,
        hex_piece(one.id.as_slice()),
        Piece::Space,
        Piece::Number(one.until),
        Piece::LineFeed,
    ]
}

/// How many bytes a file has, if it is there.
fn size_of(file: &KeptFile) -> Option<u64>
    ensures { result ≡ size_in file.now.contents }
{
    match &file.contents {
        None => return None,
        Some(contents) => return Some(contents.as_slice().len() as u64),
    }
}

/// How many bytes a file of an opening has.
fn bytes_of(file: &KeptFile) -> u64
    ensures { result ≡ length (unwrap_or file.now.contents []) }
{
    match &file.contents {
        None => return 0,
        Some(contents) => return contents.as_slice().len() as u64,
    }
}

/// Puts the line of a file of an opening, at that version.
fn put_opened<L: Log>(
    log: &mut L,
    room: &mut WriteRoom,
    first: u64,
    file: &KeptFile,
) -> Result<(), Failed>
    ensures bytes { Gathers (L.held log.old) (L.held log.new) room.old.bytes.items room.new.bytes.items result (opened_text first file.now) }
    ensures beside { L.beside_writes log.new ≡ L.beside_writes log.old }
    ensures never_falls { L.write_faults log.old ≤ L.write_faults log.new }
    ensures failed { OnErr result (Rose (L.write_faults log.old) (L.write_faults log.new)) }
{
    put_pieces(
        log,
        room,
        &at_pieces(&file.name, first, Some(bytes_of(file))),
    )
}

/// Puts the lines of the files of an opening, each at that version.
fn put_all_opened<L: Log>(
    log: &mut L,
    room: &mut WriteRoom,
    first: u64,
    files: &[KeptFile],
) -> Result<(), Failed>
    ensures bytes { Gathers (L.held log.old) (L.held log.new) room.old.bytes.items room.new.bytes.items result (flat_map (opened_text first) files.now) }
    ensures beside { L.beside_writes log.new ≡ L.beside_writes log.old }
    ensures never_falls { L.write_faults log.old ≤ L.write_faults log.new }
    ensures failed { OnErr result (Rose (L.write_faults log.old) (L.write_faults log.new)) }
{
    'files: for file in files {
        match put_opened(log, room, first, file) {
            Ok(()) => {}
            Err(Failed) => return Err(Failed),
        }
    }
    Ok(())
}

/// Puts the line of a file's lock, if it has one.
fn put_held<L: Log>(
    log: &mut L,
    room: &mut WriteRoom,
    name: &FileName,
    lock: &Option<Lock>,
) -> Result<(), Failed>
    ensures bytes { Gathers (L.held log.old) (L.held log.new) room.old.bytes.items room.new.bytes.items result (held_text name.now lock.now) }
    ensures beside { L.beside_writes log.new ≡ L.beside_writes log.old }
    ensures never_falls { L.write_faults log.old ≤ L.write_faults log.new }
    ensures failed { OnErr result (Rose (L.write_faults log.old) (L.write_faults log.new)) }
{
    match lock {
        None => return put_pieces(log, room, &[]),
        Some(lock) => return put_pieces(log, room, &held_pieces(name, lock)),
    }
}

/// Puts the lines of the ids that are refused on a file.
fn put_all_spent<L: Log>(
    log: &mut L,
    room: &mut WriteRoom,
    name: &FileName,
    spent: &[Spent],
) -> Result<(), Failed>
    ensures bytes { Gathers (L.held log.old) (L.held log.new) room.old.bytes.items room.new.bytes.items result (flat_map (spent_line name.now) spent.now) }
    ensures beside { L.beside_writes log.new ≡ L.beside_writes log.old }
    ensures never_falls { L.write_faults log.old ≤ L.write_faults log.new }
    ensures failed { OnErr result (Rose (L.write_faults log.old) (L.write_faults log.new)) }
{
    'ids: for one in spent {
        match put_pieces(log, room, &spent_pieces(name, one)) {
            Ok(()) => {}
            Err(Failed) => return Err(Failed),
        }
    }
    Ok(())
}

/// Puts the lines of a file's lock and of the ids that are refused on it.
fn put_both<L: Log>(
    log: &mut L,
    room: &mut WriteRoom,
    name: &FileName,
    locks: &ToldLocks,
) -> Result<(), Failed>
    ensures bytes { Gathers (L.held log.old) (L.held log.new) room.old.bytes.items room.new.bytes.items result (locks_text name.now locks.now) }
    ensures beside { L.beside_writes log.new ≡ L.beside_writes log.old }
    ensures never_falls { L.write_faults log.old ≤ L.write_faults log.new }
    ensures failed { OnErr result (Rose (L.write_faults log.old) (L.write_faults log.new)) }
{
    match put_held(log, room, name, &locks.lock) {
        Ok(()) => {}
        Err(Failed) => return Err(Failed),
    }
    put_all_spent(log, room, name, &locks.spent)
}

/// Puts these lines, where there are locks.
fn put_locks<L: Log>(
    log: &mut L,
    room: &mut WriteRoom,
    name: &FileName,
    locks: Option<&ToldLocks>,
) -> Result<(), Failed>
    ensures bytes { Gathers (L.held log.old) (L.held log.new) room.old.bytes.items room.new.bytes.items result (locks_text name.now (unwrap_or (option_map (λ told. told.now) locks.entry) unlocked)) }
    ensures beside { L.beside_writes log.new ≡ L.beside_writes log.old }
    ensures never_falls { L.write_faults log.old ≤ L.write_faults log.new }
    ensures failed { OnErr result (Rose (L.write_faults log.old) (L.write_faults log.new)) }
{
    match locks {
        None => return put_pieces(log, room, &[]),
        Some(locks) => return put_both(log, room, name, locks),
    }
}

/// Puts the lines of a file that goes on, with these locks or none.
fn put_whole<L: Log>(
    log: &mut L,
    room: &mut WriteRoom,
    file: &KeptFile,
    locks: Option<&ToldLocks>,
) -> Result<(), Failed>
    ensures bytes { Gathers (L.held log.old) (L.held log.new) room.old.bytes.items room.new.bytes.items result (whole_text (whole file.now (unwrap_or (option_map (λ told. told.now) locks.entry) unlocked))) }
    ensures beside { L.beside_writes log.new ≡ L.beside_writes log.old }
    ensures never_falls { L.write_faults log.old ≤ L.write_faults log.new }
    ensures failed { OnErr result (Rose (L.write_faults log.old) (L.write_faults log.new)) }
{
    match put_pieces(
        log,
        room,
        &at_pieces(&file.name, file.version, size_of(file)),
    ) {
        Ok(()) => {}
        Err(Failed) => return Err(Failed),
    }
    put_locks(log, room, &file.name, locks)
}

/// The locks at a place.
fn locks_at(locks: &[ToldLocks], place: usize) -> Option<&ToldLocks>
    ensures { option_map (λ told. told.now) result ≡ slice_get locks.now place }
{
    locks.get(place)
}

/// Puts the lines of files that go on, each with the locks at its place.
fn put_all_whole<L: Log>(
    log: &mut L,
    room: &mut WriteRoom,
    files: &[KeptFile],
    locks: &[ToldLocks],
) -> Result<(), Failed>
    ensures bytes { Gathers (L.held log.old) (L.held log.new) room.old.bytes.items room.new.bytes.items result (flat_map whole_text (joined files.now locks.now)) }
    ensures beside { L.beside_writes log.new ≡ L.beside_writes log.old }
    ensures never_falls { L.write_faults log.old ≤ L.write_faults log.new }
    ensures failed { OnErr result (Rose (L.write_faults log.old) (L.write_faults log.new)) }
{
    let mut place = 0;
    'files: while place < files.len() {
        match put_whole(log, room, &files[place], locks_at(locks, place)) {
            Ok(()) => {}
            Err(Failed) => return Err(Failed),
        }
        place += 1;
    }
    Ok(())
}

/// Puts the lines of the files of a beginning.
fn put_files<L: Log>(log: &mut L, room: &mut WriteRoom, start: &Start<'_>) -> Result<(), Failed>
    ensures bytes { Gathers (L.held log.old) (L.held log.new) room.old.bytes.items room.new.bytes.items result (flat_map file_text (begin_in start.now).files) }
    ensures beside { L.beside_writes log.new ≡ L.beside_writes log.old }
    ensures never_falls { L.write_faults log.old ≤ L.write_faults log.new }
    ensures failed { OnErr result (Rose (L.write_faults log.old) (L.write_faults log.new)) }
{
    match start.locks {
        None => return put_all_opened(log, room, start.first, start.files),
        Some(locks) => return put_all_whole(log, room, start.files, locks),
    }
}

/// Puts the beginning of a segment.
fn put_start<L: Log>(
    log: &mut L,
    room: &mut WriteRoom,
    shard: u8,
    start: &Start<'_>,
) -> Result<(), Failed>
    ensures bytes { Gathers (L.held log.old) (L.held log.new) room.old.bytes.items room.new.bytes.items result (begin_text shard (begin_in start.now)) }
    ensures beside { L.beside_writes log.new ≡ L.beside_writes log.old }
    ensures never_falls { L.write_faults log.old ≤ L.write_faults log.new }
    ensures failed { OnErr result (Rose (L.write_faults log.old) (L.write_faults log.new)) }
{
    match put_pieces(
        log,
        room,
        &head_pieces(shard, start.opened, start.first, start.time, start.last),
    ) {
        Ok(()) => {}
        Err(Failed) => return Err(Failed),
    }
    put_files(log, room, start)
}

/// Appends the beginning of a segment. What the room holds doesn't count.
fn write_start<L: Log>(
    log: &mut L,
    room: &mut WriteRoom,
    shard: u8,
    start: &Start<'_>,
) -> Result<(), Failed>
    ensures bytes { Writes (L.held log.old) (L.held log.new) result (begin_text shard (begin_in start.now)) }
    ensures synced { L.synced log.new ≡ L.synced log.old }
    ensures never_falls { L.write_faults log.old ≤ L.write_faults log.new }
    ensures failed { OnErr result (Rose (L.write_faults log.old) (L.write_faults log.new)) }
{
    room.bytes.clear();
    match put_start(log, room, shard, start) {
        Ok(()) => {}
        Err(Failed) => return Err(Failed),
    }
    send(log, room)
}

/// Appends the beginning of a segment of that shard, and syncs it. After a fault a front of it may stand there, and some
/// of that may be synced.
pub(crate) fn keep_start<L: Log>(
    log: &mut L,
    room: &mut WriteRoom,
    shard: u8,
    start: &Start<'_>,
) -> Result<(), Failed>
    ensures bytes { Writes (L.held log.old) (L.held log.new) result (begin_text shard (begin_in start.now)) }
    ensures synced { OnOk result (L.synced log.new ≡ L.held log.new) }
    ensures more { IsFront (L.synced log.old) (L.synced log.new) }
    ensures never_falls { L.write_faults log.old ≤ L.write_faults log.new }
    ensures failed { OnErr result (Rose (L.write_faults log.old) (L.write_faults log.new)) }
{
    match write_start(log, room, shard, start) {
        Ok(()) => {}
        Err(Failed) => return Err(Failed),
    }
    match log.sync() {
        Ok(()) => return Ok(()),
        Err(Failed) => return Err(Failed),
    }
}

/// Puts where a call stands, when it was made and of which file, and what it asks.
fn put_begun<L: Log>(log: &mut L, room: &mut WriteRoom, begun: &Begun) -> Result<(), Failed>
    ensures bytes { Gathers (L.held log.old) (L.held log.new) room.old.bytes.items room.new.bytes.items result (asked_text begun.now) }
    ensures beside { L.beside_writes log.new ≡ L.beside_writes log.old }
    ensures never_falls { L.write_faults log.old ≤ L.write_faults log.new }
    ensures failed { OnErr result (Rose (L.write_faults log.old) (L.write_faults log.new)) }
{
    match put_pieces(log, room, &begun.head()) {
        Ok(()) => {}
        Err(Failed) => return Err(Failed),
    }
    match put_pieces(log, room, &begun.asks()) {
        Ok(()) => {}
        Err(Failed) => return Err(Failed),
    }
    put_pieces(log, room, &begun.token())
}

/// A space and what is told of a ruling.
#[tactic(auto, unfolding(host_table::specs::Text::ruling_text))]
fn told_pieces(ruling: &Ruling) -> [Piece<'_>; 9]
    ensures { flat_map piece_text result ≡ space ∷ ruling_text ruling.now }
{
    ruling_pieces(
        ruling.status,
        lock_piece(&ruling.lock),
        ruling.reason,
        ruling.version,
    )
}

/// A space, how many bytes were accepted, the line's end, and these with a line feed behind them.
fn brought_pieces(contents: Option<&[u8]>) -> [Piece<'_>; 5]
    ensures { flat_map piece_text result ≡ brought_text (option_map (λ bytes. bytes.now) contents.entry) }
{
    match contents {
        None => {
            return [
                Piece::Space,
                Piece::Text(b"-"),
                Piece::LineFeed,
                Piece::Nothing,
                Piece::Nothing,
            ];
        }
        Some(bytes) => {
            return [
                Piece::Space,
                Piece::Number(bytes.len() as u64),
                Piece::LineFeed,
                Piece::Text(bytes),
                Piece::LineFeed,
            ];
        }
    }
}

/// Puts a ruling, and what was accepted. Contents for which there is room are gathered with their line, and larger ones are
/// written from where they lie.
fn put_told<L: Log>(
    log: &mut L,
    room: &mut WriteRoom,
    ruling: &Ruling,
    contents: Option<&[u8]>,
) -> Result<(), Failed>
    ensures bytes { Gathers (L.held log.old) (L.held log.new) room.old.bytes.items room.new.bytes.items result
        ((space ∷ ruling_text ruling.now) ++ brought_text (option_map (λ bytes. bytes.now) contents.entry)) }
    ensures beside { L.beside_writes log.new ≡ L.beside_writes log.old }
    ensures never_falls { L.write_faults log.old ≤ L.write_faults log.new }
    ensures failed { OnErr result (Rose (L.write_faults log.old) (L.write_faults log.new)) }
{
    match put_pieces(log, room, &told_pieces(ruling)) {
        Ok(()) => {}
        Err(Failed) => return Err(Failed),
    }
    put_pieces(log, room, &brought_pieces(contents))
}

/// Puts the text of a call with that ruling, and the contents that were accepted.
fn put_entry<L: Log>(
    log: &mut L,
    room: &mut WriteRoom,
    begun: &Begun,
    ruling: &Ruling,
    contents: Option<&[u8]>,
) -> Result<(), Failed>
    requires { option_map (λ contents. contents.now) contents ≡ accepted_contents (ruled ruling.now begun.now) }
    ensures bytes { Gathers (L.held log.old) (L.held log.new) room.old.bytes.items room.new.bytes.items result (entry_text (ruled ruling.now begun.now)) }
    ensures beside { L.beside_writes log.new ≡ L.beside_writes log.old }
    ensures never_falls { L.write_faults log.old ≤ L.write_faults log.new }
    ensures failed { OnErr result (Rose (L.write_faults log.old) (L.write_faults log.new)) }
{
    match put_begun(log, room, begun) {
        Ok(()) => {}
        Err(Failed) => return Err(Failed),
    }
    put_told(log, room, ruling, contents)
}

/// Appends the text of a call with that ruling, and the contents that were accepted. What the room holds doesn't count.
pub(crate) fn write_entry<L: Log>(
    log: &mut L,
    room: &mut WriteRoom,
    begun: &Begun,
    ruling: &Ruling,
    contents: Option<&[u8]>,
) -> Result<(), Failed>
    requires { option_map (λ contents. contents.now) contents ≡ accepted_contents (ruled ruling.now begun.now) }
    ensures bytes { Writes (L.held log.old) (L.held log.new) result (entry_text (ruled ruling.now begun.now)) }
    ensures synced { L.synced log.new ≡ L.synced log.old }
    ensures never_falls { L.write_faults log.old ≤ L.write_faults log.new }
    ensures failed { OnErr result (Rose (L.write_faults log.old) (L.write_faults log.new)) }
{
    room.bytes.clear();
    match put_entry(log, room, begun, ruling, contents) {
        Ok(()) => {}
        Err(Failed) => return Err(Failed),
    }
    send(log, room)
}
