//! Pieces of text on their way to a sink: they are gathered, and written in large pieces. It takes no memory.
ghost use Rattle.std.specs.Prelude.{◌≡◌, ◌≤◌, ◌+◌, ◌++◌, ◌∷◌, [], OnErr, OnOk, decimal, length, true, vec_len};
ghost use Rattle.std.specs.List.{flat_map};
ghost use Rattle.hex.specs.Hex.{encode_lower};
ghost use Rattle.outside.specs.Faults.{Rose};
ghost use Rattle.host_table.specs.Pieces.{piece_text};
ghost use Rattle.host_table.specs.Writing.{Gathers};

use crate::lines::Piece;
use crate::rooms::{PIECE, WriteRoom};
use itoa::Buffer;
use outside::{Failed, Sink, write_whole};

/// Writes what was gathered. At a fault a front of it was written, and then what the room holds is open.
pub fn send<K: Sink>(sink: &mut K, room: &mut WriteRoom) -> Result<(), Failed>
    ensures bytes { Gathers (K.held sink.old) (K.held sink.new) room.old.bytes.items room.new.bytes.items result [] }
    ensures none { OnOk result (room.new.bytes.items ≡ []) }
    ensures beside { K.beside_writes sink.new ≡ K.beside_writes sink.old }
    ensures never_falls { K.write_faults sink.old ≤ K.write_faults sink.new }
    ensures failed { OnErr result (Rose (K.write_faults sink.old) (K.write_faults sink.new)) }
{
    match write_whole(sink, &room.bytes) {
        Ok(()) => {
            room.bytes.clear();
            return Ok(());
        }
        Err(Failed) => return Err(Failed),
    }
}

/// Writes a text behind what was gathered.
fn send_behind<K: Sink>(sink: &mut K, room: &mut WriteRoom, text: &[u8]) -> Result<(), Failed>
    ensures bytes { Gathers (K.held sink.old) (K.held sink.new) room.old.bytes.items room.new.bytes.items result text.now }
    ensures beside { K.beside_writes sink.new ≡ K.beside_writes sink.old }
    ensures never_falls { K.write_faults sink.old ≤ K.write_faults sink.new }
    ensures failed { OnErr result (Rose (K.write_faults sink.old) (K.write_faults sink.new)) }
{
    match send(sink, room) {
        Ok(()) => {}
        Err(Failed) => return Err(Failed),
    }
    match write_whole(sink, text) {
        Ok(()) => return Ok(()),
        Err(Failed) => return Err(Failed),
    }
}

/// Whether there is room for a text.
fn has_room(room: &WriteRoom, text: &[u8]) -> bool
    ensures { result ≡ true → vec_len room.now.bytes + length text.now ≤ 65536 }
{
    let gathered = room.bytes.len();
    gathered <= PIECE && text.len() <= PIECE - gathered
}

/// Gathers a text that there is room for.
fn gather(room: &mut WriteRoom, text: &[u8])
    requires { vec_len room.old.bytes + length text.now ≤ 65536 }
    ensures { room.new.bytes.items ≡ room.old.bytes.items ++ text.now }
{
    match room.bytes.extend_from_slice(text) {
        Ok(()) => {}
        Err(_) => unreachable!(),
    }
}

/// Gathers a text, or writes it where there is no room for it.
fn put<K: Sink>(sink: &mut K, room: &mut WriteRoom, text: &[u8]) -> Result<(), Failed>
    ensures bytes { Gathers (K.held sink.old) (K.held sink.new) room.old.bytes.items room.new.bytes.items result text.now }
    ensures beside { K.beside_writes sink.new ≡ K.beside_writes sink.old }
    ensures never_falls { K.write_faults sink.old ≤ K.write_faults sink.new }
    ensures failed { OnErr result (Rose (K.write_faults sink.old) (K.write_faults sink.new)) }
{
    if has_room(room, text) {
        gather(room, text);
        return Ok(());
    }
    send_behind(sink, room, text)
}

/// Gathers a byte that there is room for.
fn gather_byte(room: &mut WriteRoom, byte: u8)
    requires { vec_len room.old.bytes + 1 ≤ 65536 }
    ensures { room.new.bytes.items ≡ room.old.bytes.items ++ byte ∷ [] }
{
    match room.bytes.push(byte) {
        Ok(()) => {}
        Err(_) => unreachable!(),
    }
}

/// Gathers a byte, or writes it where there is no room for it.
fn put_byte<K: Sink>(sink: &mut K, room: &mut WriteRoom, byte: u8) -> Result<(), Failed>
    ensures bytes { Gathers (K.held sink.old) (K.held sink.new) room.old.bytes.items room.new.bytes.items result (byte ∷ []) }
    ensures beside { K.beside_writes sink.new ≡ K.beside_writes sink.old }
    ensures never_falls { K.write_faults sink.old ≤ K.write_faults sink.new }
    ensures failed { OnErr result (Rose (K.write_faults sink.old) (K.write_faults sink.new)) }
{
    if room.bytes.len() < PIECE {
        gather_byte(room, byte);
        return Ok(());
    }
    send_behind(sink, room, &[byte])
}

/// Puts a number in decimal.
fn put_number<K: Sink>(sink: &mut K, room: &mut WriteRoom, number: u64) -> Result<(), Failed>
    ensures bytes { Gathers (K.held sink.old) (K.held sink.new) room.old.bytes.items room.new.bytes.items result (decimal number) }
    ensures beside { K.beside_writes sink.new ≡ K.beside_writes sink.old }
    ensures never_falls { K.write_faults sink.old ≤ K.write_faults sink.new }
    ensures failed { OnErr result (Rose (K.write_faults sink.old) (K.write_faults sink.new)) }
{
    let mut buffer = Buffer::new();
    put(sink, room, buffer.format(number).as_bytes())
}

/// How many bytes are few, as those of most names and lock ids. Their digits have a place of their own, since a place is
/// cleared whole.
const FEW: usize = 64;

/// Puts few bytes in hex.
fn put_few<K: Sink>(sink: &mut K, room: &mut WriteRoom, bytes: &[u8]) -> Result<(), Failed>
    requires { length bytes.now ≤ 64 }
    ensures bytes { Gathers (K.held sink.old) (K.held sink.new) room.old.bytes.items room.new.bytes.items result (encode_lower bytes.now) }
    ensures beside { K.beside_writes sink.new ≡ K.beside_writes sink.old }
    ensures never_falls { K.write_faults sink.old ≤ K.write_faults sink.new }
    ensures failed { OnErr result (Rose (K.write_faults sink.old) (K.write_faults sink.new)) }
{
    let mut digits = [0u8; 2 * FEW];
    let text = &mut digits[..2 * bytes.len()];
    match hex::encode_to_slice(bytes, text) {
        Ok(()) => return put(sink, room, text),
        Err(_) => unreachable!(),
    }
}

/// How many bytes are turned into hex at a time.
const STEP: usize = 2_048;

/// Puts at most so many bytes in hex.
fn put_step<K: Sink>(sink: &mut K, room: &mut WriteRoom, bytes: &[u8]) -> Result<(), Failed>
    requires { length bytes.now ≤ 2048 }
    ensures bytes { Gathers (K.held sink.old) (K.held sink.new) room.old.bytes.items room.new.bytes.items result (encode_lower bytes.now) }
    ensures beside { K.beside_writes sink.new ≡ K.beside_writes sink.old }
    ensures never_falls { K.write_faults sink.old ≤ K.write_faults sink.new }
    ensures failed { OnErr result (Rose (K.write_faults sink.old) (K.write_faults sink.new)) }
{
    let mut digits = [0u8; 2 * STEP];
    let text = &mut digits[..2 * bytes.len()];
    match hex::encode_to_slice(bytes, text) {
        Ok(()) => return put(sink, room, text),
        Err(_) => unreachable!(),
    }
}

/// Puts bytes in hex.
fn put_hex<K: Sink>(sink: &mut K, room: &mut WriteRoom, bytes: &[u8]) -> Result<(), Failed>
    ensures bytes { Gathers (K.held sink.old) (K.held sink.new) room.old.bytes.items room.new.bytes.items result (encode_lower bytes.now) }
    ensures beside { K.beside_writes sink.new ≡ K.beside_writes sink.old }
    ensures never_falls { K.write_faults sink.old ≤ K.write_faults sink.new }
    ensures failed { OnErr result (Rose (K.write_faults sink.old) (K.write_faults sink.new)) }
{
    if bytes.len() <= FEW {
        return put_few(sink, room, bytes);
    }
    let mut rest = bytes;
    'steps: while !rest.is_empty() {
        let (step, more) = rest.split_at(rest.len().min(STEP));
        match put_step(sink, room, step) {
            Ok(()) => {}
            Err(Failed) => return Err(Failed),
        }
        rest = more;
    }
    Ok(())
}

/// Puts a piece of a line.
#[tactic(auto, using(crate::proofs::WritingLemmas::gathered_nil))]
fn put_piece<K: Sink>(sink: &mut K, room: &mut WriteRoom, piece: Piece<'_>) -> Result<(), Failed>
    ensures bytes { Gathers (K.held sink.old) (K.held sink.new) room.old.bytes.items room.new.bytes.items result (piece_text piece.entry) }
    ensures beside { K.beside_writes sink.new ≡ K.beside_writes sink.old }
    ensures never_falls { K.write_faults sink.old ≤ K.write_faults sink.new }
    ensures failed { OnErr result (Rose (K.write_faults sink.old) (K.write_faults sink.new)) }
{
    match piece {
        Piece::Nothing => Ok(()),
        Piece::Space => put_byte(sink, room, b' '),
        Piece::Period => put_byte(sink, room, b'.'),
        Piece::LineFeed => put_byte(sink, room, b'\n'),
        Piece::Text(text) => put(sink, room, text),
        Piece::Number(number) => put_number(sink, room, number),
        Piece::Hex(bytes) => put_hex(sink, room, bytes),
    }
}

/// Puts pieces of a line, one after another: they are gathered, or written where there is no room for them. At a
/// fault a front of what was gathered and of them was written, and then what the room holds is open.
pub fn put_pieces<K: Sink>(
    sink: &mut K,
    room: &mut WriteRoom,
    pieces: &[Piece<'_>],
) -> Result<(), Failed>
    ensures bytes { Gathers (K.held sink.old) (K.held sink.new) room.old.bytes.items room.new.bytes.items result (flat_map piece_text pieces.now) }
    ensures beside { K.beside_writes sink.new ≡ K.beside_writes sink.old }
    ensures never_falls { K.write_faults sink.old ≤ K.write_faults sink.new }
    ensures failed { OnErr result (Rose (K.write_faults sink.old) (K.write_faults sink.new)) }
{
    'pieces: for piece in pieces {
        match put_piece(sink, room, *piece) {
            Ok(()) => {}
            Err(Failed) => return Err(Failed),
        }
    }
    Ok(())
}
