//! Journals, brought to the second form.
ghost use Rattle.std.specs.Prelude.{◌≡◌, ◌↔◌, ◌≤◌, ◌<◌, ◌∷◌, ◌++◌, [], ℕ, List, Err, IfErr, OnErr, OnOk, length, true, false};
ghost use Rattle.std.specs.Io.KnownBytes.{Appends};
ghost use Rattle.outside.specs.Faults.{Rose};
ghost use Rattle.outside.specs.Stream.{GrewByPrefix};
ghost use Rattle.host_table.specs.Writing.{Gathers, Writes};
ghost use Rattle.journal_text.specs.declared.journal.JournalFault.{JournalFault};
ghost use Rattle.journal_text.specs.declared.journal.JournalFault.TheVariants.{BadLine, TooLong};
ghost use Rattle.journal_text.specs.declared.rewriting.RewriteFault.TheVariants.{Journal, Write};
ghost use Rattle.journal_text.specs.declared.text.Format.TheVariants.{First, Second};
ghost use Rattle.journal_text.specs.declared.text.JournalText.{JournalText};
ghost use Rattle.journal_text.specs.declared.text.Line.{Line};
ghost use Rattle.journal_text.specs.Journals.{IsBadLine, IsReading, file_text, line_text, most_bytes, rows_of, text_of};
ghost use Rattle.journal_text.specs.Lines.{IsFile, IsLine};
ghost use Rattle.journal_text.specs.Reader.{IsClocked, times_after};
ghost use Rattle.journal_text.specs.SoFar.{IsReadBy};
ghost use Rattle.journal_text.specs.Words.{IsRow, file_words, last_words, line_words, words_of};

use crate::entry::place_read;
use crate::journal::{JournalFault, read_with};
use crate::keeping::Nothing;
use crate::reading::Reader;
use crate::text::Format;
use crate::times::{start_times, time_at};
use crate::writing::{put_first, put_last};
use host_table::WriteRoom;
use host_table::lines::Piece;
use host_table::putting::{put_pieces, send};
use line_text::{is_word, split_row, split_word};
use outside::{Failed, Sink, write_whole};
use std::alloc::Global;

/// Why a journal was not written in the second form.
#[derive(Clone, Copy, Debug, PartialEq, Eq)]
pub enum RewriteFault {
    /// The bytes are no journal, or memory was wanted: nothing was written.
    Journal(JournalFault),
    /// A write failed.
    Write,
}

/// Writes the journal that these bytes are in the second form. All of it is read before anything is written,
/// and no file and no entry is kept: beside the bytes this takes the memory of one line, of its contents and
/// their digits, and 64 KiB.
pub fn rewrite<K: Sink>(alloc: Global, sink: &mut K, bytes: &[u8]) -> Result<(), RewriteFault>
    ensures written { OnOk result ((text : JournalText) × IsReading bytes.now text × Appends (K.held sink.old) (K.held sink.new) (text_of (rows_of Second text))) }
    ensures too_long { (result ≡ Err (Journal TooLong)) ↔ (most_bytes < length bytes.now) }
    ensures bad { (line : ℕ) → result ≡ Err (Journal (BadLine line)) → IsBadLine bytes.now line }
    ensures unwritten { (fault : JournalFault) → result ≡ Err (Journal fault) → sink.new ≡ sink.old }
    ensures front { result ≡ Err Write → (text : JournalText) × IsReading bytes.now text × GrewByPrefix (K.held sink.old) (K.held sink.new) (text_of (rows_of Second text)) }
    ensures never_falls { K.write_faults sink.old ≤ K.write_faults sink.new }
    ensures failed { result ≡ Err Write → Rose (K.write_faults sink.old) (K.write_faults sink.new) }
{
    let (reader, _nothing) = match read_with(alloc, bytes, Nothing) {
        Ok(read) => read,
        Err(fault) => return Err(RewriteFault::Journal(fault)),
    };
    let Ok(room) = WriteRoom::new(alloc) else {
        return Err(RewriteFault::Journal(JournalFault::Memory));
    };
    match write_again(sink, room, bytes, &reader) {
        Ok(()) => return Ok(()),
        Err(Failed) => return Err(RewriteFault::Write),
    }
}

/// Writes a journal that was read in the second form.
fn write_again<K: Sink>(
    sink: &mut K,
    room: WriteRoom,
    bytes: &[u8],
    reader: &Reader,
) -> Result<(), Failed>
    requires { (text : JournalText) × IsReadBy bytes.now reader.now text }
    ensures bytes { (text : JournalText) × IsReadBy bytes.now reader.now text × Writes (K.held sink.old) (K.held sink.new) result (text_of (rows_of Second text)) }
    ensures never_falls { K.write_faults sink.old ≤ K.write_faults sink.new }
    ensures failed { OnErr result (Rose (K.write_faults sink.old) (K.write_faults sink.new)) }
{
    match reader.form {
        Format::First => return write_first(sink, room, bytes, reader),
        Format::Second => return write_whole(sink, bytes),
    }
}

/// Writes a journal of the first form that was read in the second form.
fn write_first<K: Sink>(
    sink: &mut K,
    mut room: WriteRoom,
    bytes: &[u8],
    reader: &Reader,
) -> Result<(), Failed>
    requires form { reader.now.form ≡ First }
    requires read { (text : JournalText) × IsReadBy bytes.now reader.now text }
    ensures bytes { (text : JournalText) × IsReadBy bytes.now reader.now text × Writes (K.held sink.old) (K.held sink.new) result (text_of (rows_of Second text)) }
    ensures never_falls { K.write_faults sink.old ≤ K.write_faults sink.new }
    ensures failed { OnErr result (Rose (K.write_faults sink.old) (K.write_faults sink.new)) }
{
    room.bytes.clear();
    match put_rows(sink, &mut room, bytes, reader) {
        Ok(()) => {}
        Err(Failed) => return Err(Failed),
    }
    send(sink, &mut room)
}

/// Puts the lines of a journal of the first form as the second form has them.
fn put_rows<K: Sink>(
    sink: &mut K,
    room: &mut WriteRoom,
    bytes: &[u8],
    reader: &Reader,
) -> Result<(), Failed>
    requires form { reader.now.form ≡ First }
    requires read { (text : JournalText) × IsReadBy bytes.now reader.now text }
    ensures bytes { (text : JournalText) × IsReadBy bytes.now reader.now text × Gathers (K.held sink.old) (K.held sink.new) room.old.bytes.items room.new.bytes.items result (text_of (rows_of Second text)) }
    ensures never_falls { K.write_faults sink.old ≤ K.write_faults sink.new }
    ensures failed { OnErr result (Rose (K.write_faults sink.old) (K.write_faults sink.new)) }
{
    match put_first(sink, room, reader.opened, reader.first) {
        Ok(()) => {}
        Err(Failed) => return Err(Failed),
    }
    let mut nows = start_times(reader.opened);
    let mut left = behind_first(bytes);
    'rows: while let Some((row, behind)) = split_row(left) {
        match put_row(sink, room, &mut nows, row) {
            Ok(()) => {}
            Err(Failed) => return Err(Failed),
        }
        left = behind;
    }
    put_last(sink, room, reader.entries)
}

/// What stands behind the first line.
fn behind_first(bytes: &[u8]) -> &[u8]
    ensures { (row rest : List ℕ) → IsRow row → bytes.now ≡ row ++ 10 ∷ rest → result.now ≡ rest }
{
    match split_row(bytes) {
        Some((_, rest)) => return rest,
        None => return bytes,
    }
}

/// Puts the line of a file or of an entry as the second form has it, and goes on with the times. The last
/// line is left out.
fn put_row<K: Sink>(
    sink: &mut K,
    room: &mut WriteRoom,
    nows: &mut [u64; 16],
    row: &[u8],
) -> Result<(), Failed>
    ensures file { (file : List ℕ × List ℕ) → IsFile file → words_of row.now ≡ file_words file → Gathers (K.held sink.old) (K.held sink.new) room.old.bytes.items room.new.bytes.items result (file_text file) × (nows.new ≡ nows.old) }
    ensures line { (line : Line) → IsLine First line → IsClocked First nows.old line → words_of row.now ≡ line_words First line → Gathers (K.held sink.old) (K.held sink.new) room.old.bytes.items room.new.bytes.items result (line_text Second line) × (nows.new ≡ times_after nows.old line) }
    ensures last { (entries : ℕ) → words_of row.now ≡ last_words First entries → Gathers (K.held sink.old) (K.held sink.new) room.old.bytes.items room.new.bytes.items result [] × (nows.new ≡ nows.old) }
    ensures never_falls { K.write_faults sink.old ≤ K.write_faults sink.new }
    ensures failed { OnErr result (Rose (K.write_faults sink.old) (K.write_faults sink.new)) }
{
    if is_file(row) {
        return put_pieces(sink, room, &[Piece::Text(row), Piece::LineFeed]);
    }
    put_entry(sink, room, nows, row)
}

/// Whether a line that may stand in a journal behind the first is that of an opening file.
fn is_file(row: &[u8]) -> bool
    ensures file { (file : List ℕ × List ℕ) → words_of row.now ≡ file_words file → result ≡ true }
    ensures line { (line : Line) → IsLine First line → words_of row.now ≡ line_words First line → result ≡ false }
    ensures last { (entries : ℕ) → words_of row.now ≡ last_words First entries → result ≡ false }
{
    match split_word(row) {
        Some((kind, _)) => return is_word(kind, b"file".as_slice()),
        None => return false,
    }
}

/// Puts the line of an entry with the time of its shard. What is no such line is left out.
fn put_entry<K: Sink>(
    sink: &mut K,
    room: &mut WriteRoom,
    nows: &mut [u64; 16],
    row: &[u8],
) -> Result<(), Failed>
    ensures line { (line : Line) → IsLine First line → IsClocked First nows.old line → words_of row.now ≡ line_words First line → Gathers (K.held sink.old) (K.held sink.new) room.old.bytes.items room.new.bytes.items result (line_text Second line) × (nows.new ≡ times_after nows.old line) }
    ensures last { (entries : ℕ) → words_of row.now ≡ last_words First entries → Gathers (K.held sink.old) (K.held sink.new) room.old.bytes.items room.new.bytes.items result [] × (nows.new ≡ nows.old) }
    ensures never_falls { K.write_faults sink.old ≤ K.write_faults sink.new }
    ensures failed { OnErr result (Rose (K.write_faults sink.old) (K.write_faults sink.new)) }
{
    let Some((place, rest)) = place_read(row) else {
        return Ok(());
    };
    let now = time_at(nows, place.shard, place.moment);
    let pieces = [
        Piece::Number(place.stamp),
        Piece::Space,
        Piece::Number(u64::from(place.shard)),
        Piece::Space,
        Piece::Number(u64::from(place.pass)),
        Piece::Space,
        Piece::Number(place.moment),
        Piece::Space,
        Piece::Number(now),
        Piece::Space,
        Piece::Text(rest),
        Piece::LineFeed,
    ];
    put_pieces(sink, room, &pieces)
}
