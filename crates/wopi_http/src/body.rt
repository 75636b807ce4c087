//! The place of a body, and bytes read into it.
ghost use Rattle.std.specs.Prelude.{◌≡◌, ◌≤◌, ◌<◌, ◌+◌, ◌-◌, ◌++◌, IfOk, OnOk, OnErr, length, take, drop, vec_len, vec_capacity};
ghost use Rattle.std.specs.Io.KnownBytes.{Consumes, IsAtEnd, prepend_known};
ghost use Rattle.outside.specs.Faults.{Rose};
ghost use Rattle.wopi_http.specs.Limits.{body_limit};
ghost use Rattle.wopi_http.specs.Waits.{Takes};
ghost use Rattle.outside.specs.Stream.{IsCut};

use crate::buffer::{Buffer, read_behind};
use crate::framing::BODY_LIMIT;
use outside::{Failed, Source};
use wopi_text::Memory;

/// So many bytes of a body's place are filled with zeros at first, where it needs them.
const FIRST: usize = 65536;

/// How far a body that has so many bytes is read next, on the way to its end: to sixteen times what
/// has come. So memory that a head merely announces is reserved, but isn't touched.
fn next_goal(have: usize, end: usize) -> usize
    requires small { have ≤ body_limit }
    requires ahead { have < end }
    ensures ahead { have < result }
    ensures within { result ≤ end }
{
    end.min(have * 16 + FIRST)
}

/// Makes room for so many more bytes of a body: for twice what there is, but for no more than a
/// body may have, unless they ask for more.
pub(crate) fn reserve_place(body: &mut Vec<u8>, count: usize) -> Result<(), Memory>
    requires { vec_len body.old + count ≤ body_limit }
    ensures same { body.new.items ≡ body.old.items }
    ensures room { OnOk result (vec_len body.new + count ≤ vec_capacity body.new) }
{
    let end = body.len() + count;
    if end <= body.capacity() {
        return Ok(());
    }
    let room = (body.len() * 2).min(BODY_LIMIT as usize).max(end);
    body.reserve_exact(room - body.len())?;
    Ok(())
}

/// Fills a body up to a goal with zeros, which the bytes will replace. Its room is there.
fn open_place(body: &mut Vec<u8>, goal: usize)
    requires ahead { vec_len body.old ≤ goal }
    requires room { goal ≤ vec_capacity body.old }
    ensures front { take (vec_len body.old) body.new.items ≡ body.old.items }
    ensures len { vec_len body.new ≡ goal }
    ensures capacity { vec_capacity body.old ≤ vec_capacity body.new }
{
    match body.resize(goal, 0u8) {
        Ok(()) => {}
        Err(_) => unreachable!(),
    }
}

/// Moves bytes that the buffer holds to the end of a body, whose room is there.
fn take_held(buffer: &mut Buffer, body: &mut Vec<u8>, count: usize)
    requires held { count ≤ length buffer.old }
    requires room { vec_len body.old + count ≤ vec_capacity body.old }
    ensures body { body.new.items ≡ body.old.items ++ take count buffer.old }
    ensures buffer { buffer.new ≡ drop count buffer.old }
    ensures capacity { vec_capacity body.old ≤ vec_capacity body.new }
{
    let piece = &buffer.unread()[..count];
    match body.extend_from_slice(piece) {
        Ok(()) => {}
        Err(_) => unreachable!(),
    }
    buffer.skip(count);
}

/// Reads into a body's place from its filled part on, until it is full or the input ended. Answers
/// how far it is filled.
fn read_to_end<S: Source>(
    source: &mut S,
    body: &mut Vec<u8>,
    filled: usize,
) -> Result<usize, Failed>
    requires { filled ≤ vec_len body.old }
    ensures within { IfOk result (λ n. (filled ≤ n) × (n ≤ vec_len body.new)) }
    ensures taken { IfOk result (λ n. Takes (S.left source.old) (S.left source.new) (take filled body.old.items) (take n body.new.items) (n - filled)) }
    ensures end { IfOk result (λ n. n < vec_len body.new → IsAtEnd (S.left source.new)) }
    ensures len { vec_len body.new ≡ vec_len body.old }
    ensures capacity { vec_capacity body.new ≡ vec_capacity body.old }
    ensures cut { OnErr result (IsCut (S.left source.old) (S.left source.new) (λ bytes. filled + length bytes < vec_len body.old)) }
    ensures beside { S.beside_reads source.new ≡ S.beside_reads source.old }
    ensures never_falls { S.read_faults source.old ≤ S.read_faults source.new }
    ensures fine { OnOk result (S.read_faults source.new ≡ S.read_faults source.old) }
    ensures failed { OnErr result (Rose (S.read_faults source.old) (S.read_faults source.new)) }
{
    let mut done = filled;
    'reading: while done < body.len() {
        match read_behind(source, body, done) {
            Ok(count) => {
                if count == 0 {
                    return Ok(done);
                }
                done += count;
            }
            Err(Failed) => return Err(Failed),
        }
    }
    Ok(done)
}

/// Reads so many bytes straight to the end of a body, whose room is there. Answers how many came
/// before the input ended.
fn read_more<S: Source>(source: &mut S, body: &mut Vec<u8>, count: usize) -> Result<usize, Failed>
    requires small { vec_len body.old + count ≤ body_limit }
    requires room { vec_len body.old + count ≤ vec_capacity body.old }
    ensures within { IfOk result (λ n. n ≤ count) }
    ensures taken { IfOk result (λ n. Takes (S.left source.old) (S.left source.new) body.old.items body.new.items n) }
    ensures end { IfOk result (λ n. n < count → IsAtEnd (S.left source.new)) }
    ensures cut { OnErr result (IsCut (S.left source.old) (S.left source.new) (λ bytes. length bytes < count)) }
    ensures beside { S.beside_reads source.new ≡ S.beside_reads source.old }
    ensures never_falls { S.read_faults source.old ≤ S.read_faults source.new }
    ensures fine { OnOk result (S.read_faults source.new ≡ S.read_faults source.old) }
    ensures failed { OnErr result (Rose (S.read_faults source.old) (S.read_faults source.new)) }
{
    let start = body.len();
    let end = start + count;
    'growing: while body.len() < end {
        let have = body.len();
        let goal = next_goal(have, end);
        open_place(body, goal);
        match read_to_end(source, body, have) {
            Ok(filled) => {
                body.truncate(filled);
                if filled < goal {
                    return Ok(filled - start);
                }
            }
            Err(Failed) => return Err(Failed),
        }
    }
    Ok(count)
}

/// Takes so many bytes to the end of a body, whose room is there: those that the buffer holds, and
/// the others straight from the source. Answers how many came before the input ended.
pub(crate) fn take_bytes<S: Source>(
    source: &mut S,
    buffer: &mut Buffer,
    body: &mut Vec<u8>,
    count: usize,
) -> Result<usize, Failed>
    requires small { vec_len body.old + count ≤ body_limit }
    requires room { vec_len body.old + count ≤ vec_capacity body.old }
    ensures within { IfOk result (λ n. n ≤ count) }
    ensures taken { IfOk result (λ n. Takes (prepend_known buffer.old (S.left source.old)) (prepend_known buffer.new (S.left source.new)) body.old.items body.new.items n) }
    ensures end { IfOk result (λ n. n < count → IsAtEnd (prepend_known buffer.new (S.left source.new))) }
    ensures straight { buffer.new ≡ drop count buffer.old }
    ensures cut { OnErr result (IsCut (prepend_known buffer.old (S.left source.old)) (S.left source.new) (λ bytes. length bytes < count)) }
    ensures beside { S.beside_reads source.new ≡ S.beside_reads source.old }
    ensures never_falls { S.read_faults source.old ≤ S.read_faults source.new }
    ensures fine { OnOk result (S.read_faults source.new ≡ S.read_faults source.old) }
    ensures failed { OnErr result (Rose (S.read_faults source.old) (S.read_faults source.new)) }
{
    let held = buffer.held().min(count);
    take_held(buffer, body, held);
    if held == count {
        return Ok(count);
    }
    match read_more(source, body, count - held) {
        Ok(more) => Ok(held + more),
        Err(Failed) => Err(Failed),
    }
}
