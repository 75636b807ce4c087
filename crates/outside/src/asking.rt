//! A request over a link, and its reply.
ghost use Rattle.std.specs.Prelude.{◌≡◌, ◌≢◌, ◌≤◌, ◌+◌, ◌⊎◌, ◌++◌, true, false, ℕ, List, Err, IfOk, OnOk, OnErr, vec_len, length, take, drop, ◌<◌};
ghost use Rattle.std.specs.Io.KnownBytes.{Appends, Consumes, IsAtEnd, Keeps};
ghost use Rattle.outside.specs.Faults.{Rose};
ghost use Rattle.outside.specs.Stream.{GrewByPrefix, IsCut};

use crate::{Failed, Link, read_link, write_link};
use std::alloc::Global;
use wopi_text::Memory;

/// So many bytes of a reply are asked for at once.
const PIECE: usize = 65_536;

/// Tells where a reply ends.
pub trait ReplyEnd {
    /// The bytes begin with a whole reply, so that nothing more is read.
    ghost whole: { Self → List ℕ → Type 0 };

    /// Whether they do.
    fn is_whole(&self, bytes: &[u8]) -> Result<bool, Memory>
        ensures whole { IfOk result (λ is. is ≡ true → whole self.now bytes.now) }
        ensures part { IfOk result (λ is. is ≡ false → ¬ (whole self.now bytes.now)) };
}

/// Why a request has no reply.
#[derive(Clone, Copy, Debug, PartialEq, Eq)]
pub enum AskFault {
    /// The link failed at a read.
    ReadFault,
    /// The link failed at a write.
    WriteFault,
    /// More bytes came than a reply may have.
    TooLong,
    Memory,
}

/// Makes room for a piece behind what came.
fn open_room(bytes: &mut Vec<u8>) -> Result<(), Memory>
    ensures front { OnOk result (take (vec_len bytes.old) bytes.new.items ≡ bytes.old.items) }
    ensures len { OnOk result (vec_len bytes.new ≡ vec_len bytes.old + 65536) }
{
    bytes.resize(bytes.len() + PIECE, 0u8)?;
    Ok(())
}

/// Reads once into the vector, from a place on.
fn read_behind<L: Link>(link: &mut L, space: &mut Vec<u8>, from: usize) -> Result<usize, Failed>
    requires { from < vec_len space.old }
    ensures fits { IfOk result (λ n. from + n ≤ vec_len space.new) }
    ensures front { take from space.new.items ≡ take from space.old.items }
    ensures bytes { IfOk result (λ n. Consumes (L.left link.old) (L.left link.new) (take n (drop from space.new.items))) }
    ensures end { IfOk result (λ n. n ≡ 0 → IsAtEnd (L.left link.new)) }
    ensures kept { OnErr result (Keeps (L.left link.old) (L.left link.new)) }
    ensures len { vec_len space.new ≡ vec_len space.old }
    ensures held { L.held link.new ≡ L.held link.old }
    ensures write_faults { L.write_faults link.new ≡ L.write_faults link.old }
    ensures references { L.references link.new ≡ L.references link.old }
    ensures never_falls { L.read_faults link.old ≤ L.read_faults link.new }
    ensures fine { OnOk result (L.read_faults link.new ≡ L.read_faults link.old) }
    ensures failed { OnErr result (Rose (L.read_faults link.old) (L.read_faults link.new)) }
{
    read_link(link, &mut space[from..])
}

/// Reads once, to the end of what came before. 0 says that the link ended.
fn read_more<L: Link>(link: &mut L, bytes: &mut Vec<u8>) -> Result<usize, AskFault>
    ensures more { IfOk result (λ n. vec_len bytes.new ≡ vec_len bytes.old + n) }
    ensures taken { IfOk result (λ n. (piece : List ℕ) × (bytes.new.items ≡ bytes.old.items ++ piece) × Consumes (L.left link.old) (L.left link.new) piece) }
    ensures end { IfOk result (λ n. n ≡ 0 → IsAtEnd (L.left link.new)) }
    ensures kept { OnErr result (Keeps (L.left link.old) (L.left link.new)) }
    ensures held { L.held link.new ≡ L.held link.old }
    ensures write_faults { L.write_faults link.new ≡ L.write_faults link.old }
    ensures references { L.references link.new ≡ L.references link.old }
    ensures never_falls { L.read_faults link.old ≤ L.read_faults link.new }
    ensures fine { result ≢ Err AskFault.ReadFault → L.read_faults link.new ≡ L.read_faults link.old }
    ensures failed { result ≡ Err AskFault.ReadFault → Rose (L.read_faults link.old) (L.read_faults link.new) }
    ensures no_write { result ≢ Err AskFault.WriteFault }
    ensures not_long { result ≢ Err AskFault.TooLong }
{
    let at = bytes.len();
    match open_room(bytes) {
        Ok(()) => {}
        Err(Memory) => return Err(AskFault::Memory),
    }
    match read_behind(link, bytes, at) {
        Ok(count) => {
            bytes.truncate(at + count);
            Ok(count)
        }
        Err(Failed) => Err(AskFault::ReadFault),
    }
}

/// Reads until a whole reply is there, or the link ended.
fn read_reply<L: Link, E: ReplyEnd>(
    alloc: Global,
    link: &mut L,
    end: &E,
    most: usize,
) -> Result<Vec<u8>, AskFault>
    ensures reply { IfOk result (λ reply. Consumes (L.left link.old) (L.left link.new) reply.items) }
    ensures done { IfOk result (λ reply. E.whole end.now reply.items ⊎ IsAtEnd (L.left link.new)) }
    ensures prompt { result ≡ Err AskFault.ReadFault → IsCut (L.left link.old) (L.left link.new) (λ bytes. ¬ (E.whole end.now bytes)) }
    ensures too_long { result ≡ Err AskFault.TooLong → IsCut (L.left link.old) (L.left link.new) (λ bytes. most < length bytes) }
    ensures held { L.held link.new ≡ L.held link.old }
    ensures write_faults { L.write_faults link.new ≡ L.write_faults link.old }
    ensures references { L.references link.new ≡ L.references link.old }
    ensures never_falls { L.read_faults link.old ≤ L.read_faults link.new }
    ensures fine { result ≢ Err AskFault.ReadFault → L.read_faults link.new ≡ L.read_faults link.old }
    ensures failed { result ≡ Err AskFault.ReadFault → Rose (L.read_faults link.old) (L.read_faults link.new) }
    ensures no_write { result ≢ Err AskFault.WriteFault }
{
    let mut bytes = Vec::new(alloc);
    'reading: while bytes.len() <= most {
        match end.is_whole(&bytes) {
            Ok(true) => return Ok(bytes),
            Ok(false) => {}
            Err(Memory) => return Err(AskFault::Memory),
        }
        match read_more(link, &mut bytes) {
            Ok(count) => {
                if count == 0 {
                    return Ok(bytes);
                }
            }
            Err(fault) => return Err(fault),
        }
    }
    Err(AskFault::TooLong)
}

/// Sends the request, and then reads its reply: until it is whole, or the link ends. A reply of more
/// than `most` bytes is a fault, and so may be one that is at most a piece shorter. What a read brought
/// behind a reply stands behind it.
pub fn ask_link<L: Link, E: ReplyEnd>(
    alloc: Global,
    link: &mut L,
    end: &E,
    request: &[u8],
    most: usize,
) -> Result<Vec<u8>, AskFault>
    ensures reply { IfOk result (λ reply. Consumes (L.left link.old) (L.left link.new) reply.items) }
    ensures done { IfOk result (λ reply. E.whole end.now reply.items ⊎ IsAtEnd (L.left link.new)) }
    ensures sent { OnOk result (Appends (L.held link.old) (L.held link.new) request.now) }
    ensures front { OnErr result (GrewByPrefix (L.held link.old) (L.held link.new) request.now) }

    // A read that fails, and so each read, comes behind the whole request, and where what was read is no
    // whole reply; and where none failed, none is counted.
    ensures behind { result ≡ Err AskFault.ReadFault → Appends (L.held link.old) (L.held link.new) request.now }
    ensures prompt { result ≡ Err AskFault.ReadFault → IsCut (L.left link.old) (L.left link.new) (λ bytes. ¬ (E.whole end.now bytes)) }
    ensures too_long { result ≡ Err AskFault.TooLong → IsCut (L.left link.old) (L.left link.new) (λ bytes. most < length bytes) }
    ensures fine { result ≢ Err AskFault.ReadFault → L.read_faults link.new ≡ L.read_faults link.old }

    ensures references { L.references link.new ≡ L.references link.old }
    ensures reads_count { L.read_faults link.old ≤ L.read_faults link.new }
    ensures writes_count { L.write_faults link.old ≤ L.write_faults link.new }
    ensures read_fault { result ≡ Err AskFault.ReadFault → Rose (L.read_faults link.old) (L.read_faults link.new) }
    ensures write_fault { result ≡ Err AskFault.WriteFault → Rose (L.write_faults link.old) (L.write_faults link.new) }
{
    match write_link(link, request) {
        Ok(()) => read_reply(alloc, link, end, most),
        Err(Failed) => Err(AskFault::WriteFault),
    }
}
