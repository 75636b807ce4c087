//! The bytes of a connection that were read and not yet used.
ghost use Rattle.std.specs.Prelude.{◌≡◌, ◌≤◌, ◌<◌, ◌+◌, ◌-◌, [], ◌++◌, IfOk, OnOk, OnErr, length, take, drop, vec_len, vec_capacity};
ghost use Rattle.std.specs.Io.KnownBytes.{Consumes, Keeps, IsAtEnd, prepend_known};
ghost use Rattle.outside.specs.Faults.{Rose};
ghost use Rattle.wopi_http.specs.HeadReads.{HeadSays};

use crate::head::{FIELD_LIMIT, HeadRead, read_head};
use httparse::spans::{EMPTY_HEADER_SPAN, HeaderSpan};
use outside::{Failed, Source};
use std::alloc::Global;
use std::marker::Model;
use wopi_text::Memory;

/// The bytes that a buffer has room for.
pub(crate) const ROOM: usize = 32768;

/// A read asks for so many bytes at least.
const PIECE: usize = 16384;

/// Bytes that were read from a connection and not yet used. All its memory, 32,768 bytes, is taken
/// when it is made. It keeps where its bytes begin, so that a message that is taken off moves
/// nothing behind it, and each byte is moved at most once.
#[derive(Drop)]
pub struct Buffer {
    alloc: Global,
    space: Vec<u8>,
    at: usize,
    end: usize,
    // The place of the spans of a head while it is read.
    headers: [HeaderSpan; FIELD_LIMIT],
}

impl Model for Buffer {
    ghost use Rattle.std.specs.Prelude.{◌≡◌, ◌≤◌, ◌-◌, take, drop, vec_len, List, ℕ};

    ghost Value = { List ℕ };

    ghost view = { λ b. take (b.end - b.at) (drop b.at b.space.items) };

    ghost invariant = { λ b. (b.at ≤ b.end) × (b.end ≤ 32768) × (vec_len b.space ≡ 32768) };
}

impl Buffer {
    /// An empty buffer.
    pub fn new(alloc: Global) -> Result<Buffer, Memory>
        ensures { IfOk result (λ b. b ≡ []) }
    {
        let mut space = Vec::new(alloc);
        space.resize(ROOM, 0u8)?;
        Ok(Buffer {
            alloc,
            space,
            at: 0,
            end: 0,
            headers: [EMPTY_HEADER_SPAN; FIELD_LIMIT],
        })
    }

    /// What bodies take their memory from.
    pub(crate) fn allocator(&self) -> Global {
        self.alloc
    }

    /// How many bytes were read and not yet used.
    pub fn held(&self) -> usize
        ensures value { result ≡ length self.now }
        ensures few { result ≤ 32768 }
    {
        self.end - self.at
    }

    pub(crate) fn unread(&self) -> &[u8]
        ensures { result.now ≡ self.now }
    {
        &self.space[self.at..self.end]
    }

    /// Looks for a head at the front of what is there.
    pub(crate) fn head(&mut self) -> Result<HeadRead, Memory>
        ensures says { IfOk result (HeadSays self.old) }
        ensures same { self.new ≡ self.old }
    {
        read_head(
            self.alloc,
            &self.space[self.at..self.end],
            &mut self.headers,
        )
    }

    /// Takes the first n bytes off.
    pub(crate) fn skip(&mut self, n: usize)
        requires { n ≤ length self.old }
        ensures { self.new ≡ drop n self.old }
    {
        self.at += n;
    }

    /// Reads once, behind what is there. 0 says that the input ended.
    pub(crate) fn fill<S: Source>(&mut self, source: &mut S) -> Result<usize, Failed>
        requires { length self.old < 16384 }
        ensures unread { OnOk result (Keeps (prepend_known self.old (S.left source.old)) (prepend_known self.new (S.left source.new))) }
        ensures grew { IfOk result (λ n. length self.new ≡ length self.old + n) }
        ensures end { IfOk result (λ n. n ≡ 0 → IsAtEnd (S.left source.new)) }
        ensures same { IfOk result (λ n. n ≡ 0 → self.new ≡ self.old) }
        ensures kept { OnErr result (Keeps (S.left source.old) (S.left source.new)) }
        ensures beside { S.beside_reads source.new ≡ S.beside_reads source.old }
        ensures never_falls { S.read_faults source.old ≤ S.read_faults source.new }
        ensures fine { OnOk result (S.read_faults source.new ≡ S.read_faults source.old) }
        ensures failed { OnErr result (Rose (S.read_faults source.old) (S.read_faults source.new)) }
    {
        make_room(&mut self.space, &mut self.at, &mut self.end);
        match read_behind(source, &mut self.space, self.end) {
            Ok(count) => {
                self.end += count;
                Ok(count)
            }
            Err(Failed) => Err(Failed),
        }
    }
}

/// Moves the bytes to the front where little room is left behind them.
fn make_room(space: &mut Vec<u8>, at: &mut usize, end: &mut usize)
    requires inside { at.old ≤ end.old }
    requires all { end.old ≤ 32768 }
    requires space { vec_len space.old ≡ 32768 }
    requires few { end.old - at.old < 16384 }
    ensures same { take (end.new - at.new) (drop at.new space.new.items) ≡ take (end.old - at.old) (drop at.old space.old.items) }
    ensures count { end.new - at.new ≡ end.old - at.old }
    ensures inside { at.new ≤ end.new }
    ensures room { end.new ≤ 16384 }
    ensures space { vec_len space.new ≡ 32768 }
{
    if *end <= ROOM - PIECE {
        return;
    }
    space.copy_within(*at..*end, 0);
    *end -= *at;
    *at = 0;
}

/// Reads once into the vector, from a place on.
pub(crate) fn read_behind<S: Source>(
    source: &mut S,
    space: &mut Vec<u8>,
    from: usize,
) -> Result<usize, Failed>
    requires { from < vec_len space.old }
    ensures fits { IfOk result (λ n. from + n ≤ vec_len space.new) }
    ensures front { take from space.new.items ≡ take from space.old.items }
    ensures bytes { IfOk result (λ n. Consumes (S.left source.old) (S.left source.new) (take n (drop from space.new.items))) }
    ensures end { IfOk result (λ n. n ≡ 0 → IsAtEnd (S.left source.new)) }
    ensures kept { OnErr result (Keeps (S.left source.old) (S.left source.new)) }
    ensures len { vec_len space.new ≡ vec_len space.old }
    ensures capacity { vec_capacity space.new ≡ vec_capacity space.old }
    ensures beside { S.beside_reads source.new ≡ S.beside_reads source.old }
    ensures never_falls { S.read_faults source.old ≤ S.read_faults source.new }
    ensures fine { OnOk result (S.read_faults source.new ≡ S.read_faults source.old) }
    ensures failed { OnErr result (Rose (S.read_faults source.old) (S.read_faults source.new)) }
{
    source.read(&mut space[from..])
}
