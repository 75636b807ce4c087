//! Whole pieces over a sink or a link.
ghost use Rattle.std.specs.Prelude.{◌≡◌, ◌≤◌, ◌<◌, ℕ, length, take, vec_len, IfOk, OnOk, OnErr};
ghost use Rattle.std.specs.Io.KnownBytes.{Appends, Consumes, IsAtEnd, ReadConsumes};
ghost use Rattle.outside.specs.Faults.{Rose};
ghost use Rattle.outside.specs.Stream.{GrewByPrefix};

use crate::{Failed, Link, Log, Sink, Source};
use std::alloc::Global;
use wopi_text::Memory;

/// How many bytes of an input are read at once.
const PIECE: usize = 65_536;

/// Where a piece of an input goes.
pub fn piece_room(alloc: Global) -> Result<Vec<u8>, Memory>
    ensures { IfOk result (λ piece. vec_len piece ≡ 65536) }
{
    let mut piece = Vec::new(alloc);
    piece.resize(PIECE, 0u8)?;
    Ok(piece)
}

/// Reads a piece of an input, and says how many bytes came; 0 only at its end.
pub fn read_piece<S: Source>(source: &mut S, piece: &mut Vec<u8>) -> Result<usize, Failed>
    requires { 0 < vec_len piece.old }
    ensures fits { IfOk result (λ count. count ≤ vec_len piece.new) }
    ensures bytes { IfOk result (λ count. Consumes (S.left source.old) (S.left source.new) (take count piece.new.items)) }
    ensures end { IfOk result (λ count. count ≡ 0 → IsAtEnd (S.left source.new)) }
    ensures room { vec_len piece.new ≡ vec_len piece.old }
    ensures beside { S.beside_reads source.new ≡ S.beside_reads source.old }
    ensures never_falls { S.read_faults source.old ≤ S.read_faults source.new }
    ensures fine { OnOk result (S.read_faults source.new ≡ S.read_faults source.old) }
    ensures failed { OnErr result (Rose (S.read_faults source.old) (S.read_faults source.new)) }
{
    source.read(&mut piece[0..])
}

/// Appends the whole piece, in as many writes as it takes.
pub fn write_whole<K: Sink>(sink: &mut K, piece: &[u8]) -> Result<(), Failed>
    ensures whole { OnOk result (Appends (K.held sink.old) (K.held sink.new) piece.now) }
    ensures prefix { OnErr result (GrewByPrefix (K.held sink.old) (K.held sink.new) piece.now) }
    ensures beside { K.beside_writes sink.new ≡ K.beside_writes sink.old }
    ensures never_falls { K.write_faults sink.old ≤ K.write_faults sink.new }
    ensures failed { OnErr result (Rose (K.write_faults sink.old) (K.write_faults sink.new)) }
{
    let mut rest = piece;
    while !rest.is_empty() {
        let count = sink.write(rest)?;
        rest = &rest[count..];
    }
    Ok(())
}

/// A read from a link.
pub fn read_link<L: Link>(link: &mut L, into: &mut [u8]) -> Result<usize, Failed>
    ensures fits { IfOk result (λ n. n ≤ length into.old) }
    ensures bytes { ReadConsumes (L.left link.old) (L.left link.new) result into.new }
    ensures held { L.held link.new ≡ L.held link.old }
    ensures write_faults { L.write_faults link.new ≡ L.write_faults link.old }
    ensures references { L.references link.new ≡ L.references link.old }
    ensures never_falls { L.read_faults link.old ≤ L.read_faults link.new }
    ensures fine { OnOk result (L.read_faults link.new ≡ L.read_faults link.old) }
    ensures failed { OnErr result (Rose (L.read_faults link.old) (L.read_faults link.new)) }
{
    link.read(into)
}

/// Appends the whole piece to a link.
pub fn write_link<L: Link>(link: &mut L, piece: &[u8]) -> Result<(), Failed>
    ensures whole { OnOk result (Appends (L.held link.old) (L.held link.new) piece.now) }
    ensures prefix { OnErr result (GrewByPrefix (L.held link.old) (L.held link.new) piece.now) }
    ensures left { L.left link.new ≡ L.left link.old }
    ensures read_faults { L.read_faults link.new ≡ L.read_faults link.old }
    ensures references { L.references link.new ≡ L.references link.old }
    ensures never_falls { L.write_faults link.old ≤ L.write_faults link.new }
    ensures failed { OnErr result (Rose (L.write_faults link.old) (L.write_faults link.new)) }
{
    write_whole(link, piece)
}

/// Appends the whole piece to a log, and syncs nothing.
pub fn append<L: Log>(log: &mut L, piece: &[u8]) -> Result<(), Failed>
    ensures whole { OnOk result (Appends (L.held log.old) (L.held log.new) piece.now) }
    ensures prefix { OnErr result (GrewByPrefix (L.held log.old) (L.held log.new) piece.now) }
    ensures synced { L.synced log.new ≡ L.synced log.old }
    ensures never_falls { L.write_faults log.old ≤ L.write_faults log.new }
    ensures failed { OnErr result (Rose (L.write_faults log.old) (L.write_faults log.new)) }
{
    write_whole(log, piece)
}
