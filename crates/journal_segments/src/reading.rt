//! Segments from a source.
ghost use Rattle.std.specs.Prelude.{◌≡◌, ◌≢◌, ◌≤◌, ◌<◌, ◌+◌, ◌^◌, ◌++◌, [], ℕ, List, Err, IfErr, IfOk, OnOk, length};
ghost use Rattle.outside.specs.Faults.{Rose};
ghost use Rattle.line_text.specs.Inputs.{HasRead};
ghost use Rattle.line_text.specs.declared.input.InputFault.TheVariants.{Read, Text};
ghost use Rattle.journal_segments.specs.declared.walking.SegmentFault.TheVariants as fault;
ghost use Rattle.journal_segments.specs.Reading.{IsBadRow, AreTooMany, HasCome, HasSeen, IsHeadless, IsLongRow, IsMissing, IsRestored, IsSeen, IsWatched, Reaches, Refuses};
ghost use Rattle.journal_segments.specs.Seen.{IsFresh};

use crate::rows::head_read;
use crate::state::State;
use crate::told::ToldShard;
use crate::walking::{MOST_LINE, SegmentFault, walk};
use crate::watching::{Nothing, Watcher};
use line_text::{InputFault, TakesText, read_text, split_row};
use outside::{Source, piece_room};
use std::alloc::Global;
use std::mem;
use wopi_text::Memory;

/// More bytes than any segment has.
const MOST_BYTES: u64 = 1_152_921_504_606_846_976;

/// The most bytes that are read at once.
const PIECE: usize = 65_536;

/// What a segment tells, and how many bytes its whole lines have: what stands behind them is to be cut.
#[derive(Drop)]
pub struct Restored {
    pub shard: u8,
    pub told: ToldShard,
    pub used: u64,
}

/// Where a reader of a segment stands.
#[derive(Drop)]
pub(crate) enum Stage {
    /// Before the end of the first line.
    First,
    /// Behind whole lines.
    Rows(State),
}

/// A segment as far as its bytes have come: what its whole lines tell, what has seen them, and what there is of the next one.
#[derive(Drop)]
pub(crate) struct SegmentReader<W> {
    pub(crate) alloc: Global,
    pub(crate) watcher: W,
    pub(crate) stage: Stage,
    pub(crate) number: u64,
    pub(crate) held: Vec<u8>,
    pub(crate) wanted: usize,
    pub(crate) size: u64,
}

/// Adds bytes to others. Where there is no room for them, the vector grows by a quarter of itself, or by these
/// bytes where they are more.
fn add(bytes: &mut Vec<u8>, piece: &[u8]) -> Result<(), Memory>
    ensures { OnOk result (bytes.new.items ≡ bytes.old.items ++ piece.now) }
{
    if bytes.capacity() - bytes.len() < piece.len() {
        bytes.reserve_exact(piece.len().max(bytes.len() / 4))?;
    }
    bytes.extend_from_slice(piece)?;
    Ok(())
}

/// A copy of what is left.
fn rest_of(alloc: Global, left: &[u8]) -> Result<Vec<u8>, Memory>
    ensures { IfOk result (λ rest. rest.items ≡ left.now) }
{
    let mut rest = Vec::new(alloc);
    rest.extend_from_slice(left)?;
    Ok(rest)
}

/// What is reached over bytes, and what of these is held.
#[derive(Drop)]
pub(crate) struct Reached {
    pub(crate) stage: Stage,
    pub(crate) number: u64,
    pub(crate) held: Vec<u8>,
    pub(crate) wanted: usize,
}

/// Takes the whole lines of what is held behind the first one.
fn go_on<W: Watcher>(
    alloc: Global,
    watcher: &mut W,
    state: State,
    number: u64,
    held: &[u8],
) -> Result<Reached, SegmentFault>
    requires few { number + length held.now < 2 ^ 62 }
    requires at { (text : List ℕ) × HasSeen W.has_seen watcher.old text held.now number state }
    ensures on { IfOk result (λ reached. (text : List ℕ) → HasSeen W.has_seen watcher.old text held.now number state → Reaches W.has_seen watcher.new text reached.stage reached.number reached.held.items reached.wanted) }
    ensures few { IfOk result (λ reached. reached.number + length reached.held.items ≤ number + length held.now) }
    ensures stops { IfErr result (λ why. (text : List ℕ) → HasSeen W.has_seen watcher.old text held.now number state → Refuses text why) }
{
    let walked = match walk(alloc, watcher, state, number, held) {
        Ok(walked) => walked,
        Err(fault) => return Err(fault),
    };
    let Ok(held) = rest_of(alloc, walked.left) else {
        return Err(SegmentFault::Memory);
    };
    Ok(Reached {
        stage: Stage::Rows(walked.state),
        number: walked.number,
        held,
        wanted: walked.wanted,
    })
}

/// Takes the first line, if it is there, and the whole ones behind it.
fn begin<W: Watcher>(alloc: Global, watcher: &mut W, held: Vec<u8>) -> Result<Reached, SegmentFault>
    requires few { length held.items + 1 < 2 ^ 62 }
    requires fresh { IsFresh W.has_seen watcher.old }
    ensures on { IfOk result (λ reached. Reaches W.has_seen watcher.new held.items reached.stage reached.number reached.held.items reached.wanted) }
    ensures few { IfOk result (λ reached. reached.number + length reached.held.items ≤ length held.items) }
    ensures stops { IfErr result (λ why. Refuses held.items why) }
{
    let Some((row, behind)) = split_row(&held) else {
        let wanted = held.len() + 1;
        if held.len() >= MOST_LINE {
            return Err(SegmentFault::Long(1));
        }
        return Ok(Reached {
            stage: Stage::First,
            number: 0,
            held,
            wanted,
        });
    };
    if row.len() >= MOST_LINE {
        return Err(SegmentFault::Long(1));
    }
    let Some(head) = head_read(row) else {
        return Err(SegmentFault::Head);
    };
    match go_on(alloc, watcher, State::new(alloc, &head), 1, behind) {
        Ok(reached) => return Ok(reached),
        Err(fault) => return Err(fault),
    }
}

/// Takes the whole lines of what is held.
fn go<W: Watcher>(
    alloc: Global,
    watcher: &mut W,
    stage: Stage,
    number: u64,
    held: Vec<u8>,
    wanted: usize,
) -> Result<Reached, SegmentFault>
    requires few { number + length held.items + 1 < 2 ^ 62 }
    requires at { (text : List ℕ) × (piece : List ℕ) × (before : List ℕ) × Reaches W.has_seen watcher.old text stage number before wanted × (held.items ≡ before ++ piece) }
    ensures on { IfOk result (λ reached. (text piece before : List ℕ) → Reaches W.has_seen watcher.old text stage number before wanted → held.items ≡ before ++ piece → Reaches W.has_seen watcher.new (text ++ piece) reached.stage reached.number reached.held.items reached.wanted) }
    ensures few { IfOk result (λ reached. reached.number + length reached.held.items ≤ number + length held.items) }
    ensures stops { IfErr result (λ why. (text piece before : List ℕ) → Reaches W.has_seen watcher.old text stage number before wanted → held.items ≡ before ++ piece → Refuses (text ++ piece) why) }
{
    if held.len() < wanted {
        return Ok(Reached {
            stage,
            number,
            held,
            wanted,
        });
    }
    match stage {
        Stage::First => match begin(alloc, watcher, held) {
            Ok(reached) => return Ok(reached),
            Err(fault) => return Err(fault),
        },
        Stage::Rows(state) => match go_on(alloc, watcher, state, number, &held) {
            Ok(reached) => return Ok(reached),
            Err(fault) => return Err(fault),
        },
    }
}

impl<W: Watcher> TakesText for SegmentReader<W> {
    ghost use Rattle.std.specs.Prelude.{◌-◌, ℕ, List};
    ghost use Rattle.journal_segments.specs.Reading.{HasCome, Refuses, most_bytes};

    type Fault = SegmentFault;

    ghost has_come = { λ reader text. HasCome W.has_seen reader text };

    ghost refuses = { Refuses };

    ghost portion = { λ reader. 65536 };

    ghost room = { λ reader. most_bytes - reader.size };

    fn portion(&self) -> usize {
        PIECE
    }

    fn take(&mut self, piece: &[u8]) -> Result<(), SegmentFault> {
        self.size += piece.len() as u64;
        if self.size > MOST_BYTES {
            return Err(SegmentFault::TooLong);
        }
        let mut held = mem::replace(&mut self.held, Vec::new(self.alloc));
        let stage = mem::replace(&mut self.stage, Stage::First);
        match add(&mut held, piece) {
            Ok(()) => {}
            Err(Memory) => return Err(SegmentFault::Memory),
        }
        let reached = match go(
            self.alloc,
            &mut self.watcher,
            stage,
            self.number,
            held,
            self.wanted,
        ) {
            Ok(reached) => reached,
            Err(fault) => return Err(fault),
        };
        self.stage = reached.stage;
        self.number = reached.number;
        self.held = reached.held;
        self.wanted = reached.wanted;
        Ok(())
    }
}

impl<W: Watcher> SegmentReader<W> {
    fn new(alloc: Global, watcher: W) -> SegmentReader<W>
        requires { IsFresh W.has_seen watcher }
        ensures { HasCome W.has_seen result [] }
    {
        SegmentReader {
            alloc,
            watcher,
            stage: Stage::First,
            number: 0,
            held: Vec::new(alloc),
            wanted: 1,
            size: 0,
        }
    }

    /// The input has come to its end.
    fn finish(self) -> Result<(Restored, W), SegmentFault>
        requires { (text : List ℕ) × HasCome W.has_seen self text }
        ensures seen { IfOk result (λ read. (text : List ℕ) → HasCome W.has_seen self text → IsSeen W.has_seen text read.0 read.1) }
        ensures head { IfErr result (λ why. (text : List ℕ) → HasCome W.has_seen self text → IsMissing text why) }
    {
        let SegmentReader {
            alloc,
            watcher,
            stage,
            number: _,
            held,
            wanted: _,
            size,
        } = self;
        let state = match stage {
            Stage::First => return Err(SegmentFault::Head),
            Stage::Rows(state) => state,
        };
        let shard = state.shard();
        match state.finish(alloc) {
            Ok(told) => {
                return Ok((
                    Restored {
                        shard,
                        told,
                        used: size - held.len() as u64,
                    },
                    watcher,
                ));
            }
            Err(Memory) => return Err(SegmentFault::Memory),
        }
    }
}

/// What the segment tells that the source has, up to what was cut off at its end, with what has seen its lines. It is
/// read once, piece by piece, and no line is kept but the last: beside what is live this takes twice the memory of the
/// longest line with its contents.
pub fn watch_segment<S: Source, W: Watcher>(
    alloc: Global,
    source: &mut S,
    watcher: W,
) -> Result<(Restored, W), InputFault<SegmentFault>>
    requires { IsFresh W.has_seen watcher }
    ensures watched { IfOk result (λ read. IsWatched W.has_seen (S.left source.old) (S.left source.new) read.0 read.1) }
    ensures head { result ≡ Err (Text fault.Head) → HasRead (S.left source.old) (S.left source.new) (IsHeadless (S.left source.new)) }
    ensures bad { (line : ℕ) → result ≡ Err (Text (fault.Bad line)) → HasRead (S.left source.old) (S.left source.new) (λ bytes. IsBadRow bytes line) }
    ensures long { (line : ℕ) → result ≡ Err (Text (fault.Long line)) → HasRead (S.left source.old) (S.left source.new) (λ bytes. IsLongRow bytes line) }
    ensures too_long { result ≡ Err (Text fault.TooLong) → HasRead (S.left source.old) (S.left source.new) AreTooMany }
    ensures beside { S.beside_reads source.new ≡ S.beside_reads source.old }
    ensures never_falls { S.read_faults source.old ≤ S.read_faults source.new }
    ensures fine { result ≢ Err Read → S.read_faults source.new ≡ S.read_faults source.old }
    ensures failed { result ≡ Err Read → Rose (S.read_faults source.old) (S.read_faults source.new) }
{
    let Ok(mut piece) = piece_room(alloc) else {
        return Err(InputFault::Text(SegmentFault::Memory));
    };
    let mut reader = SegmentReader::new(alloc, watcher);
    match read_text(source, &mut piece[0..], &mut reader) {
        Ok(()) => {}
        Err(fault) => return Err(fault),
    }
    match reader.finish() {
        Ok(read) => return Ok(read),
        Err(fault) => return Err(InputFault::Text(fault)),
    }
}

/// The same, where nothing sees the lines.
pub fn read_segment<S: Source>(
    alloc: Global,
    source: &mut S,
) -> Result<Restored, InputFault<SegmentFault>>
    ensures restored { IfOk result (λ read. IsRestored (S.left source.old) (S.left source.new) read) }
    ensures head { result ≡ Err (Text fault.Head) → HasRead (S.left source.old) (S.left source.new) (IsHeadless (S.left source.new)) }
    ensures bad { (line : ℕ) → result ≡ Err (Text (fault.Bad line)) → HasRead (S.left source.old) (S.left source.new) (λ bytes. IsBadRow bytes line) }
    ensures long { (line : ℕ) → result ≡ Err (Text (fault.Long line)) → HasRead (S.left source.old) (S.left source.new) (λ bytes. IsLongRow bytes line) }
    ensures too_long { result ≡ Err (Text fault.TooLong) → HasRead (S.left source.old) (S.left source.new) AreTooMany }
    ensures beside { S.beside_reads source.new ≡ S.beside_reads source.old }
    ensures never_falls { S.read_faults source.old ≤ S.read_faults source.new }
    ensures fine { result ≢ Err Read → S.read_faults source.new ≡ S.read_faults source.old }
    ensures failed { result ≡ Err Read → Rose (S.read_faults source.old) (S.read_faults source.new) }
{
    match watch_segment(alloc, source, Nothing) {
        Ok((read, _nothing)) => return Ok(read),
        Err(fault) => return Err(fault),
    }
}
