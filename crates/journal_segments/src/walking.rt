//! Whole lines at the front of a text.
ghost use Rattle.std.specs.Prelude.{◌≡◌, ◌≤◌, ◌<◌, ◌+◌, ◌^◌, ◌∷◌, [], ℕ, IfOk, IfErr, length};
ghost use Rattle.journal_segments.specs.Rows.{IsForm, MayCome, step};
ghost use Rattle.journal_segments.specs.Seen.{Sees};
ghost use Rattle.journal_segments.specs.Reading.{Stands, StandsBehind, Stops, IsTimed, Waits, Walks};

use crate::rows::{Row, filled, row_read, takes_back};
use crate::state::State;
use crate::watching::Watcher;
use line_text::split_row;
use std::alloc::Global;
use wopi_text::{Bytes, Memory};

/// More bytes than a line has.
pub(crate) const MOST_LINE: usize = 65_536;

/// Why a segment was not read.
#[derive(Clone, Copy, Debug, PartialEq, Eq)]
pub enum SegmentFault {
    /// The first line is none of a segment, or is missing.
    Head,
    /// The line with this number, counted from 1, is the first that can't stand where it does. Contents are counted
    /// with their line.
    Bad(u64),
    /// The line with this number has no line feed where a line has one at the latest.
    Long(u64),
    /// There are more bytes than can be counted.
    TooLong,
    Memory,
}

/// What stands at the front of a text.
#[derive(Drop)]
pub(crate) enum Front<'a> {
    /// A whole line with its contents, and what stands behind them.
    Whole(Row, &'a [u8]),
    /// What may become one, once there are so many bytes.
    Cut(usize),
    Bad,
    Long,
}

/// What stands behind a line that has so many bytes and tells contents of that size.
fn contents_front<'a>(
    alloc: Global,
    row: Row,
    size: u64,
    line: usize,
    behind: &'a [u8],
) -> Result<Front<'a>, Memory>
    requires { line + length behind.now < 2 ^ 62 }
    ensures { IfOk result (λ front. StandsBehind row size line behind.now front) }
{
    if behind.len() as u64 <= size {
        return Ok(Front::Cut((line + 2).saturating_add(size as usize)));
    }
    let size = size as usize;
    if behind[size] != b'\n' {
        return Ok(Front::Bad);
    }
    let contents = Bytes::from_slice(alloc, &behind[..size])?;
    Ok(Front::Whole(filled(row, contents), &behind[size + 1..]))
}

/// What stands at the front of a text.
fn front_of<'a>(alloc: Global, state: &State, text: &'a [u8]) -> Result<Front<'a>, Memory>
    requires { length text.now < 2 ^ 62 }
    ensures { IfOk result (λ front. Stands state.now text.now front) }
{
    let Some((line, behind)) = split_row(text) else {
        if text.len() >= MOST_LINE {
            return Ok(Front::Long);
        }
        return Ok(Front::Cut(text.len() + 1));
    };
    if line.len() >= MOST_LINE {
        return Ok(Front::Long);
    }
    let Some((row, size)) = row_read(line) else {
        return Ok(Front::Bad);
    };
    if !state.may_come(&row) {
        return Ok(Front::Bad);
    }
    match size {
        None => return Ok(Front::Whole(row, behind)),
        Some(size) => return contents_front(alloc, row, size, line.len(), behind),
    }
}

/// What was read, what is left of the text, and how many bytes it has to have at least before more of it is read.
#[derive(Drop)]
pub(crate) struct Walked<'a> {
    pub(crate) state: State,
    pub(crate) number: u64,
    pub(crate) left: &'a [u8],
    pub(crate) wanted: usize,
}

/// Takes one line, which has that number, and shows it to a watcher.
fn take_row<W: Watcher>(
    alloc: Global,
    watcher: &mut W,
    state: State,
    number: u64,
    row: Row,
) -> Result<State, Memory>
    requires form { IsForm row }
    requires comes { MayCome state row }
    requires timed { IsTimed state }
    requires few { number < 2 ^ 62 }
    ensures state { IfOk result (λ next. next ≡ step state row) }
    ensures timed { IfOk result (λ next. IsTimed next) }
    ensures seen { IfOk result (λ next. Sees W.has_seen watcher.old watcher.new state number (row ∷ [])) }
{
    let back = takes_back(&row);
    match state.step(alloc, row) {
        Ok(next) => {
            watcher.see(number + 1, back, &next);
            return Ok(next);
        }
        Err(memory) => return Err(memory),
    }
}

/// Takes the whole lines at the front of a text, and shows each to a watcher. So many lines were taken before.
pub(crate) fn walk<'a, W: Watcher>(
    alloc: Global,
    watcher: &mut W,
    state: State,
    number: u64,
    text: &'a [u8],
) -> Result<Walked<'a>, SegmentFault>
    requires timed { IsTimed state }
    requires few { number + length text.now < 2 ^ 62 }
    ensures on { IfOk result (λ read. Walks W.has_seen watcher.old watcher.new state text.now number read.state read.left.now read.number) }
    ensures waits { IfOk result (λ read. Waits read.state read.left.now read.wanted) }
    ensures timed { IfOk result (λ read. IsTimed read.state) }
    ensures few { IfOk result (λ read. read.number + length read.left.now ≤ number + length text.now) }
    ensures stops { IfErr result (λ why. Stops state text.now number why) }
{
    let mut state = state;
    let mut number = number;
    let mut left = text;
    'rows: loop {
        let front = match front_of(alloc, &state, left) {
            Ok(front) => front,
            Err(Memory) => return Err(SegmentFault::Memory),
        };
        let (one, behind) = match front {
            Front::Whole(one, behind) => (one, behind),
            Front::Cut(wanted) => {
                return Ok(Walked {
                    state,
                    number,
                    left,
                    wanted,
                });
            }
            Front::Bad => return Err(SegmentFault::Bad(number + 1)),
            Front::Long => return Err(SegmentFault::Long(number + 1)),
        };
        match take_row(alloc, watcher, state, number, one) {
            Ok(next) => state = next,
            Err(Memory) => return Err(SegmentFault::Memory),
        }
        number += 1;
        left = behind;
    }
}
