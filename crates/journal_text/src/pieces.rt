//! Journals, read from a text that comes in pieces.
ghost use Rattle.std.specs.Prelude.{◌≡◌, ◌+◌, ◌^◌, ◌<◌, ◌≤◌, ◌++◌, ◌∷◌, [], ℕ, List, OnOk, IfOk, length};
ghost use Rattle.journal_text.specs.Coming.{AreLines, IsAt, IsFirst, IsTaken, Reaches};
ghost use Rattle.journal_text.specs.Reader.{AreTimes};
ghost use Rattle.journal_text.specs.SoFar.{Steps};
ghost use Rattle.journal_text.specs.Words.{IsRow, words_of};

use crate::keeping::Keeper;
use crate::opening::first_read;
use crate::reading::{Reader, Taken};
use line_text::split_row;
use std::alloc::Global;
use std::mem;
use wopi_text::Memory;

/// Where a reader of lines stands.
#[derive(Drop)]
pub(crate) enum Stage {
    /// Before the end of the first line.
    First,
    /// Behind it.
    Lines(Reader),
    /// At the end of the last line.
    All(Reader),
    /// Behind the first bad line, which has this number.
    Bad(u64),
}

/// How a line was read.
#[derive(Clone, Copy)]
pub(crate) enum Step {
    /// More are to come.
    On,
    Last,
    Bad,
}

/// A journal as far as its bytes have come: what is kept of its whole lines, and what there is of the next one.
#[derive(Drop)]
pub(crate) struct LineReader<R> {
    pub(crate) alloc: Global,
    pub(crate) keeper: R,
    pub(crate) stage: Stage,
    pub(crate) row: Vec<u8>,
    pub(crate) number: u64,
    pub(crate) size: usize,
}

/// Reads the next line, which has that number.
fn read_next<R: Keeper>(
    alloc: Global,
    reader: &mut Reader,
    keeper: &mut R,
    number: u64,
    row: &[u8],
) -> Result<Step, Memory>
    requires { AreTimes reader.old.nows }
    ensures { IfOk result (λ step. Steps R.keeps (words_of row.now) number reader.old keeper.old step reader.new keeper.new) }
{
    match reader.take(alloc, row)? {
        Taken::File(file) => {
            keeper.keep_file(file)?;
            return Ok(Step::On);
        }
        Taken::Entry(line) => {
            keeper.keep_line(number, line)?;
            return Ok(Step::On);
        }
        Taken::Last => return Ok(Step::Last),
        Taken::Bad => return Ok(Step::Bad),
    }
}

/// The first line has come to its end.
fn begin<R: Keeper>(keeper: &mut R, row: &[u8]) -> Result<Stage, Memory>
    requires { R.is_new keeper.old }
    ensures { IfOk result (λ stage. (text behind : List ℕ) → IsFirst R.is_new text (10 ∷ behind) row.now 0 keeper.old → IsAt R.is_new R.keeps text behind [] 1 keeper.new stage) }
{
    let Some(opening) = first_read(row) else {
        return Ok(Stage::Bad(1));
    };
    keeper.begin(opening.opened, opening.first)?;
    Ok(Stage::Lines(Reader::new(&opening)))
}

/// A line behind the first has come to its end.
fn go_on<R: Keeper>(
    alloc: Global,
    mut reader: Reader,
    keeper: &mut R,
    number: u64,
    row: &[u8],
) -> Result<Stage, Memory>
    requires few { number + 1 < 2 ^ 64 }
    requires stands { (text behind : List ℕ) × AreLines R.keeps text (10 ∷ behind) row.now number keeper.old reader }
    ensures { IfOk result (λ stage. (text behind : List ℕ) → AreLines R.keeps text (10 ∷ behind) row.now number keeper.old reader → IsAt R.is_new R.keeps text behind [] (number + 1) keeper.new stage) }
{
    match read_next(alloc, &mut reader, keeper, number + 1, row) {
        Ok(Step::On) => return Ok(Stage::Lines(reader)),
        Ok(Step::Last) => return Ok(Stage::All(reader)),
        Ok(Step::Bad) => return Ok(Stage::Bad(number + 1)),
        Err(Memory) => return Err(Memory),
    }
}

/// A line has come to its end.
fn next<R: Keeper>(
    alloc: Global,
    stage: Stage,
    keeper: &mut R,
    number: u64,
    row: &[u8],
) -> Result<Stage, Memory>
    requires few { number + 1 < 2 ^ 64 }
    requires stands { (text behind : List ℕ) × IsAt R.is_new R.keeps text (10 ∷ behind) row.now number keeper.old stage }
    ensures { IfOk result (λ next. (text behind : List ℕ) → IsAt R.is_new R.keeps text (10 ∷ behind) row.now number keeper.old stage → IsAt R.is_new R.keeps text behind [] (number + 1) keeper.new next) }
{
    match stage {
        Stage::First => return begin(keeper, row),
        Stage::Lines(reader) => return go_on(alloc, reader, keeper, number, row),
        Stage::All(_reader) => return Ok(Stage::Bad(number + 1)),
        Stage::Bad(line) => return Ok(Stage::Bad(line)),
    }
}

/// Adds bytes to others. Where there is no room for them, the vector grows by a quarter of itself, or by these
/// bytes where they are more.
pub(crate) fn add(bytes: &mut Vec<u8>, piece: &[u8]) -> Result<(), Memory>
    ensures { OnOk result (bytes.new.items ≡ bytes.old.items ++ piece.now) }
{
    if bytes.capacity() - bytes.len() < piece.len() {
        bytes.reserve_exact(piece.len().max(bytes.len() / 4))?;
    }
    bytes.extend_from_slice(piece)?;
    Ok(())
}

impl<R: Keeper> LineReader<R> {
    pub(crate) fn new(alloc: Global, keeper: R) -> LineReader<R>
        requires { R.is_new keeper }
        ensures reaches { Reaches R.is_new R.keeps [] [] result }
        ensures none { (result.number ≡ 0) × (result.size ≡ 0) }
    {
        LineReader {
            alloc,
            keeper,
            stage: Stage::First,
            row: Vec::new(alloc),
            number: 0,
            size: 0,
        }
    }

    /// Takes a piece of the text.
    pub(crate) fn take_all(&mut self, piece: &[u8]) -> Result<(), Memory>
        requires few { self.old.number + length piece.now < 2 ^ 64 }
        requires come { (text : List ℕ) × Reaches R.is_new R.keeps text [] self.old }
        ensures taken { OnOk result ((text : List ℕ) → Reaches R.is_new R.keeps text [] self.old → Reaches R.is_new R.keeps (text ++ piece.now) [] self.new) }
        ensures count { OnOk result (self.new.number ≤ self.old.number + length piece.now) }
        ensures size { self.new.size ≡ self.old.size }
    {
        let mut rest = piece;
        'rows: while let Some((part, behind)) = split_row(rest) {
            match self.take_row(part) {
                Ok(()) => {}
                Err(memory) => return Err(memory),
            }
            rest = behind;
        }
        self.lengthen(rest)
    }

    /// Takes what there was of the next line, and the rest of it up to its line feed.
    fn take_row(&mut self, part: &[u8]) -> Result<(), Memory>
        requires few { self.old.number + length part.now + 1 < 2 ^ 64 }
        requires line { IsRow part.now }
        requires come { (text behind : List ℕ) × Reaches R.is_new R.keeps text (part.now ++ 10 ∷ behind) self.old }
        ensures taken { OnOk result ((text behind : List ℕ) → Reaches R.is_new R.keeps text (part.now ++ 10 ∷ behind) self.old → Reaches R.is_new R.keeps text behind self.new) }
        ensures count { OnOk result (self.new.number ≡ self.old.number + 1) }
        ensures size { self.new.size ≡ self.old.size }
    {
        match self.lengthen(part) {
            Ok(()) => return self.end_row(),
            Err(memory) => return Err(memory),
        }
    }

    /// Adds bytes to the next line. Behind the last line, and behind a bad one, no bytes are kept.
    fn lengthen(&mut self, part: &[u8]) -> Result<(), Memory>
        requires few { self.old.number + length part.now < 2 ^ 64 }
        requires line { IsRow part.now }
        ensures taken { OnOk result ((text ahead : List ℕ) → Reaches R.is_new R.keeps text (part.now ++ ahead) self.old → Reaches R.is_new R.keeps text ahead self.new) }
        ensures count { self.new.number ≡ self.old.number }
        ensures size { self.new.size ≡ self.old.size }
    {
        if part.is_empty() {
            return Ok(());
        }
        match &self.stage {
            Stage::First => return add(&mut self.row, part),
            Stage::Lines(_) => return add(&mut self.row, part),
            Stage::All(_) => {}
            Stage::Bad(_) => return Ok(()),
        }
        self.stage = Stage::Bad(self.number + 1);
        Ok(())
    }

    /// The next line has come to its end.
    fn end_row(&mut self) -> Result<(), Memory>
        requires few { self.old.number + 1 < 2 ^ 64 }
        requires come { (text behind : List ℕ) × Reaches R.is_new R.keeps text (10 ∷ behind) self.old }
        ensures taken { OnOk result ((text behind : List ℕ) → Reaches R.is_new R.keeps text (10 ∷ behind) self.old → Reaches R.is_new R.keeps text behind self.new) }
        ensures count { OnOk result (self.new.number ≡ self.old.number + 1) }
        ensures size { self.new.size ≡ self.old.size }
    {
        let stage = mem::replace(&mut self.stage, Stage::First);
        match next(self.alloc, stage, &mut self.keeper, self.number, &self.row) {
            Ok(stage) => self.stage = stage,
            Err(memory) => return Err(memory),
        }
        self.number += 1;
        self.row.clear();
        Ok(())
    }

    /// The text has come to its end: what was read, and what is kept of it; or the number of the first bad line.
    pub(crate) fn finish(self) -> Result<(Reader, R), u64>
        requires { self.number + 1 < 2 ^ 64 }
        ensures { (text : List ℕ) → Reaches R.is_new R.keeps text [] self → IsTaken R.keeps text result }
    {
        let LineReader {
            alloc: _alloc,
            keeper,
            stage,
            row: _row,
            number,
            size: _size,
        } = self;
        match stage {
            Stage::First => return Err(1),
            Stage::Lines(_reader) => return Err(number + 1),
            Stage::All(reader) => return Ok((reader, keeper)),
            Stage::Bad(line) => return Err(line),
        }
    }
}
