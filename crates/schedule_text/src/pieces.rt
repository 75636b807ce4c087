//! Schedules, read from a text that comes in pieces.
ghost use Rattle.std.specs.Prelude.{◌≡◌, ◌+◌, ◌≤◌, ◌++◌, ◌∷◌, [], ℕ, List, OnOk, IfErr, length};
ghost use Rattle.schedule_text.specs.declared.reading.ScheduleFault.TheVariants.{BadLine};
ghost use Rattle.schedule_text.specs.Grammar.{most_rows};
ghost use Rattle.schedule_text.specs.Pieces.{HasCome, IsFault, IsOver, IsRead, MayTakeLine, IsRowFault, IsTakenIn, Lengthens, room_of};
ghost use Rattle.line_text.specs.Words.{IsRow};
ghost use Rattle.schedule_text.specs.Readings.{TakesLine};

use crate::reading::{MOST_BYTES, Reader, ScheduleFault};
use crate::schedule::Schedule;
use line_text::split_row;
use std::alloc::Global;
use wopi_text::Memory;

/// A schedule as far as its text has come: its whole lines, and what there is of the next.
#[derive(Drop)]
pub(crate) struct PieceReader {
    reader: Reader,
    row: Vec<u8>,
}

impl PieceReader {
    pub(crate) fn new(alloc: Global) -> PieceReader
        ensures come { HasCome [] [] result }
        ensures ready { MayTakeLine result.reader }
    {
        PieceReader {
            reader: Reader::new(alloc),
            row: Vec::new(alloc),
        }
    }

    /// Takes a piece of the text.
    pub(crate) fn take_all(&mut self, piece: &[u8]) -> Result<(), ScheduleFault>
        requires { MayTakeLine self.old.reader }
        ensures taken { (text : List ℕ) → HasCome text [] self.old → IsTakenIn (text ++ piece.now) self.new result }
        ensures ready { OnOk result (MayTakeLine self.new.reader) }
        ensures smaller { OnOk result (room_of self.new + length piece.now ≤ room_of self.old) }
    {
        let mut rest = piece;
        'rows: while let Some((part, behind)) = split_row(rest) {
            match self.take_row(part) {
                Ok(()) => {}
                Err(fault) => return Err(fault),
            }
            rest = behind;
        }
        self.lengthen(rest)
    }

    /// Takes what there was of the next line, and the rest of it up to its line feed.
    fn take_row(&mut self, part: &[u8]) -> Result<(), ScheduleFault>
        requires ready { MayTakeLine self.old.reader }
        requires line { IsRow part.now }
        ensures taken { OnOk result ((text behind : List ℕ) → HasCome text (part.now ++ 10 ∷ behind) self.old → HasCome text behind self.new) }
        ensures refused { IfErr result (λ fault. (text behind : List ℕ) → HasCome text (part.now ++ 10 ∷ behind) self.old → IsFault text fault) }
        ensures ready { OnOk result (MayTakeLine self.new.reader) }
        ensures smaller { OnOk result (room_of self.new + length part.now + 1 ≤ room_of self.old) }
    {
        match self.lengthen(part) {
            Ok(()) => return self.end_row(),
            Err(fault) => return Err(fault),
        }
    }

    /// Adds bytes to the next line.
    fn lengthen(&mut self, part: &[u8]) -> Result<(), ScheduleFault>
        requires { MayTakeLine self.old.reader }
        ensures ok { OnOk result (Lengthens part.now self.old self.new) }
        ensures refused { IfErr result (IsOver part.now self.old) }
        ensures smaller { OnOk result (room_of self.new + length part.now ≤ room_of self.old) }
    {
        if part.is_empty() {
            return Ok(());
        }
        if self.reader.is_full() {
            return Err(self.bad_line());
        }
        if part.len() > MOST_BYTES.saturating_sub(self.row.len()) {
            return Err(self.bad_line());
        }
        let Ok(()) = self.row.extend_from_slice(part) else {
            return Err(ScheduleFault::Memory);
        };
        Ok(())
    }

    /// The next line has come to its end.
    fn end_row(&mut self) -> Result<(), ScheduleFault>
        requires { MayTakeLine self.old.reader }
        ensures ok { OnOk result (TakesLine self.old.row.items self.old.reader self.new.reader × (self.new.row.items ≡ [])) }
        ensures refused { IfErr result (IsRowFault self.old) }
    {
        match self.reader.take(&self.row) {
            Ok(true) => {}
            Ok(false) => return Err(self.bad_line()),
            Err(Memory) => return Err(ScheduleFault::Memory),
        }
        self.row.clear();
        Ok(())
    }

    /// The text has come to its end.
    pub(crate) fn finish(mut self) -> Result<Schedule, ScheduleFault>
        requires { (text : List ℕ) × HasCome text [] self }
        ensures { (text : List ℕ) → HasCome text [] self → IsRead text result }
    {
        if self.row.is_empty() {
            return Ok(self.reader.finish());
        }
        match self.end_row() {
            Ok(()) => return Ok(self.reader.finish()),
            Err(fault) => return Err(fault),
        }
    }

    fn bad_line(&self) -> ScheduleFault
        requires { self.now.reader.rows ≤ most_rows }
        ensures { result ≡ BadLine (self.now.reader.rows + 1) }
    {
        ScheduleFault::BadLine {
            line: self.reader.next(),
        }
    }
}
