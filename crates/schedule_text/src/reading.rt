//! Schedules, read from a text.
ghost use Rattle.std.specs.Prelude.{◌≡◌, ◌↔◌, ◌≤◌, ◌+◌, [], ℕ, false, IsTrue, IfOk, Err};
ghost use Rattle.schedule_text.specs.declared.one_line.AnyLine.TheVariants.{File, Session, Event};
ghost use Rattle.schedule_text.specs.declared.reading.ScheduleFault.TheVariants.{BadLine};
ghost use Rattle.schedule_text.specs.Grammar.{IsBadLine, IsText, most_rows, says};
ghost use Rattle.schedule_text.specs.Readings.{Fits, IsAdded, IsKept, IsRefused, TakesLine, lines_in};
ghost use Rattle.schedule_text.specs.Schedules.{IsSchedule};

use crate::fitting::{is_known, moment_of, note, suits};
use crate::one_line::{AnyLine, line_read};
use crate::pieces::PieceReader;
use crate::schedule::{EventLine, FileLine, Schedule, SessionLine};
use std::alloc::Global;
use std::collections::BTreeSet;
use thiserror::Error;
use wopi_text::Memory;

/// The most lines of a schedule, those that say nothing among them.
const MOST_ROWS: u64 = 16_000;

/// The most bytes of a line, without its line feed.
pub(crate) const MOST_BYTES: usize = 20_000;

/// The most sessions.
const MOST_SESSIONS: usize = 64;

/// Why a text is no schedule.
#[derive(Clone, Copy, Debug, PartialEq, Eq, Error)]
pub enum ScheduleFault {
    /// The line with this number, counted from 1, is the first that can't stand where it does.
    #[error("line {line}: bad line")]
    BadLine { line: u64 },
    #[error("out of memory")]
    Memory,
}

/// A schedule as far as its text has come.
#[derive(Drop)]
pub(crate) struct Reader {
    alloc: Global,
    files: Vec<FileLine>,
    names: BTreeSet<String>,
    sessions: Vec<SessionLine>,
    events: Vec<EventLine>,
    /// A restart has to come later than this.
    latest: u64,
    rows: u64,
}

/// Whether the line says something.
fn says(row: &[u8]) -> bool
    ensures { result ≡ says row.now }
{
    match row.first() {
        None => false,
        Some(first) => *first != b'#',
    }
}

impl Reader {
    pub(crate) fn new(alloc: Global) -> Reader
        ensures none { (result.files.items ≡ []) × (result.sessions.items ≡ []) × (result.events.items ≡ []) }
        ensures kept { IsKept result }
        ensures rows { result.rows ≡ 0 }
    {
        Reader {
            alloc,
            files: Vec::new(alloc),
            names: BTreeSet::new(alloc),
            sessions: Vec::new(alloc),
            events: Vec::new(alloc),
            latest: 0,
            rows: 0,
        }
    }

    /// Takes the next line, and tells whether it is a good one.
    pub(crate) fn take(&mut self, row: &[u8]) -> Result<bool, Memory>
        requires kept { IsKept self.old }
        ensures good { IfOk result (λ good. IsTrue good → TakesLine row.now self.old self.new) }
        ensures bad { IfOk result (λ good. good ≡ false → IsRefused row.now self.old × (self.new.rows ≡ self.old.rows)) }
    {
        if self.rows >= MOST_ROWS {
            return Ok(false);
        }
        if row.len() > MOST_BYTES {
            return Ok(false);
        }
        if !says(row) {
            self.rows += 1;
            return Ok(true);
        }
        let Some(line) = line_read(self.alloc, row)? else {
            return Ok(false);
        };
        if !self.add(line)? {
            return Ok(false);
        }
        self.rows += 1;
        Ok(true)
    }

    /// Whether there may be no line more.
    pub(crate) fn is_full(&self) -> bool
        ensures { IsTrue result ↔ (most_rows ≤ self.now.rows) }
    {
        self.rows >= MOST_ROWS
    }

    /// The number of the next line.
    pub(crate) fn next(&self) -> u64
        requires { self.now.rows ≤ most_rows }
        ensures { result ≡ self.now.rows + 1 }
    {
        self.rows + 1
    }

    /// The schedule of the lines that were taken.
    pub(crate) fn finish(self) -> Schedule
        requires { IsSchedule (lines_in self) }
        ensures { result ≡ lines_in self }
    {
        Schedule::new(self.files, self.sessions, self.events)
    }

    /// Adds a line, if it can stand here.
    fn add(&mut self, line: AnyLine) -> Result<bool, Memory>
        requires kept { IsKept self.old }
        ensures good { IfOk result (λ good. IsTrue good → IsAdded line self.old self.new) }
        ensures bad { IfOk result (λ good. good ≡ false → (Fits (lines_in self.old) line → ⊥) × (self.new.rows ≡ self.old.rows)) }
    {
        match line {
            AnyLine::File(file) => return self.add_file(file),
            AnyLine::Session(session) => return self.add_session(session),
            AnyLine::Event(event) => return self.add_event(event),
        }
    }

    fn add_file(&mut self, file: FileLine) -> Result<bool, Memory>
        requires kept { IsKept self.old }
        ensures good { IfOk result (λ good. IsTrue good → IsAdded (File file) self.old self.new) }
        ensures bad { IfOk result (λ good. good ≡ false → (Fits (lines_in self.old) (File file) → ⊥) × (self.new.rows ≡ self.old.rows)) }
    {
        if !self.sessions.is_empty() {
            return Ok(false);
        }
        if !self.events.is_empty() {
            return Ok(false);
        }
        if !note(&mut self.names, self.alloc, &file.name)? {
            return Ok(false);
        }
        self.files.push(file)?;
        Ok(true)
    }

    fn add_session(&mut self, session: SessionLine) -> Result<bool, Memory>
        requires kept { IsKept self.old }
        ensures good { IfOk result (λ good. IsTrue good → IsAdded (Session session) self.old self.new) }
        ensures bad { IfOk result (λ good. good ≡ false → (Fits (lines_in self.old) (Session session) → ⊥) × (self.new.rows ≡ self.old.rows)) }
    {
        if !self.events.is_empty() {
            return Ok(false);
        }
        if self.sessions.len() >= MOST_SESSIONS {
            return Ok(false);
        }
        if is_known(&self.sessions, &session.nonce) {
            return Ok(false);
        }
        self.sessions.push(session)?;
        Ok(true)
    }

    fn add_event(&mut self, event: EventLine) -> Result<bool, Memory>
        requires kept { IsKept self.old }
        ensures good { IfOk result (λ good. IsTrue good → IsAdded (Event event) self.old self.new) }
        ensures bad { IfOk result (λ good. good ≡ false → (Fits (lines_in self.old) (Event event) → ⊥) × (self.new.rows ≡ self.old.rows)) }
    {
        if !suits(&self.sessions, self.latest, &event) {
            return Ok(false);
        }
        self.latest = self.latest.max(moment_of(&self.sessions, &event));
        self.events.push(event)?;
        Ok(true)
    }
}

impl Schedule {
    /// The schedule that the whole text is, or its first bad line.
    pub fn read(alloc: Global, text: &[u8]) -> Result<Schedule, ScheduleFault>
        ensures text { IfOk result (λ schedule. IsText text.now schedule) }
        ensures bad { (line : ℕ) → result ≡ Err (BadLine line) → IsBadLine text.now line }
    {
        let mut pieces = PieceReader::new(alloc);
        match pieces.take_all(text) {
            Ok(()) => return pieces.finish(),
            Err(fault) => return Err(fault),
        }
    }
}
