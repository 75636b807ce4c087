//! A line of a schedule, whatever it tells of.
ghost use Rattle.std.specs.Prelude.{◌≡◌, IfOk, IfSome, IfNone};
ghost use Rattle.schedule_text.specs.declared.one_line.AnyLine.{AnyLine};
ghost use Rattle.schedule_text.specs.Readings.{IsLine};

use crate::event_rows::event_read;
use crate::opening_rows::{file_read, session_read};
use crate::schedule::{EventLine, FileLine, SessionLine};
use std::alloc::Global;
use wopi_text::Memory;

/// What a line tells of.
#[derive(Drop)]
pub(crate) enum AnyLine {
    File(FileLine),
    Session(SessionLine),
    Event(EventLine),
}

/// What a line tells of, if it is a line of a schedule.
pub(crate) fn line_read(alloc: Global, row: &[u8]) -> Result<Option<AnyLine>, Memory>
    ensures some { IfOk result (λ read. IfSome read (IsLine row.now)) }
    ensures none { IfOk result (λ read. IfNone read ((line : AnyLine) → IsLine row.now line → ⊥)) }
{
    if let Some(file) = file_read(alloc, row)? {
        return Ok(Some(AnyLine::File(file)));
    }
    if let Some(session) = session_read(row) {
        return Ok(Some(AnyLine::Session(session)));
    }
    match event_read(alloc, row) {
        Ok(Some(event)) => return Ok(Some(AnyLine::Event(event))),
        Ok(None) => return Ok(None),
        Err(fault) => return Err(fault),
    }
}
