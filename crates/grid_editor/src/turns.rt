//! What a command makes of a sheet, and what is to be written of it.
ghost use Rattle.std.specs.Prelude.{◌≡◌, [], IfOk, IsErrOf};
ghost use Rattle.save_session.specs.Session.{contents_of};
ghost use Rattle.save_session.specs.Views.{state_of};
ghost use Rattle.grid_editor.specs.Sheets.{Edited, after_edit};
ghost use Rattle.grid_editor.specs.Lines.{copied_line, went_of};
ghost use Rattle.grid_editor.specs.Lines.{not_open as not_open_line};
ghost use Rattle.grid_editor.specs.Turns.{Done, IsCopyTold, IsDriven, IsOpened, IsTold, IsTurn, done_with, edit_result, edits, sheet_after, tells, undoes, writes};

use crate::command::Command;
use crate::lines::{copied_line, opened_line, outcome_line, refusal_line};
use crate::sheet::Sheet;
use grid_sheet::GridFault;
use save_session::{Outcome, Session};
use std::alloc::Global;
use wopi_client::{AsFault, AsOutcome, DriveFault};
use wopi_text::{Bytes, Memory};

/// How a script goes on behind a command.
#[derive(Drop)]
pub enum Went {
    On,
    /// The outcome ends the script.
    Ended(Outcome),
}

/// Why a command came to no end. The editor isn't used again.
#[derive(Drop)]
pub enum EditFault {
    /// What begins at this place of a reply can't be read.
    BadReply { at: usize },
    /// The line, or a part of it, could not be written.
    WriteFault,
    Memory,
}

/// What is to be written, and how the script goes on.
#[derive(Drop)]
pub(crate) struct Turn {
    pub(crate) line: Bytes,
    pub(crate) went: Went,
}

/// The script goes on behind a line.
pub(crate) fn writes(line: Bytes) -> Turn
    ensures { result ≡ writes line }
{
    Turn {
        line,
        went: Went::On,
    }
}

/// No sheet is open for the command.
pub(crate) fn not_open(alloc: Global) -> Result<Turn, EditFault>
    ensures turn { IsTurn (writes not_open_line) result }
    ensures no_write { IsErrOf result EditFault.WriteFault → ⊥ }
{
    match Bytes::from_slice(alloc, b"not open\n") {
        Ok(line) => return Ok(writes(line)),
        Err(Memory) => return Err(EditFault::Memory),
    }
}

/// What comes of how a drive ended.
pub(crate) fn taken(
    alloc: Global,
    session: &Session,
    sheet: &mut Option<Sheet>,
    came: Result<Outcome, DriveFault>,
) -> Result<Turn, EditFault>
    ensures driven { IsDriven sheet.old (contents_of (state_of session.now)) came sheet.new result }
    ensures no_write { IsErrOf result EditFault.WriteFault → ⊥ }
{
    match came {
        Ok(outcome) => return edit_result(told(alloc, session.contents(), sheet, outcome)),
        Err(DriveFault::Ignored(_)) => return not_open(alloc),
        Err(DriveFault::BadReply { at }) => return Err(EditFault::BadReply { at }),
        Err(DriveFault::Memory) => return Err(EditFault::Memory),
    }
}

fn edit_result(made: Result<Turn, Memory>) -> Result<Turn, EditFault>
    ensures { result ≡ edit_result made }
{
    match made {
        Ok(turn) => Ok(turn),
        Err(Memory) => Err(EditFault::Memory),
    }
}

/// What comes of what the session told.
fn told(
    alloc: Global,
    contents: &[u8],
    sheet: &mut Option<Sheet>,
    outcome: Outcome,
) -> Result<Turn, Memory>
    ensures { IfOk result (IsTold sheet.old contents.now outcome sheet.new) }
{
    if let Outcome::Opened { version } = outcome {
        return opened(alloc, contents, sheet, version);
    }
    close_after(sheet, &outcome);
    tells(alloc, outcome)
}

/// Closes the sheet where the session was closed.
fn close_after(sheet: &mut Option<Sheet>, outcome: &Outcome)
    ensures { sheet.new ≡ sheet_after sheet.old outcome.now }
{
    match outcome {
        Outcome::Closed => *sheet = None,
        _ => {}
    }
}

/// The sheet of what the session read.
fn opened(
    alloc: Global,
    contents: &[u8],
    sheet: &mut Option<Sheet>,
    version: Option<u64>,
) -> Result<Turn, Memory>
    ensures { IfOk result (IsOpened contents.now version sheet.new) }
{
    match Sheet::read(alloc, contents) {
        Ok(read) => {
            let line = opened_line(alloc, version, read.rows())?;
            *sheet = Some(read);
            return Ok(writes(line));
        }
        Err(GridFault::TooMany) => {
            *sheet = None;
            let line = refusal_line(alloc, GridFault::TooMany)?;
            return Ok(writes(line));
        }
        Err(GridFault::OutOfGrid) => return Err(Memory),
        Err(GridFault::Memory) => return Err(Memory),
    }
}

/// The line of an outcome, and whether it ends the script.
fn tells(alloc: Global, outcome: Outcome) -> Result<Turn, Memory>
    ensures { IfOk result (λ turn. turn ≡ tells outcome) }
{
    let line = outcome_line(alloc, &outcome)?;
    Ok(Turn {
        line,
        went: went_of(outcome),
    })
}

fn went_of(outcome: Outcome) -> Went
    ensures { result ≡ went_of outcome }
{
    match outcome {
        Outcome::Opened { .. } => Went::On,
        Outcome::Read { .. } => Went::On,
        Outcome::Saved { .. } => Went::On,
        Outcome::Refreshed => Went::On,
        Outcome::Closed => Went::On,
        other => Went::Ended(other),
    }
}

/// What is written of how a copy came out.
pub(crate) fn copy_told(alloc: Global, came: Result<AsOutcome, AsFault>) -> Result<Turn, EditFault>
    ensures told { IsCopyTold came result }
    ensures no_write { IsErrOf result EditFault.WriteFault → ⊥ }
{
    match came {
        Ok(AsOutcome::Saved { name }) => return edit_result(copied(alloc, name.as_slice())),
        Ok(AsOutcome::Other(outcome)) => return edit_result(tells(alloc, outcome)),
        Err(AsFault::BadReply { at }) => return Err(EditFault::BadReply { at }),
        Err(AsFault::Memory) => return Err(EditFault::Memory),
    }
}

fn copied(alloc: Global, name: &[u8]) -> Result<Turn, Memory>
    ensures { IfOk result (λ turn. turn ≡ writes (copied_line name.now)) }
{
    let line = copied_line(alloc, name)?;
    Ok(writes(line))
}

/// Does with an open sheet what needs no host, and gives the line to write.
pub(crate) fn done(alloc: Global, sheet: &mut Sheet, command: &Command) -> Result<Bytes, Memory>
    ensures { IfOk result (λ line. done_with sheet.old command.now ≡ record { sheet = sheet.new; turn = writes line }) }
{
    match command {
        Command::Show => sheet.write(),
        Command::Values => sheet.values(alloc),
        Command::Undo => undone(alloc, sheet),
        _ => edited(alloc, sheet, command),
    }
}

fn undone(alloc: Global, sheet: &mut Sheet) -> Result<Bytes, Memory>
    ensures { IfOk result (λ line. undoes sheet.old sheet.old.past ≡ record { sheet = sheet.new; turn = writes line }) }
{
    match sheet.undo() {
        Ok(true) => return Bytes::from_slice(alloc, b""),
        Ok(false) => return Bytes::from_slice(alloc, b"nothing to undo\n"),
        Err(Memory) => return Err(Memory),
    }
}

fn edited(alloc: Global, sheet: &mut Sheet, command: &Command) -> Result<Bytes, Memory>
    ensures { IfOk result (λ line. edits sheet.old (after_edit sheet.old.rows command.now) ≡ record { sheet = sheet.new; turn = writes line }) }
{
    match sheet.edit(command) {
        Ok(()) => return Bytes::from_slice(alloc, b""),
        Err(GridFault::OutOfGrid) => return refusal_line(alloc, GridFault::OutOfGrid),
        Err(GridFault::TooMany) => return refusal_line(alloc, GridFault::TooMany),
        Err(GridFault::Memory) => return Err(Memory),
    }
}
