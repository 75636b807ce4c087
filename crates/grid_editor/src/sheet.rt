//! A sheet, and the steps that lead back over its edits.
ghost use Rattle.std.specs.Prelude.{◌≡◌, [], OnOk, OnErr, IfOk, IfErr, length};
ghost use Rattle.grid_sheet.specs.Rows.{IsGrid};
ghost use Rattle.grid_sheet.specs.Edits.{IsRefusal};
ghost use Rattle.grid_sheet.specs.Reading.{IsUnreadable};
ghost use Rattle.grid_sheet.specs.Text.{read_of, write_of};
ghost use Rattle.grid_sheet.specs.Undoing.{Undoes};
ghost use Rattle.grid_editor.specs.Sheets.{CanUndo, IsEdited, IsUndone, after_edit, edited_of, most_undos};
ghost use Rattle.grid_editor.specs.Values.{AreOf, values_line};

use crate::command::Command;
use crate::values::{follow, values_line};
use circular_buffer::HeapCircularBuffer;
use grid_sheet::{Grid, GridFault, Undo};
use std::alloc::Global;
use std::marker::Model;
use wopi_text::{Bytes, Memory};

/// The most edits that can be undone.
pub const MOST_UNDOS: usize = 64;

/// What undoes the latest edits, the latest first.
type Steps = HeapCircularBuffer<Undo, Global>;

/// A sheet that can be edited and undone. A step back holds the row or column of its edit alone. The
/// values of its formulas are kept from when they are asked for until an edit that isn't a `set`.
#[derive(Drop)]
pub(crate) struct Sheet {
    grid: Grid,
    steps: Steps,
    values: Option<grid_formulas::Sheet>,
}

impl Model for Sheet {
    ghost use Rattle.std.specs.Prelude.{◌≡◌};
    ghost use Rattle.grid_editor.specs.Sheets.{CanUndo, Edited, edited_of, most_undos};
    ghost use Rattle.grid_editor.specs.Values.{AreOf};

    ghost Value = { Edited };

    ghost view = { λ s. edited_of s.grid s.steps };

    ghost invariant = { λ s. (s.steps.capacity ≡ most_undos) × CanUndo s.grid s.steps.items × AreOf s.grid s.values };
}

impl Sheet {
    /// The sheet of this text, with nothing to undo.
    pub(crate) fn read(alloc: Global, contents: &[u8]) -> Result<Sheet, GridFault>
        ensures rows { IfOk result (λ sheet. sheet ≡ record { rows = read_of contents.now; past = [] }) }
        ensures within { IfOk result (λ sheet. IsGrid (read_of contents.now)) }
        ensures refused { IfErr result (IsUnreadable (read_of contents.now)) }
    {
        let grid = Grid::read(alloc, contents)?;
        let steps = HeapCircularBuffer::with_capacity(alloc, MOST_UNDOS)?;
        Ok(Sheet {
            grid,
            steps,
            values: None,
        })
    }

    /// The text of the rows.
    pub(crate) fn write(&self) -> Result<Bytes, Memory>
        ensures { IfOk result (λ text. text ≡ write_of self.now.rows) }
    {
        self.grid.write()
    }

    /// How many rows there are.
    pub(crate) fn rows(&self) -> usize
        ensures { result ≡ length self.now.rows }
    {
        self.grid.rows()
    }

    /// Edits the rows by a command that does so; any other is refused.
    pub(crate) fn edit(&mut self, command: &Command) -> Result<(), GridFault>
        ensures ok { OnOk result (IsEdited (after_edit self.old.rows command.now) self.old self.new) }
        ensures refused { IfErr result (IsRefusal (after_edit self.old.rows command.now)) }
        ensures kept { OnErr result (self.new ≡ self.old) }
    {
        edit_sheet(&mut self.grid, &mut self.steps, &mut self.values, command)
    }

    /// Goes back over the last edit, if there is one. After want of memory nothing can be undone.
    pub(crate) fn undo(&mut self) -> Result<bool, Memory>
        ensures { IfOk result (IsUndone self.old self.new) }
    {
        self.values = None;
        undo_last(&mut self.grid, &mut self.steps)
    }

    /// The line of `values`.
    pub(crate) fn values(&mut self, alloc: Global) -> Result<Bytes, Memory>
        ensures line { IfOk result (λ line. line ≡ values_line self.old.rows) }
        ensures same { self.new ≡ self.old }
    {
        values_line(alloc, &self.grid, &mut self.values)
    }
}

/// Edits the rows, and gives what undoes that.
fn edited(grid: &mut Grid, command: &Command) -> Result<Undo, GridFault>
    ensures ok { IfOk result (λ undo. Undoes (after_edit grid.old command.now) grid.old grid.new undo) }
    ensures within { IsGrid grid.old }
    ensures refused { IfErr result (IsRefusal (after_edit grid.old command.now)) }
    ensures kept { OnErr result (grid.new ≡ grid.old) }
{
    match command {
        Command::Set { row, column, text } => {
            grid.set_undoably(*row as usize, *column as usize, text.as_slice())
        }
        Command::InsRow { row } => grid.insert_row_undoably(*row as usize),
        Command::DelRow { row } => grid.delete_row_undoably(*row as usize),
        Command::InsCol { column } => grid.insert_column_undoably(*column as usize),
        Command::DelCol { column } => grid.delete_column_undoably(*column as usize),
        _ => {
            let _rows = grid.rows();
            Err(GridFault::OutOfGrid)
        }
    }
}

/// Edits the rows, and follows with what is kept of values.
fn edit_sheet(
    grid: &mut Grid,
    steps: &mut Steps,
    values: &mut Option<grid_formulas::Sheet>,
    command: &Command,
) -> Result<(), GridFault>
    requires capacity { steps.old.capacity ≡ most_undos }
    requires can { CanUndo grid.old steps.old.items }
    requires values { AreOf grid.old values.old }
    ensures capacity { steps.new.capacity ≡ most_undos }
    ensures can { CanUndo grid.new steps.new.items }
    ensures values { AreOf grid.new values.new }
    ensures ok { OnOk result (IsEdited (after_edit grid.old command.now) (edited_of grid.old steps.old) (edited_of grid.new steps.new)) }
    ensures refused { IfErr result (IsRefusal (after_edit grid.old command.now)) }
    ensures kept { OnErr result (edited_of grid.new steps.new ≡ edited_of grid.old steps.old) }
{
    match edit_rows(grid, steps, command) {
        Ok(()) => {
            follow(values, grid, command);
            return Ok(());
        }
        Err(fault) => return Err(fault),
    }
}

fn edit_rows(grid: &mut Grid, steps: &mut Steps, command: &Command) -> Result<(), GridFault>
    requires capacity { steps.old.capacity ≡ most_undos }
    requires can { CanUndo grid.old steps.old.items }
    ensures capacity { steps.new.capacity ≡ most_undos }
    ensures can { CanUndo grid.new steps.new.items }
    ensures ok { OnOk result (IsEdited (after_edit grid.old command.now) (edited_of grid.old steps.old) (edited_of grid.new steps.new)) }
    ensures refused { IfErr result (IsRefusal (after_edit grid.old command.now)) }
    ensures kept { OnErr result (edited_of grid.new steps.new ≡ edited_of grid.old steps.old) }
{
    match edited(grid, command) {
        Ok(undo) => {
            let _forgotten = steps.push_front(undo);
            return Ok(());
        }
        Err(fault) => return Err(fault),
    }
}

fn undo_last(grid: &mut Grid, steps: &mut Steps) -> Result<bool, Memory>
    requires capacity { steps.old.capacity ≡ most_undos }
    requires can { CanUndo grid.old steps.old.items }
    ensures capacity { steps.new.capacity ≡ most_undos }
    ensures can { CanUndo grid.new steps.new.items }
    ensures undone { IfOk result (IsUndone (edited_of grid.old steps.old) (edited_of grid.new steps.new)) }
{
    let Some(undo) = steps.pop_front() else {
        return Ok(false);
    };
    match grid.undo(undo) {
        Ok(()) => return Ok(true),
        Err(Memory) => {
            steps.clear();
            return Err(Memory);
        }
    }
}
