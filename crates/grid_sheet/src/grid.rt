//! The grid.
ghost use Rattle.std.specs.Prelude.{◌≡◌, ◌<◌, IfOk, IfErr, OnOk, OnErr, Ok, length, option_map};

use crate::{GridFault, Undo, edits, text, undoing};
use csv::ByteRecord;
use std::alloc::Global;
use std::marker::Model;
use wopi_text::{Bytes, Memory};

/// The most rows of a grid.
pub const MOST_ROWS: usize = 100_000;

/// The most cells of a row.
pub const MOST_CELLS: usize = 1_024;

/// A sheet: a list of rows of cells. Rows and columns are numbered from 1.
#[derive(Drop)]
pub struct Grid {
    alloc: Global,
    rows: Vec<ByteRecord>,
}

impl Model for Grid {
    ghost use Rattle.grid_sheet.specs.Rows.{IsGrid, Rows, rows_of};

    ghost Value = { Rows };

    ghost view = { λ g. rows_of g.rows.items };

    ghost invariant = { λ g. IsGrid (rows_of g.rows.items) };
}

impl Grid {
    ghost use Rattle.grid_sheet.specs.Rows.{IsGrid, cell_at, row_at};
    ghost use Rattle.grid_sheet.specs.Edits.{IsRefusal, after_delete_cell, after_delete_column, after_delete_row, after_insert_cell, after_insert_column, after_insert_row, after_set};
    ghost use Rattle.grid_sheet.specs.Reading.{IsUnreadable};
    ghost use Rattle.grid_sheet.specs.Text.{read_of, write_of};
    ghost use Rattle.grid_sheet.specs.Undoing.{Fits, Undoes, undone};

    /// The grid of this text, each record of which is a row. A byte order mark at its start is
    /// passed over.
    pub fn read(alloc: Global, contents: &[u8]) -> Result<Grid, GridFault>
        ensures rows { IfOk result (λ grid. grid ≡ read_of contents.now) }
        ensures within { IfOk result IsGrid }
        ensures refused { IfErr result (IsUnreadable (read_of contents.now)) }
    {
        let rows = text::read(alloc, contents)?;
        Ok(Grid { alloc, rows })
    }

    /// An equal grid, in memory of its own.
    pub fn try_copy(&self) -> Result<Grid, Memory>
        ensures { IfOk result (λ grid. grid ≡ self.now) }
    {
        let rows = edits::copy_rows(self.alloc, &self.rows)?;
        Ok(Grid {
            alloc: self.alloc,
            rows,
        })
    }

    /// The text of the grid. Each row ends in `\n`, and a row of one empty cell is written `""`.
    pub fn write(&self) -> Result<Bytes, Memory>
        ensures { IfOk result (λ text. text ≡ write_of self.now) }
    {
        Ok(Bytes::from_vec(text::write(self.alloc, &self.rows)?))
    }

    /// The cell at this row and column, if it is there.
    pub fn cell(&self, row: usize, column: usize) -> Option<&[u8]>
        ensures { option_map (λ s. s.now) result ≡ cell_at self.now row column }
    {
        edits::cell(&self.rows, row, column)
    }

    /// How many cells the row has, which is none where it is not there.
    pub fn cells(&self, row: usize) -> usize
        requires { 0 < row }
        ensures { result ≡ length (row_at self.now row) }
    {
        edits::cells(&self.rows, row)
    }

    /// How many rows there are.
    pub fn rows(&self) -> usize
        ensures count { result ≡ length self.now }
        ensures form { IsGrid self.now }
    {
        self.rows.len()
    }

    /// Puts a text into a cell. A row that is shorter gets empty cells first.
    pub fn set(&mut self, row: usize, column: usize, text: Bytes) -> Result<(), GridFault>
        ensures ok { OnOk result (after_set self.old row column text ≡ Ok self.new) }
        ensures refused { IfErr result (IsRefusal (after_set self.old row column text)) }
        ensures kept { OnErr result (self.new ≡ self.old) }
    {
        match edits::set(self.alloc, &mut self.rows, row, column, text.as_slice()) {
            Ok(_) => Ok(()),
            Err(fault) => Err(fault),
        }
    }

    /// Puts a row of one empty cell before this row, or behind the last.
    pub fn insert_row(&mut self, row: usize) -> Result<(), GridFault>
        ensures ok { OnOk result (after_insert_row self.old row ≡ Ok self.new) }
        ensures refused { IfErr result (IsRefusal (after_insert_row self.old row)) }
        ensures kept { OnErr result (self.new ≡ self.old) }
    {
        edits::insert_row(self.alloc, &mut self.rows, row)
    }

    /// Takes a row out.
    pub fn delete_row(&mut self, row: usize) -> Result<(), GridFault>
        ensures ok { OnOk result (after_delete_row self.old row ≡ Ok self.new) }
        ensures refused { IfErr result (IsRefusal (after_delete_row self.old row)) }
        ensures kept { OnErr result (self.new ≡ self.old) }
    {
        match edits::delete_row(&mut self.rows, row) {
            Ok(_) => Ok(()),
            Err(fault) => Err(fault),
        }
    }

    /// Puts an empty cell before this column into each row that reaches it.
    pub fn insert_column(&mut self, column: usize) -> Result<(), GridFault>
        ensures ok { OnOk result (after_insert_column self.old column ≡ Ok self.new) }
        ensures refused { IfErr result (IsRefusal (after_insert_column self.old column)) }
        ensures kept { OnErr result (self.new ≡ self.old) }
    {
        edits::insert_column(self.alloc, &mut self.rows, column)
    }

    /// Takes the cell in this column out of each row that has it. A row left without cells gets
    /// one empty cell.
    pub fn delete_column(&mut self, column: usize) -> Result<(), GridFault>
        ensures ok { OnOk result (after_delete_column self.old column ≡ Ok self.new) }
        ensures refused { IfErr result (IsRefusal (after_delete_column self.old column)) }
        ensures kept { OnErr result (self.new ≡ self.old) }
    {
        edits::delete_column(self.alloc, &mut self.rows, column)
    }

    /// Puts a cell into this row alone, before this column or behind the row's last.
    pub fn insert_cell(&mut self, row: usize, column: usize, text: Bytes) -> Result<(), GridFault>
        ensures ok { OnOk result (after_insert_cell self.old row column text ≡ Ok self.new) }
        ensures refused { IfErr result (IsRefusal (after_insert_cell self.old row column text)) }
        ensures kept { OnErr result (self.new ≡ self.old) }
    {
        edits::insert_cell(self.alloc, &mut self.rows, row, column, text.as_slice())
    }

    /// Takes a cell out of this row alone, which has another.
    pub fn delete_cell(&mut self, row: usize, column: usize) -> Result<(), GridFault>
        ensures ok { OnOk result (after_delete_cell self.old row column ≡ Ok self.new) }
        ensures refused { IfErr result (IsRefusal (after_delete_cell self.old row column)) }
        ensures kept { OnErr result (self.new ≡ self.old) }
    {
        edits::delete_cell(self.alloc, &mut self.rows, row, column)
    }

    /// The same as [`Grid::set`], and gives what undoes it.
    pub fn set_undoably(
        &mut self,
        row: usize,
        column: usize,
        text: &[u8],
    ) -> Result<Undo, GridFault>
        ensures ok { IfOk result (λ undo. Undoes (after_set self.old row column text.now) self.old self.new undo) }
        ensures within { IsGrid self.old }
        ensures refused { IfErr result (IsRefusal (after_set self.old row column text.now)) }
        ensures kept { OnErr result (self.new ≡ self.old) }
    {
        undoing::set(self.alloc, &mut self.rows, row, column, text)
    }

    /// The same as [`Grid::insert_row`], and gives what undoes it.
    pub fn insert_row_undoably(&mut self, row: usize) -> Result<Undo, GridFault>
        ensures ok { IfOk result (λ undo. Undoes (after_insert_row self.old row) self.old self.new undo) }
        ensures within { IsGrid self.old }
        ensures refused { IfErr result (IsRefusal (after_insert_row self.old row)) }
        ensures kept { OnErr result (self.new ≡ self.old) }
    {
        undoing::insert_row(self.alloc, &mut self.rows, row)
    }

    /// The same as [`Grid::delete_row`], and gives what undoes it.
    pub fn delete_row_undoably(&mut self, row: usize) -> Result<Undo, GridFault>
        ensures ok { IfOk result (λ undo. Undoes (after_delete_row self.old row) self.old self.new undo) }
        ensures within { IsGrid self.old }
        ensures refused { IfErr result (IsRefusal (after_delete_row self.old row)) }
        ensures kept { OnErr result (self.new ≡ self.old) }
    {
        undoing::delete_row(&mut self.rows, row)
    }

    /// The same as [`Grid::insert_column`], and gives what undoes it.
    pub fn insert_column_undoably(&mut self, column: usize) -> Result<Undo, GridFault>
        ensures ok { IfOk result (λ undo. Undoes (after_insert_column self.old column) self.old self.new undo) }
        ensures within { IsGrid self.old }
        ensures refused { IfErr result (IsRefusal (after_insert_column self.old column)) }
        ensures kept { OnErr result (self.new ≡ self.old) }
    {
        undoing::insert_column(self.alloc, &mut self.rows, column)
    }

    /// The same as [`Grid::delete_column`], and gives what undoes it.
    pub fn delete_column_undoably(&mut self, column: usize) -> Result<Undo, GridFault>
        ensures ok { IfOk result (λ undo. Undoes (after_delete_column self.old column) self.old self.new undo) }
        ensures within { IsGrid self.old }
        ensures refused { IfErr result (IsRefusal (after_delete_column self.old column)) }
        ensures kept { OnErr result (self.new ≡ self.old) }
    {
        undoing::delete_column(self.alloc, &mut self.rows, column)
    }

    /// Undoes the edit that this came of, where no later one stands. It touches the row or column
    /// of the edit alone.
    pub fn undo(&mut self, undo: Undo) -> Result<(), Memory>
        requires fits { Fits self.old undo }
        requires form { IsGrid (undone self.old undo) }
        ensures ok { OnOk result (self.new ≡ undone self.old undo) }
        ensures kept { OnErr result (self.new ≡ self.old) }
    {
        undoing::take_back(self.alloc, &mut self.rows, undo)
    }
}
