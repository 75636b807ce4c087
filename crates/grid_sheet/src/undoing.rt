//! What undoes an edit: the row or column that it took or replaced.
ghost use Rattle.std.specs.Prelude.{◌≡◌, ◌<◌, ◌∷◌, [], IfOk, IfErr, OnOk, OnErr, length, map};
ghost use Rattle.csv.specs.Records.{fields_of};
ghost use Rattle.grid_sheet.specs.Rows.{IsGrid, rows_of};
ghost use Rattle.grid_sheet.specs.Edits.{IsRefusal, after_delete_column, after_delete_row, after_insert_column, after_insert_row, after_set};
ghost use Rattle.grid_sheet.specs.Undoing.{Fits, Undoes, all_put_back, had_of, put_back, text_in, undone};

use crate::GridFault;
use crate::cells::{cell_at, with_cell_put_in};
use crate::edits::{self, has_cell, put_row, reaches, without_column};
use csv::ByteRecord;
use std::alloc::{AllocError, Global};
use wopi_text::Memory;

/// What a row had in a column.
#[derive(Clone, Copy, Debug, PartialEq, Eq)]
pub enum Had {
    NoCell,
    OnlyCell,
    OneOfCells,
}

/// A column that was taken out: for each row what it had there, and the text of the cell, which is
/// empty where there was none.
#[derive(Drop)]
pub struct Column {
    pub had: Vec<Had>,
    pub texts: ByteRecord,
}

/// What undoes an edit.
#[derive(Drop)]
pub enum Undo {
    PutRow { row: usize, cells: ByteRecord },
    TakeRow { row: usize },
    InsertRow { row: usize, cells: ByteRecord },
    TakeColumn { column: usize },
    PutColumn { column: usize, kept: Column },
}

/// Puts a text into a cell, and gives what undoes it.
pub fn set(
    alloc: Global,
    rows: &mut Vec<ByteRecord>,
    row: usize,
    column: usize,
    text: &[u8],
) -> Result<Undo, GridFault>
    requires { IsGrid (rows_of rows.old.items) }
    ensures grid { IsGrid (rows_of rows.new.items) }
    ensures ok { IfOk result (λ undo. Undoes (after_set (rows_of rows.old.items) row column text.now) (rows_of rows.old.items) (rows_of rows.new.items) undo) }
    ensures refused { IfErr result (IsRefusal (after_set (rows_of rows.old.items) row column text.now)) }
    ensures kept { OnErr result (rows.new.items ≡ rows.old.items) }
{
    match edits::set(alloc, rows, row, column, text) {
        Ok(cells) => return Ok(Undo::PutRow { row, cells }),
        Err(fault) => return Err(fault),
    }
}

/// Puts in a row of one empty cell, and gives what undoes it.
pub fn insert_row(alloc: Global, rows: &mut Vec<ByteRecord>, row: usize) -> Result<Undo, GridFault>
    requires { IsGrid (rows_of rows.old.items) }
    ensures grid { IsGrid (rows_of rows.new.items) }
    ensures ok { IfOk result (λ undo. Undoes (after_insert_row (rows_of rows.old.items) row) (rows_of rows.old.items) (rows_of rows.new.items) undo) }
    ensures refused { IfErr result (IsRefusal (after_insert_row (rows_of rows.old.items) row)) }
    ensures kept { OnErr result (rows.new.items ≡ rows.old.items) }
{
    match edits::insert_row(alloc, rows, row) {
        Ok(()) => return Ok(Undo::TakeRow { row }),
        Err(fault) => return Err(fault),
    }
}

/// Takes a row out, and gives what undoes it.
pub fn delete_row(rows: &mut Vec<ByteRecord>, row: usize) -> Result<Undo, GridFault>
    requires { IsGrid (rows_of rows.old.items) }
    ensures grid { IsGrid (rows_of rows.new.items) }
    ensures ok { IfOk result (λ undo. Undoes (after_delete_row (rows_of rows.old.items) row) (rows_of rows.old.items) (rows_of rows.new.items) undo) }
    ensures refused { IfErr result (IsRefusal (after_delete_row (rows_of rows.old.items) row)) }
    ensures kept { OnErr result (rows.new.items ≡ rows.old.items) }
{
    match edits::delete_row(rows, row) {
        Ok(cells) => return Ok(Undo::InsertRow { row, cells }),
        Err(fault) => return Err(fault),
    }
}

/// Puts in a column, and gives what undoes it.
pub fn insert_column(
    alloc: Global,
    rows: &mut Vec<ByteRecord>,
    column: usize,
) -> Result<Undo, GridFault>
    requires { IsGrid (rows_of rows.old.items) }
    ensures grid { IsGrid (rows_of rows.new.items) }
    ensures ok { IfOk result (λ undo. Undoes (after_insert_column (rows_of rows.old.items) column) (rows_of rows.old.items) (rows_of rows.new.items) undo) }
    ensures refused { IfErr result (IsRefusal (after_insert_column (rows_of rows.old.items) column)) }
    ensures kept { OnErr result (rows.new.items ≡ rows.old.items) }
{
    match edits::insert_column(alloc, rows, column) {
        Ok(()) => return Ok(Undo::TakeColumn { column }),
        Err(fault) => return Err(fault),
    }
}

/// Takes a column out, and gives what undoes it.
pub fn delete_column(
    alloc: Global,
    rows: &mut Vec<ByteRecord>,
    column: usize,
) -> Result<Undo, GridFault>
    requires { IsGrid (rows_of rows.old.items) }
    ensures grid { IsGrid (rows_of rows.new.items) }
    ensures ok { IfOk result (λ undo. Undoes (after_delete_column (rows_of rows.old.items) column) (rows_of rows.old.items) (rows_of rows.new.items) undo) }
    ensures refused { IfErr result (IsRefusal (after_delete_column (rows_of rows.old.items) column)) }
    ensures kept { OnErr result (rows.new.items ≡ rows.old.items) }
{
    if !edits::any_has_cell(rows, column) {
        return Err(GridFault::OutOfGrid);
    }
    let kept = column_of(alloc, rows, column)?;
    match edits::delete_column(alloc, rows, column) {
        Ok(()) => return Ok(Undo::PutColumn { column, kept }),
        Err(fault) => return Err(fault),
    }
}

/// Undoes an edit of the rows.
pub fn take_back(alloc: Global, rows: &mut Vec<ByteRecord>, undo: Undo) -> Result<(), Memory>
    requires { Fits (rows_of rows.old.items) undo }
    ensures ok { OnOk result (rows_of rows.new.items ≡ undone (rows_of rows.old.items) undo) }
    ensures kept { OnErr result (rows.new.items ≡ rows.old.items) }
{
    match undo {
        Undo::PutRow { row, cells } => {
            let _edited = put_row(rows, row, cells);
        }
        Undo::TakeRow { row } => {
            let _inserted = rows.remove(row - 1);
        }
        Undo::InsertRow { row, cells } => rows.insert(row - 1, cells)?,
        Undo::TakeColumn { column } => *rows = without_column(alloc, rows, column)?,
        Undo::PutColumn { column, kept } => *rows = put_back(alloc, rows, column, &kept)?,
    }
    Ok(())
}

fn had_of(cells: &ByteRecord, column: usize) -> Had
    ensures { result ≡ had_of column (fields_of cells.now) }
{
    if !has_cell(cells, column) {
        return Had::NoCell;
    }
    if cells.len() == 1 {
        return Had::OnlyCell;
    }
    Had::OneOfCells
}

fn text_in(cells: &ByteRecord, column: usize) -> &[u8]
    ensures { result.now ≡ text_in column (fields_of cells.now) }
{
    if !has_cell(cells, column) {
        return b"";
    }
    cell_at(cells, column - 1)
}

// What all rows have in a column.
fn column_of(alloc: Global, rows: &Vec<ByteRecord>, column: usize) -> Result<Column, AllocError>
    ensures had { IfOk result (λ kept. kept.had.items ≡ map (had_of column) (rows_of rows.now.items)) }
    ensures texts { IfOk result (λ kept. fields_of kept.texts ≡ map (text_in column) (rows_of rows.now.items)) }
{
    let mut had = Vec::with_capacity(alloc, rows.len())?;
    let mut texts = ByteRecord::with_capacity(alloc, 0, rows.len())?;
    'rows: for cells in rows {
        had.push(had_of(cells, column))?;
        texts.push_field(text_in(cells, column))?;
    }
    Ok(Column { had, texts })
}

// All rows anew, each with the cell again that was taken out of the column.
fn put_back(
    alloc: Global,
    rows: &Vec<ByteRecord>,
    column: usize,
    kept: &Column,
) -> Result<Vec<ByteRecord>, AllocError>
    requires column { 0 < column }
    requires had { length kept.now.had.items ≡ length rows.now.items }
    requires texts { length (fields_of kept.now.texts) ≡ length rows.now.items }
    ensures { IfOk result (λ edited. rows_of edited.items ≡ all_put_back column kept.now.had.items (fields_of kept.now.texts) (rows_of rows.now.items)) }
{
    let mut edited = Vec::with_capacity(alloc, rows.len())?;
    'rows: for place in 0..rows.len() {
        let text = cell_at(&kept.texts, place);
        edited.push(cells_put_back(alloc, &rows[place], column, kept.had[place], text)?)?;
    }
    Ok(edited)
}

fn cells_put_back(
    alloc: Global,
    cells: &ByteRecord,
    column: usize,
    had: Had,
    text: &[u8],
) -> Result<ByteRecord, AllocError>
    requires { 0 < column }
    ensures { IfOk result (λ row. fields_of row ≡ put_back column had text.now (fields_of cells.now)) }
{
    match had {
        Had::NoCell => cells.clone(),
        Had::OnlyCell => row_of(alloc, text),
        Had::OneOfCells => {
            if !reaches(cells, column) {
                return cells.clone();
            }
            with_cell_put_in(alloc, cells, column - 1, text)
        }
    }
}

// A row of one cell.
fn row_of(alloc: Global, text: &[u8]) -> Result<ByteRecord, AllocError>
    ensures { IfOk result (λ row. fields_of row ≡ text.now ∷ []) }
{
    let mut row = ByteRecord::with_capacity(alloc, text.len(), 1)?;
    row.push_field(text)?;
    Ok(row)
}
