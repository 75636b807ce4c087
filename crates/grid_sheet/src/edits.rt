//! The edits, on rows as a grid holds them. Whatever may be refused is tested first, and memory is
//! taken before anything changes.
ghost use Rattle.std.specs.Prelude.{◌≡◌, ◌-◌, ◌<◌, ◌≤◌, IsTrue, IfOk, IfErr, OnOk, OnErr, Ok, length, map, option_map};
ghost use Rattle.std.specs.List.{list_any};
ghost use Rattle.csv.specs.Records.{fields_of};
ghost use Rattle.grid_sheet.specs.Rows.{IsGrid, cell_at, has_cell, has_row, is_column, row_at, rows_of, with_row};
ghost use Rattle.grid_sheet.specs.Edits.{IsRefusal, after_delete_cell, after_delete_column, after_delete_row, after_insert_cell, after_insert_column, after_insert_row, after_set, is_full, reaches, with_column, without_column};

use crate::cells::{
    cell_at, empty_row, with_cell, with_cell_put_in, without_cell, without_cell_or_empty,
};
use crate::{GridFault, MOST_CELLS, MOST_ROWS};
use csv::ByteRecord;
use std::alloc::{AllocError, Global};
use std::mem;

/// Puts a text into a cell, and gives the row as it was.
pub fn set(
    alloc: Global,
    rows: &mut Vec<ByteRecord>,
    row: usize,
    column: usize,
    text: &[u8],
) -> Result<ByteRecord, GridFault>
    requires { IsGrid (rows_of rows.old.items) }
    ensures grid { IsGrid (rows_of rows.new.items) }
    ensures former { IfOk result (λ former. fields_of former ≡ row_at (rows_of rows.old.items) row) }
    ensures ok { OnOk result (after_set (rows_of rows.old.items) row column text.now ≡ Ok (rows_of rows.new.items)) }
    ensures refused { IfErr result (IsRefusal (after_set (rows_of rows.old.items) row column text.now)) }
    ensures kept { OnErr result (rows.new.items ≡ rows.old.items) }
{
    if !has_row(rows, row) || !is_column(column) {
        return Err(GridFault::OutOfGrid);
    }
    let edited = with_cell(alloc, row_at(rows, row), column, text)?;
    Ok(put_row(rows, row, edited))
}

/// Puts a row of one empty cell before this one, or behind the last.
pub fn insert_row(alloc: Global, rows: &mut Vec<ByteRecord>, row: usize) -> Result<(), GridFault>
    requires { IsGrid (rows_of rows.old.items) }
    ensures grid { IsGrid (rows_of rows.new.items) }
    ensures ok { OnOk result (after_insert_row (rows_of rows.old.items) row ≡ Ok (rows_of rows.new.items)) }
    ensures refused { IfErr result (IsRefusal (after_insert_row (rows_of rows.old.items) row)) }
    ensures kept { OnErr result (rows.new.items ≡ rows.old.items) }
{
    if row == 0 || row - 1 > rows.len() {
        return Err(GridFault::OutOfGrid);
    }
    if rows.len() >= MOST_ROWS {
        return Err(GridFault::TooMany);
    }
    let added = empty_row(alloc)?;
    rows.insert(row - 1, added)?;
    Ok(())
}

/// Takes a row out, and gives it.
pub fn delete_row(rows: &mut Vec<ByteRecord>, row: usize) -> Result<ByteRecord, GridFault>
    requires { IsGrid (rows_of rows.old.items) }
    ensures former { IfOk result (λ former. fields_of former ≡ row_at (rows_of rows.old.items) row) }
    ensures grid { IsGrid (rows_of rows.new.items) }
    ensures ok { OnOk result (after_delete_row (rows_of rows.old.items) row ≡ Ok (rows_of rows.new.items)) }
    ensures refused { IfErr result (IsRefusal (after_delete_row (rows_of rows.old.items) row)) }
    ensures kept { OnErr result (rows.new.items ≡ rows.old.items) }
{
    if !has_row(rows, row) {
        return Err(GridFault::OutOfGrid);
    }
    let deleted = rows.remove(row - 1);
    Ok(deleted)
}

/// Puts an empty cell before this column into each row that reaches it.
pub fn insert_column(
    alloc: Global,
    rows: &mut Vec<ByteRecord>,
    column: usize,
) -> Result<(), GridFault>
    requires { IsGrid (rows_of rows.old.items) }
    ensures grid { IsGrid (rows_of rows.new.items) }
    ensures ok { OnOk result (after_insert_column (rows_of rows.old.items) column ≡ Ok (rows_of rows.new.items)) }
    ensures refused { IfErr result (IsRefusal (after_insert_column (rows_of rows.old.items) column)) }
    ensures kept { OnErr result (rows.new.items ≡ rows.old.items) }
{
    if !is_column(column) {
        return Err(GridFault::OutOfGrid);
    }
    if any_full(rows, column) {
        return Err(GridFault::TooMany);
    }
    *rows = with_column(alloc, rows, column)?;
    Ok(())
}

/// Takes the cell in this column out of each row that has it.
pub fn delete_column(
    alloc: Global,
    rows: &mut Vec<ByteRecord>,
    column: usize,
) -> Result<(), GridFault>
    requires { IsGrid (rows_of rows.old.items) }
    ensures grid { IsGrid (rows_of rows.new.items) }
    ensures ok { OnOk result (after_delete_column (rows_of rows.old.items) column ≡ Ok (rows_of rows.new.items)) }
    ensures refused { IfErr result (IsRefusal (after_delete_column (rows_of rows.old.items) column)) }
    ensures kept { OnErr result (rows.new.items ≡ rows.old.items) }
{
    if !any_has_cell(rows, column) {
        return Err(GridFault::OutOfGrid);
    }
    *rows = without_column(alloc, rows, column)?;
    Ok(())
}

/// Puts a cell into this row, before this column or behind the last.
pub fn insert_cell(
    alloc: Global,
    rows: &mut Vec<ByteRecord>,
    row: usize,
    column: usize,
    text: &[u8],
) -> Result<(), GridFault>
    requires { IsGrid (rows_of rows.old.items) }
    ensures grid { IsGrid (rows_of rows.new.items) }
    ensures ok { OnOk result (after_insert_cell (rows_of rows.old.items) row column text.now ≡ Ok (rows_of rows.new.items)) }
    ensures refused { IfErr result (IsRefusal (after_insert_cell (rows_of rows.old.items) row column text.now)) }
    ensures kept { OnErr result (rows.new.items ≡ rows.old.items) }
{
    if !has_row(rows, row) {
        return Err(GridFault::OutOfGrid);
    }
    let cells = row_at(rows, row);
    if column == 0 || !reaches(cells, column) {
        return Err(GridFault::OutOfGrid);
    }
    if cells.len() >= MOST_CELLS {
        return Err(GridFault::TooMany);
    }
    let edited = with_cell_put_in(alloc, cells, column - 1, text)?;
    let _former = put_row(rows, row, edited);
    Ok(())
}

/// Takes a cell out of this row, which has another.
pub fn delete_cell(
    alloc: Global,
    rows: &mut Vec<ByteRecord>,
    row: usize,
    column: usize,
) -> Result<(), GridFault>
    requires { IsGrid (rows_of rows.old.items) }
    ensures grid { IsGrid (rows_of rows.new.items) }
    ensures ok { OnOk result (after_delete_cell (rows_of rows.old.items) row column ≡ Ok (rows_of rows.new.items)) }
    ensures refused { IfErr result (IsRefusal (after_delete_cell (rows_of rows.old.items) row column)) }
    ensures kept { OnErr result (rows.new.items ≡ rows.old.items) }
{
    if !has_row(rows, row) {
        return Err(GridFault::OutOfGrid);
    }
    let cells = row_at(rows, row);
    if !has_cell(cells, column) || cells.len() <= 1 {
        return Err(GridFault::OutOfGrid);
    }
    let edited = without_cell(alloc, cells, column - 1)?;
    let _former = put_row(rows, row, edited);
    Ok(())
}

/// The cell at this row and column, if it is there.
pub fn cell(rows: &Vec<ByteRecord>, row: usize, column: usize) -> Option<&[u8]>
    ensures { option_map (λ s. s.now) result ≡ cell_at (rows_of rows.now.items) row column }
{
    if !has_row(rows, row) {
        return None;
    }
    let cells = row_at(rows, row);
    if !has_cell(cells, column) {
        return None;
    }
    Some(cell_at(cells, column - 1))
}

/// How many cells the row has; none where it is not there.
pub fn cells(rows: &Vec<ByteRecord>, row: usize) -> usize
    requires { 0 < row }
    ensures { result ≡ length (row_at (rows_of rows.now.items) row) }
{
    match rows.get(row - 1) {
        None => 0,
        Some(cells) => cells.len(),
    }
}

/// All rows, in memory of their own.
pub fn copy_rows(alloc: Global, rows: &Vec<ByteRecord>) -> Result<Vec<ByteRecord>, AllocError>
    ensures { IfOk result (λ copy. rows_of copy.items ≡ rows_of rows.now.items) }
{
    let mut copy = Vec::with_capacity(alloc, rows.len())?;
    'rows: for cells in rows {
        copy.push(cells.clone()?)?;
    }
    Ok(copy)
}

pub fn has_row(rows: &Vec<ByteRecord>, row: usize) -> bool
    ensures { result ≡ has_row (rows_of rows.now.items) row }
{
    0 < row && row <= rows.len()
}

fn is_column(column: usize) -> bool
    ensures { result ≡ is_column column }
{
    0 < column && column <= MOST_CELLS
}

pub fn has_cell(cells: &ByteRecord, column: usize) -> bool
    ensures { result ≡ has_cell (fields_of cells.now) column }
{
    0 < column && column <= cells.len()
}

fn row_at(rows: &Vec<ByteRecord>, row: usize) -> &ByteRecord
    requires { IsTrue (has_row (rows_of rows.now.items) row) }
    ensures { fields_of result.now ≡ row_at (rows_of rows.now.items) row }
{
    &rows[row - 1]
}

/// Puts other cells into a row, and gives the row as it was.
pub fn put_row(rows: &mut Vec<ByteRecord>, row: usize, cells: ByteRecord) -> ByteRecord
    requires { IsTrue (has_row (rows_of rows.old.items) row) }
    ensures rows { rows_of rows.new.items ≡ with_row (rows_of rows.old.items) row (fields_of cells) }
    ensures former { fields_of result ≡ row_at (rows_of rows.old.items) row }
{
    mem::replace(&mut rows[row - 1], cells)
}

/// Whether the row ends just before the column, or behind it.
pub fn reaches(cells: &ByteRecord, column: usize) -> bool
    requires { 0 < column }
    ensures { result ≡ reaches column (fields_of cells.now) }
{
    column - 1 <= cells.len()
}

fn any_full(rows: &Vec<ByteRecord>, column: usize) -> bool
    requires { 0 < column }
    ensures { result ≡ list_any (λ cells. is_full column (fields_of cells)) rows.now.items }
{
    rows.iter().any(|cells| reaches(cells, column) && cells.len() >= MOST_CELLS)
}

/// Whether a row has a cell in the column.
pub fn any_has_cell(rows: &Vec<ByteRecord>, column: usize) -> bool
    ensures { result ≡ list_any (λ cells. has_cell (fields_of cells) column) rows.now.items }
{
    rows.iter().any(|cells| has_cell(cells, column))
}

// All rows anew, each that reaches the column with an empty cell there.
fn with_column(
    alloc: Global,
    rows: &Vec<ByteRecord>,
    column: usize,
) -> Result<Vec<ByteRecord>, AllocError>
    requires { 0 < column }
    ensures { IfOk result (λ edited. rows_of edited.items ≡ map (with_column column) (rows_of rows.now.items)) }
{
    let mut edited = Vec::with_capacity(alloc, rows.len())?;
    'rows: for cells in rows {
        edited.push(cells_with_column(alloc, cells, column)?)?;
    }
    Ok(edited)
}

fn cells_with_column(
    alloc: Global,
    cells: &ByteRecord,
    column: usize,
) -> Result<ByteRecord, AllocError>
    requires { 0 < column }
    ensures { IfOk result (λ row. fields_of row ≡ with_column column (fields_of cells.now)) }
{
    if reaches(cells, column) {
        return with_cell_put_in(alloc, cells, column - 1, b"");
    }
    cells.clone()
}

/// All rows anew, each that has the column without its cell there.
pub fn without_column(
    alloc: Global,
    rows: &Vec<ByteRecord>,
    column: usize,
) -> Result<Vec<ByteRecord>, AllocError>
    ensures { IfOk result (λ edited. rows_of edited.items ≡ map (without_column column) (rows_of rows.now.items)) }
{
    let mut edited = Vec::with_capacity(alloc, rows.len())?;
    'rows: for cells in rows {
        edited.push(cells_without_column(alloc, cells, column)?)?;
    }
    Ok(edited)
}

fn cells_without_column(
    alloc: Global,
    cells: &ByteRecord,
    column: usize,
) -> Result<ByteRecord, AllocError>
    ensures { IfOk result (λ row. fields_of row ≡ without_column column (fields_of cells.now)) }
{
    if has_cell(cells, column) {
        return without_cell_or_empty(alloc, cells, column - 1);
    }
    cells.clone()
}
