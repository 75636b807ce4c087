//! New rows, made of the cells of others.
ghost use Rattle.std.specs.Prelude.{◌≡◌, ◌+◌, ◌-◌, ◌<◌, ◌≤◌, ◌++◌, ◌∷◌, [], IfOk, OnOk, length, take, drop, replicate, insert, remove, slice_index_or};
ghost use Rattle.csv.specs.Records.{fields_of, partial_of};
ghost use Rattle.grid_sheet.specs.Edits.{empty_row, or_empty_row, with_cell};

use csv::ByteRecord;
use std::alloc::{AllocError, Global};

/// The cell at `place`, which counts from 0.
pub fn cell_at(cells: &ByteRecord, place: usize) -> &[u8]
    requires { place < length (fields_of cells.now) }
    ensures { result.now ≡ slice_index_or (fields_of cells.now) place [] }
{
    match cells.get(place) {
        Some(cell) => cell,
        None => unreachable!(),
    }
}

/// A row of one empty cell.
pub fn empty_row(alloc: Global) -> Result<ByteRecord, AllocError>
    ensures { IfOk result (λ row. fields_of row ≡ empty_row) }
{
    let mut row = ByteRecord::with_capacity(alloc, 0, 1)?;
    row.push_field(b"")?;
    Ok(row)
}

/// The row with `text` in a column, empty cells before it as far as it was shorter.
pub fn with_cell(
    alloc: Global,
    cells: &ByteRecord,
    column: usize,
    text: &[u8],
) -> Result<ByteRecord, AllocError>
    requires { 0 < column }
    ensures { IfOk result (λ row. fields_of row ≡ with_cell (fields_of cells.now) column text.now) }
{
    let len = cells.len();
    let before = len.min(column - 1);
    let mut row = room_for(alloc, cells, text, len.max(column))?;
    copy_cells(&mut row, cells, 0, before)?;
    add_empty_cells(&mut row, column - 1 - before)?;
    row.push_field(text)?;
    copy_cells(&mut row, cells, len.min(column), len)?;
    Ok(row)
}

/// The row with a cell more, before those from `place` on, which counts from 0.
pub fn with_cell_put_in(
    alloc: Global,
    cells: &ByteRecord,
    place: usize,
    text: &[u8],
) -> Result<ByteRecord, AllocError>
    requires { place ≤ length (fields_of cells.now) }
    ensures { IfOk result (λ row. fields_of row ≡ insert (fields_of cells.now) place text.now) }
{
    let len = cells.len();
    let mut row = room_for(alloc, cells, text, len.saturating_add(1))?;
    copy_cells(&mut row, cells, 0, place)?;
    row.push_field(text)?;
    copy_cells(&mut row, cells, place, len)?;
    Ok(row)
}

/// The row without the cell at `place`, which counts from 0.
pub fn without_cell(
    alloc: Global,
    cells: &ByteRecord,
    place: usize,
) -> Result<ByteRecord, AllocError>
    requires { place < length (fields_of cells.now) }
    ensures { IfOk result (λ row. fields_of row ≡ remove (fields_of cells.now) place) }
{
    let len = cells.len();
    let mut row = room_for(alloc, cells, b"", len)?;
    copy_cells(&mut row, cells, 0, place)?;
    copy_cells(&mut row, cells, place + 1, len)?;
    Ok(row)
}

/// The same, with one empty cell where no other is left.
pub fn without_cell_or_empty(
    alloc: Global,
    cells: &ByteRecord,
    place: usize,
) -> Result<ByteRecord, AllocError>
    requires { place < length (fields_of cells.now) }
    ensures { IfOk result (λ row. fields_of row ≡ or_empty_row (remove (fields_of cells.now) place)) }
{
    if cells.len() == 1 {
        return empty_row(alloc);
    }
    without_cell(alloc, cells, place)
}

// An empty row with room for the texts of `cells` and of one cell more, and for `count` cells.
fn room_for(
    alloc: Global,
    cells: &ByteRecord,
    text: &[u8],
    count: usize,
) -> Result<ByteRecord, AllocError>
    ensures cells { IfOk result (λ row. fields_of row ≡ []) }
    ensures whole { IfOk result (λ row. partial_of row ≡ []) }
{
    let bytes = cells.as_slice().len().saturating_add(text.len());
    ByteRecord::with_capacity(alloc, bytes, count)
}

// Adds the cells from `start` to before `end` of another row.
fn copy_cells(
    row: &mut ByteRecord,
    from: &ByteRecord,
    start: usize,
    end: usize,
) -> Result<(), AllocError>
    requires order { start ≤ end }
    requires within { end ≤ length (fields_of from.now) }
    requires whole { partial_of row.old ≡ [] }
    ensures cells { OnOk result (fields_of row.new ≡ fields_of row.old ++ take (end - start) (drop start (fields_of from.now))) }
    ensures whole { OnOk result (partial_of row.new ≡ []) }
{
    'cells: for place in start..end {
        row.push_field(cell_at(from, place))?;
    }
    Ok(())
}

// Adds empty cells.
fn add_empty_cells(row: &mut ByteRecord, count: usize) -> Result<(), AllocError>
    requires whole { partial_of row.old ≡ [] }
    ensures cells { OnOk result (fields_of row.new ≡ fields_of row.old ++ replicate count []) }
    ensures whole { OnOk result (partial_of row.new ≡ []) }
{
    'cells: for _ in 0..count {
        row.push_field(b"")?;
    }
    Ok(())
}
