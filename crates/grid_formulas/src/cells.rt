//! The cells of a grid by their places, and the formula cells.
ghost use Rattle.std.specs.Prelude.{◌≡◌, is_some};
ghost use Rattle.grid_sheet.specs.Rows.{cell_at};
ghost use Rattle.grid_formulas.specs.Places.{text_at};

use crate::{Step, Value};
use grid_sheet::{Grid, MOST_CELLS};

/// A formula cell.
#[derive(Drop)]
pub struct Node {
    /// Its formula, if the grammar has it.
    pub formula: Option<Vec<Step>>,
    /// Its value.
    pub value: Value,
}

/// The bytes of the cell at a place; none where the cell is not there.
pub fn text_at(grid: &Grid, place: usize) -> &[u8]
    ensures { result.now ≡ text_at grid.now place }
{
    match grid.cell(place / MOST_CELLS + 1, place % MOST_CELLS + 1) {
        None => &[],
        Some(text) => text,
    }
}

/// Whether the grid has a cell at this row and column, numbered from 1.
pub fn has_cell(grid: &Grid, row: usize, column: usize) -> bool
    ensures { result ≡ is_some (cell_at grid.now row column) }
{
    match grid.cell(row, column) {
        None => false,
        Some(_) => true,
    }
}
