//! A sheet: a grid and the values of its cells.
ghost use Rattle.std.specs.Prelude.{◌≡◌, ◌≤◌, ◌*◌, ◌+◌, IfOk, IfErr, OnOk, OnErr, Ok, List, ℕ, length};
ghost use Rattle.std.specs.Ordering.{nat_cmp};
ghost use Rattle.std.specs.BTreeMap.{get};
ghost use Rattle.grid_sheet.specs.Edits.{after_set};
ghost use Rattle.grid_sheet.specs.Rows.{IsGrid};
ghost use Rattle.grid_sheet.specs.Text.{write_of};
ghost use Rattle.grid_formulas.specs.Texts.{shown_rows};
ghost use Rattle.grid_formulas.specs.Cells.{IsSheetFault, cell_value, link_count, value_of};
ghost use Rattle.grid_formulas.specs.Changes.{changed_cells};
ghost use Rattle.grid_formulas.specs.Places.{text_at};
ghost use Rattle.grid_formulas.specs.Sheets.{AreSettled, AreStuck, kept_values, stored};

use crate::cells::Node;
use crate::change::set_cell;
use crate::evaluate::value_now;
use crate::gather::gather;
use crate::nodes::{readers_of, take_over};
use crate::turn::places_of_values;
use crate::values::{places_of, values_of};
use crate::{Changed, SheetFault, Value, text};
use grid_sheet::{Grid, MOST_CELLS, MOST_ROWS};
use std::alloc::Global;
use std::collections::{BTreeMap, BTreeSet};
use std::marker::Model;
use wopi_text::{Bytes, Memory};

// The value of the cell at a place.
fn value_in(grid: &Grid, nodes: &BTreeMap<usize, Node>, place: usize) -> Value
    requires grid { IsGrid grid.now }
    requires settled { AreSettled (text_at grid.now) (stored (text_at grid.now) (kept_values (get nat_cmp nodes.now))) }
    requires stuck { AreStuck (text_at grid.now) (stored (text_at grid.now) (kept_values (get nat_cmp nodes.now))) }
    ensures { result ≡ value_of (text_at grid.now) place }
{
    value_now(grid, nodes, place)
}

/// A grid and the values of its cells.
#[derive(Drop)]
pub struct Sheet {
    alloc: Global,
    grid: Grid,
    nodes: BTreeMap<usize, Node>,
    readers: BTreeMap<usize, BTreeSet<usize>>,
    links: usize,
}

impl Model for Sheet {
    ghost use Rattle.std.specs.Ordering.{nat_cmp};
    ghost use Rattle.std.specs.BTreeMap.{get};
    ghost use Rattle.grid_sheet.specs.Rows.{Rows};
    ghost use Rattle.grid_formulas.specs.Sheets.{IsSheet};

    ghost Value = { Rows };

    ghost view = { λ s. s.grid };

    ghost invariant = { λ s. IsSheet s.grid (get nat_cmp s.nodes) (get nat_cmp s.readers) s.links };
}

impl Sheet {
    /// The sheet of a grid, of which it keeps a copy.
    pub fn new(alloc: Global, grid: &Grid) -> Result<Sheet, SheetFault>
        ensures grid { IfOk result (λ sheet. sheet ≡ grid.now) }
        ensures few { IfOk result (λ _. link_count (text_at grid.now) ≤ 1000000) }
        ensures refused { IfErr result (IsSheetFault grid.now) }
    {
        let _rows = grid.rows();
        let mut nodes = BTreeMap::new(alloc);
        let links = match gather(alloc, grid, &mut nodes) {
            Ok(links) => links,
            Err(fault) => return Err(fault),
        };
        let formulas = places_of(alloc, &nodes)?;
        let readers = readers_of(alloc, &nodes, &formulas)?;
        let values = values_of(alloc, grid, &nodes)?;
        let places = places_of_values(alloc, &values)?;
        take_over(&mut nodes, &values, &places);
        let grid = grid.try_copy()?;
        Ok(Sheet {
            alloc,
            grid,
            nodes,
            readers,
            links,
        })
    }

    /// The value of the cell at a row and a column.
    pub fn value(&self, row: usize, column: usize) -> Value
        ensures { result ≡ cell_value self.now row column }
    {
        if row == 0 || row > MOST_ROWS || column == 0 || column > MOST_CELLS {
            return Value::Empty;
        }
        self.at((row - 1) * MOST_CELLS + (column - 1))
    }

    /// The same for the grid after a set of this cell. Gives the cells whose value is another than
    /// before, a text taken for the same as any text.
    pub fn set(&mut self, grid: &Grid, row: usize, column: usize) -> Result<Changed, SheetFault>
        requires { (text : List ℕ) × (after_set self.old row column text ≡ Ok grid.now) }
        ensures grid { OnOk result (self.new ≡ grid.now) }
        ensures few { IfOk result (λ _. link_count (text_at grid.now) ≤ 1000000) }
        ensures changed { IfOk result (λ cells. cells ≡ changed_cells self.old grid.now) }
        ensures refused { IfErr result (IsSheetFault grid.now) }
        ensures kept { OnErr result (self.new ≡ self.old) }
    {
        let set = set_cell(
            self.alloc,
            &mut self.grid,
            &mut self.nodes,
            &mut self.readers,
            &mut self.links,
            grid,
            row,
            column,
        );
        match set {
            Ok(cells) => Ok(Changed::from_vec(cells)),
            Err(fault) => Err(fault),
        }
    }

    /// The text of the grid, with each formula cell's value in its place.
    pub fn values_text(&self) -> Result<Bytes, Memory>
        ensures { IfOk result (λ text. text ≡ write_of (shown_rows self.now)) }
    {
        Ok(Bytes::from_vec(text::values_text(self.alloc, self)?))
    }

    pub(crate) fn grid(&self) -> &Grid
        ensures { result.now ≡ self.now }
    {
        &self.grid
    }

    pub(crate) fn rows(&self) -> usize
        ensures count { result ≡ length self.now }
        ensures form { IsGrid self.now }
    {
        self.grid.rows()
    }

    // The value of the cell at a place.
    pub(crate) fn at(&self, place: usize) -> Value
        ensures { result ≡ value_of (text_at self.now) place }
    {
        value_in(&self.grid, &self.nodes, place)
    }
}
