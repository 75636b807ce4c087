//! The formula cells of a grid, read.
ghost use Rattle.std.specs.Prelude.{◌≡◌, ◌≤◌, ◌<◌, ◌+◌, ◌*◌, ◌-◌, ◌^◌, IfOk, IfErr, OnOk, length, min, option_map};
ghost use Rattle.std.specs.Ordering.{nat_cmp};
ghost use Rattle.std.specs.BTreeMap.{get};
ghost use Rattle.grid_sheet.specs.Rows.{IsGrid};
ghost use Rattle.grid_formulas.specs.Cells.{IsSheetFault, link_count, reads_if};
ghost use Rattle.grid_formulas.specs.Places.{reads_of, text_at};
ghost use Rattle.grid_formulas.specs.Sheets.{Gathers, IsGatherFault, KnowsFormulas};

use crate::cells::{Node, has_cell, text_at};
use crate::reader::{formula, is_formula};
use crate::{SheetFault, Step, Value};
use grid_sheet::{Grid, MOST_CELLS};
use std::alloc::Global;
use std::collections::BTreeMap;

/// The most cells that the formulas of a sheet may name together.
pub const MOST_LINKS: usize = 1_000_000;

// How many cells the steps name, or the greatest usize where it is as great.
fn count_named(steps: &[Step]) -> usize
    ensures { result ≡ min (length (reads_of steps.now)) (2 ^ 64 - 1) }
{
    let mut total = 0usize;
    'steps: for step in steps {
        total = total.saturating_add(step.cells().size as usize);
    }
    total
}

/// How many cells the formula names, or the greatest usize where it is as great.
pub fn count_reads(formula: &Option<Vec<Step>>) -> usize
    ensures { result ≡ min (length (reads_if (option_map (λ steps. steps.items) formula.now))) (2 ^ 64 - 1) }
{
    match formula {
        None => 0,
        Some(steps) => count_named(steps),
    }
}

// Reads the cell at a place, if it is a formula, and gives the count with the cells that it names.
fn gather_cell(
    alloc: Global,
    grid: &Grid,
    nodes: &mut BTreeMap<usize, Node>,
    count: usize,
    place: usize,
) -> Result<usize, SheetFault>
    requires { Gathers (text_at grid.now) (get nat_cmp nodes.old) place count }
    ensures ok { IfOk result (λ more. Gathers (text_at grid.now) (get nat_cmp nodes.new) (place + 1) more) }
    ensures refused { IfErr result (IsGatherFault (text_at grid.now) (place + 1)) }
{
    let text = text_at(grid, place);
    if !is_formula(text) {
        return Ok(count);
    }
    let formula = formula(alloc, text)?;
    let named = count_reads(&formula);
    if named > MOST_LINKS - count {
        return Err(SheetFault::TooManyLinks);
    }
    let node = Node {
        formula,
        value: Value::Cycle,
    };
    nodes.insert(place, node)?;
    Ok(count + named)
}

// Reads the cells of a row, numbered from 0, as far as there are any.
fn gather_row(
    alloc: Global,
    grid: &Grid,
    nodes: &mut BTreeMap<usize, Node>,
    mut count: usize,
    row: usize,
) -> Result<usize, SheetFault>
    requires gathers { Gathers (text_at grid.now) (get nat_cmp nodes.old) (row * 1024) count }
    requires there { row < length grid.now }
    requires grid { IsGrid grid.now }
    ensures ok { IfOk result (λ more. Gathers (text_at grid.now) (get nat_cmp nodes.new) ((row + 1) * 1024) more) }
    ensures refused { IfErr result (IsSheetFault grid.now) }
{
    'columns: for column in 0..MOST_CELLS {
        if !has_cell(grid, row + 1, column + 1) {
            return Ok(count);
        }
        match gather_cell(alloc, grid, nodes, count, row * MOST_CELLS + column) {
            Ok(more) => count = more,
            Err(fault) => return Err(fault),
        }
    }
    Ok(count)
}

/// Adds the formula cells of a grid. Gives how many cells the formulas name together.
pub fn gather(
    alloc: Global,
    grid: &Grid,
    nodes: &mut BTreeMap<usize, Node>,
) -> Result<usize, SheetFault>
    requires { IsGrid grid.now }
    ensures known { OnOk result (KnowsFormulas (text_at grid.now) (get nat_cmp nodes.new)) }
    ensures counts { IfOk result (λ links. links ≡ link_count (text_at grid.now)) }
    ensures few { IfOk result (λ _. link_count (text_at grid.now) ≤ 1000000) }
    ensures refused { IfErr result (IsSheetFault grid.now) }
{
    let mut count = 0;
    'rows: for row in 0..grid.rows() {
        match gather_row(alloc, grid, nodes, count, row) {
            Ok(more) => count = more,
            Err(fault) => return Err(fault),
        }
    }
    Ok(count)
}
