//! The values of cells that are looked at anew. Each formula cell among them has Cycle at first. A
//! cell that reads no Cycle gets its formula's value, again and again until none is left that
//! does. The order in which cells are looked at decides about time alone.
ghost use Rattle.std.specs.Prelude.{◌≡◌, IfOk, OnOk, option_map, length};
ghost use Rattle.std.specs.Ordering.{nat_cmp};
ghost use Rattle.std.specs.BTreeMap.{get};
ghost use Rattle.std.specs.List.{list_any};
ghost use Rattle.grid_sheet.specs.Rows.{IsGrid};
ghost use Rattle.grid_formulas.specs.Cells.{reads_if};
ghost use Rattle.grid_formulas.specs.Places.{places_of, reads_of, text_at};
ghost use Rattle.grid_formulas.specs.Sheets.{KnowsFormulas, LooksAt, Rests, Sweeps, any_cycle, is_cycle, values_over, waits};

use crate::cells::{Node, text_at};
use crate::evaluate::{value_at, value_of_formula};
use crate::reader::is_formula;
use crate::{Span, Step, Value};
use grid_sheet::Grid;
use std::alloc::{AllocError, Global};
use std::collections::BTreeMap;
use wopi_text::Memory;

fn is_cycle(value: Value) -> bool
    ensures { result ≡ is_cycle value }
{
    match value {
        Value::Cycle => true,
        _ => false,
    }
}

fn waits(after: &BTreeMap<usize, Value>, place: usize) -> bool
    ensures { result ≡ waits (get nat_cmp after.now place) }
{
    match after.get(&place) {
        None => false,
        Some(value) => is_cycle(*value),
    }
}

fn cycle_in_span(
    grid: &Grid,
    nodes: &BTreeMap<usize, Node>,
    after: &BTreeMap<usize, Value>,
    span: &Span,
) -> bool
    ensures { result ≡ any_cycle (values_over grid.now (get nat_cmp nodes.now) (get nat_cmp after.now)) (places_of span.now) }
{
    'cells: for n in 0..span.size {
        if is_cycle(value_at(grid, nodes, after, span.nth(n))) {
            return true;
        }
    }
    false
}

fn cycle_in_steps(
    grid: &Grid,
    nodes: &BTreeMap<usize, Node>,
    after: &BTreeMap<usize, Value>,
    steps: &[Step],
) -> bool
    ensures { result ≡ any_cycle (values_over grid.now (get nat_cmp nodes.now) (get nat_cmp after.now)) (reads_of steps.now) }
{
    'steps: for step in steps {
        if cycle_in_span(grid, nodes, after, &step.cells()) {
            return true;
        }
    }
    false
}

// Whether the formula reads a cell with Cycle.
fn reads_cycle(
    grid: &Grid,
    nodes: &BTreeMap<usize, Node>,
    after: &BTreeMap<usize, Value>,
    formula: &Option<Vec<Step>>,
) -> bool
    ensures { result ≡ any_cycle (values_over grid.now (get nat_cmp nodes.now) (get nat_cmp after.now)) (reads_if (option_map (λ steps. steps.items) formula.now)) }
{
    match formula {
        None => false,
        Some(steps) => cycle_in_steps(grid, nodes, after, steps),
    }
}

// Gives the cell its formula's value, if it has Cycle and reads none. Says whether it stays with
// Cycle.
fn look_at(
    alloc: Global,
    grid: &Grid,
    nodes: &BTreeMap<usize, Node>,
    after: &mut BTreeMap<usize, Value>,
    place: usize,
) -> Result<bool, Memory>
    requires grid { IsGrid grid.now }
    requires known { KnowsFormulas (text_at grid.now) (get nat_cmp nodes.now) }
    ensures { IfOk result (λ stays. LooksAt grid.now (get nat_cmp nodes.now) (get nat_cmp after.old) (get nat_cmp after.new) stays place) }
{
    if !is_formula(text_at(grid, place)) {
        return Ok(false);
    }
    if !waits(after, place) {
        return Ok(false);
    }
    let Some(node) = nodes.get(&place) else {
        return Ok(false);
    };
    if reads_cycle(grid, nodes, after, &node.formula) {
        return Ok(true);
    }
    let value = value_of_formula(alloc, grid, nodes, after, &node.formula)?;
    after.insert(place, value)?;
    Ok(false)
}

// Looks at each cell of the list once. Gives those that stay with Cycle.
pub fn sweep(
    alloc: Global,
    grid: &Grid,
    nodes: &BTreeMap<usize, Node>,
    order: &[usize],
    after: &mut BTreeMap<usize, Value>,
) -> Result<Vec<usize>, Memory>
    requires grid { IsGrid grid.now }
    requires known { KnowsFormulas (text_at grid.now) (get nat_cmp nodes.now) }
    ensures { IfOk result (λ left. Sweeps grid.now (get nat_cmp nodes.now) order.now (length order.now) (get nat_cmp after.old) (get nat_cmp after.new) left.items) }
{
    let mut left = Vec::new(alloc);
    'places: for place in order {
        let stays = look_at(alloc, grid, nodes, after, *place)?;
        if stays {
            left.push(*place)?;
        }
    }
    Ok(left)
}

/// Gives their values to the cells of the list that are in `after`, all of which have Cycle. Where
/// each cell stands behind those that it reads, the first sweep settles all that can be settled.
pub fn settle(
    alloc: Global,
    grid: &Grid,
    nodes: &BTreeMap<usize, Node>,
    order: &[usize],
    after: &mut BTreeMap<usize, Value>,
) -> Result<(), Memory>
    requires grid { IsGrid grid.now }
    requires known { KnowsFormulas (text_at grid.now) (get nat_cmp nodes.now) }
    ensures { OnOk result (Rests grid.now (get nat_cmp nodes.now) order.now (get nat_cmp after.old) (get nat_cmp after.new)) }
{
    let mut looked = order.len();
    let mut left = sweep(alloc, grid, nodes, order, after)?;
    'sweeps: while left.len() < looked {
        looked = left.len();
        left = sweep(alloc, grid, nodes, &left, after)?;
    }
    Ok(())
}
