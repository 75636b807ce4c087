//! The cells whose value a change made another.
ghost use Rattle.std.specs.Prelude.{◌≡◌, IfOk, map};
ghost use Rattle.std.specs.Ordering.{nat_cmp};
ghost use Rattle.std.specs.BTreeMap.{get};
ghost use Rattle.std.specs.List.{filter};
ghost use Rattle.grid_formulas.specs.Changes.{cell_of, same_value};
ghost use Rattle.grid_formulas.specs.Places.{text_at};
ghost use Rattle.grid_formulas.specs.Turns.{differs};

use crate::Value;
use crate::cells::Node;
use crate::evaluate::{value_at, value_now};
use grid_sheet::{Grid, MOST_CELLS};
use std::alloc::{AllocError, Global};
use std::collections::BTreeMap;
use wopi_text::Memory;

fn is_same(a: Value, b: Value) -> bool
    ensures { result ≡ same_value a b }
{
    match (a, b) {
        (Value::Empty, Value::Empty) => true,
        (Value::Text, Value::Text) => true,
        (Value::Number(a), Value::Number(b)) => a == b,
        (Value::NameFault, Value::NameFault) => true,
        (Value::KindFault, Value::KindFault) => true,
        (Value::NumberFault, Value::NumberFault) => true,
        (Value::Cycle, Value::Cycle) => true,
        _ => false,
    }
}

/// Those of the places whose value is another than before, by row and column.
pub fn changes(
    alloc: Global,
    old: &Grid,
    grid: &Grid,
    nodes: &BTreeMap<usize, Node>,
    values: &BTreeMap<usize, Value>,
    places: &[usize],
) -> Result<Vec<(usize, usize)>, Memory>
    ensures { IfOk result (λ cells. cells.items ≡ map cell_of (filter (differs old.now grid.now (get nat_cmp nodes.now) (get nat_cmp values.now)) places.now)) }
{
    let mut cells = Vec::new(alloc);
    'places: for place in places {
        let before = value_now(old, nodes, *place);
        let same = is_same(before, value_at(grid, nodes, values, *place));
        if !same {
            cells.push((*place / MOST_CELLS + 1, *place % MOST_CELLS + 1))?;
        }
    }
    Ok(cells)
}
