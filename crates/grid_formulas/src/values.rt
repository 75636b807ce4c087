//! The values of a grid's cells, worked out from nothing.
ghost use Rattle.std.specs.Prelude.{◌≡◌, IfOk};
ghost use Rattle.std.specs.Ordering.{nat_cmp};
ghost use Rattle.std.specs.BTreeMap.{get, keys};
ghost use Rattle.grid_sheet.specs.Rows.{IsGrid};
ghost use Rattle.grid_formulas.specs.Places.{text_at};
ghost use Rattle.grid_formulas.specs.Sheets.{AreSettled, AreStuck, KnowsFormulas, StartsOver, values_over};

use crate::Value;
use crate::cells::Node;
use crate::order::order_of;
use crate::settle::{settle, sweep};
use grid_sheet::Grid;
use std::alloc::{AllocError, Global};
use std::collections::BTreeMap;
use wopi_text::Memory;

/// The places of the formula cells.
pub fn places_of(alloc: Global, nodes: &BTreeMap<usize, Node>) -> Result<Vec<usize>, AllocError>
    ensures { IfOk result (λ places. places.items ≡ keys nodes.now) }
{
    nodes.keys().copied().collect(alloc)
}

fn start_over(alloc: Global, places: &[usize]) -> Result<BTreeMap<usize, Value>, Memory>
    ensures { IfOk result (λ values. StartsOver places.now (get nat_cmp values)) }
{
    let mut values = BTreeMap::new(alloc);
    'places: for place in places {
        values.insert(*place, Value::Cycle)?;
    }
    Ok(values)
}

/// The values of the formula cells.
pub fn values_of(
    alloc: Global,
    grid: &Grid,
    nodes: &BTreeMap<usize, Node>,
) -> Result<BTreeMap<usize, Value>, Memory>
    requires grid { IsGrid grid.now }
    requires known { KnowsFormulas (text_at grid.now) (get nat_cmp nodes.now) }
    ensures settled { IfOk result (λ values. AreSettled (text_at grid.now) (values_over grid.now (get nat_cmp nodes.now) (get nat_cmp values))) }
    ensures stuck { IfOk result (λ values. AreStuck (text_at grid.now) (values_over grid.now (get nat_cmp nodes.now) (get nat_cmp values))) }
{
    let places = places_of(alloc, nodes)?;
    let mut values = start_over(alloc, &places)?;
    let order = order_of(alloc, nodes, &values, &places)?;
    let _left = sweep(alloc, grid, nodes, &order, &mut values)?;
    settle(alloc, grid, nodes, &places, &mut values)?;
    Ok(values)
}
