//! What a change of one cell does to the values.
ghost use Rattle.std.specs.Prelude.{◌≡◌, IfOk, OnOk, OnErr, Ok};
ghost use Rattle.std.specs.Ordering.{nat_cmp};
ghost use Rattle.std.specs.BTreeMap.{get, keys};
ghost use Rattle.std.specs.List.Sorted.{IsStrictlySortedBy};
ghost use Rattle.grid_sheet.specs.Edits.{after_set};
ghost use Rattle.grid_formulas.specs.Changes.{changed_cells};
ghost use Rattle.grid_formulas.specs.Places.{text_at};
ghost use Rattle.grid_formulas.specs.Turns.{IsTurned, IsTurning};

use crate::Value;
use crate::cells::{Node, text_at};
use crate::changes::changes;
use crate::dependents::dependents;
use crate::order::order_of;
use crate::settle::{settle, sweep};
use grid_sheet::Grid;
use std::alloc::{AllocError, Global};
use std::collections::{BTreeMap, BTreeSet};
use wopi_text::{Bytes, Memory};

/// The new values, their places in order, and the cells whose value is another than before.
#[derive(Drop)]
pub struct Change {
    pub values: BTreeMap<usize, Value>,
    pub places: Vec<usize>,
    pub cells: Vec<(usize, usize)>,
}

// The values of the cells that the change may touch.
fn revalue(
    alloc: Global,
    old: &Grid,
    grid: &Grid,
    nodes: &BTreeMap<usize, Node>,
    readers: &BTreeMap<usize, BTreeSet<usize>>,
    place: usize,
) -> Result<BTreeMap<usize, Value>, Memory>
    requires { IsTurning old.now grid.now (get nat_cmp nodes.now) (get nat_cmp readers.now) place }
    ensures { IfOk result (λ values. IsTurned grid.now (get nat_cmp nodes.now) place (get nat_cmp values)) }
{
    let _ = old;
    let (mut values, places) = dependents(alloc, nodes, readers, place)?;
    let order = order_of(alloc, nodes, &values, &places)?;
    let _left = sweep(alloc, grid, nodes, &order, &mut values)?;
    settle(alloc, grid, nodes, &places, &mut values)?;
    Ok(values)
}

/// The places of values, in order.
pub fn places_of_values(
    alloc: Global,
    values: &BTreeMap<usize, Value>,
) -> Result<Vec<usize>, AllocError>
    ensures keys { IfOk result (λ places. places.items ≡ keys values.now) }
    ensures sorted { IsStrictlySortedBy nat_cmp (keys values.now) }
{
    values.keys().copied().collect(alloc)
}

/// Works out what a change of the old grid to the new one at this place does, and makes it in the
/// old grid.
pub fn turn(
    alloc: Global,
    old: &mut Grid,
    grid: &Grid,
    nodes: &BTreeMap<usize, Node>,
    readers: &BTreeMap<usize, BTreeSet<usize>>,
    row: usize,
    column: usize,
    place: usize,
) -> Result<Change, Memory>
    requires turning { IsTurning old.old grid.now (get nat_cmp nodes.now) (get nat_cmp readers.now) place }
    requires set { after_set old.old row column (text_at grid.now place) ≡ Ok grid.now }
    ensures grid { OnOk result (old.new ≡ grid.now) }
    ensures kept { OnErr result (old.new ≡ old.old) }
    ensures turned { IfOk result (λ change. IsTurned grid.now (get nat_cmp nodes.now) place (get nat_cmp change.values)) }
    ensures places { IfOk result (λ change. change.places.items ≡ keys change.values) }
    ensures cells { IfOk result (λ change. change.cells.items ≡ changed_cells old.old grid.now) }
{
    let values = revalue(alloc, old, grid, nodes, readers, place)?;
    let places = places_of_values(alloc, &values)?;
    let cells = changes(alloc, old, grid, nodes, &values, &places)?;
    let text = Bytes::from_slice(alloc, text_at(grid, place))?;
    match old.set(row, column, text) {
        Ok(()) => Ok(Change {
            values,
            places,
            cells,
        }),
        Err(_) => Err(Memory),
    }
}
