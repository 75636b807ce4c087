//! An order in which to look at formula cells, so that one sweep settles all that can be settled.
//! It decides about time alone, and so nothing is promised of it.
ghost use Rattle.std.specs.Prelude.{◌<◌, IfSome};

use crate::cells::Node;
use crate::gather::MOST_LINKS;
use crate::{Span, Value};
use grid_sheet::{MOST_CELLS, MOST_ROWS};
use std::alloc::Global;
use std::collections::{BTreeMap, BTreeSet};
use wopi_text::Memory;

// Each pass of a walk follows a link for the first time, or ends a cell.
const MOST_PASSES: usize = MOST_LINKS + MOST_ROWS * MOST_CELLS;

// A cell whose reads are being followed: the next of its steps, and of the cells that this names.
#[derive(Clone, Copy)]
struct Visit {
    place: usize,
    step: usize,
    cell: u32,
}

impl Visit {
    fn of(place: usize) -> Visit {
        Visit {
            place,
            step: 0,
            cell: 0,
        }
    }
}

/// The cells of the list that are in `values`, each behind those of them that it reads, save for cells
/// that wait for themselves.
pub fn order_of(
    alloc: Global,
    nodes: &BTreeMap<usize, Node>,
    values: &BTreeMap<usize, Value>,
    places: &[usize],
) -> Result<Vec<usize>, Memory> {
    let mut order = Vec::new(alloc);
    let mut met = BTreeSet::new(alloc);
    for place in places {
        if met.insert(*place)? {
            follow(alloc, nodes, values, *place, &mut met, &mut order)?;
        }
    }
    Ok(order)
}

// Adds the cell behind all that it reads and that were not met before.
fn follow(
    alloc: Global,
    nodes: &BTreeMap<usize, Node>,
    values: &BTreeMap<usize, Value>,
    place: usize,
    met: &mut BTreeSet<usize>,
    order: &mut Vec<usize>,
) -> Result<(), Memory> {
    let mut visits = Vec::new(alloc);
    visits.push(Visit::of(place))?;
    for _ in 0..MOST_PASSES {
        let Some(visit) = visits.pop() else {
            return Ok(());
        };
        match next_read(nodes, values, &visit) {
            None => order.push(visit.place)?,
            Some((read, next)) => {
                visits.push(next)?;
                if met.insert(read)? {
                    visits.push(Visit::of(read))?;
                }
            }
        }
    }
    Ok(())
}

// The number of the next cell of the span that is in `values`, from this number on.
fn next_in(values: &BTreeMap<usize, Value>, cells: &Span, first: u32) -> Option<u32>
    ensures { IfSome result (λ cell. cell < cells.now.size) }
{
    for cell in first..cells.size {
        if values.contains_key(&cells.nth(cell)) {
            return Some(cell);
        }
    }
    None
}

// The next cell of `values` that is read, and the visit behind it.
fn next_read(
    nodes: &BTreeMap<usize, Node>,
    values: &BTreeMap<usize, Value>,
    visit: &Visit,
) -> Option<(usize, Visit)> {
    let steps = match nodes.get(&visit.place) {
        Some(
            Node {
                formula: Some(steps),
                ..
            },
        ) => steps,
        _ => return None,
    };
    for step in visit.step..steps.len() {
        let cells = steps[step].cells();
        let first = if step == visit.step { visit.cell } else { 0 };
        if let Some(cell) = next_in(values, &cells, first) {
            let next = Visit {
                place: visit.place,
                step,
                cell: cell + 1,
            };
            return Some((cells.nth(cell), next));
        }
    }
    None
}
