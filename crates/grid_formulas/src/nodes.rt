//! The formula cells of a sheet, and their values.
ghost use Rattle.std.specs.Prelude.{◌≡◌, ◌≢◌, ◌<◌, true, IfOk, OnOk, IsSome, Some, Option, ℕ, cond, length, option_map, slice_index};
ghost use Rattle.std.specs.Ordering.{nat_cmp};
ghost use Rattle.std.specs.BTreeMap.{get, is_at};
ghost use Rattle.grid_formulas.specs.Cells.{reads_if};
ghost use Rattle.grid_formulas.specs.Places.{has, text_at};
ghost use Rattle.grid_formulas.specs.Reading.{formula_of, is_formula};
ghost use Rattle.grid_formulas.specs.Marks.{IsFound};
ghost use Rattle.grid_formulas.specs.Readers.{AreBelow, Grows};
ghost use Rattle.grid_formulas.specs.Sheets.{formula_in, kept_value};
ghost use Rattle.grid_formulas.specs.Turns.{with_value};

use crate::Value;
use crate::cells::{Node, text_at};
use crate::evaluate::kept_value;
use crate::reader::{formula, is_formula};
use crate::readers::{keep_at, nodes_of};
use grid_sheet::Grid;
use std::alloc::{AllocError, Global};
use std::collections::{BTreeMap, BTreeSet};
use wopi_text::Memory;

/// The formula of a cell of the grid, with the value that is kept of the cell.
pub fn node_at(
    alloc: Global,
    grid: &Grid,
    nodes: &BTreeMap<usize, Node>,
    place: usize,
) -> Result<Node, Memory>
    ensures formula { IfOk result (λ node. option_map (λ steps. steps.items) node.formula ≡ formula_of (text_at grid.now place)) }
    ensures value { IfOk result (λ node. node.value ≡ kept_value (get nat_cmp nodes.now) place) }
{
    let value = kept_value(nodes, place);
    let formula = formula(alloc, text_at(grid, place))?;
    Ok(Node { formula, value })
}

/// The nodes of the tree of readers at which the formula of a cell is kept.
pub fn nodes_at(
    alloc: Global,
    nodes: &BTreeMap<usize, Node>,
    place: usize,
) -> Result<Vec<usize>, AllocError>
    ensures { IfOk result (λ at. AreBelow at.items (reads_if (formula_in (get nat_cmp nodes.now place)))) }
{
    match nodes.get(&place) {
        None => Ok(Vec::new(alloc)),
        Some(node) => nodes_of(alloc, &node.formula),
    }
}

fn put_value(nodes: &mut BTreeMap<usize, Node>, place: usize, value: Value)
    ensures { (q : ℕ) → get nat_cmp nodes.new q ≡ cond (is_at (nat_cmp place) q) (with_value (Some value) (get nat_cmp nodes.old q)) (get nat_cmp nodes.old q) }
{
    if let Some(node) = nodes.get_mut(&place) {
        node.value = value;
    }
}

// Gives the cell its new value, where there is one.
fn take_value(nodes: &mut BTreeMap<usize, Node>, values: &BTreeMap<usize, Value>, place: usize)
    ensures { (q : ℕ) → get nat_cmp nodes.new q ≡ cond (is_at (nat_cmp place) q) (with_value (get nat_cmp values.now place) (get nat_cmp nodes.old q)) (get nat_cmp nodes.old q) }
{
    let Some(value) = values.get(&place) else {
        return;
    };
    put_value(nodes, place, *value);
}

/// Gives the cells of the list the new values.
pub fn take_over(
    nodes: &mut BTreeMap<usize, Node>,
    values: &BTreeMap<usize, Value>,
    places: &[usize],
)
    ensures { (q : ℕ) → get nat_cmp nodes.new q ≡ cond (has places.now q) (with_value (get nat_cmp values.now q) (get nat_cmp nodes.old q)) (get nat_cmp nodes.old q) }
{
    'places: for place in places {
        take_value(nodes, values, *place);
    }
}

/// Puts back what was at the place before another node was put there.
pub fn put_back(nodes: &mut BTreeMap<usize, Node>, place: usize, before: Option<Node>)
    requires { IsSome (get nat_cmp nodes.old place) }
    ensures here { get nat_cmp nodes.new place ≡ before }
    ensures others { (q : ℕ) → q ≢ place → get nat_cmp nodes.new q ≡ get nat_cmp nodes.old q }
{
    match before {
        None => {
            nodes.remove(&place);
        }
        Some(node) => {
            if let Some(there) = nodes.get_mut(&place) {
                *there = node;
            }
        }
    }
}

/// Takes the node from the place if the grid has no formula there.
pub fn drop_plain(grid: &Grid, nodes: &mut BTreeMap<usize, Node>, place: usize)
    ensures { (q : ℕ) → is_formula (text_at grid.now q) ≡ true → get nat_cmp nodes.new q ≡ get nat_cmp nodes.old q }
{
    if !is_formula(text_at(grid, place)) {
        nodes.remove(&place);
    }
}

// Keeps a formula at its nodes of the tree of readers.
fn keep_reader(
    alloc: Global,
    nodes: &BTreeMap<usize, Node>,
    readers: &mut BTreeMap<usize, BTreeSet<usize>>,
    place: usize,
) -> Result<(), Memory>
    ensures grows { Grows (get nat_cmp readers.old) (get nat_cmp readers.new) }
    ensures found { OnOk result (IsFound (get nat_cmp nodes.now) (get nat_cmp readers.new) place) }
{
    let at = nodes_at(alloc, nodes, place)?;
    keep_at(alloc, readers, &at, place)
}

/// The tree of readers, with the formulas of these cells.
pub fn readers_of(
    alloc: Global,
    nodes: &BTreeMap<usize, Node>,
    places: &[usize],
) -> Result<BTreeMap<usize, BTreeSet<usize>>, Memory>
    ensures { IfOk result (λ readers. (k : ℕ) → k < length places.now → IsFound (get nat_cmp nodes.now) (get nat_cmp readers) (slice_index places.now k)) }
{
    let mut readers = BTreeMap::new(alloc);
    'places: for place in places {
        keep_reader(alloc, nodes, &mut readers, *place)?;
    }
    Ok(readers)
}
