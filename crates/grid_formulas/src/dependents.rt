//! The cells that a change may touch: the changed cell, those that read it, those that read one of
//! them, and so on. Each gets Cycle until it is looked at anew.
ghost use Rattle.std.specs.Prelude.{◌≡◌, ◌<◌, true, IfOk, OnOk};
ghost use Rattle.std.specs.Ordering.{nat_cmp};
ghost use Rattle.std.specs.BTreeMap.{get};
ghost use Rattle.grid_formulas.specs.Marks.{AreMarked, IsClosed, MarksAllReaders, MarksMore, MarksReaders, reads_at};
ghost use Rattle.grid_formulas.specs.Places.{has, places_of, reads_of};
ghost use Rattle.grid_formulas.specs.Readers.{is_kept};
ghost use Rattle.grid_formulas.specs.Sheets.{is_in};

use crate::cells::Node;
use crate::spans::FIRST_LEAF;
use crate::{Span, Step, Value};
use grid_sheet::{MOST_CELLS, MOST_ROWS};
use std::alloc::{AllocError, Global};
use std::collections::{BTreeMap, BTreeSet};
use wopi_text::Memory;

/// A grid has no cell at this place or behind it.
const MOST_PLACES: usize = MOST_ROWS * MOST_CELLS;

// Marks the cell, unless it is marked.
fn mark(
    after: &mut BTreeMap<usize, Value>,
    places: &mut Vec<usize>,
    place: usize,
) -> Result<(), Memory>
    requires marked { AreMarked (get nat_cmp after.old) places.old.items }
    requires small { place < 102400000 }
    ensures more { OnOk result (MarksMore (get nat_cmp after.old) places.old.items (get nat_cmp after.new) places.new.items) }
    ensures here { OnOk result (is_in (get nat_cmp after.new) place ≡ true) }
{
    if after.contains_key(&place) {
        return Ok(());
    }
    after.insert(place, Value::Cycle)?;
    places.push(place)?;
    Ok(())
}

fn span_has(span: &Span, place: usize) -> bool
    ensures { has (places_of span.now) place ≡ true → result ≡ true }
{
    let first = span.first as usize;
    if span.size == 0 || place < first || span.last() < place {
        return false;
    }
    (place - first) % MOST_CELLS <= span.last_column as usize
}

fn name(steps: &[Step], place: usize) -> bool
    ensures { has (reads_of steps.now) place ≡ true → result ≡ true }
{
    'steps: for step in steps {
        if span_has(&step.cells(), place) {
            return true;
        }
    }
    false
}

// Whether the cell's formula names the place.
fn reads(nodes: &BTreeMap<usize, Node>, reader: usize, place: usize) -> bool
    ensures { reads_at (get nat_cmp nodes.now) reader place ≡ true → result ≡ true }
{
    let Some(node) = nodes.get(&reader) else {
        return false;
    };
    match &node.formula {
        None => false,
        Some(steps) => name(steps, place),
    }
}

// Marks the cell if it reads the place.
fn mark_reader(
    nodes: &BTreeMap<usize, Node>,
    reader: usize,
    place: usize,
    after: &mut BTreeMap<usize, Value>,
    places: &mut Vec<usize>,
) -> Result<(), Memory>
    requires marked { AreMarked (get nat_cmp after.old) places.old.items }
    ensures more { OnOk result (MarksMore (get nat_cmp after.old) places.old.items (get nat_cmp after.new) places.new.items) }
    ensures here { OnOk result (reads_at (get nat_cmp nodes.now) reader place ≡ true → reader < 102400000 → is_in (get nat_cmp after.new) reader ≡ true) }
{
    if reader >= MOST_PLACES {
        return Ok(());
    }
    if !reads(nodes, reader, place) {
        return Ok(());
    }
    mark(after, places, reader)
}

// Marks those of the readers that read the place.
fn mark_some(
    nodes: &BTreeMap<usize, Node>,
    readers: &BTreeSet<usize>,
    place: usize,
    after: &mut BTreeMap<usize, Value>,
    places: &mut Vec<usize>,
) -> Result<(), Memory>
    requires marked { AreMarked (get nat_cmp after.old) places.old.items }
    ensures more { OnOk result (MarksMore (get nat_cmp after.old) places.old.items (get nat_cmp after.new) places.new.items) }
    ensures all { OnOk result (MarksReaders (get nat_cmp nodes.now) (has readers.now.keys) place (get nat_cmp after.new)) }
{
    'readers: for reader in readers {
        mark_reader(nodes, *reader, place, after, places)?;
    }
    Ok(())
}

// Marks those of the readers kept at the node that read the place.
fn mark_kept(
    nodes: &BTreeMap<usize, Node>,
    readers: &BTreeMap<usize, BTreeSet<usize>>,
    node: usize,
    place: usize,
    after: &mut BTreeMap<usize, Value>,
    places: &mut Vec<usize>,
) -> Result<(), Memory>
    requires marked { AreMarked (get nat_cmp after.old) places.old.items }
    ensures more { OnOk result (MarksMore (get nat_cmp after.old) places.old.items (get nat_cmp after.new) places.new.items) }
    ensures all { OnOk result (MarksReaders (get nat_cmp nodes.now) (is_kept (get nat_cmp readers.now) node) place (get nat_cmp after.new)) }
{
    match readers.get(&node) {
        None => Ok(()),
        Some(kept) => mark_some(nodes, kept, place, after, places),
    }
}

// Marks all that read the place.
fn mark_readers(
    nodes: &BTreeMap<usize, Node>,
    readers: &BTreeMap<usize, BTreeSet<usize>>,
    place: usize,
    after: &mut BTreeMap<usize, Value>,
    places: &mut Vec<usize>,
) -> Result<(), Memory>
    requires marked { AreMarked (get nat_cmp after.old) places.old.items }
    requires small { place < 102400000 }
    ensures more { OnOk result (MarksMore (get nat_cmp after.old) places.old.items (get nat_cmp after.new) places.new.items) }
    ensures all { OnOk result (MarksAllReaders (get nat_cmp nodes.now) (get nat_cmp readers.now) place (get nat_cmp after.new)) }
{
    let mut node = FIRST_LEAF + place;
    'levels: loop {
        mark_kept(nodes, readers, node, place, after, places)?;
        if node == 0 {
            return Ok(());
        }
        node /= 2;
    }
}

/// The cells that a change of the cell at a place may touch, each with Cycle, and their places.
pub fn dependents(
    alloc: Global,
    nodes: &BTreeMap<usize, Node>,
    readers: &BTreeMap<usize, BTreeSet<usize>>,
    place: usize,
) -> Result<(BTreeMap<usize, Value>, Vec<usize>), Memory>
    requires { place < 102400000 }
    ensures marked { IfOk result (λ found. AreMarked (get nat_cmp found.0) found.1.items) }
    ensures here { IfOk result (λ found. is_in (get nat_cmp found.0) place ≡ true) }
    ensures closed { IfOk result (λ found. IsClosed (get nat_cmp nodes.now) (get nat_cmp readers.now) (get nat_cmp found.0)) }
{
    let mut after = BTreeMap::new(alloc);
    let mut places = Vec::new(alloc);
    mark(&mut after, &mut places, place)?;
    let mut done = 0;
    'places: while done < places.len() {
        let next = places[done];
        mark_readers(nodes, readers, next, &mut after, &mut places)?;
        done += 1;
    }
    Ok((after, places))
}
