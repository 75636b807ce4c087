//! Which formulas may read a cell. Places are the leaves of a binary tree. A formula is kept at the
//! nodes of its steps, which stand above all cells that it names. Who asks for a cell's readers goes
//! up from its leaf, and asks each formula that is kept there whether it does read the cell.
ghost use Rattle.std.specs.Prelude.{◌≡◌, ◌≢◌, ◌⊎◌, true, IfOk, OnOk, ℕ, option_map};
ghost use Rattle.std.specs.Ordering.{nat_cmp};
ghost use Rattle.std.specs.BTreeMap.{get};
ghost use Rattle.std.specs.BTreeSet.{contains};
ghost use Rattle.grid_formulas.specs.Cells.{reads_if};
ghost use Rattle.grid_formulas.specs.Places.{has, reads_of};
ghost use Rattle.grid_formulas.specs.Readers.{AreBelow, Grows, IsKeptAt, is_kept};

use crate::Step;
use crate::spans::push_nodes;
use std::alloc::{AllocError, Global};
use std::collections::{BTreeMap, BTreeSet};
use wopi_text::Memory;

fn nodes_of_steps(alloc: Global, steps: &[Step]) -> Result<Vec<usize>, AllocError>
    ensures { IfOk result (λ nodes. AreBelow nodes.items (reads_of steps.now)) }
{
    let mut nodes = Vec::new(alloc);
    'steps: for step in steps {
        push_nodes(&mut nodes, &step.cells())?;
    }
    Ok(nodes)
}

/// The nodes at which a formula is kept.
pub fn nodes_of(alloc: Global, formula: &Option<Vec<Step>>) -> Result<Vec<usize>, AllocError>
    ensures { IfOk result (λ nodes. AreBelow nodes.items (reads_if (option_map (λ steps. steps.items) formula.now))) }
{
    match formula {
        None => Ok(Vec::new(alloc)),
        Some(steps) => nodes_of_steps(alloc, steps),
    }
}

// Keeps the reader at the node.
fn keep(
    alloc: Global,
    readers: &mut BTreeMap<usize, BTreeSet<usize>>,
    node: usize,
    reader: usize,
) -> Result<(), Memory>
    ensures grows { Grows (get nat_cmp readers.old) (get nat_cmp readers.new) }
    ensures kept { OnOk result (is_kept (get nat_cmp readers.new) node reader ≡ true) }
{
    if let Some(at) = readers.get_mut(&node) {
        at.insert(reader)?;
        return Ok(());
    }
    let mut at = BTreeSet::new(alloc);
    at.insert(reader)?;
    readers.insert(node, at)?;
    Ok(())
}

/// Keeps the reader at each of the nodes.
pub fn keep_at(
    alloc: Global,
    readers: &mut BTreeMap<usize, BTreeSet<usize>>,
    nodes: &[usize],
    reader: usize,
) -> Result<(), Memory>
    ensures grows { Grows (get nat_cmp readers.old) (get nat_cmp readers.new) }
    ensures kept { OnOk result (IsKeptAt (get nat_cmp readers.new) nodes.now reader) }
{
    'nodes: for node in nodes {
        keep(alloc, readers, *node, reader)?;
    }
    Ok(())
}

// Takes the reader from the node.
fn take(readers: &mut BTreeMap<usize, BTreeSet<usize>>, node: usize, reader: usize)
    ensures others { (n p : ℕ) → (n ≢ node) ⊎ (p ≢ reader) → is_kept (get nat_cmp readers.old) n p ≡ true → is_kept (get nat_cmp readers.new) n p ≡ true }
{
    let Some(at) = readers.get_mut(&node) else {
        return;
    };
    at.remove(&reader);
    if at.is_empty() {
        readers.remove(&node);
    }
}

/// The set of these nodes.
pub fn set_of(alloc: Global, nodes: &[usize]) -> Result<BTreeSet<usize>, Memory>
    ensures { IfOk result (λ set. (n : ℕ) → has nodes.now n ≡ true → contains nat_cmp set n ≡ true) }
{
    let mut set = BTreeSet::new(alloc);
    'nodes: for node in nodes {
        set.insert(*node)?;
    }
    Ok(set)
}

/// Takes the reader from each of the nodes that is none of those where it stays.
pub fn take_from(
    readers: &mut BTreeMap<usize, BTreeSet<usize>>,
    nodes: &[usize],
    stays: &BTreeSet<usize>,
    reader: usize,
)
    ensures { (n p : ℕ) → (p ≢ reader) ⊎ (contains nat_cmp stays.now n ≡ true) → is_kept (get nat_cmp readers.old) n p ≡ true → is_kept (get nat_cmp readers.new) n p ≡ true }
{
    'nodes: for node in nodes {
        if !stays.contains(node) {
            take(readers, *node, reader);
        }
    }
}
