//! The nodes of the tree of readers that stand above the cells of a span. A span of few rows gets
//! nodes above its cells and above no others: of each row at most two of a level, and never more
//! than it has cells. One of many rows gets one or two nodes in all, which stand above others too.
ghost use Rattle.std.specs.Prelude.{◌≡◌, ◌≤◌, ◌<◌, ◌+◌, ◌*◌, ◌-◌, ◌/◌, ◌^◌, ◌⊎◌, true, OnOk, ℕ};
ghost use Rattle.grid_formulas.specs.Places.{has, places_of};
ghost use Rattle.grid_formulas.specs.Readers.{AreBelow, Covers, IsBelow};

use crate::Span;
use grid_sheet::MOST_CELLS;
use std::alloc::AllocError;

/// The leaf of the first place. The root is node 1.
pub const FIRST_LEAF: usize = 134_217_728;

/// The most rows of a span that get nodes of their own.
const MOST_ROWS_APART: usize = 64;

// The lowest two nodes of one level that stand above these places, or the one that does.
fn cover(first: usize, last: usize) -> (usize, usize)
    requires order { first ≤ last }
    requires small { last < 2 ^ 44 }
    ensures { Covers first last result.0 result.1 }
{
    let mut low = FIRST_LEAF + first;
    let mut high = FIRST_LEAF + last;
    'levels: while high - low > 1 {
        low /= 2;
        high /= 2;
    }
    (low, high)
}

// Adds the nodes that `cover` gives.
fn push_cover(nodes: &mut Vec<usize>, span: &Span) -> Result<(), AllocError>
    requires { 0 < span.now.size }
    ensures before { OnOk result ((q : ℕ) → has nodes.old.items q ≡ true → has nodes.new.items q ≡ true) }
    ensures above { OnOk result (AreBelow nodes.new.items (places_of span.now)) }
{
    let (low, high) = cover(span.first as usize, span.last());
    nodes.push(low)?;
    nodes.push(high)?;
    Ok(())
}

fn push_if(nodes: &mut Vec<usize>, node: usize, wanted: bool) -> Result<(), AllocError>
    ensures before { OnOk result ((q : ℕ) → has nodes.old.items q ≡ true → has nodes.new.items q ≡ true) }
    ensures here { OnOk result (wanted ≡ true → has nodes.new.items node ≡ true) }
{
    if wanted {
        nodes.push(node)?;
    }
    Ok(())
}

// Adds those of two ends of nodes of one level that share the node above them with one outside.
fn push_ends(nodes: &mut Vec<usize>, low: usize, high: usize) -> Result<(), AllocError>
    ensures before { OnOk result ((q : ℕ) → has nodes.old.items q ≡ true → has nodes.new.items q ≡ true) }
    ensures others { OnOk result ((n : ℕ) → low ≤ n → n ≤ high → (has nodes.new.items n ≡ true) ⊎ (((low + 1) / 2 ≤ n / 2) × (n / 2 ≤ (high - 1) / 2))) }
{
    push_if(nodes, low, low % 2 == 1)?;
    push_if(nodes, high, high % 2 == 0)
}

// Adds nodes that stand above the places from the first to the last and above no others.
fn push_between(nodes: &mut Vec<usize>, first: usize, last: usize) -> Result<(), AllocError>
    requires order { first ≤ last }
    requires small { last < 2 ^ 44 }
    ensures before { OnOk result ((q : ℕ) → has nodes.old.items q ≡ true → has nodes.new.items q ≡ true) }
    ensures above { OnOk result ((q : ℕ) → first ≤ q → q ≤ last → IsBelow nodes.new.items q) }
{
    let mut low = FIRST_LEAF + first;
    let mut high = FIRST_LEAF + last;
    'levels: while low < high {
        push_ends(nodes, low, high)?;
        low = (low + 1) / 2;
        high = (high - 1) / 2;
    }
    push_if(nodes, low, low == high)
}

// Adds the nodes of each of so many rows of a span.
fn push_rows(nodes: &mut Vec<usize>, span: &Span, rows: usize) -> Result<(), AllocError>
    requires { rows ≤ 64 }
    ensures before { OnOk result ((q : ℕ) → has nodes.old.items q ≡ true → has nodes.new.items q ≡ true) }
    ensures above { OnOk result ((row q : ℕ) → row < rows → span.now.first + 1024 * row ≤ q → q ≤ span.now.first + 1024 * row + span.now.last_column → IsBelow nodes.new.items q) }
{
    'rows: for row in 0..rows {
        let first = span.first as usize + MOST_CELLS * row;
        push_between(nodes, first, first + span.last_column as usize)?;
    }
    Ok(())
}

/// Adds the nodes above the places of a span.
pub fn push_nodes(nodes: &mut Vec<usize>, span: &Span) -> Result<(), AllocError>
    ensures before { OnOk result ((q : ℕ) → has nodes.old.items q ≡ true → has nodes.new.items q ≡ true) }
    ensures above { OnOk result (AreBelow nodes.new.items (places_of span.now)) }
{
    if span.size == 0 {
        return Ok(());
    }
    let rows = (span.size as usize - 1) / (span.last_column as usize + 1) + 1;
    if rows > MOST_ROWS_APART {
        return push_cover(nodes, span);
    }
    push_rows(nodes, span, rows)
}
