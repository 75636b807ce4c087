//! How many cells the formulas of a sheet name together, after a change of one cell.
ghost use Rattle.std.specs.Prelude.{◌≡◌, ◌≢◌, ◌≤◌, ◌<◌, ◌-◌, ◌^◌, IfOk, IfErr, ℕ, length, min};
ghost use Rattle.std.specs.Ordering.{nat_cmp};
ghost use Rattle.std.specs.BTreeMap.{get};
ghost use Rattle.grid_formulas.specs.Cells.{IsSheetFault, link_count, reads};
ghost use Rattle.grid_formulas.specs.Places.{text_at};
ghost use Rattle.grid_formulas.specs.Sheets.{KnowsFormulas};

use crate::SheetFault;
use crate::cells::{Node, text_at};
use crate::gather::{MOST_LINKS, count_reads};
use crate::reader::is_formula;
use grid_sheet::Grid;
use std::collections::BTreeMap;

// How many cells the cell names, or the greatest usize where it is as great.
fn named_at(grid: &Grid, nodes: &BTreeMap<usize, Node>, place: usize) -> usize
    requires { KnowsFormulas (text_at grid.now) (get nat_cmp nodes.now) }
    ensures { result ≡ min (length (reads (text_at grid.now place))) (2 ^ 64 - 1) }
{
    if !is_formula(text_at(grid, place)) {
        return 0;
    }
    let Some(node) = nodes.get(&place) else {
        return 0;
    };
    count_reads(&node.formula)
}

/// How many cells the formulas name together once the cell at the place names so many, where they
/// name `links` cells now.
pub fn links_after(
    old: &Grid,
    grid: &Grid,
    nodes: &BTreeMap<usize, Node>,
    links: usize,
    place: usize,
    named: usize,
) -> Result<usize, SheetFault>
    requires known { KnowsFormulas (text_at old.now) (get nat_cmp nodes.now) }
    requires counts { links ≡ link_count (text_at old.now) }
    requires few { links ≤ 1000000 }
    requires small { place < 102400000 }
    requires same { (q : ℕ) → q ≢ place → text_at grid.now q ≡ text_at old.now q }
    requires named { named ≡ min (length (reads (text_at grid.now place))) (2 ^ 64 - 1) }
    ensures counts { IfOk result (λ more. more ≡ link_count (text_at grid.now)) }
    ensures few { IfOk result (λ more. more ≤ 1000000) }
    ensures refused { IfErr result (IsSheetFault grid.now) }
{
    let _ = grid;
    let others = links.saturating_sub(named_at(old, nodes, place));
    if named > MOST_LINKS - others {
        return Err(SheetFault::TooManyLinks);
    }
    Ok(others + named)
}
