//! A change of one cell of a sheet. What it may touch is looked at anew, and all else keeps its
//! value. All that may want memory comes before the first step that another sheet would show.
ghost use Rattle.std.specs.Prelude.{◌≡◌, ◌≤◌, IfOk, IfErr, OnOk, OnErr, Ok, List, ℕ};
ghost use Rattle.std.specs.Ordering.{nat_cmp};
ghost use Rattle.std.specs.BTreeMap.{get};
ghost use Rattle.grid_sheet.specs.Edits.{after_set};
ghost use Rattle.grid_formulas.specs.Cells.{IsSheetFault, link_count};
ghost use Rattle.grid_formulas.specs.Changes.{changed_cells};
ghost use Rattle.grid_formulas.specs.Places.{place_of, text_at};
ghost use Rattle.grid_formulas.specs.Sheets.{IsSheet};

use crate::SheetFault;
use crate::cells::Node;
use crate::gather::count_reads;
use crate::links::links_after;
use crate::nodes::{drop_plain, node_at, nodes_at, put_back, take_over};
use crate::readers::{keep_at, nodes_of, set_of, take_from};
use crate::turn::turn;
use grid_sheet::{Grid, MOST_CELLS};
use std::alloc::{AllocError, AllocFailed, Global};
use std::collections::{BTreeMap, BTreeSet};

fn place_of(row: usize, column: usize) -> usize
    requires row { row ≤ 100000 }
    requires column { column ≤ 1024 }
    ensures { result ≡ place_of row column }
{
    row.saturating_sub(1) * MOST_CELLS + column.saturating_sub(1)
}

/// Sets one cell of a sheet's grid to what the new grid has there. Gives the cells whose value is
/// another than before.
pub fn set_cell(
    alloc: Global,
    old: &mut Grid,
    nodes: &mut BTreeMap<usize, Node>,
    readers: &mut BTreeMap<usize, BTreeSet<usize>>,
    links: &mut usize,
    grid: &Grid,
    row: usize,
    column: usize,
) -> Result<Vec<(usize, usize)>, SheetFault>
    requires sheet { IsSheet old.old (get nat_cmp nodes.old) (get nat_cmp readers.old) links.old }
    requires set { (text : List ℕ) × (after_set old.old row column text ≡ Ok grid.now) }
    ensures sheet { IsSheet old.new (get nat_cmp nodes.new) (get nat_cmp readers.new) links.new }
    ensures grid { OnOk result (old.new ≡ grid.now) }
    ensures kept { OnErr result (old.new ≡ old.old) }
    ensures few { IfOk result (λ _. link_count (text_at grid.now) ≤ 1000000) }
    ensures changed { IfOk result (λ cells. cells.items ≡ changed_cells old.old grid.now) }
    ensures refused { IfErr result (IsSheetFault grid.now) }
{
    let _rows = grid.rows();
    let place = place_of(row, column);
    let node = node_at(alloc, grid, nodes, place)?;
    let named = count_reads(&node.formula);
    let more = match links_after(old, grid, nodes, *links, place, named) {
        Ok(more) => more,
        Err(fault) => return Err(fault),
    };
    let leaves = nodes_at(alloc, nodes, place)?;
    let stays = nodes_of(alloc, &node.formula)?;
    let kept = set_of(alloc, &stays)?;
    keep_at(alloc, readers, &stays, place)?;
    let before = nodes.insert(place, node)?;
    match turn(alloc, old, grid, nodes, readers, row, column, place) {
        Ok(change) => {
            take_over(nodes, &change.values, &change.places);
            take_from(readers, &leaves, &kept, place);
            drop_plain(grid, nodes, place);
            *links = more;
            Ok(change.cells)
        }
        Err(_) => {
            put_back(nodes, place, before);
            Err(SheetFault::Memory)
        }
    }
}
