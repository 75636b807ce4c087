//! The values of a sheet's formulas, kept from the first time that they are asked for.
ghost use Rattle.std.specs.Prelude.{◌≡◌, IfOk, List, ℕ, Ok};
ghost use Rattle.grid_sheet.specs.Edits.{after_set};
ghost use Rattle.grid_sheet.specs.Rows.{Rows};
ghost use Rattle.grid_editor.specs.Sheets.{after_edit};
ghost use Rattle.grid_editor.specs.Values.{AreOf, values_line};

use crate::command::Command;
use crate::lines::refusal_line;
use grid_formulas::{Sheet, SheetFault};
use grid_sheet::{Grid, GridFault};
use std::alloc::Global;
use wopi_text::{Bytes, Memory};

/// The line of `values`. What was worked out is kept.
pub(crate) fn values_line(
    alloc: Global,
    grid: &Grid,
    kept: &mut Option<Sheet>,
) -> Result<Bytes, Memory>
    requires { AreOf grid.now kept.old }
    ensures line { IfOk result (λ line. line ≡ values_line grid.now) }
    ensures kept { AreOf grid.now kept.new }
{
    match kept {
        Some(sheet) => sheet.values_text(),
        None => first_values_line(alloc, grid, kept),
    }
}

/// The same where nothing is kept.
fn first_values_line(alloc: Global, grid: &Grid, kept: &mut Option<Sheet>) -> Result<Bytes, Memory>
    requires { AreOf grid.now kept.old }
    ensures line { IfOk result (λ line. line ≡ values_line grid.now) }
    ensures kept { AreOf grid.now kept.new }
{
    match Sheet::new(alloc, grid) {
        Ok(sheet) => {
            let line = sheet.values_text()?;
            *kept = Some(sheet);
            Ok(line)
        }
        Err(SheetFault::TooManyLinks) => refusal_line(alloc, GridFault::TooMany),
        Err(SheetFault::Memory) => Err(Memory),
    }
}

/// Follows an edit that made this grid: a `set` is told, and any other edit drops what is kept.
pub(crate) fn follow(kept: &mut Option<Sheet>, grid: &Grid, command: &Command)
    requires { (rows : Rows) × AreOf rows kept.old × (after_edit rows command.now ≡ Ok grid.now) }
    ensures { AreOf grid.now kept.new }
{
    match command {
        Command::Set { row, column, .. } => follow_set(kept, grid, *row as usize, *column as usize),
        _ => *kept = None,
    }
}

/// Follows a `set`. What is kept goes where the formulas name too many cells now, or for want of
/// memory, and is worked out anew when it is asked for.
fn follow_set(kept: &mut Option<Sheet>, grid: &Grid, row: usize, column: usize)
    requires { (rows : Rows) × (text : List ℕ) × AreOf rows kept.old × (after_set rows row column text ≡ Ok grid.now) }
    ensures { AreOf grid.now kept.new }
{
    let Some(mut sheet) = kept.take() else {
        return;
    };
    match sheet.set(grid, row, column) {
        Ok(_) => *kept = Some(sheet),
        Err(_) => {}
    }
}
