//! The text of a sheet.
ghost use Rattle.std.specs.Prelude.{◌≡◌, ◌+◌, ◌*◌, ◌<◌, ◌++◌, ◌∷◌, [], IfOk, OnOk, length, map};
ghost use Rattle.std.specs.List.{range_with_len};
ghost use Rattle.csv.specs.Records.{fields_of, partial_of};
ghost use Rattle.grid_sheet.specs.Rows.{IsGrid};
ghost use Rattle.grid_sheet.specs.Text.{write_of};
ghost use Rattle.grid_formulas.specs.Texts.{shown_at, shown_row, shown_rows, value_text};

use crate::cells::text_at;
use crate::reader::is_formula;
use crate::{Sheet, Value};
use csv::{ByteRecord, WriterBuilder};
use grid_sheet::MOST_CELLS;
use std::alloc::{AllocError, Global};
use wopi_text::Memory;

fn push_value(cells: &mut ByteRecord, alloc: Global, value: Value) -> Result<(), AllocError>
    requires { partial_of cells.old ≡ [] }
    ensures fields { OnOk result (fields_of cells.new ≡ fields_of cells.old ++ value_text value ∷ []) }
    ensures whole { OnOk result (partial_of cells.new ≡ []) }
{
    match value {
        Value::Number(number) => {
            let text = format!(in alloc; "{number}")?;
            cells.push_field(text.as_bytes())
        }
        Value::NameFault => cells.push_field(b"#NAME"),
        Value::KindFault => cells.push_field(b"#VALUE"),
        Value::NumberFault => cells.push_field(b"#NUM"),
        Value::Cycle => cells.push_field(b"#CYCLE"),
        Value::Empty | Value::Text => cells.push_field(b""),
    }
}

// Adds what is shown of the cell at a place.
fn push_cell(
    cells: &mut ByteRecord,
    alloc: Global,
    sheet: &Sheet,
    place: usize,
) -> Result<(), AllocError>
    requires { partial_of cells.old ≡ [] }
    ensures fields { OnOk result (fields_of cells.new ≡ fields_of cells.old ++ shown_at sheet.now place ∷ []) }
    ensures whole { OnOk result (partial_of cells.new ≡ []) }
{
    let text = text_at(sheet.grid(), place);
    if is_formula(text) {
        return push_value(cells, alloc, sheet.at(place));
    }
    cells.push_field(text)
}

// What is shown of a row, numbered from 0.
fn row_of(alloc: Global, sheet: &Sheet, row: usize) -> Result<ByteRecord, AllocError>
    requires there { row < length sheet.now }
    requires grid { IsGrid sheet.now }
    ensures { IfOk result (λ cells. fields_of cells ≡ shown_row sheet.now row) }
{
    let mut cells = ByteRecord::new(alloc);
    'columns: for column in 0..sheet.grid().cells(row + 1) {
        push_cell(&mut cells, alloc, sheet, row * MOST_CELLS + column)?;
    }
    Ok(cells)
}

#[tactic(auto, using(std::proofs::lemmas::Grind::common_steps, crate::proofs::Shown::shown_more))]
/// The text of the sheet's grid, with each formula cell's value in its place.
pub fn values_text(alloc: Global, sheet: &Sheet) -> Result<Vec<u8>, Memory>
    ensures { IfOk result (λ text. text.items ≡ write_of (shown_rows sheet.now)) }
{
    let mut writer = WriterBuilder::new()
        .flexible(true)
        .from_writer(Vec::new(alloc));
    'rows: for row in 0..sheet.rows() {
        let cells = row_of(alloc, sheet, row)?;
        match writer.write_byte_record(&cells) {
            Ok(()) => {}
            Err(_) => return Err(Memory),
        }
    }
    match writer.into_inner() {
        Ok(text) => Ok(text),
        Err(_) => Err(Memory),
    }
}
