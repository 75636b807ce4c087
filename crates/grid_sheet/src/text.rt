//! The text of a grid, read and written.
ghost use Rattle.std.specs.Prelude.{◌≡◌, ◌≢◌, ◌≤◌, IfOk, IfErr, Err, length};
ghost use Rattle.csv.specs.Records.{fields_of};
ghost use Rattle.grid_sheet.specs.Rows.{IsGrid, rows_of};
ghost use Rattle.grid_sheet.specs.Text.{read_of, write_of};
ghost use Rattle.grid_sheet.specs.Reading.{IsUnreadable};

use crate::{GridFault, MOST_CELLS, MOST_ROWS};
use csv::{ByteRecord, ReaderBuilder, WriterBuilder};
use std::alloc::Global;
use wopi_text::Memory;

/// The records of a text that has no header row. It stops at the first that passes a limit.
pub fn read(alloc: Global, contents: &[u8]) -> Result<Vec<ByteRecord>, GridFault>
    ensures rows { IfOk result (λ rows. rows_of rows.items ≡ read_of contents.now) }
    ensures grid { IfOk result (λ rows. IsGrid (rows_of rows.items)) }
    ensures refused { IfErr result (IsUnreadable (read_of contents.now)) }
{
    let reader = ReaderBuilder::new()
        .has_headers(false)
        .flexible(true)
        .from_reader(alloc, contents);
    let mut rows = Vec::new(alloc);
    'rows: for record in reader.into_byte_records() {
        let Ok(cells) = record else {
            return Err(GridFault::Memory);
        };
        if rows.len() >= MOST_ROWS {
            return Err(GridFault::TooMany);
        }
        if cells.len() > MOST_CELLS {
            return Err(GridFault::TooMany);
        }
        rows.push(cells)?;
    }
    Ok(rows)
}

/// The text of these rows.
pub fn write(alloc: Global, rows: &Vec<ByteRecord>) -> Result<Vec<u8>, Memory>
    ensures { IfOk result (λ text. text.items ≡ write_of (rows_of rows.now.items)) }
{
    let mut writer = WriterBuilder::new()
        .flexible(true)
        .from_writer(Vec::new(alloc));
    'rows: for cells in rows {
        match writer.write_byte_record(cells) {
            Ok(()) => {}
            Err(_) => return Err(Memory),
        }
    }
    match writer.into_inner() {
        Ok(text) => Ok(text),
        Err(_) => Err(Memory),
    }
}
