//! What a script may ask for.
use wopi_text::{Bytes, FileName};

/// A command of a script. Rows and columns are numbered from 1.
#[derive(Drop)]
pub enum Command {
    /// Take the lock and read the sheet.
    Open,
    /// Put a text into a cell.
    Set { row: u64, column: u64, text: Bytes },
    /// Put in a row of one empty cell.
    InsRow { row: u64 },
    /// Take a row out.
    DelRow { row: u64 },
    /// Put an empty cell into each row that reaches the column.
    InsCol { column: u64 },
    /// Take the column's cell out of each row that has it.
    DelCol { column: u64 },
    /// Write the sheet's text.
    Show,
    /// Write the sheet's text with the value of each formula cell in its place.
    Values,
    /// Go back over the last edit that isn't undone.
    Undo,
    /// Replace the file's contents by the sheet's text.
    Save,
    /// Make a new file of this name, with the sheet's text.
    SaveAs { name: FileName },
    /// Begin the 30 minutes of the lock anew.
    Refresh,
    /// Give the lock back.
    Close,
}
