//! An editor of sheets that a WOPI host keeps, driven by a script.
//!
//! A [`Script`] is a list of [`Command`]s, one a line: `open`, `set 1 2 text`, `insrow 3`, `show`,
//! `undo`, `save`, `saveas copy.csv`, `close` and so on. [`Script::read`] reads one from a text, and
//! [`read_script`] from an input, piece by piece; either tells the first bad line by its number.
//!
//! An [`Editor`] does the commands. `open` takes the lock and reads the sheet, edits change it here
//! alone, and `save` replaces the file's contents by its text. The last [`MOST_UNDOS`] edits can be
//! undone. A step back holds the row or column that its edit took or replaced, never a whole sheet,
//! so that an edit of a cell and its undo touch one row.
//!
//! What a command sends is the talk of a session over the dialer (`wopi_client`), or the one request
//! of a copy; what it writes is one line of `specs/Lines.antt`, the sheet's text, or nothing.
//! `specs/Turns.antt` says of each command what becomes of the sheet, what is sent and what is
//! written; `specs/Runs.antt` says it of a whole script.
#![tactic(auto)]

mod command;
mod editor;
mod input;
mod lines;
mod script;
mod sheet;
mod turns;
mod values;
mod words;

pub use command::Command;
pub use editor::Editor;
pub use input::read_script;
pub use script::{MOST_BYTES, MOST_LINES, Script, ScriptFault};
pub use sheet::MOST_UNDOS;
pub use turns::{EditFault, Went};
