//! A sheet: a grid of cells that is read from CSV, edited and written back.
//!
//! A [`Grid`] is a list of rows, a row is a list of one or more cells, and a cell is a list of
//! bytes. Rows and columns are numbered from 1, and rows may differ in length. A grid has at most
//! [`MOST_ROWS`] rows, and a row at most [`MOST_CELLS`] cells.
//!
//! The format is that of the crate `csv` with its defaults: commas, double quotes where a cell
//! needs them, `\n` at the end of a row. A grid is read with no header row. Each edit is a function
//! on lists, stated in `specs/Edits.antt`, and a refused edit leaves the grid as it was.
//!
//! A row is held as one text and the place where each of its cells ends, so that a grid takes a few
//! times the memory of its file. An edit within a row makes that row anew and leaves all others
//! where they are. An edit of a column makes all rows anew before the first is replaced.
#![tactic(auto)]

mod cells;
mod edits;
mod fault;
mod grid;
mod text;
mod undoing;

pub use fault::GridFault;
pub use grid::{Grid, MOST_CELLS, MOST_ROWS};
pub use undoing::{Column, Had, Undo};
