//! Formula cells: the values of a grid whose cells may be formulas.
//!
//! A cell whose bytes begin with `=` is a formula: whole numbers, cells such as `B7`, ranges in
//! `SUM(A1:C9)`, `+`, `-`, `*` and parentheses. Their grammar stands in `specs/Grammar.antt`. One
//! is kept in postfix order, and its value, over the values of the cells that it reads, is that of
//! a stack machine (`specs/Values.antt`).
//!
//! A cell that waits for itself, or for one that does, has the value [`Value::Cycle`]: a walk from
//! it, from cells to cells that they read, goes on for as many steps as there are formulas
//! (`specs/Cells.antt`). Every other formula's value follows from those of the cells that it reads.
//!
//! A [`Sheet`] works values out without recursion. All formula cells have Cycle at first, and a
//! cell that reads no Cycle gets its formula's value, until none is left that does. Cells are
//! looked at in an order in which each stands behind those that it reads, as far as there is one,
//! so that one sweep settles all and a second finds nothing more. Nothing is promised of the order:
//! a worse one would take more sweeps and give the same values.
//!
//! A sheet keeps a copy of its grid and, for each cell, where the formulas that may read it are kept.
//! To set a cell looks at that cell, at those that read it, at those that read one of them, and so
//! on; besides at formulas that read a range of many rows beside one of these cells.
#![tactic(auto)]

mod cells;
mod change;
mod changes;
mod dependents;
mod evaluate;
mod fault;
mod formula;
mod gather;
mod laws;
mod links;
mod list;
mod nodes;
mod number;
mod order;
mod reader;
mod readers;
mod reference;
mod settle;
mod sheet;
mod spans;
mod text;
mod turn;
mod value;
mod values;

pub use fault::SheetFault;
pub use formula::{Span, Step};
pub use laws::{a_text_has_one_formula, what_is_read_is_the_grammar};
pub use list::Changed;
pub use sheet::Sheet;
pub use value::Value;
