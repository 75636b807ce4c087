//! The value of a cell.

/// What a cell stands for.
#[derive(Clone, Copy, Debug, PartialEq, Eq)]
pub enum Value {
    /// The cell is not there, or has no bytes.
    Empty,
    /// Bytes that are neither a number nor a formula.
    Text,
    /// A whole number.
    Number(i128),
    /// A formula that the grammar does not have.
    NameFault,
    /// A formula that reads a text where a number is wanted.
    KindFault,
    /// A number that is no `i128`.
    NumberFault,
    /// A formula that waits for itself, or for one that does.
    Cycle,
}
