//! Formulas, in postfix order: each operation stands behind its operands.
ghost use Rattle.std.specs.Prelude.{◌≡◌, ◌<◌, ◌≤◌, ◌*◌, ◌+◌, ◌^◌};
ghost use Rattle.grid_formulas.specs.Places.{cells_named, nth_of, place_of};
ghost use Rattle.grid_formulas.specs.Readers.{last_of};

/// Cells of consecutive rows and columns. A place is the number of a cell, counted from 0 along
/// the rows, 1,024 to a row.
#[derive(Clone, Copy, Debug, PartialEq, Eq)]
pub struct Span {
    /// The place of the first cell.
    pub first: u32,
    /// The last column, counted from 0 at the first.
    pub last_column: u32,
    /// How many cells it has.
    pub size: u32,
}

/// A step of a formula in postfix order.
#[derive(Clone, Copy, Debug, PartialEq, Eq)]
pub enum Step {
    /// A number in digits.
    Digits(i128),
    /// The value of the cell at a place.
    Cell(u32),
    /// The sum of cells.
    Sum(Span),
    /// The negative of the operand.
    Negative,
    /// The product of two operands.
    Product,
    /// The sum of two operands.
    Plus,
    /// The difference of two operands.
    Minus,
}

impl Step {
    /// The cells that the step names.
    pub fn cells(&self) -> Span
        ensures { result ≡ cells_named self.now }
    {
        match self {
            Step::Cell(place) => Span {
                first: *place,
                last_column: 0,
                size: 1,
            },
            Step::Sum(span) => *span,
            _ => Span {
                first: 0,
                last_column: 0,
                size: 0,
            },
        }
    }
}

impl Span {
    /// The place of the cell with this number, counted from 0 along the rows.
    pub fn nth(&self, n: u32) -> usize
        ensures { result ≡ nth_of self.now n }
    {
        let columns = self.last_column as usize + 1;
        let n = n as usize;
        self.first as usize + 1024 * (n / columns) + n % columns
    }

    /// The last place, or one behind it where the rows are not whole.
    pub fn last(&self) -> usize
        requires { 0 < self.now.size }
        ensures value { result ≡ last_of self.now }
        ensures order { self.now.first ≤ result }
        ensures small { result < 2 ^ 44 }
    {
        let columns = self.last_column as usize + 1;
        let rows = (self.size as usize - 1) / columns;
        self.first as usize + 1024 * rows + self.last_column as usize
    }
}
