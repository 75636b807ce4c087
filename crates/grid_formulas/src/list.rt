//! The cells that a change gave another value, as a list.
ghost use Rattle.std.specs.Prelude.{◌≡◌, ◌++◌, ◌∷◌, [], ◌↔◌, IsTrue, OnOk, OnErr, length, option_map, slice_get};

use std::alloc::Global;
use std::marker::Model;
use wopi_text::Memory;

/// The cells whose value a change made another, by row and column.
#[derive(Drop)]
pub struct Changed {
    cells: Vec<(usize, usize)>,
}

impl Model for Changed {
    ghost use Rattle.std.specs.Prelude.{List, ℕ};

    ghost Value = { List (ℕ × ℕ) };

    ghost view = { λ c. c.cells.items };
}

impl Changed {
    /// No cells. It takes no memory.
    pub fn new(alloc: Global) -> Changed
        ensures { result ≡ [] }
    {
        Changed {
            cells: Vec::new(alloc),
        }
    }

    /// Takes over the vector, without a copy.
    pub fn from_vec(cells: Vec<(usize, usize)>) -> Changed
        ensures { result ≡ cells.items }
    {
        Changed { cells }
    }

    /// Gives the vector back, without a copy.
    pub fn into_vec(self) -> Vec<(usize, usize)>
        ensures { result.items ≡ self }
    {
        self.cells
    }

    /// How many cells there are.
    pub fn len(&self) -> usize
        ensures { result ≡ length self.now }
    {
        self.cells.len()
    }

    /// Whether there are none.
    pub fn is_empty(&self) -> bool
        ensures { IsTrue result ↔ self.now ≡ [] }
    {
        self.cells.is_empty()
    }

    /// The row and column of the cell at a place, counted from 0.
    pub fn get(&self, place: usize) -> Option<&(usize, usize)>
        ensures { option_map (λ cell. cell.now) result ≡ slice_get self.now place }
    {
        self.cells.get(place)
    }

    /// All cells in order, as row and column.
    pub fn as_slice(&self) -> &[(usize, usize)]
        ensures { result.now ≡ self.now }
    {
        &self.cells
    }

    /// Puts a cell at the end. Where there is no memory for it, the list is as it was.
    pub fn push(&mut self, cell: (usize, usize)) -> Result<(), Memory>
        ensures ok { OnOk result (self.new ≡ self.old ++ cell ∷ []) }
        ensures err { OnErr result (self.new ≡ self.old) }
    {
        self.cells.push(cell)?;
        Ok(())
    }
}
