//! Why a grid could not be read or edited.
ghost use Rattle.grid_sheet.specs.declared.fault.GridFault.TheVariants as fault;
ghost use Rattle.std.specs.Prelude.{◌≡◌};

use std::alloc::{AllocError, AllocFailed};
use thiserror::Error;
use wopi_text::Memory;

/// Why a grid could not be read, or an edit was refused. Each call tests for these in the order in
/// which they stand here.
#[derive(Clone, Copy, Debug, PartialEq, Eq, Error)]
pub enum GridFault {
    /// The row or column is not there.
    #[error("out of grid")]
    OutOfGrid,
    /// More rows, or more cells in a row, than a grid may have.
    #[error("too many")]
    TooMany,
    /// Want of memory.
    #[error("out of memory")]
    Memory,
}

impl From<Memory> for GridFault {
    ghost from_gives = { λ _ e. e ≡ fault.Memory };

    fn from(_: Memory) -> GridFault {
        GridFault::Memory
    }
}

impl From<AllocError> for GridFault {
    ghost from_gives = { λ _ e. e ≡ fault.Memory };

    fn from(_: AllocError) -> GridFault {
        GridFault::Memory
    }
}

impl<T: Drop> From<AllocFailed<T>> for GridFault {
    ghost from_gives = { λ _ e. e ≡ fault.Memory };

    fn from(_: AllocFailed<T>) -> GridFault {
        GridFault::Memory
    }
}
