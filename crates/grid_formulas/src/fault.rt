//! Why a sheet could not be made or changed.
ghost use Rattle.grid_formulas.specs.declared.fault.SheetFault.TheVariants as fault;
ghost use Rattle.std.specs.Prelude.{◌≡◌};

use std::alloc::{AllocError, AllocFailed};
use thiserror::Error;
use wopi_text::Memory;

/// Why a sheet could not be made or changed.
#[derive(Clone, Copy, Debug, PartialEq, Eq, Error)]
pub enum SheetFault {
    /// The formulas together name more than 1,000,000 cells.
    #[error("too many links")]
    TooManyLinks,
    /// Want of memory.
    #[error("out of memory")]
    Memory,
}

impl From<Memory> for SheetFault {
    ghost from_gives = { λ _ e. e ≡ fault.Memory };

    fn from(_: Memory) -> SheetFault {
        SheetFault::Memory
    }
}

impl From<AllocError> for SheetFault {
    ghost from_gives = { λ _ e. e ≡ fault.Memory };

    fn from(_: AllocError) -> SheetFault {
        SheetFault::Memory
    }
}

impl<T: Drop> From<AllocFailed<T>> for SheetFault {
    ghost from_gives = { λ _ e. e ≡ fault.Memory };

    fn from(_: AllocFailed<T>) -> SheetFault {
        SheetFault::Memory
    }
}
