//! Why bytes are not read.
ghost use Rattle.std.specs.Prelude.{◌≡◌};
ghost use Rattle.utf7_text.specs.declared.fault.Utf7Fault.TheVariants as fault;

use thiserror::Error;

/// Why bytes are not read.
#[derive(Clone, Copy, Debug, PartialEq, Eq, Error)]
pub enum Utf7Fault {
    /// The bytes are no UTF-7. The place is that of the `+` of the first shift that is none, or of
    /// the first byte that may not stand for itself, whichever comes first.
    #[error("no UTF-7 from byte {at} on")]
    Bad { at: usize },
    /// Want of memory.
    #[error("want of memory")]
    Memory,
}

impl From<wopi_text::Memory> for Utf7Fault {
    ghost from_gives = { λ _ e. e ≡ fault.Memory };

    fn from(_: wopi_text::Memory) -> Utf7Fault {
        Utf7Fault::Memory
    }
}
