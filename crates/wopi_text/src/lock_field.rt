//! What a message says of a lock.
ghost use Rattle.std.specs.Prelude.{◌≡◌};

use crate::LockId;

/// What the header `X-WOPI-Lock` of a message says: it isn't there, it is empty, or it holds an id.
#[derive(PartialEq, Eq, Drop)]
pub enum LockField {
    Absent,
    Empty,
    Held(LockId),
}

impl LockField {
    /// An equal field. It takes no memory.
    pub fn copy(&self) -> LockField
        ensures { result ≡ self.now }
    {
        match self {
            LockField::Absent => LockField::Absent,
            LockField::Empty => LockField::Empty,
            LockField::Held(id) => LockField::Held(id.copy()),
        }
    }
}
