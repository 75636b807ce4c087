//! Locks, and what is asked and said of them.
ghost use Rattle.std.specs.Prelude.{◌≡◌};

use wopi_text::{LockId, Reason};

/// A lock that stands on a file.
#[derive(Drop)]
pub struct Lock {
    pub id: LockId,
    /// The moment at which it was taken or last refreshed, in milliseconds.
    pub since: u64,
    /// The latest expiry, in milliseconds, of a token that took it or named it while it was held.
    pub until: u64,
}

/// The id of a lock that has ended.
#[derive(Drop)]
pub struct Spent {
    pub id: LockId,
    /// The moment, in milliseconds, from which the id may be used again.
    pub until: u64,
}

/// What an act asks of the lock of its file.
#[derive(Drop)]
pub enum LockAct {
    Lock { id: LockId },
    GetLock,
    Refresh { id: LockId },
    Unlock { id: LockId },
    /// Unlocks `old` and locks `id`, in one.
    Relock { old: LockId, id: LockId },
    /// Replaces the contents, where `empty` says that the file has no bytes.
    Put { id: Option<LockId>, empty: bool },
    Delete,
    /// Makes the file, where `exists` says that it is there already.
    Create { exists: bool, overwrite: bool },
    /// Every act that only reads.
    Look,
}

/// Whether the lock lets an act through.
#[derive(Clone, Copy, Debug, PartialEq, Eq)]
pub enum Verdict {
    Accept,
    Refuse { reason: Reason },
}

/// What comes of an act: the verdict, the lock afterwards, and the id that the act spends.
#[derive(Drop)]
pub struct Judged {
    pub verdict: Verdict,
    pub lock: Option<Lock>,
    pub spend: Option<Spent>,
}

impl Lock {
    /// An equal lock. It takes no memory.
    pub fn copy(&self) -> Lock
        ensures { result ≡ self.now }
    {
        Lock {
            id: self.id.copy(),
            since: self.since,
            until: self.until,
        }
    }
}

impl Spent {
    /// An equal entry. It takes no memory.
    pub fn copy(&self) -> Spent
        ensures { result ≡ self.now }
    {
        Spent {
            id: self.id.copy(),
            until: self.until,
        }
    }
}
