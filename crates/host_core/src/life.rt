//! What is told of a shard's life, where another shard goes on.
use std::marker::Model;
use wopi_model::{Lock, Spent};
use wopi_text::{Bytes, FileName};

/// What is told of the contents of a file. Those that were changed last are told whole, since the folder may lack the change.
#[derive(Drop)]
pub enum LifeContents {
    /// There are none.
    Absent,
    /// The folder has them, and they have so many bytes.
    Left { size: u64 },
    /// They were removed last.
    Removed,
    /// They were put there last.
    Told { contents: Bytes },
}

/// A file that was met, its lock, and its spent ids, the one that ended last at the front.
#[derive(Drop)]
pub struct LifeFile {
    pub name: FileName,
    pub version: u64,
    pub contents: LifeContents,
    pub lock: Option<Lock>,
    pub spent: Vec<Spent>,
}

/// What is told of a shard: when it was opened anew, the version of the files that it opened with, its time, the stamp
/// of its last entry, and each file that was met, once.
#[derive(Drop)]
pub struct Life {
    pub opened: u64,
    pub first: u64,
    pub now: u64,
    pub last: u64,
    pub files: Vec<LifeFile>,
}

/// Why no shard goes on.
#[derive(Drop)]
pub enum ReopenFault {
    /// The folder failed, or what the entries are noted in.
    FolderFault,
    /// The first file that the shard takes, in the order of the names' bytes, that has more than 16 MiB or
    /// with which the shard's files up to it have more than 256 MiB.
    TooLarge { name: FileName },
    Memory,
    /// No shard has such a life.
    BadLife,
    /// More locks are held and ids refused than there are places.
    TooManyIds,
}

/// A file's lock, and its spent ids, the one that ended last at the front.
#[derive(Drop)]
pub struct ToldLocks {
    pub lock: Option<Lock>,
    pub spent: Vec<Spent>,
}

impl Model for ToldLocks {
    ghost use Rattle.kept_locks.specs.Locks.{Standing};

    ghost Value = { Standing };

    ghost view = { λ t. record { lock = t.lock; spent = t.spent.items } };
}
