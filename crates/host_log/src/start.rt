//! What a shard begins with, as it is handed over.
use host_core::{KeptFile, ToldLocks};

/// A shard that opens anew over these files, each at the version `first` and unlocked. Where there are locks it goes on,
/// with files that each have the locks at their place. `time` is its time, and `last` the stamp of the last entry before.
#[derive(Drop)]
pub struct Start<'a> {
    pub opened: u64,
    pub first: u64,
    pub time: u64,
    pub last: u64,
    pub files: &'a Vec<KeptFile>,
    pub locks: Option<&'a Vec<ToldLocks>>,
}
