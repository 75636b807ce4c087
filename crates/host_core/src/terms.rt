//! What a step goes by.
use std::alloc::Global;

/// What the steps on files go by: when the shard opened, the version of the files that stood there then, how many bytes of
/// contents are kept, and the shard's time.
#[derive(Clone, Copy)]
pub struct Terms {
    pub alloc: Global,
    pub opened: u64,
    pub first: u64,
    pub kept: u64,
    pub time: u64,
}
