//! Faults that say nothing but that they came.
use std::alloc::{AllocError, AllocFailed};

/// Want of memory.
#[derive(Clone, Copy, Debug, PartialEq, Eq)]
pub struct Memory;

impl From<AllocError> for Memory {
    fn from(_: AllocError) -> Memory {
        Memory
    }
}

impl<T: Drop> From<AllocFailed<T>> for Memory {
    fn from(_: AllocFailed<T>) -> Memory {
        Memory
    }
}

/// The bytes are no name of a file.
#[derive(Clone, Copy, Debug, PartialEq, Eq)]
pub struct BadName;

/// The bytes are no id of a file.
#[derive(Clone, Copy, Debug, PartialEq, Eq)]
pub struct BadId;
