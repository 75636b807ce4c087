//! A sink in memory.
ghost use Rattle.std.specs.Prelude.{◌≡◌, ◌≤◌, ◌<◌, ◌-◌, ◌↔◌, ◌⊎◌, ℕ, List, [], length, vec_capacity, min, Some, IfOk, IsErr, OnErr};
ghost use Rattle.std.specs.Io.KnownBytes.{WriteAppends};
ghost use Rattle.outside.specs.Faults.{Rose};
ghost use Rattle.outside.specs.Failing.{FailsNext, CountsOne, IsFresh};

use crate::{Failed, Failing, Sink};
use std::alloc::Global;
use wopi_text::Memory;

/// Gathers bytes while there is room.
pub struct MemSink {
    bytes: Vec<u8>,
    room: usize,
    failing: Failing,
    ghost within: { length bytes.items ≤ room },
    ghost reserved: { room ≤ vec_capacity bytes },
}

// Written, since a derived one is spelled out, and proved, wherever it goes.
impl Drop for MemSink {
    fn drop(self) {
        let MemSink {
            bytes: _bytes,
            room: _room,
            failing: _failing,
        } = self;
    }
}

impl MemSink {
    ghost use Rattle.outside.specs.MemSink.{bytes_held, room_of, script};

    /// Room for so many bytes is reserved here; `failing` has the numbers of the writes that fail,
    /// counted from 1.
    pub fn new(alloc: Global, room: usize, failing: Vec<u64>) -> Result<MemSink, Memory>
        ensures held { IfOk result (λ s. bytes_held s ≡ []) }
        ensures room { IfOk result (λ s. room_of s ≡ room) }
        ensures script { IfOk result (λ s. IsFresh (script s) failing.items) }
    {
        Ok(MemSink {
            bytes: Vec::with_capacity(alloc, room)?,
            room,
            failing: Failing::new(failing),
        })
    }

    /// What was written.
    pub fn as_slice(&self) -> &[u8]
        ensures { result.now ≡ bytes_held self.now }
    {
        &self.bytes
    }
}

impl Sink for MemSink {
    ghost use Rattle.outside.specs.MemSink.{bytes_held, room_of, script};

    ghost held = { λ s. Some (bytes_held s) };

    ghost write_faults = { λ s. (script s).faults };

    fn write(&mut self, piece: &[u8]) -> Result<usize, Failed>
        ensures fits { IfOk result (λ n. n ≤ length piece.now) }
        ensures takes { IfOk result (λ n. 0 < length piece.now → 0 < n) }
        ensures bytes { WriteAppends (Some (bytes_held self.old)) (Some (bytes_held self.new)) result piece.now }
        ensures never_falls { (script self.old).faults ≤ (script self.new).faults }
        ensures failed { OnErr result (Rose (script self.old).faults (script self.new).faults) }

        // It fails at the given calls, and where a piece finds no room, and takes as much as it can.
        ensures fails { IsErr result ↔ (FailsNext (script self.old)
            ⊎ ((0 < length piece.now) × (room_of self.old ≡ length (bytes_held self.old)))) }
        ensures number { IfOk result (λ n. n ≡ min (length piece.now) (room_of self.old - length (bytes_held self.old))) }
        ensures counts { CountsOne (script self.old) (script self.new) }
        ensures room { room_of self.new ≡ room_of self.old }
    {
        if self.failing.next_fails() {
            return Err(Failed);
        }
        let count = piece.len().min(self.room - self.bytes.len());
        if count == 0 && !piece.is_empty() {
            self.failing.note_fault();
            return Err(Failed);
        }
        match self.bytes.extend_from_slice(&piece[..count]) {
            Ok(()) => Ok(count),
            Err(_) => unreachable!(),
        }
    }
}
