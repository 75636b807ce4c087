//! A log in memory.
ghost use Rattle.std.specs.Prelude.{◌≡◌, ◌≤◌, ◌<◌, ◌-◌, ◌+◌, ◌↔◌, ◌⊎◌, ℕ, List, [], ◌++◌, length, vec_capacity, min, take, Some, IfOk, IsErr, OnOk, OnErr};
ghost use Rattle.std.specs.Io.KnownBytes.{WriteAppends};
ghost use Rattle.outside.specs.Faults.{Rose};
ghost use Rattle.outside.specs.Failing.{FailsNext, CountsOne, IsFresh};
ghost use Rattle.outside.specs.Log.{IsFront};

use crate::{Failed, Failing, Log, Sink};
use std::alloc::Global;
use wopi_text::Memory;

/// Gathers bytes while there is room, at most so many in a write.
pub struct MemLog {
    bytes: Vec<u8>,
    synced: usize,
    most: usize,
    room: usize,
    failing: Failing,
    ghost front: { synced ≤ length bytes.items },
    ghost takes_some: { 1 ≤ most },
    ghost within: { length bytes.items ≤ room },
    ghost reserved: { room ≤ vec_capacity bytes },
}

// Written, since a derived one is spelled out, and proved, wherever it goes.
impl Drop for MemLog {
    fn drop(self) {
        let MemLog {
            bytes: _bytes,
            synced: _synced,
            most: _most,
            room: _room,
            failing: _failing,
        } = self;
    }
}

impl MemLog {
    ghost use Rattle.outside.specs.MemLog.{bytes_held, bytes_synced, most_at_once, room_of, script};

    /// Room for so many bytes is reserved here. `most` is the most bytes that a write takes, and `failing` has the numbers of
    /// the calls that fail, counted from 1 over all of them.
    pub fn new(alloc: Global, room: usize, most: usize, failing: Vec<u64>) -> Result<MemLog, Memory>
        requires { 1 ≤ most }
        ensures held { IfOk result (λ l. bytes_held l ≡ []) }
        ensures most { IfOk result (λ l. most_at_once l ≡ most) }
        ensures room { IfOk result (λ l. room_of l ≡ room) }
        ensures script { IfOk result (λ l. IsFresh (script l) failing.items) }
    {
        Ok(MemLog {
            bytes: Vec::with_capacity(alloc, room)?,
            synced: 0,
            most,
            room,
            failing: Failing::new(failing),
        })
    }

    /// What it holds.
    pub fn as_slice(&self) -> &[u8]
        ensures { result.now ≡ bytes_held self.now }
    {
        &self.bytes
    }

    /// How many bytes of the front were synced.
    pub fn synced(&self) -> usize
        ensures value { result ≡ length (bytes_synced self.now) }
        ensures bytes { bytes_synced self.now ≡ take result (bytes_held self.now) }
    {
        self.synced
    }

    /// The machine stops: what was synced is left, and at most so many bytes behind it. This is no call of the log, and
    /// never fails.
    pub fn crash(&mut self, more: usize)
        ensures held { bytes_held self.new ≡ take (length (bytes_synced self.old) + more) (bytes_held self.old) }
        ensures synced { bytes_synced self.new ≡ bytes_held self.new }
        ensures most { most_at_once self.new ≡ most_at_once self.old }
        ensures room { room_of self.new ≡ room_of self.old }
        ensures script { script self.new ≡ script self.old }
    {
        self.bytes.truncate(self.synced.saturating_add(more));
        self.synced = self.bytes.len();
    }
}

impl Sink for MemLog {
    ghost use Rattle.outside.specs.MemLog.{bytes_held, bytes_synced, most_at_once, room_of, script};

    ghost held = { λ l. Some (bytes_held l) };

    ghost write_faults = { λ l. (script l).faults };

    ghost beside_writes = { λ l. record { bytes = Some (bytes_synced l); faults = 0; references = [] } };

    fn write(&mut self, piece: &[u8]) -> Result<usize, Failed>
        ensures fits { IfOk result (λ n. n ≤ length piece.now) }
        ensures takes { IfOk result (λ n. 0 < length piece.now → 0 < n) }
        ensures bytes { WriteAppends (Some (bytes_held self.old)) (Some (bytes_held self.new)) result piece.now }
        ensures beside { bytes_synced self.new ≡ bytes_synced self.old }
        ensures never_falls { (script self.old).faults ≤ (script self.new).faults }
        ensures failed { OnErr result (Rose (script self.old).faults (script self.new).faults) }

        // It fails at the given calls, and where a piece finds no room, and takes as much as it can.
        ensures fails { IsErr result ↔ (FailsNext (script self.old)
            ⊎ ((0 < length piece.now) × (room_of self.old ≡ length (bytes_held self.old)))) }
        ensures number { IfOk result (λ n. n ≡ min (min (length piece.now) (most_at_once self.old)) (room_of self.old - length (bytes_held self.old))) }
        ensures counts { CountsOne (script self.old) (script self.new) }
    {
        if self.failing.next_fails() {
            return Err(Failed);
        }
        let room = self.room - self.bytes.len();
        let count = piece.len().min(self.most).min(room);
        if count == 0 && !piece.is_empty() {
            self.failing.note_fault();
            return Err(Failed);
        }
        match self.bytes.extend_from_slice(&piece[..count]) {
            Ok(()) => Ok(count),
            Err(_) => unreachable!(),
        }
    }
}

impl Log for MemLog {
    ghost use Rattle.std.specs.Prelude.{refl, drop};
    ghost use Rattle.std.proofs.Common.{sym, take-append-drop};
    ghost use Rattle.outside.specs.MemLog.{bytes_held, bytes_synced, script};

    ghost synced = { λ l. Some (bytes_synced l) };

    ghost synced_first = { λ l. (drop l.synced l.bytes.items, sym (take-append-drop l.synced l.bytes.items)) };

    ghost writes_leave = { λ _. refl };

    fn length(&mut self) -> Result<u64, Failed>
        ensures length { IfOk result (λ n. length (bytes_held self.old) ≡ n) }
        ensures held { bytes_held self.new ≡ bytes_held self.old }
        ensures synced { bytes_synced self.new ≡ bytes_synced self.old }
        ensures never_falls { (script self.old).faults ≤ (script self.new).faults }
        ensures failed { OnErr result (Rose (script self.old).faults (script self.new).faults) }

        // It fails at the given calls alone.
        ensures fails { IsErr result ↔ FailsNext (script self.old) }
        ensures counts { CountsOne (script self.old) (script self.new) }
    {
        if self.failing.next_fails() {
            return Err(Failed);
        }
        Ok(self.bytes.len() as u64)
    }

    fn sync(&mut self) -> Result<(), Failed>
        ensures held { bytes_held self.new ≡ bytes_held self.old }
        ensures synced { OnOk result (bytes_synced self.new ≡ bytes_held self.old) }
        ensures more { IsFront (Some (bytes_synced self.old)) (Some (bytes_synced self.new)) }
        ensures never_falls { (script self.old).faults ≤ (script self.new).faults }
        ensures failed { OnErr result (Rose (script self.old).faults (script self.new).faults) }

        // It fails at the given calls alone, and then syncs nothing.
        ensures fails { IsErr result ↔ FailsNext (script self.old) }
        ensures left { OnErr result (bytes_synced self.new ≡ bytes_synced self.old) }
        ensures counts { CountsOne (script self.old) (script self.new) }
    {
        if self.failing.next_fails() {
            return Err(Failed);
        }
        self.synced = self.bytes.len();
        Ok(())
    }

    fn resume(&mut self, count: u64) -> Result<(), Failed>
        ensures cut { OnOk result ((bytes_held self.new ≡ take count (bytes_held self.old)) × (count ≤ length (bytes_held self.old))) }
        ensures synced { OnOk result (bytes_synced self.new ≡ bytes_held self.new) }
        ensures front { IsFront (Some (bytes_held self.new)) (Some (bytes_held self.old)) }
        ensures never_falls { (script self.old).faults ≤ (script self.new).faults }
        ensures failed { OnErr result (Rose (script self.old).faults (script self.new).faults) }

        // It fails at the given calls, and where there are fewer bytes, and then cuts nothing.
        ensures fails { IsErr result ↔ (FailsNext (script self.old) ⊎ (length (bytes_held self.old) < count)) }
        ensures left { OnErr result (bytes_held self.new ≡ bytes_held self.old) }
        ensures counts { CountsOne (script self.old) (script self.new) }
    {
        if self.failing.next_fails() {
            return Err(Failed);
        }
        if count > self.bytes.len() as u64 {
            self.failing.note_fault();
            return Err(Failed);
        }
        self.bytes.truncate(count as usize);
        self.synced = self.bytes.len();
        Ok(())
    }
}
