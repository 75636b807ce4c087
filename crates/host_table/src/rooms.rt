//! Memory that is taken ahead, so that what uses it wants none.
ghost use Rattle.std.specs.Prelude.{◌≡◌, ◌*◌, ◌≤◌, [], IfOk, vec_capacity};

use crate::closing::Room;
use crate::held::Held;
use crate::host::SHARDS;
use host_core::Store;
use outside::Folder;
use std::alloc::Global;
use turn_lock::Seat;
use wopi_text::Memory;

// The most bytes that are gathered.
pub(crate) const PIECE: usize = 65_536;

/// The memory that splitting a pass takes.
#[derive(Drop)]
pub struct SplitRoom<F: Store> {
    pub(crate) seats: Vec<Seat<Held<F>>>,
    ghost none: { seats.items ≡ [] },
    ghost wide: { 16 ≤ vec_capacity seats },
}

impl<F: Store> SplitRoom<F> {
    /// Room for one pass.
    pub fn new(alloc: Global) -> Result<SplitRoom<F>, Memory> {
        let seats = Vec::with_capacity(alloc, SHARDS)?;
        Ok(SplitRoom { seats })
    }
}

/// The memory that ending a host takes.
#[derive(Drop)]
pub struct EndRoom<F: Store> {
    pub(crate) shards: Vec<Held<F>>,
    pub(crate) stores: Vec<F>,
    ghost shards_wide: { (shards.items ≡ []) × (16 ≤ vec_capacity shards) },
    ghost stores_wide: { (stores.items ≡ []) × (16 ≤ vec_capacity stores) },
}

impl<F: Store> EndRoom<F> {
    /// Room for the shards of a host, and for their stores.
    pub fn new(alloc: Global) -> Result<EndRoom<F>, Memory> {
        let shards = Vec::with_capacity(alloc, SHARDS)?;
        let stores = Vec::with_capacity(alloc, SHARDS)?;
        Ok(EndRoom { shards, stores })
    }
}

/// The memory that closing a host takes: its end and its journal.
#[derive(Drop)]
pub struct CloseRoom<F: Folder> {
    /// The most entries of a shard.
    pub capacity: u32,
    pub(crate) room: Room<F>,
    ghost shards: { (room.shards.items ≡ []) × (16 ≤ vec_capacity room.shards) },
    ghost folders: { (room.folders.items ≡ []) × (16 ≤ vec_capacity room.folders) },
    ghost pasts: { (room.pasts.items ≡ []) × (16 ≤ vec_capacity room.pasts) },
    ghost spots: { (room.spots.items ≡ []) × (16 * capacity ≤ vec_capacity room.spots) },
}

/// The memory that writing a journal takes. What is to be written is gathered there, and written in large pieces.
#[derive(Drop)]
pub struct WriteRoom {
    /// What was gathered and isn't written yet.
    pub bytes: Vec<u8>,
    pub ghost wide: { 65536 ≤ vec_capacity bytes },
}

impl WriteRoom {
    /// Room for any journal.
    pub fn new(alloc: Global) -> Result<WriteRoom, Memory>
        ensures { IfOk result (λ room. room.bytes.items ≡ []) }
    {
        let bytes = Vec::with_capacity(alloc, PIECE)?;
        Ok(WriteRoom { bytes })
    }
}

impl<F: Folder> CloseRoom<F> {
    /// Room for a host whose shards have that capacity.
    pub fn new(alloc: Global, capacity: u32) -> Result<CloseRoom<F>, Memory>
        ensures { IfOk result (λ room. room.capacity ≡ capacity) }
    {
        let room = Room::new(alloc, capacity)?;
        Ok(CloseRoom { capacity, room })
    }
}
