//! How a host ends: all passes are joined, each lock is ended, and the shards are taken apart.
ghost use Rattle.std.specs.Prelude.{◌≡◌, ◌+◌, ◌<◌, ◌*◌, ◌≤◌, [], ◌++◌, IfOk, IsSomeAnd, map, length, vec_len, vec_capacity};
ghost use Rattle.std.specs.List.{AllByRecursion};
ghost use Rattle.turn_lock.specs.Places.{total};
ghost use Rattle.host_table.specs.Passes.{lock_of, locks_of, IsPassOf};
ghost use Rattle.host_table.specs.Close.{capacity_of, AreJoined, AreFree, IsJoinOf, AreGiven, AreTaken, IsWhole, Ends, Leaves};
ghost use Rattle.host_table.specs.Journal.{spots_from, all_spots};

use crate::held::Held;
use crate::host::{Host, SHARDS};
use crate::journal::{Journal, Spot};
use crate::pass::Pass;
use crate::rows::close_all;
use host_core::{Kept, Past, Store};
use outside::Folder;
use std::alloc::{AllocError, Global};
use turn_lock::{Grown, Seat, TurnLock};

/// Joins to each seat the other at the same lock.
fn join_row<F: Store>(
    locks: &Vec<TurnLock<Held<F>>>,
    seats: &mut Vec<Seat<Held<F>>>,
    others: Vec<Seat<Held<F>>>,
)
    requires locks { map lock_of seats.old.items ≡ locks.now.items }
    requires others { map lock_of others.items ≡ locks.now.items }
    requires free { AreFree seats.old.items × AreFree others.items }
    ensures { AreJoined seats.old.items others.items seats.new.items }
{
    let mut rest = others.into_iter();
    for i in 0..locks.len() {
        let Some(other) = rest.next() else {
            unreachable!()
        };
        let seat = &mut seats[i];
        locks[i].join(seat, other);
    }
}

/// The seats of all passes, joined: one at each lock.
pub(crate) fn join_all<F: Store>(
    locks: &Vec<TurnLock<Held<F>>>,
    passes: Vec<Pass<F>>,
) -> Vec<Seat<Held<F>>>
    requires locks { AllByRecursion (λ pass. locks_of pass ≡ locks.now.items) passes.items }
    requires some { 1 ≤ length passes.items }
    ensures joined { IsJoinOf passes.items result.items }
    ensures locks { map lock_of result.items ≡ locks.now.items }
{
    let mut rest = passes.into_iter();
    let Some(first) = rest.next() else {
        unreachable!()
    };
    let Pass { mut seats, .. } = first;
    while let Some(pass) = rest.next() {
        let Pass { seats: others, .. } = pass;
        join_row(locks, &mut seats, others);
    }
    seats
}

/// Lists where a shard's entries stand.
fn list_spots<F: Folder>(spots: &mut Vec<Spot>, past: &Past<F>, shard: u8, count: u64)
    requires count { count ≡ length past.now.made }
    requires few { count < 4294967296 }
    requires room { vec_len spots.old + count ≤ vec_capacity spots.old }
    ensures spots { spots.new.items ≡ spots.old.items ++ spots_from shard 0 past.now.made }
    ensures len { vec_len spots.new ≡ vec_len spots.old + count }
    ensures capacity { vec_capacity spots.new ≡ vec_capacity spots.old }
{
    for place in 0..count {
        let Some(entry) = past.entry(place) else {
            unreachable!()
        };
        let stamp = entry.stamp();
        spots.push_reserved(Spot {
            stamp,
            shard,
            place: place as u32,
        });
    }
}

/// Takes each shard apart, and lists where all entries stand, one shard after another.
pub(crate) fn take_apart<F: Folder>(
    shards: Vec<Held<Kept<F>>>,
    folders: &mut Vec<F>,
    pasts: &mut Vec<Past<F>>,
    spots: &mut Vec<Spot>,
)
    requires many { length shards.items ≤ 16 }
    requires folders { (folders.old.items ≡ []) × (16 ≤ vec_capacity folders.old) }
    requires pasts { (pasts.old.items ≡ []) × (16 ≤ vec_capacity pasts.old) }
    requires spots { (spots.old.items ≡ []) × (total capacity_of shards.items ≤ vec_capacity spots.old) }
    requires few { AllByRecursion (λ book. IsSomeAnd book.limits.calls (λ calls. calls < 4294967296)) shards.items }
    ensures taken { AreTaken F.files F.faults shards.items pasts.new.items folders.new.items }
    ensures spots { spots.new.items ≡ all_spots 0 pasts.new.items }
{
    let mut rest = shards.into_iter();
    let mut number: u8 = 0;
    while let Some(held) = rest.next() {
        let count = held.grown();
        let (folder, past) = held.end();
        list_spots(spots, &past, number, count);
        folders.push_reserved(folder);
        pasts.push_reserved(past);
        number += 1;
    }
}

/// Takes the store of each shard.
fn take_stores<F: Store>(shards: Vec<Held<F>>, stores: &mut Vec<F>)
    requires room { (stores.old.items ≡ []) × (vec_len shards ≤ vec_capacity stores.old) }
    ensures given { AreGiven F.files F.faults F.notes shards.items stores.new.items }
{
    let mut rest = shards.into_iter();
    while let Some(held) = rest.next() {
        stores.push_reserved(held.into_store());
    }
}

/// Ends a host by all its passes, in room for its shards and for their stores.
pub(crate) fn end_stores<F: Store>(
    host: Host<F>,
    passes: Vec<Pass<F>>,
    shards: Vec<Held<F>>,
    stores: Vec<F>,
) -> Vec<F>
    requires of_host { AllByRecursion (IsPassOf host) passes.items }
    requires whole { IsWhole host.made passes.items }
    requires shards { (shards.items ≡ []) × (16 ≤ vec_capacity shards) }
    requires stores { (stores.items ≡ []) × (16 ≤ vec_capacity stores) }
    ensures { Leaves F.files F.faults F.notes host passes.items result.items }
{
    let mut shards = shards;
    let mut stores = stores;
    let Host { locks, .. } = host;
    let seats = join_all(&locks, passes);
    close_all(locks, seats, &mut shards);
    take_stores(shards, &mut stores);
    stores
}

/// The memory that ending a host takes, all of it before anything ends.
#[derive(Drop)]
pub(crate) struct Room<F: Folder> {
    pub shards: Vec<Held<Kept<F>>>,
    pub folders: Vec<F>,
    pub pasts: Vec<Past<F>>,
    pub spots: Vec<Spot>,
}

impl<F: Folder> Room<F> {
    /// Room for 16 shards of that capacity.
    pub fn new(alloc: Global, capacity: u32) -> Result<Room<F>, AllocError>
        ensures shards { IfOk result (λ room. (room.shards.items ≡ []) × (16 ≤ vec_capacity room.shards)) }
        ensures folders { IfOk result (λ room. (room.folders.items ≡ []) × (16 ≤ vec_capacity room.folders)) }
        ensures pasts { IfOk result (λ room. (room.pasts.items ≡ []) × (16 ≤ vec_capacity room.pasts)) }
        ensures spots { IfOk result (λ room. (room.spots.items ≡ []) × (16 * capacity ≤ vec_capacity room.spots)) }
    {
        let shards = Vec::with_capacity(alloc, SHARDS)?;
        let folders = Vec::with_capacity(alloc, SHARDS)?;
        let pasts = Vec::with_capacity(alloc, SHARDS)?;
        let spots = Vec::with_capacity(alloc, SHARDS * capacity as usize)?;
        Ok(Room {
            shards,
            folders,
            pasts,
            spots,
        })
    }
}

/// Ends a host by all its passes, in the room that was taken for it. The entries are sorted in place, which takes
/// time by their number times its logarithm.
pub(crate) fn end_host<F: Folder>(
    host: Host<Kept<F>>,
    passes: Vec<Pass<Kept<F>>>,
    room: Room<F>,
) -> (Journal<F>, Vec<F>)
    requires of_host { AllByRecursion (IsPassOf host) passes.items }
    requires whole { IsWhole host.made passes.items }
    requires shards { (room.shards.items ≡ []) × (16 ≤ vec_capacity room.shards) }
    requires folders { (room.folders.items ≡ []) × (16 ≤ vec_capacity room.folders) }
    requires pasts { (room.pasts.items ≡ []) × (16 ≤ vec_capacity room.pasts) }
    requires spots { (room.spots.items ≡ []) × IsSomeAnd host.limits.calls (λ calls. 16 * calls ≤ vec_capacity room.spots) }
    ensures { Ends F.files F.faults host passes.items result.0 result.1.items }
{
    let Host {
        locks,
        opened,
        first,
        ..
    } = host;
    let Room {
        mut shards,
        mut folders,
        mut pasts,
        mut spots,
    } = room;
    let seats = join_all(&locks, passes);
    close_all(locks, seats, &mut shards);
    take_apart(shards, &mut folders, &mut pasts, &mut spots);
    spots.sort_unstable_by_key(|spot| spot.order());
    let journal = Journal {
        opened,
        first,
        pasts,
        spots,
    };
    (journal, folders)
}
