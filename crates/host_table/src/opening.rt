//! How a host begins: a shard over each folder, and a lock round each shard.
ghost use Rattle.std.specs.Prelude.{◌≡◌, ◌+◌, ◌≤◌, [], ◌++◌, List, None, true, map, length, vec_len, vec_capacity, IfOk, IfErr, OnOk};
ghost use Rattle.std.specs.Vec.Iter.{into_iter_items, into_iter_len};
ghost use Rattle.wopi_model.specs.Moment.{IsMoment};
ghost use Rattle.host_core.specs.Opening.{IsFirstVersion};
ghost use Rattle.host_table.specs.Histories.{as_opened};
ghost use Rattle.host_table.specs.Start.{limits_of, first_seats, start_of, log_in, AreNew, AreHanded, IsBlamed, AreBegun};

use crate::held::Held;
use crate::host::SHARDS;
use crate::rows::close_all;
use host_core::{StartFault, Store};
use std::alloc::Global;
use std::vec::IntoIter;
use turn_lock::{NewFault, Seat, TurnLock};

/// What a host's shards have room for.
#[derive(Clone, Copy)]
pub(crate) enum Most {
    /// So many calls each.
    Calls(u32),
    /// Any number of calls, and so many held locks and ids that are refused.
    Ids(u32),
}

/// Moves the rest behind what is there.
pub(crate) fn move_all<T: Drop>(mut rest: IntoIter<T, Global>, into: &mut Vec<T>)
    requires len { into_iter_len rest ≡ length (into_iter_items rest) }
    requires room { vec_len into.old + into_iter_len rest ≤ vec_capacity into.old }
    ensures { into.new.items ≡ into.old.items ++ into_iter_items rest }
{
    while let Some(item) = rest.next() {
        into.push_reserved(item);
    }
}

/// Hands back the folders of shards that made no entry, behind those that are there.
pub(crate) fn hand_back<F: Store>(shards: Vec<Held<F>>, back: &mut Vec<F>)
    requires new { AreNew shards.items }
    requires room { vec_len back.old + vec_len shards ≤ vec_capacity back.old }
    ensures handed { (handed : List F) × (back.new.items ≡ back.old.items ++ handed) × AreHanded F.files F.faults (map start_of shards.items) handed × (map (log_in F.notes) handed ≡ map (log_in F.notes) (map start_of shards.items)) }
    ensures capacity { vec_capacity back.new ≡ vec_capacity back.old }
    ensures len { vec_len back.new ≡ vec_len back.old + vec_len shards }
{
    let mut rest = shards.into_iter();
    while let Some(held) = rest.next() {
        back.push_reserved(held.folder());
    }
}

/// Opens a shard over each folder. A refusal leaves all folders in `back`, in their order.
pub(crate) fn open_all<F: Store>(
    alloc: Global,
    folders: Vec<F>,
    back: &mut Vec<F>,
    most: Most,
    opened: u64,
    first: u64,
) -> Result<Vec<Held<F>>, StartFault>
    requires endless { (limits_of most).calls ≡ None → F.endless ≡ true }
    requires most { (1 ≤ (limits_of most).ids) × ((limits_of most).ids ≤ 32768) }
    requires folders { length folders.items ≡ 16 }
    requires opened { IsMoment opened }
    requires first { IsFirstVersion first }
    requires room { (back.old.items ≡ []) × (16 ≤ vec_capacity back.old) }
    ensures begun { IfOk result (λ shards. AreBegun F.files F.times F.faults opened first (limits_of most) 0 folders.items shards.items) }
    ensures back { OnOk result ((back.new.items ≡ []) × (vec_capacity back.new ≡ vec_capacity back.old)) }
    ensures handed { IfErr result (λ fault. AreHanded F.files F.faults folders.items back.new.items) }
    ensures blamed { IfErr result (λ fault. IsBlamed F.files F.faults folders.items back.new.items fault) }
    ensures logs { IfErr result (λ fault. map (log_in F.notes) back.new.items ≡ map (log_in F.notes) folders.items) }
{
    let mut rest = folders.into_iter();
    let Ok(mut shards) = Vec::with_capacity(alloc, SHARDS) else {
        move_all(rest, back);
        return Err(StartFault::Memory);
    };
    while let Some(folder) = rest.next() {
        match Held::open(alloc, folder, shards.len() as u8, most, opened, first) {
            Ok(held) => shards.push_reserved(held),
            Err((folder, fault)) => {
                hand_back(shards, back);
                back.push_reserved(folder);
                move_all(rest, back);
                return Err(fault);
            }
        }
    }
    Ok(shards)
}

/// The shard that no lock was made for.
fn unlocked<F: Store>(fault: NewFault<Held<F>>) -> Held<F>
    ensures { NewFault.Memory result ≡ fault }
{
    match fault {
        NewFault::Memory(shard) => shard,
    }
}

/// A lock round each shard, and its first seat. Where there is no memory the shards come back.
pub(crate) fn lock_all<F: Store>(
    alloc: Global,
    shards: Vec<Held<F>>,
) -> Result<(Vec<TurnLock<Held<F>>>, Vec<Seat<Held<F>>>), Vec<Held<F>>>
    requires new { AreNew shards.items }
    requires many { length shards.items ≡ 16 }
    ensures seats { IfOk result (λ made. made.1.items ≡ first_seats made.0.items (map as_opened shards.items)) }
    ensures many { IfOk result (λ made. length made.0.items ≡ 16) }
    ensures back { IfErr result (λ back. (map as_opened back.items ≡ map as_opened shards.items) × AreNew back.items) }
{
    let Ok(mut back) = Vec::with_capacity(alloc, SHARDS) else {
        return Err(shards);
    };
    let Ok(mut locks) = Vec::with_capacity(alloc, SHARDS) else {
        return Err(shards);
    };
    let Ok(mut seats) = Vec::with_capacity(alloc, SHARDS) else {
        return Err(shards);
    };
    let mut rest = shards.into_iter();
    while let Some(held) = rest.next() {
        match TurnLock::new(alloc, held) {
            Ok((lock, seat)) => {
                locks.push_reserved(lock);
                seats.push_reserved(seat);
            }
            Err(fault) => {
                close_all(locks, seats, &mut back);
                back.push_reserved(unlocked(fault));
                move_all(rest, &mut back);
                return Err(back);
            }
        }
    }
    Ok((locks, seats))
}
