//! Locks that are held from before.
ghost use Rattle.std.specs.Prelude.{◌≡◌, ◌≢◌, ◌⊎◌, ◌≤◌, ◌<◌, ◌+◌, ◌∷◌, [], ℕ, None, Some, IfOk, OnOk, drop, length, IsTrue, true};
ghost use Rattle.std.specs.List.{AllByRecursion};
ghost use Rattle.host_core.specs.Going.{AreHeld, HoldsFrom, IsAsOf, IsFreeOf, IsLive, IsPartly};
ghost use Rattle.host_core.specs.Turns.{AreAsOf};
ghost use Rattle.host_core.specs.Whole.{standing_at};
ghost use Rattle.kept_locks.specs.Locks.{AreChained, held_in, ids_in, unlocked};
ghost use Rattle.kept_locks.specs.Ties.{BeganBy};

use crate::held::lock_of;
use crate::life::ToldLocks;
use crate::room::take_room;
use kept_locks::KeptLocks;
use lock_machine::LOCK_LIFE;
use std::alloc::Global;
use wopi_model::{Lock, Spent};
use wopi_text::Memory;

/// The moment at which a lock began, and the number of its file.
#[derive(Clone, Copy, Drop)]
struct Turn {
    since: u64,
    number: u32,
}

/// Puts an id before those that are refused on a file, where no file has a lock: as that of a lock which began at 0 and
/// has ended.
fn put_id(locks: &mut KeptLocks, number: u32, one: Spent)
    requires number { number < length locks.old.files }
    requires free { IsFreeOf locks.old.files }
    requires spare { 1 ≤ locks.old.spare }
    requires live { IsLive (standing_at locks.old.files number).spent }
    requires until { 0 < one.until }
    requires latest { locks.old.latest ≡ 0 }
    ensures here { standing_at locks.new.files number ≡ record { lock = None; spent = one ∷ (standing_at locks.old.files number).spent } }
    ensures others { (other : ℕ) → other ≢ number → standing_at locks.new.files other ≡ standing_at locks.old.files other }
    ensures free { IsFreeOf locks.new.files }
    ensures long { length locks.new.files ≡ length locks.old.files }
    ensures latest { locks.new.latest ≡ 0 }
    ensures chains { AreChained locks.new }
    ensures room { locks.new.room ≡ locks.old.room }
{
    let lock = Lock {
        id: one.id,
        since: 0,
        until: one.until,
    };
    locks.set(number, Some(lock), None, 0);
    locks.settle(LOCK_LIFE);
}

/// A place for one more lock or id is left. The places were counted before, so that it is.
fn has_room(locks: &KeptLocks, ids: usize) -> bool
    requires { ids < locks.now.room }
    ensures { result ≡ true → 1 ≤ locks.now.spare }
{
    locks.used() <= ids
}

/// The ids that are refused on a file, which has none yet, where no file has a lock.
fn put_ids(locks: &mut KeptLocks, number: u32, spent: &Vec<Spent>, ids: usize) -> Result<(), Memory>
    requires number { number < length locks.old.files }
    requires free { IsFreeOf locks.old.files }
    requires none { standing_at locks.old.files number ≡ unlocked }
    requires live { IsLive spent.now.items }
    requires latest { locks.old.latest ≡ 0 }
    requires chains { AreChained locks.old }
    requires room { ids < locks.old.room }
    ensures here { OnOk result (standing_at locks.new.files number ≡ record { lock = None; spent = spent.now.items }) }
    ensures others { (other : ℕ) → other ≢ number → standing_at locks.new.files other ≡ standing_at locks.old.files other }
    ensures free { IsFreeOf locks.new.files }
    ensures long { length locks.new.files ≡ length locks.old.files }
    ensures latest { locks.new.latest ≡ 0 }
    ensures chains { AreChained locks.new }
    ensures room { locks.new.room ≡ locks.old.room }
{
    let mut place = spent.len();
    'spent: while place > 0 {
        place -= 1;
        if !has_room(locks, ids) {
            return Err(Memory);
        }
        put_id(locks, number, spent[place].copy());
    }
    Ok(())
}

/// The ids of each file, where none has any yet.
fn put_all_ids(locks: &mut KeptLocks, told: &Vec<ToldLocks>, ids: usize) -> Result<(), Memory>
    requires none { (number : ℕ) → standing_at locks.old.files number ≡ unlocked }
    requires few { length told.now.items ≤ 4000000000 }
    requires long { length told.now.items ≤ length locks.old.files }
    requires live { (number : ℕ) → IsLive (standing_at told.now.items number).spent }
    requires latest { locks.old.latest ≡ 0 }
    requires chains { AreChained locks.old }
    requires room { ids < locks.old.room }
    ensures here { OnOk result (HoldsFrom told.now.items locks.new.files) }
    ensures long { length locks.new.files ≡ length locks.old.files }
    ensures latest { locks.new.latest ≡ 0 }
    ensures chains { AreChained locks.new }
    ensures room { locks.new.room ≡ locks.old.room }
{
    let mut place = 0;
    'told: while place < told.len() {
        put_ids(locks, place as u32, &told[place].spent, ids)?;
        place += 1;
    }
    Ok(())
}

/// When the lock of each file began that has one.
fn turns_of(alloc: Global, told: &Vec<ToldLocks>) -> Result<Vec<Turn>, Memory>
    requires { length told.now.items ≤ 4000000000 }
{
    let mut turns = Vec::new(alloc);
    let mut place = 0;
    'told: while place < told.len() {
        match &told[place].lock {
            None => {}
            Some(lock) => turns.push(Turn {
                since: lock.since,
                number: place as u32,
            })?,
        }
        place += 1;
    }
    Ok(turns)
}

/// Gives a file its lock, which began no earlier than any other.
fn put_lock(locks: &mut KeptLocks, number: u32, lock: Lock)
    requires number { number < length locks.old.files }
    requires spare { 1 ≤ locks.old.spare }
    requires live { IsLive (standing_at locks.old.files number).spent }
    requires since { BeganBy lock.since locks.old.files }
    requires latest { locks.old.latest ≡ 0 }
    ensures here { standing_at locks.new.files number ≡ record { lock = Some lock; spent = (standing_at locks.old.files number).spent } }
    ensures others { (other : ℕ) → other ≢ number → standing_at locks.new.files other ≡ standing_at locks.old.files other }
    ensures began { BeganBy lock.since locks.new.files }
    ensures long { length locks.new.files ≡ length locks.old.files }
    ensures latest { locks.new.latest ≡ 0 }
    ensures chains { AreChained locks.new }
    ensures room { locks.new.room ≡ locks.old.room }
{
    locks.set(number, Some(lock), None, 0);
}

/// Gives a file the lock that was told of it, where it began then, and no other one later.
fn put_turn(
    locks: &mut KeptLocks,
    told: &Vec<ToldLocks>,
    turn: Turn,
    ids: usize,
) -> Result<(), Memory>
    requires part { IsPartly told.now.items locks.old.files }
    requires long { length told.now.items ≤ length locks.old.files }
    requires live { (number : ℕ) → IsLive (standing_at told.now.items number).spent }
    requires since { BeganBy turn.since locks.old.files }
    requires latest { locks.old.latest ≡ 0 }
    requires chains { AreChained locks.old }
    requires room { ids < locks.old.room }
    ensures part { IsPartly told.now.items locks.new.files }
    ensures began { BeganBy turn.since locks.new.files }
    ensures long { length locks.new.files ≡ length locks.old.files }
    ensures latest { locks.new.latest ≡ 0 }
    ensures chains { AreChained locks.new }
    ensures room { locks.new.room ≡ locks.old.room }
{
    if turn.number as usize >= told.len() {
        return Err(Memory);
    }
    match &told[turn.number as usize].lock {
        None => return Ok(()),
        Some(lock) => {
            if lock.since != turn.since {
                return Err(Memory);
            }
            if !has_room(locks, ids) {
                return Err(Memory);
            }
            put_lock(locks, turn.number, lock.copy());
            return Ok(());
        }
    }
}

/// Gives the files their locks, the one that began first at first. Turns out of order are refused.
fn put_turns(
    locks: &mut KeptLocks,
    told: &Vec<ToldLocks>,
    turns: &Vec<Turn>,
    ids: usize,
) -> Result<(), Memory>
    requires none { HoldsFrom told.now.items locks.old.files }
    requires long { length told.now.items ≤ length locks.old.files }
    requires live { (number : ℕ) → IsLive (standing_at told.now.items number).spent }
    requires latest { locks.old.latest ≡ 0 }
    requires chains { AreChained locks.old }
    requires room { ids < locks.old.room }
    ensures part { IsPartly told.now.items locks.new.files }
    ensures long { length locks.new.files ≡ length locks.old.files }
    ensures latest { locks.new.latest ≡ 0 }
    ensures chains { AreChained locks.new }
    ensures room { locks.new.room ≡ locks.old.room }
{
    let mut low = 0;
    let mut place = 0;
    'turns: while place < turns.len() {
        let turn = turns[place];
        if turn.since < low {
            return Err(Memory);
        }
        low = turn.since;
        put_turn(locks, told, turn, ids)?;
        place += 1;
    }
    Ok(())
}

/// The file of that number has a lock, if it was told of one.
fn is_held(locks: &KeptLocks, number: u32, told: &ToldLocks) -> bool
    requires { number < length locks.now.files }
    ensures { result ≡ true → (told.now.lock ≡ None) ⊎ ((standing_at locks.now.files number).lock ≡ None → ⊥) }
{
    match &told.lock {
        None => return true,
        Some(_) => {}
    }
    match lock_of(locks, number) {
        None => return false,
        Some(_) => return true,
    }
}

/// Each lock that was told is held.
fn are_all_held(locks: &KeptLocks, told: &Vec<ToldLocks>) -> bool
    requires part { IsPartly told.now.items locks.now.files }
    requires few { length told.now.items ≤ 4000000000 }
    requires long { length told.now.items ≤ length locks.now.files }
    ensures { result ≡ true → (number : ℕ) → number < length told.now.items → standing_at locks.now.files number ≡ standing_at told.now.items number }
{
    let mut place = 0;
    'told: while place < told.len() {
        if !is_held(locks, place as u32, &told[place]) {
            return false;
        }
        place += 1;
    }
    true
}

/// Holds the locks that were told and refuses the ids, for which there are so many places.
pub fn hold(alloc: Global, told: &Vec<ToldLocks>, ids: usize, now: u64) -> Result<KeptLocks, Memory>
    requires few { length told.now.items ≤ 4000000000 }
    requires settled { AllByRecursion (IsAsOf now) told.now.items }
    requires ids { ids ≤ 32768 }
    ensures { IfOk result (AreHeld told.now.items now ids) }
{
    let mut locks = take_room(alloc, told.len(), ids + 1)?;
    put_all_ids(&mut locks, told, ids)?;
    let mut turns = turns_of(alloc, told)?;
    turns.sort_by_key(|turn| turn.since)?;
    put_turns(&mut locks, told, &turns, ids)?;
    if !are_all_held(&locks, told) {
        return Err(Memory);
    }
    Ok(locks)
}
