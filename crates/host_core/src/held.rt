//! A file's lock and its spent ids: what time leaves of them, and what a step makes of them.
ghost use Rattle.std.specs.Prelude.{◌≡◌, ◌≤◌, ◌<◌, ◌+◌, None, length, max, option_map};
ghost use Rattle.lock_machine.specs.Changes.{left_by, spent_as};
ghost use Rattle.kept_locks.specs.Locks.{AreChained, stepped, ended_at, with_lock};
ghost use Rattle.kept_locks.specs.Ties.{GoesOn};
ghost use Rattle.wopi_model.specs.Act as acts;
ghost use Rattle.wopi_model.specs.Settle.{standing, still_spent};
ghost use Rattle.host_core.specs.Files.{BeganAtMoment};
ghost use Rattle.host_core.specs.Turns.{MayStep, Ends, Turns};
ghost use Rattle.host_core.specs.Whole.{standing_at};

use kept_locks::KeptLocks;
use lock_machine::{Change, is_over, lock_left, spent_left};
use wopi_model::Lock;
use wopi_text::LockId;

/// What a step makes of a lock, and until when the id that it ends is refused. No id is copied for it.
#[derive(Clone, Copy, Drop)]
pub struct Effect {
    pub change: Change,
    pub spend: Option<u64>,
}

/// The lock of a file, which may be over.
pub fn lock_of(locks: &KeptLocks, number: u32) -> Option<&Lock>
    requires { number < length locks.now.files }
    ensures { option_map (λ held. held.now) result ≡ (standing_at locks.now.files number).lock }
{
    locks.lock(number)
}

/// An id is spent on a file, and still refused.
pub fn is_refused(locks: &KeptLocks, number: u32, id: &LockId, now: u64) -> bool
    requires { number < length locks.now.files }
    ensures { result ≡ acts.is_spent (still_spent (standing_at locks.now.files number).spent now) id.now }
{
    locks.refuses(number, id, now)
}

/// The lock of a file, where it still stands. The locks stay as they are.
pub fn standing_lock(locks: &KeptLocks, number: u32, now: u64) -> Option<&Lock>
    requires here { number < length locks.now.files }
    requires moment { BeganAtMoment (standing_at locks.now.files number).lock }
    ensures { option_map (λ held. held.now) result ≡ standing (standing_at locks.now.files number).lock now }
{
    match lock_of(locks, number) {
        None => None,
        Some(held) => { if is_over(held, now) { None } else { Some(held) } }
    }
}

/// What a step leaves that only settles a file.
fn unchanged(locks: &KeptLocks, number: u32, now: u64) -> Effect
    requires here { number < length locks.now.files }
    requires moment { BeganAtMoment (standing_at locks.now.files number).lock }
    ensures lock { left_by result.change (standing (standing_at locks.now.files number).lock now) None ≡ standing (standing_at locks.now.files number).lock now }
    ensures spend { result.spend ≡ None }
    ensures ends { Ends (standing_at locks.now.files number).lock None result now }
{
    let change = match standing_lock(locks, number, now) {
        None => Change::Ends,
        Some(held) => Change::GoesOn {
            since: held.since,
            until: held.until,
        },
    };
    Effect {
        change,
        spend: None,
    }
}

/// Puts what a step makes of a file's lock in its place, where that id is taken. Ids are copied.
fn exchange(locks: &mut KeptLocks, number: u32, effect: Effect, taken: Option<&LockId>, now: u64)
    requires number { number < length locks.old.files }
    requires spare { 1 ≤ locks.old.spare }
    requires since { GoesOn locks.old.files number (left_by effect.change (standing_at locks.old.files number).lock (option_map (λ id. id.now) taken)) }
    ensures files { locks.new.files ≡ with_lock locks.old.files number (left_by effect.change (standing_at locks.old.files number).lock (option_map (λ id. id.now) taken.entry))
        (spent_as (standing_at locks.old.files number).lock effect.spend) now }
    ensures latest { locks.new.latest ≤ max locks.old.latest now }
    ensures chains { AreChained locks.new }
    ensures spare { locks.old.spare ≤ locks.new.spare + 1 }
    ensures room { locks.new.room ≡ locks.old.room }
{
    let held = lock_of(locks, number);
    let lock = lock_left(effect.change, held, taken);
    let spend = spent_left(held, effect.spend);
    locks.set(number, lock, spend, now);
}

/// Gives a file's lock what a step makes of it, where that id is taken. The id of a lock that goes on stays where it
/// lies.
fn change_lock(locks: &mut KeptLocks, number: u32, effect: Effect, taken: Option<&LockId>, now: u64)
    requires number { number < length locks.old.files }
    requires spare { 1 ≤ locks.old.spare }
    requires since { GoesOn locks.old.files number (left_by effect.change (standing_at locks.old.files number).lock (option_map (λ id. id.now) taken)) }
    ensures files { locks.new.files ≡ with_lock locks.old.files number (left_by effect.change (standing_at locks.old.files number).lock (option_map (λ id. id.now) taken.entry))
        (spent_as (standing_at locks.old.files number).lock effect.spend) now }
    ensures latest { locks.new.latest ≤ max locks.old.latest now }
    ensures chains { AreChained locks.new }
    ensures spare { locks.old.spare ≤ locks.new.spare + 1 }
    ensures room { locks.new.room ≡ locks.old.room }
{
    match effect.change {
        Change::GoesOn { since, until } if effect.spend.is_none() => {
            locks.renew(number, since, until, now)
        }
        _ => exchange(locks, number, effect, taken, now),
    }
}

/// Ends the locks that are over, and gives a file's lock what the step makes of it, where that id is taken. Of the
/// file's spent ids those go that are no longer refused. It takes no memory.
pub fn apply(locks: &mut KeptLocks, number: u32, effect: Effect, taken: Option<&LockId>, now: u64)
    requires ready { MayStep locks.old number now }
    requires ends { Ends (standing_at locks.old.files number).lock (option_map (λ id. id.now) taken) effect now }
    ensures standing { standing_at locks.new.files number
        ≡ stepped (left_by effect.change (standing (standing_at locks.old.files number).lock now) (option_map (λ id. id.now) taken.entry))
        (spent_as (standing (standing_at locks.old.files number).lock now) effect.spend) now (ended_at now (standing_at locks.old.files number)) }
    ensures turns { Turns locks.old locks.new number now }
{
    locks.settle(now);
    change_lock(locks, number, effect, taken, now);
}

/// Ends the locks that are over. Of the file's spent ids those go that are no longer refused. It takes
/// no memory.
pub fn settle_one(locks: &mut KeptLocks, number: u32, now: u64)
    requires ready { MayStep locks.old number now }
    requires moment { BeganAtMoment (standing_at locks.old.files number).lock }
    ensures standing { standing_at locks.new.files number ≡ stepped (standing (standing_at locks.old.files number).lock now) None now (ended_at now (standing_at locks.old.files number)) }
    ensures turns { Turns locks.old locks.new number now }
{
    let effect = unchanged(locks, number, now);
    apply(locks, number, effect, None, now);
}
