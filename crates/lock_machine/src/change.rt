//! What an act that went through makes of a lock, told by moments alone, so that no id is copied for it.
ghost use Rattle.std.specs.Prelude.{◌≡◌, ℕ, List, Option, None, Some, max, option_map};
ghost use Rattle.wopi_model.specs.LockTable as table;
ghost use Rattle.lock_machine.specs.Asks.{act_of};
ghost use Rattle.lock_machine.specs.Changes.{taken_by, left_by, spent_as};

use crate::ask::LockAsk;
use wopi_model::{Lock, Spent};
use wopi_text::LockId;

/// What an act that went through makes of the lock that stood. Moments are in milliseconds.
#[derive(Clone, Copy, Debug, PartialEq, Eq)]
pub enum Change {
    /// No lock is held.
    Ends,
    /// The lock that stood goes on under its id.
    GoesOn { since: u64, until: u64 },
    /// The id that the act takes is held.
    Begins { since: u64, until: u64 },
}

/// What an act that went through makes of the lock. `expires` is when the token of the act expires, in
/// milliseconds, and `now` the moment of the act.
pub fn change_by(lock: Option<&Lock>, ask: LockAsk<'_>, expires: u64, now: u64) -> Change
    ensures { left_by result (option_map (λ held. held.now) lock.entry) (taken_by (act_of ask.entry))
        ≡ table.lock_after (option_map (λ held. held.now) lock.entry) (act_of ask.entry) expires now }
{
    match lock {
        None => change_unlocked(ask, expires, now),
        Some(held) => change_locked(held, ask, expires, now),
    }
}

fn change_unlocked(ask: LockAsk<'_>, expires: u64, now: u64) -> Change
    ensures { left_by result None (taken_by (act_of ask.entry)) ≡ table.lock_after None (act_of ask.entry) expires now }
{
    match ask {
        LockAsk::Lock { .. } => Change::Begins {
            since: now,
            until: expires,
        },
        _ => Change::Ends,
    }
}

fn change_locked(held: &Lock, ask: LockAsk<'_>, expires: u64, now: u64) -> Change
    ensures { left_by result (Some held.now) (taken_by (act_of ask.entry)) ≡ table.lock_after (Some held.now) (act_of ask.entry) expires now }
{
    match ask {
        LockAsk::Lock { .. } | LockAsk::Refresh { .. } => refreshed(held, expires, now),
        LockAsk::Relock { old, id } if *old == *id => refreshed(held, expires, now),
        LockAsk::Relock { .. } => Change::Begins {
            since: now,
            until: expires,
        },
        LockAsk::Unlock { .. } => Change::Ends,
        LockAsk::Put { .. } => saved(held, expires),
        LockAsk::GetLock | LockAsk::Delete | LockAsk::Create { .. } | LockAsk::Look => kept(held),
    }
}

/// The lock, begun anew at `now`.
fn refreshed(held: &Lock, expires: u64, now: u64) -> Change
    ensures { (taken : Option (List ℕ)) → left_by result (Some held.now) taken ≡ Some (table.refreshed held.now expires now) }
{
    let until = held.until.max(expires);
    Change::GoesOn { since: now, until }
}

/// The lock after a save under it.
fn saved(held: &Lock, expires: u64) -> Change
    ensures { (taken : Option (List ℕ)) → left_by result (Some held.now) taken ≡ Some (record held.now { until = max held.now.until expires }) }
{
    Change::GoesOn {
        since: held.since,
        until: held.until.max(expires),
    }
}

/// The lock as it is.
fn kept(held: &Lock) -> Change
    ensures { (taken : Option (List ℕ)) → left_by result (Some held.now) taken ≡ Some held.now }
{
    let Lock { since, until, .. } = held;
    Change::GoesOn {
        since: *since,
        until: *until,
    }
}

/// The id that an act takes.
pub fn taken_in(ask: LockAsk<'_>) -> Option<&LockId>
    ensures { option_map (λ id. id.now) result ≡ taken_by (act_of ask.entry) }
{
    match ask {
        LockAsk::Lock { id } | LockAsk::Relock { id, .. } => Some(id),
        _ => None,
    }
}

/// The lock that a change leaves of the one that stood, where that id is taken. Its id is a copy.
pub fn lock_left(change: Change, lock: Option<&Lock>, taken: Option<&LockId>) -> Option<Lock>
    ensures { result ≡ left_by change (option_map (λ held. held.now) lock.entry) (option_map (λ id. id.now) taken.entry) }
{
    let (id, since, until) = match change {
        Change::Ends => return None,
        Change::GoesOn { since, until } => (&lock?.id, since, until),
        Change::Begins { since, until } => (taken?, since, until),
    };
    Some(Lock {
        id: id.copy(),
        since,
        until,
    })
}

/// Until when an act that went through has the id of the lock refused, where it ends that. `expires` is when the token
/// of the act expires; both are in milliseconds.
pub fn spent_until(lock: Option<&Lock>, ask: LockAsk<'_>, expires: u64) -> Option<u64>
    ensures { spent_as (option_map (λ held. held.now) lock.entry) result ≡ table.spent_by (option_map (λ held. held.now) lock.entry) (act_of ask.entry) expires }
{
    match lock {
        None => None,
        Some(held) => ended_until(held, ask, expires),
    }
}

fn ended_until(held: &Lock, ask: LockAsk<'_>, expires: u64) -> Option<u64>
    ensures { spent_as (Some held.now) result ≡ table.spent_by (Some held.now) (act_of ask.entry) expires }
{
    match ask {
        LockAsk::Unlock { .. } => Some(held.until),
        LockAsk::Relock { old, id } if *old == *id => None,
        LockAsk::Relock { .. } => Some(held.until.max(expires)),
        _ => None,
    }
}

/// The id of the lock that stood as spent, where it is spent until some moment. It is a copy.
pub fn spent_left(lock: Option<&Lock>, until: Option<u64>) -> Option<Spent>
    ensures { result ≡ spent_as (option_map (λ held. held.now) lock.entry) until }
{
    match (lock, until) {
        (Some(held), Some(until)) => Some(Spent {
            id: held.id.copy(),
            until,
        }),
        _ => None,
    }
}
