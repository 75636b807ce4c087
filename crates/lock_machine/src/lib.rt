//! The lock of one file: when it ends, and which acts it lets through.
//!
//! [`settle`] says what the passing of time leaves of a lock. Of an act on a file whose lock is
//! settled [`verdict`] says what the lock table does, [`change_by`] and [`spent_until`] what it leaves
//! where the act went through, and [`judge`] all three. All are exact, in both directions: their answers
//! are those of the definitions of wopi_model. None takes memory, and none refuses. A lock id is long
//! and lies where it is kept: what only looks at one borrows it, a lock that goes on is told by its
//! moments, and only [`lock_left`], [`spent_left`] and
//! [`judge`], which hand a lock or a spent id out, copy it.
//!
//! The table follows MS-WOPI's pages on Lock, GetLock, RefreshLock, Unlock, UnlockAndRelock, PutFile,
//! PutRelativeFile and DeleteFile. That an id which has ended is refused for a while is a rule of
//! this project: for so long a delayed request can't take effect under a lock that has ended.
#![tactic(auto)]

ghost use Rattle.std.specs.Prelude.{◌≡◌, false, None, Some, IfSome, option_map};
ghost use Rattle.wopi_model.specs.Moment.{IsMoment};
ghost use Rattle.wopi_model.specs.Settle.{standing, expired, is_over};
ghost use Rattle.wopi_model.specs.LockTable.{judged};
ghost use Rattle.wopi_model.specs.LockTable as table;
ghost use Rattle.wopi_model.specs.declared.locks.Verdict.TheVariants as says;
ghost use Rattle.lock_machine.specs.Asks.{act_of};

mod ask;
mod change;

pub use ask::{LockAsk, ask_of};
pub use change::{Change, change_by, lock_left, spent_left, spent_until, taken_in};
pub use wopi_model::{Judged, Lock, LockAct, Spent, Verdict};
use wopi_text::Reason;

/// How long a lock stands, in milliseconds: 30 minutes.
pub const LOCK_LIFE: u64 = 1_800_000;

/// The lock has ended at `now`, in milliseconds.
pub fn is_over(lock: &Lock, now: u64) -> bool
    requires { IsMoment lock.now.since }
    ensures { result ≡ is_over lock.now now }
{
    lock.since + LOCK_LIFE <= now
}

/// The lock that still stands at `now`, in milliseconds, or the id that it leaves.
pub fn settle(lock: Option<Lock>, now: u64) -> (Option<Lock>, Option<Spent>)
    requires { IfSome lock (λ held. IsMoment held.since) }
    ensures lock { result.0 ≡ standing lock now }
    ensures spent { result.1 ≡ expired lock now }
    ensures settled { standing result.0 now ≡ result.0 }
{
    let Some(held) = lock else {
        return (None, None);
    };
    if is_over(&held, now) {
        let ended = Spent {
            id: held.id,
            until: held.until,
        };
        (None, Some(ended))
    } else {
        (Some(held), None)
    }
}

/// What the lock table says of an act. `spent` says that an id which the act presents is spent.
pub fn verdict(lock: Option<&Lock>, spent: bool, ask: LockAsk<'_>) -> Verdict
    ensures { result ≡ table.verdict (option_map (λ held. held.now) lock.entry) spent (act_of ask.entry) }
{
    if spent {
        return refuse(Reason::Spent);
    }
    match lock {
        None => verdict_unlocked(ask),
        Some(held) => verdict_locked(held, ask),
    }
}

fn verdict_unlocked(ask: LockAsk<'_>) -> Verdict
    ensures { result ≡ table.verdict None false (act_of ask.entry) }
{
    match ask {
        LockAsk::Refresh { .. }
        | LockAsk::Unlock { .. }
        | LockAsk::Relock { .. }
        | LockAsk::Put { empty: false, .. } => refuse(Reason::NotLocked),
        LockAsk::Create {
            exists: true,
            overwrite: false,
        } => refuse(Reason::Taken),
        LockAsk::Lock { .. }
        | LockAsk::GetLock
        | LockAsk::Put { empty: true, .. }
        | LockAsk::Delete
        | LockAsk::Create { .. }
        | LockAsk::Look => Verdict::Accept,
    }
}

fn verdict_locked(held: &Lock, ask: LockAsk<'_>) -> Verdict
    ensures { result ≡ table.verdict (Some held.now) false (act_of ask.entry) }
{
    match ask {
        LockAsk::Lock { id }
        | LockAsk::Refresh { id }
        | LockAsk::Unlock { id }
        | LockAsk::Relock { old: id, .. }
        | LockAsk::Put { id: Some(id), .. }
            if *id == held.id => { Verdict::Accept }
        LockAsk::Create {
            exists: true,
            overwrite: false,
        } => refuse(Reason::Taken),
        LockAsk::GetLock | LockAsk::Look | LockAsk::Create { exists: false, .. } => Verdict::Accept,
        LockAsk::Lock { .. }
        | LockAsk::Refresh { .. }
        | LockAsk::Unlock { .. }
        | LockAsk::Relock { .. }
        | LockAsk::Put { .. }
        | LockAsk::Delete
        | LockAsk::Create { .. } => refuse(Reason::Locked),
    }
}

fn refuse(reason: Reason) -> Verdict
    ensures { result ≡ says.Refuse reason }
{
    Verdict::Refuse { reason }
}

/// The lock after an act that went through. `expires` is when the token of the act expires, in
/// milliseconds, and `now` the moment of the act.
fn lock_after(lock: Option<&Lock>, ask: LockAsk<'_>, expires: u64, now: u64) -> Option<Lock>
    ensures { result ≡ table.lock_after (option_map (λ held. held.now) lock.entry) (act_of ask.entry) expires now }
{
    lock_left(change_by(lock, ask, expires, now), lock, taken_in(ask))
}

/// The id that an act which went through spends. `expires` is when the token of the act expires, in
/// milliseconds.
fn spent_by(lock: Option<&Lock>, ask: LockAsk<'_>, expires: u64) -> Option<Spent>
    ensures { result ≡ table.spent_by (option_map (λ held. held.now) lock.entry) (act_of ask.entry) expires }
{
    spent_left(lock, spent_until(lock, ask, expires))
}

/// Judges an act by the lock table, where the lock is settled at `now`. `spent` says that an id which
/// the act presents is spent, and `expires` is when the token of the act expires, in milliseconds.
/// A refusal leaves the lock and spends nothing.
pub fn judge(lock: &Option<Lock>, spent: bool, act: &LockAct, expires: u64, now: u64) -> Judged
    requires { standing lock.now now ≡ lock.now }
    ensures { result ≡ judged lock.now spent act.now expires now }
{
    let held = lock.as_ref();
    let ask = ask_of(act);
    match verdict(held, spent, ask) {
        Verdict::Accept => Judged {
            verdict: Verdict::Accept,
            lock: lock_after(held, ask, expires, now),
            spend: spent_by(held, ask, expires),
        },
        Verdict::Refuse { reason } => Judged {
            verdict: refuse(reason),
            lock: copied(held),
            spend: None,
        },
    }
}

fn copied(lock: Option<&Lock>) -> Option<Lock>
    ensures { result ≡ option_map (λ held. held.now) lock.entry }
{
    match lock {
        None => None,
        Some(held) => Some(held.copy()),
    }
}
