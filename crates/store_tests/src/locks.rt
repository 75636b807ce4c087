//! Runs of the lock table over several acts.
ghost use Rattle.std.specs.Prelude.{◌≡◌};
ghost use Rattle.wopi_model.specs.Settle.{standing};

use lock_machine::{Judged, Lock, LockAct, Spent, Verdict, judge, settle};
use std::alloc::Global;
use std::process::Abort;
use std::test::Fail;
use wopi_text::{LockId, Reason};

/// A lock and the ids that have ended, under tokens that expire late.
#[derive(Drop)]
struct Run {
    lock: Option<Lock>,
    spent: Vec<Spent>,
}

const EXPIRES: u64 = 9_000_000;

const LOCKED: Verdict = Verdict::Refuse {
    reason: Reason::Locked,
};

fn id(rt: &impl Abort, text: &[u8]) -> LockId {
    LockId::read(text).expect(rt, "a lock id")
}

fn lock(rt: &impl Abort, text: &[u8]) -> LockAct {
    LockAct::Lock { id: id(rt, text) }
}

fn begin(alloc: Global) -> Run {
    Run {
        lock: None,
        spent: Vec::new(alloc),
    }
}

fn holds(spent: &[Spent], id: &LockId) -> bool {
    spent.iter().any(|one| one.id == *id)
}

fn presents_spent(spent: &[Spent], act: &LockAct) -> bool {
    match act {
        LockAct::Lock { id } | LockAct::Unlock { id } => holds(spent, id),
        LockAct::Relock { old, id } => holds(spent, old) || holds(spent, id),
        _ => false,
    }
}

/// Settles a lock that was taken by then.
fn settle_taken(rt: &impl Abort, lock: Option<Lock>, now: u64) -> (Option<Lock>, Option<Spent>)
    ensures { standing result.0 now ≡ result.0 }
{
    match lock {
        None => (None, None),
        Some(held) => {
            assert!(rt; held.since <= EXPIRES);
            settle(Some(held), now)
        }
    }
}

fn note(spent: &mut Vec<Spent>, one: Option<Spent>) -> Result<(), Fail> {
    match one {
        None => Ok(()),
        Some(one) => Ok(spent.push(one)?),
    }
}

/// Steps the run, and tells the verdict.
fn step(rt: &impl Abort, run: &mut Run, act: &LockAct, now: u64) -> Result<Verdict, Fail> {
    let (lock, ended) = settle_taken(rt, run.lock.take(), now);
    note(&mut run.spent, ended)?;
    let spent = presents_spent(&run.spent, act);
    let Judged {
        verdict,
        lock,
        spend,
    } = judge(&lock, spent, act, EXPIRES, now);
    run.lock = lock;
    note(&mut run.spent, spend)?;
    Ok(verdict)
}

#[test]
fn a_lock_stands_for_less_than_thirty_minutes(rt: HostRuntime) -> Result<(), Fail> {
    let mut run = begin(rt.alloc());
    assert!(rt; step(&rt, &mut run, &lock(&rt, b"L1"), 0)? == Verdict::Accept);
    assert!(rt; step(&rt, &mut run, &lock(&rt, b"L2"), 1_799_999)? == LOCKED);
    assert!(rt; step(&rt, &mut run, &lock(&rt, b"L2"), 1_800_000)? == Verdict::Accept);
    Ok(())
}
