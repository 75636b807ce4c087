//! Locks that begin, go on and end.
use kept_locks::KeptLocks;
use std::process::Abort;
use std::test::Fail;
use wopi_model::Lock;
use wopi_text::LockId;

fn id(rt: &impl Abort, text: &[u8]) -> LockId {
    LockId::read(text).expect(rt, "a lock id")
}

#[test]
fn a_lock_ends_and_its_id_is_spent(rt: HostRuntime) -> Result<(), Fail> {
    let mut locks = KeptLocks::with_room(rt.alloc(), 2).map_err(|_| "memory")?;
    locks.add_file().map_err(|_| "memory")?;
    let lock = Lock {
        id: id(&rt, b"L1"),
        since: 10,
        until: 4_000_000,
    };
    locks.set(0, Some(lock), None, 10);
    locks.settle(1_800_009);
    assert!(rt; locks.lock(0).is_some());
    locks.settle(1_800_010);
    assert!(rt; locks.lock(0).is_none());
    assert!(rt; locks.refuses(0, &id(&rt, b"L1"), 3_999_999));
    assert!(rt; !locks.refuses(0, &id(&rt, b"L1"), 4_000_000));
    Ok(())
}

#[test]
fn a_place_is_free_once_its_id_is_over(rt: HostRuntime) -> Result<(), Fail> {
    let mut locks = KeptLocks::with_room(rt.alloc(), 1).map_err(|_| "memory")?;
    locks.add_file().map_err(|_| "memory")?;
    let lock = Lock {
        id: id(&rt, b"L1"),
        since: 10,
        until: 4_000_000,
    };
    locks.set(0, Some(lock), None, 10);
    locks.settle(1_800_010);
    assert!(rt; locks.used() == 1);
    assert!(rt; !locks.has_place(3_999_999, 1));
    assert!(rt; locks.has_place(4_000_000, 1));
    locks.purge(3_999_999);
    assert!(rt; locks.used() == 1);
    assert!(rt; locks.refuses(0, &id(&rt, b"L1"), 3_999_999));
    assert!(rt; locks.has_place(4_000_000, 1));
    locks.make_place(4_000_000, 1);
    assert!(rt; locks.used() == 0);
    Ok(())
}
