//! A log of numbers in a lock, which two threads add to.
ghost use Rattle.std.specs.Prelude.{◌≡◌, ◌++◌, ◌∷◌, [], None, OnErr, OnOk};

use std::alloc::AllocError;
use std::sync::Wait;
use std::test::Fail;
use std::thread::join;
use turn_lock::{Grown, Seat, TurnLock};

/// Numbers behind a first one.
#[derive(Drop)]
struct Log {
    start: u64,
    items: Vec<u64>,
}

impl Grown for Log {
    type Entry = u64;

    type Base = u64;

    ghost entries = { λ l. l.items.items };

    ghost base = { λ l. l.start };

    fn grown(&self) -> u64 {
        self.items.len() as u64
    }
}

impl Log {
    fn push(&mut self, number: u64) -> Result<(), AllocError>
        ensures start { self.new.start ≡ self.old.start }
        ensures ok { OnOk result (self.new.items.items ≡ self.old.items.items ++ number ∷ []) }
        ensures err { OnErr result (self.new.items.items ≡ self.old.items.items) }
    {
        self.items.reserve(1)?;
        self.items.push_reserved(number);
        Ok(())
    }
}

// Adds a number in a turn of its own.
fn add<R: Wait>(
    rt: &R,
    lock: &TurnLock<Log>,
    seat: &mut Seat<Log>,
    number: u64,
) -> Result<(), AllocError>
    requires lock { seat.old.lock ≡ lock.now }
    requires free { seat.old.taken ≡ None }
    ensures same { (seat.new.lock ≡ seat.old.lock) × (seat.new.weight ≡ seat.old.weight) × (seat.new.taken ≡ None) }
{
    let mut log = lock.take(rt, seat);
    let added = log.push(number);
    lock.give_back(seat, log);
    added
}

// Adds three numbers, each in a turn of its own.
fn add_three<R: Wait>(
    rt: &R,
    lock: &TurnLock<Log>,
    mut seat: Seat<Log>,
    numbers: [u64; 3],
) -> (Seat<Log>, Result<(), AllocError>)
    requires lock { seat.lock ≡ lock.now }
    requires free { seat.taken ≡ None }
    ensures same { (result.0.lock ≡ seat.lock) × (result.0.weight ≡ seat.weight) × (result.0.taken ≡ None) }
{
    let [first, second, third] = numbers;
    let mut added = add(rt, lock, &mut seat, first);
    added = added.and(add(rt, lock, &mut seat, second));
    added = added.and(add(rt, lock, &mut seat, third));
    (seat, added)
}

fn is_odd(number: &u64) -> bool {
    number % 2 == 1
}

#[test]
fn two_threads_take_turns(rt: HostRuntime) -> Result<(), Fail> {
    let start = Log {
        start: 7,
        items: Vec::new(rt.alloc()),
    };
    let Ok((lock, mut seat)) = TurnLock::new(rt.alloc(), start) else {
        panic!(rt; "no memory")
    };
    let Ok(other) = lock.split(&rt, &mut seat) else {
        panic!(rt; "no memory")
    };
    assert!(rt; seat.weight() == 1 << 61 && other.weight() == 1 << 61);
    let ((mut seat, odd), (other, even)) = join(
        &rt,
        || add_three(&rt, &lock, seat, [1, 3, 5]),
        || add_three(&rt, &lock, other, [2, 4, 6]),
    );
    odd?;
    even?;
    lock.join(&mut seat, other);
    let Log { start, mut items } = lock.close(seat);
    assert!(rt; start == 7 && items.len() == 6);
    items.sort_by_key(|number| !is_odd(number))?;
    assert!(rt; items.as_slice() == [1, 3, 5, 2, 4, 6].as_slice());
    Ok(())
}
