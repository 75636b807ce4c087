//! Seats and locks in a row.
ghost use Rattle.std.specs.Prelude.{◌≡◌, ◌+◌, ◌≤◌, [], ◌++◌, List, map, vec_len, vec_capacity};
ghost use Rattle.host_core.specs.Value.{Book};
ghost use Rattle.host_table.specs.Passes.{lock_of, kept_half, given_half};
ghost use Rattle.host_table.specs.Rows.{CanSplit, CanClose, AreEnds};

use crate::held::Held;
use host_core::Store;
use std::sync::Wait;
use turn_lock::{Seat, TurnLock};

/// A new seat for each old one.
pub(crate) fn split_all<F: Store, R: Wait>(
    rt: &R,
    locks: &Vec<TurnLock<Held<F>>>,
    seats: &mut Vec<Seat<Held<F>>>,
    new: &mut Vec<Seat<Held<F>>>,
)
    requires locks { map lock_of seats.old.items ≡ locks.now.items }
    requires free { CanSplit seats.old.items }
    requires room { (new.old.items ≡ []) × (vec_len seats.old ≤ vec_capacity new.old) }
    ensures kept { seats.new.items ≡ map kept_half seats.old.items }
    ensures given { new.new.items ≡ map given_half seats.old.items }
{
    for i in 0..locks.len() {
        let seat = &mut seats[i];
        let Ok(given) = locks[i].split(rt, seat) else {
            unreachable!()
        };
        new.push_reserved(given);
    }
}

/// Ends each lock by its seat. The shards go behind those that are there.
pub(crate) fn close_all<F: Store>(
    locks: Vec<TurnLock<Held<F>>>,
    seats: Vec<Seat<Held<F>>>,
    shards: &mut Vec<Held<F>>,
)
    requires locks { map lock_of seats.items ≡ locks.items }
    requires whole { CanClose seats.items }
    requires room { vec_len shards.old + vec_len locks ≤ vec_capacity shards.old }
    ensures ended { (ended : List (Book F)) × (shards.new.items ≡ shards.old.items ++ ended) × AreEnds seats.items ended }
    ensures capacity { vec_capacity shards.new ≡ vec_capacity shards.old }
    ensures len { vec_len shards.new ≡ vec_len shards.old + vec_len locks }
{
    let mut rest_seats = seats.into_iter();
    let mut rest_locks = locks.into_iter();
    while let Some(lock) = rest_locks.next() {
        let Some(seat) = rest_seats.next() else {
            unreachable!()
        };
        shards.push_reserved(lock.close(seat));
    }
}
