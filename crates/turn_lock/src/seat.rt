//! A place at a lock.
ghost use Rattle.std.specs.Prelude.{◌≡◌, ◌≤◌, ◌^◌};

use crate::grown::Grown;
use crate::view::View;
use std::marker::Model;

/// What the lock's table knows a seat by. It has no bytes.
pub(crate) type Place<V> = atomic_table::Seat<
    Option<V>,
    View<<V as Grown>::Entry, <V as Grown>::Base>,
>;

/// A place at a lock, for one thread. A seat that is dropped takes its weight with it, so the lock
/// can't be closed any more, and where it held the turn, nobody has one after it.
#[derive(Drop)]
pub struct Seat<V: Grown> {
    pub(crate) place: Place<V>,
    pub(crate) weight: u64,
    /// While the seat holds the turn, the number of entries that it took.
    pub(crate) count: u64,
}

impl<V: Grown> Model for Seat<V> {
    ghost use Rattle.turn_lock.specs.Seats.{SeatValue, seated, IsSeated};

    ghost Value = { SeatValue V.Entry V.Base };

    ghost view = { λ s. seated s.place };

    ghost invariant = { λ s. IsSeated s.weight s.count s.place };
}

impl<V: Grown> Seat<V> {
    /// The seat's share of the weight, of which all seats of a lock together have 2^62.
    pub fn weight(&self) -> u64
        ensures value { result ≡ self.now.weight }
        ensures range { (1 ≤ result) × (result ≤ 2 ^ 62) }
    {
        self.weight
    }
}
