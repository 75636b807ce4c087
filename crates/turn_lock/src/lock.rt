//! The lock, its turns and its seats.
ghost use Rattle.std.specs.Prelude.{◌≡◌, ◌+◌, ◌-◌, ◌/◌, ◌<◌, ◌≤◌, ◌^◌, [], ◌++◌, length, Some, None, IfOk, IfErr, IsOkAnd, IsSomeAnd};
ghost use mathlib.Core.List.{IsPrefix};
ghost use Rattle.turn_lock.specs.Places.{AreAllBelow, AreDistinct, longer};
ghost use Rattle.turn_lock.specs.Seats.{first_seat, added_places};
ghost use Rattle.turn_lock.specs.Steps.{with_stage, with_weight, IsSameSeat, TurnComes};

use crate::grown::Grown;
use crate::rule::{Count, Draw, Fetch, Guests, Lend, Look, Serve, Settle, Turns};
use crate::seat::{Place, Seat};
use crate::view::{Stage, View};
use atomic_table::{Refused, Table};
use std::alloc::{AllocFailed, Global};
use std::marker::Model;
use std::snapshot::Snapshot;
use std::sync::Wait;
use std::thread;
use wopi_text::Memory;

/// The next ticket that will be drawn.
const TICKET: usize = 0;
/// The ticket that is served.
const SERVING: usize = 1;
/// The number of entries.
const COUNT: usize = 2;
/// The weight that one seat has lent and another has yet to fetch.
const BANK: usize = 3;
/// The only slot, where the value lies while no seat holds the turn.
const VALUE: usize = 0;

/// A lock over a value that stands for one history. Threads share it by reference, and each comes
/// with a seat of its own. A contract sees which lock it is, and nothing else.
#[derive(Drop)]
pub struct TurnLock<V: Grown> {
    table: Table<Option<V>, View<V::Entry, V::Base>, Snapshot<V>, Turns, Global>,
}

impl<V: Grown> Model for TurnLock<V> {
    ghost use Rattle.std.specs.Prelude.{◌≡◌};
    ghost use Rattle.atomic_table.specs.Seated.{TableId, table_id_coded};

    ghost Value = { TableId };

    ghost coded = { table_id_coded };

    ghost view = { λ l. l.table.shared.table_id };

    ghost invariant = { λ l. (l.table.shared.table_id.words ≡ 4) × (l.table.shared.table_id.slots ≡ 1) };
}

/// Why no lock was made.
#[derive(Drop)]
pub enum NewFault<V> {
    /// There was no memory. The value comes back.
    Memory(V),
}

impl<V: Grown> TurnLock<V> {
    /// A lock over a value whose list is empty, and its first seat.
    pub fn new(alloc: Global, value: V) -> Result<(TurnLock<V>, Seat<V>), NewFault<V>>
        requires { V.entries value ≡ [] }
        ensures ok { IfOk result (λ made. made.1 ≡ first_seat made.0 (V.base value)) }
        ensures err { IfErr result (λ fault. fault ≡ NewFault.Memory value) }
    {
        let about = Snapshot::of(&value);
        let mut slots = Vec::new(alloc);
        if let Err(failed) = slots.push(Some(value)) {
            let AllocFailed { value: back } = failed;
            slots.destroy_empty();
            let Some(value) = back else { unreachable!() };
            return Err(NewFault::Memory(value));
        }
        match Table::new(alloc, &[0, 0, 0, 0], slots, &about) {
            Ok((table, place)) => Ok((
                TurnLock { table },
                Seat {
                    place,
                    weight: 1 << 62,
                    count: 0,
                },
            )),
            Err(refused) => {
                let Refused { mut slots } = refused;
                let Some(Some(value)) = slots.pop() else {
                    unreachable!()
                };
                slots.destroy_empty();
                Err(NewFault::Memory(value))
            }
        }
    }

    // Tries until it has drawn a ticket. The greatest u64 is never drawn.
    fn draw<R: Wait>(&self, rt: &R, place: &mut Place<V>) -> u64
        requires lock { place.old.table_id ≡ self.now }
        requires free { (place.old.me.0.stage ≡ Stage.Free) × (0 < place.old.me.0.weight) }
        ensures same { IsSameSeat place.old place.new }
        ensures drawn { place.new.me ≡ (with_stage place.old.me.0 (Stage.Waiting result), place.old.me.1) }
    {
        let table = &self.table.shared;
        for _ in rt.forever() {
            let ticket = table.peek(TICKET);
            if ticket < u64::MAX {
                let found = table.compare_exchange::<Draw>(place, TICKET, ticket, ticket + 1);
                if found == ticket {
                    return ticket;
                }
            }
            thread::yield_now();
        }
        unreachable!()
    }

    // Looks until the ticket is served.
    fn wait_for<R: Wait>(&self, rt: &R, place: &mut Place<V>, ticket: u64)
        requires lock { place.old.table_id ≡ self.now }
        requires drawn { place.old.me.0.stage ≡ Stage.Waiting ticket }
        ensures same { IsSameSeat place.old place.new }
        ensures turn { TurnComes V.entries V.base ticket place.old.me place.new.me }
    {
        for _ in rt.forever() {
            if self.table.shared.load::<Look>(place, SERVING) == ticket {
                return;
            }
            thread::yield_now();
        }
        unreachable!()
    }

    /// Waits for a turn of the seat's own, and takes the value. Where 2^64 - 1 tickets were drawn
    /// before, it waits for good. Takes no memory.
    pub fn take<R: Wait>(&self, rt: &R, seat: &mut Seat<V>) -> V
        requires lock { seat.old.lock ≡ self.now }
        requires free { seat.old.taken ≡ None }
        ensures seat { seat.new ≡ record seat.old { taken = Some (V.entries result) } }
        ensures prefix { IsPrefix seat.old.seen (V.entries result) }
        ensures base { seat.old.base ≡ Some (V.base result) }
    {
        let place = &mut seat.place;
        let ticket = self.draw(rt, place);
        self.wait_for(rt, place, ticket);
        let Some(value) = self.table.shared.exchange(place, VALUE, None) else {
            unreachable!()
        };
        seat.count = value.grown();
        value
    }

    /// Ends the turn. The seat has then seen the value's whole list, and the places of the entries
    /// that were added are its own. Takes no memory.
    pub fn give_back(&self, seat: &mut Seat<V>, value: V)
        requires lock { seat.old.lock ≡ self.now }
        requires turn { IsSomeAnd seat.old.taken (λ taken. IsPrefix taken (V.entries value)) }
        requires base { seat.old.base ≡ Some (V.base value) }
        ensures { seat.new ≡ record seat.old {
          seen = V.entries value;
          own = seat.old.own ++ added_places seat.old.taken (V.entries value);
          taken = None;
        } }
    {
        let count = value.grown();
        let held = Some(value);
        let table = &self.table.shared;
        let place = &mut seat.place;
        table.compare_exchange_with::<Count>(place, COUNT, seat.count, count, &held);
        let before = table.exchange(place, VALUE, held);
        let None = before else { unreachable!() };
        table.fetch_add::<Serve>(place, SERVING, 1);
    }

    // Tries until it has fetched the weight, which another fetch may have got ahead of.
    fn fetch<R: Wait>(&self, rt: &R, place: &mut Place<V>, weight: u64)
        requires lock { place.old.table_id ≡ self.now }
        requires free { (place.old.me.0.stage ≡ Stage.Free) × (0 < weight) }
        ensures same { IsSameSeat place.old place.new }
        ensures fetched { place.new.me ≡ (with_weight place.old.me.0 (place.old.me.0.weight + weight), place.old.me.1) }
    {
        let table = &self.table.shared;
        for _ in rt.forever() {
            let bank = table.peek(BANK);
            if bank >= weight {
                let found = table.compare_exchange::<Fetch>(place, BANK, bank, bank - weight);
                if found == bank {
                    return;
                }
            }
            thread::yield_now();
        }
        unreachable!()
    }

    /// A new seat, which has seen the same and has half of the seat's weight, rounded down. The
    /// half goes through the lock, so this may wait. `Memory` never comes, since a seat is plain
    /// data.
    pub fn split<R: Wait>(&self, rt: &R, seat: &mut Seat<V>) -> Result<Seat<V>, Memory>
        requires lock { seat.old.lock ≡ self.now }
        requires free { seat.old.taken ≡ None }
        requires weight { 2 ≤ seat.old.weight }
        ensures kept { seat.new ≡ record seat.old { weight = seat.old.weight - seat.old.weight / 2 } }
        ensures given { IsOkAnd result (λ given. given ≡ record seat.old { own = []; weight = seat.old.weight / 2 }) }
    {
        let half = seat.weight / 2;
        let table = &self.table.shared;
        let mut place = table.split_seat::<Guests>(&mut seat.place);
        table.fetch_add::<Lend>(&mut seat.place, BANK, half);
        seat.weight -= half;
        self.fetch(rt, &mut place, half);
        Ok(Seat {
            place,
            weight: half,
            count: 0,
        })
    }

    /// Takes in another seat. The seat has then seen the longer of both lists, and has the places
    /// and the weight of both.
    pub fn join(&self, seat: &mut Seat<V>, other: Seat<V>)
        requires lock { (seat.old.lock ≡ self.now) × (other.lock ≡ self.now) }
        requires free { (seat.old.taken ≡ None) × (other.taken ≡ None) }
        ensures seat { seat.new ≡ record seat.old {
          seen = longer seat.old.seen other.seen;
          own = seat.old.own ++ other.own;
          weight = seat.old.weight + other.weight;
        } }
        ensures prefixes { IsPrefix seat.old.seen seat.new.seen × IsPrefix other.seen seat.new.seen }
        ensures apart { AreDistinct seat.new.own }
    {
        let Seat {
            place: other_place,
            weight,
            count: _,
        } = other;
        let table = &self.table.shared;
        let place = &mut seat.place;
        table.join_seat::<Guests>(place, other_place);
        table.load::<Settle>(place, SERVING);
        seat.weight += weight;
    }

    /// Ends the lock by the seat that all others were joined to, and hands out the value.
    pub fn close(self, seat: Seat<V>) -> V
        requires lock { seat.lock ≡ self }
        requires free { seat.taken ≡ None }
        requires whole { seat.weight ≡ 2 ^ 62 }
        ensures prefix { IsPrefix seat.seen (V.entries result) }
        ensures base { seat.base ≡ Some (V.base result) }
        ensures own { AreAllBelow (length (V.entries result)) seat.own }
    {
        let TurnLock { table } = self;
        let Seat {
            place,
            weight: _,
            count: _,
        } = seat;
        let mut closed = table.close_with(place);
        let Some(value) = closed.take(VALUE) else {
            unreachable!()
        };
        closed.free();
        value
    }
}
