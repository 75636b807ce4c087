//! A lock whose holders take turns, over a value with one history that only grows.
//!
//! A thread has a [`Seat`] at a [`TurnLock`]. In [`TurnLock::take`] it draws a ticket, waits until
//! that ticket is the one that is served, and takes the value; [`TurnLock::give_back`] puts the
//! value back with whatever was added, and raises the ticket that is served by one. The value
//! stands for a list of entries, which only grows, and for a base, which never changes
//! ([`Grown`]); contracts alone see both. Of a seat a contract sees the list that it has seen, the
//! places that are its own, its weight, the lock's base and, while it holds the turn, the list
//! that it took.
//!
//! What a seat has seen begins every list that it takes later. An entry's place is own to the seat
//! that added it, or to the one that this seat was joined to, and to no other. Seats are split off
//! and joined again, and all seats of a lock together have the weight 2^62. A seat that has this
//! whole weight ends the lock and has the value, and each place of the value's list is that seat's
//! own.
//!
//! The lock is a table of four words and one slot (`atomic_table`). The words are the next ticket,
//! the ticket that is served, the number of entries, and the weight that is on its way from one
//! seat to another. `specs/Turns.antt` has the rule that the table keeps between any two steps,
//! `specs/Steps.antt` what each kind of step tells the seat that makes it, and `specs/Seats.antt`
//! what callers see. Nothing is said of progress: a call that may wait owes no return.
#![tactic(auto)]

mod grown;
mod lock;
mod rule;
mod seat;
mod view;

pub use grown::Grown;
pub use lock::{NewFault, TurnLock};
pub use seat::Seat;
