//! What a seat knows, as the rule of the lock sees it.
use std::collections::LinkedList;

/// Where a seat stands. No value of it is made.
pub enum Stage<E> {
    Free,
    /// It has drawn this ticket.
    Waiting(u64),
    /// It holds the turn of this ticket, and took this list.
    Turn(u64, LinkedList<E>),
    /// It has taken in another seat, and these two lists had been seen.
    Joining(LinkedList<E>, LinkedList<E>),
}

/// What a seat has seen, which places are its own, its weight, the lock's base, and where it
/// stands. No value of it is made.
pub struct View<E, B> {
    pub seen: LinkedList<E>,
    pub own: LinkedList<u64>,
    pub weight: u64,
    pub base: Option<B>,
    pub stage: Stage<E>,
}
