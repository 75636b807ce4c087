//! The order in which locks end, and the ids that have ended, by index.
//!
//! An [`ExpiryQueue`] is a list of files in the order in which their locks began, which is the order in
//! which they end: each lock lives for the same 30 minutes. A contract sees the list of keys, file
//! numbers and moments. `push` puts a file at the end and gives its key, `refresh` moves the key's file
//! to the end, `remove` takes it out, and `pop_expired` takes the first one off exactly where its lock
//! is over. What is kept is a doubly linked list whose links are places in a slab, so that each of
//! these calls touches a file and its neighbours alone.
//!
//! [`SpentChains`] are lists of spent ids, one for each file that has any, singly linked through one
//! table. A chain is named by the place of its first id; an `add` or a `take` gives the chain a new
//! name, and the other chains stay. The place of an id that was taken out is free for another one.
//!
//! Only the two calls of `reserve` take memory.
#![tactic(auto)]

mod cells;
mod chains;
mod links;
mod queue;
mod story;

pub use chains::SpentChains;
pub use queue::ExpiryQueue;
