//! Where a session stands, and what one step makes of it.
use crate::input::Input;
use crate::output::Outcome;
use wopi_text::Bytes;

/// How far a session has come.
#[derive(Clone, Copy, Debug, PartialEq, Eq)]
pub enum Phase {
    New,
    /// The lock is held and the file was read.
    Working,
    Ended,
}

/// The wish that the operation on its way is for.
#[derive(Clone, Copy, Debug, PartialEq, Eq)]
pub enum Goal {
    Start,
    Read,
    Save,
    Refresh,
    Close,
}

/// An operation of a session, with the number of the lock id that it presents. `TakeLock` presents
/// the first id, `Relock` leads from its id to the next, and `Put` carries the session's body.
#[derive(Clone, Copy, Debug, PartialEq, Eq)]
pub enum SessionOp {
    Info,
    TakeLock,
    Get,
    Put { number: u64 },
    Relock { number: u64 },
    Refresh { number: u64 },
    Unlock { number: u64 },
}

/// The operation that waits for its answer, what it is for, and how often it was sent.
#[derive(Clone, Copy, Debug, PartialEq, Eq)]
pub struct Waiting {
    pub goal: Goal,
    pub op: SessionOp,
    pub tries: u8,
}

/// What a session keeps from one input to the next.
#[derive(Drop)]
pub struct State {
    pub phase: Phase,
    /// The number of the session's lock id, from 1 on.
    pub number: u64,
    /// Whether a Put was sent under this id.
    pub used: bool,
    /// Whether a relock to the next id was sent and isn't settled.
    pub relocking: bool,
    pub waits: Option<Waiting>,
    /// What the save that is on its way is to write.
    pub body: Option<Bytes>,
    /// What was read last.
    pub contents: Option<Bytes>,
}

/// What a session does, with numbers in place of lock ids.
#[derive(Drop)]
pub enum Effect {
    Sends { op: SessionOp },
    Tells { outcome: Outcome },
    Ignores { input: Input },
}

/// A session after a step, and what it does.
#[derive(Drop)]
pub struct Turn {
    pub session: State,
    pub effect: Effect,
}
