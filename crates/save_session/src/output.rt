//! What a session does.
use crate::input::Input;
use wopi_headers::Op;
use wopi_text::{LockField, Reason};

/// What a session does about an input.
#[derive(Drop)]
pub enum Output {
    /// The operation is to be sent; the body of a Put is the session's `body`.
    Send(Op),
    /// The last wish has come to its end.
    Tell(Outcome),
    /// The session can't follow this input now. Nothing has changed.
    Ignored(Input),
}

/// What came of a wish.
#[derive(Drop)]
pub enum Outcome {
    /// The lock is held and the file was read.
    Opened {
        version: Option<u64>,
    },
    Read {
        version: Option<u64>,
    },
    Saved {
        version: Option<u64>,
    },
    Refreshed,
    Closed,
    /// The lock can't be taken: this one stands, for this reason.
    Conflict {
        lock: LockField,
        reason: Option<Reason>,
    },
    /// The session's lock has ended, and the session with it.
    LockLost {
        lock: LockField,
        reason: Option<Reason>,
    },
    /// The contents are too large for the host.
    TooLarge,
    /// Any status that means nothing else here.
    HostFault {
        status: u16,
    },
    /// The token is dead, and the session has ended.
    TokenDead,
    /// The file is gone, and the session has ended.
    Gone,
    /// Three times no answer came.
    NoAnswer,
}
