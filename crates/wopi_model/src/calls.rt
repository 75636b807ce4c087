//! Calls on one file, and their rulings.
use crate::Token;
use wopi_text::{Bytes, FileName, LockField, LockId, Reason};

/// What a call asks of its file.
#[derive(Drop)]
pub enum Act {
    /// The file's version and size.
    Info,
    /// The contents, if they have at most so many bytes.
    Get {
        most: Option<u64>,
    },
    /// Replaces the contents.
    Put {
        lock: Option<LockId>,
        contents: Bytes,
    },
    /// Takes the lock, or refreshes it where this id holds it.
    Lock {
        id: LockId,
    },
    /// The id of the lock that stands.
    GetLock,
    /// Begins the 30 minutes of the lock anew.
    Refresh {
        id: LockId,
    },
    Unlock {
        id: LockId,
    },
    /// Unlocks `old` and locks `id`, in one.
    Relock {
        old: LockId,
        id: LockId,
    },
    /// Whether the token may write the file, which has to be there.
    Look,
    /// Makes the file under the call's name. The token may be for another file.
    Create {
        overwrite: bool,
        contents: Bytes,
    },
    Delete,
}

/// One act on the file of that name, under a token.
#[derive(Drop)]
pub struct Call {
    pub name: FileName,
    pub token: Token,
    pub act: Act,
}

/// What is answered to a call.
#[derive(Drop)]
pub struct Ruling {
    /// 200, 401, 404, 409, 412, or 500 where the folder failed.
    pub status: u16,
    /// At a 409, and at GetLock's 200, the lock that stands.
    pub lock: LockField,
    /// Why it is a 409.
    pub reason: Option<Reason>,
    /// The file's version, at 200 of Info, Get, Put, Lock, Relock, Unlock and Create.
    pub version: Option<u64>,
    /// The number of bytes, at Info's 200, and else 0.
    pub size: u64,
    /// The contents, at Get's 200.
    pub contents: Option<Bytes>,
}
