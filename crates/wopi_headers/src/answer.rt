//! What a request is answered.
ghost use Rattle.std.specs.Prelude.{◌≡◌, [], None};
ghost use Rattle.wopi_text.specs.declared.lock_field.LockField.TheVariants.{Absent};
ghost use Rattle.wopi_headers.specs.declared.answer.BodyKind.{BodyKind};

use std::alloc::Global;
use wopi_text::{Bytes, LockField, Reason};

/// What the body of an answer is.
#[derive(Clone, Copy, Debug, PartialEq, Eq)]
pub enum BodyKind {
    None,
    Json,
    /// The contents of a file.
    Octets,
    Plain,
}

/// What a request is answered: a status, what is said of the lock and of the version, and a body.
#[derive(Drop)]
pub struct Answer {
    pub status: u16,
    /// The standing lock: on 409, and on 200 of GetLock.
    pub lock: LockField,
    /// Why the answer is 409.
    pub reason: Option<Reason>,
    /// The version of the file's contents, counted from 1.
    pub version: Option<u64>,
    pub kind: BodyKind,
    pub body: Bytes,
}

impl Answer {
    /// An answer that tells nothing but its status. It takes no memory.
    pub fn bare(alloc: Global, status: u16) -> Answer
        ensures { result ≡ record { status = status; lock = Absent; reason = None; version = None; kind = BodyKind.None; body = [] } }
    {
        Answer {
            status,
            lock: LockField::Absent,
            reason: None,
            version: None,
            kind: BodyKind::None,
            body: Bytes::from_vec(Vec::new(alloc)),
        }
    }
}
