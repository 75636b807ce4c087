//! The lock ids of a session.
ghost use Rattle.std.specs.Prelude.{◌≡◌, ◌+◌, ◌≤◌, ◌++◌, ◌∷◌, [], length};
ghost use Rattle.wopi_text.specs.declared.lock_field.LockField.{LockField};
ghost use Rattle.save_session.specs.LockIds.{decimal, lock_id};
ghost use Rattle.save_session.specs.Nonce.{IsNonce};
ghost use Rattle.save_session.specs.Session.{names, op_of};

use crate::nonce::Nonce;
use crate::state::SessionOp;
use arrayvec::ArrayVec;
use wopi_headers::Op;
use wopi_text::{LockField, LockId};

/// The most bytes of a lock id.
const MOST: usize = 256;

#[tactic(auto, using(crate::proofs::IdForms::decimal_step, crate::proofs::IdForms::decimal_length))]
/// Appends the digits of a number, which are none for 0.
fn push_decimal(bytes: &mut ArrayVec<u8, MOST>, number: u128)
    requires { length bytes.old.items + length (decimal number) ≤ 256 }
    ensures { bytes.new.items ≡ bytes.old.items ++ decimal number }
{
    if number == 0 {
        return;
    }
    push_decimal(bytes, number / 10);
    bytes.push(48 + (number % 10) as u8);
}

/// What all lock ids of the session begin with.
fn front_of(nonce: &Nonce) -> ArrayVec<u8, MOST>
    ensures value { result.items ≡ nonce.now ++ 45 ∷ [] }
    ensures form { IsNonce nonce.now }
{
    let mut bytes = ArrayVec::new();
    let _fits = bytes.try_extend_from_slice(nonce.as_slice());
    bytes.push(b'-');
    bytes
}

/// The session's lock id of that number. It takes no memory.
pub fn lock_id(nonce: &Nonce, number: u128) -> LockId
    ensures { result ≡ lock_id nonce.now number }
{
    let mut bytes = front_of(nonce);
    push_decimal(&mut bytes, number);
    LockId::read(bytes.as_slice()).unwrap()
}

/// Whether the answer names the session's lock id of that number.
pub fn names(lock: &LockField, nonce: &Nonce, number: u128) -> bool
    ensures { result ≡ names lock.now (lock_id nonce.now number) }
{
    match lock {
        LockField::Held(held) => *held == lock_id(nonce, number),
        LockField::Absent | LockField::Empty => false,
    }
}

/// The operation as it is sent, with the lock ids.
pub fn op_of(nonce: &Nonce, op: SessionOp) -> Op
    ensures { result ≡ op_of nonce.now op }
{
    match op {
        SessionOp::Info => Op::Info,
        SessionOp::TakeLock => Op::Lock {
            id: lock_id(nonce, 1),
        },
        SessionOp::Get => Op::Get { most: None },
        SessionOp::Put { number } => Op::Put {
            lock: Some(lock_id(nonce, u128::from(number))),
        },
        SessionOp::Relock { number } => Op::Relock {
            old: lock_id(nonce, u128::from(number)),
            id: lock_id(nonce, u128::from(number) + 1),
        },
        SessionOp::Refresh { number } => Op::Refresh {
            id: lock_id(nonce, u128::from(number)),
        },
        SessionOp::Unlock { number } => Op::Unlock {
            id: lock_id(nonce, u128::from(number)),
        },
    }
}
