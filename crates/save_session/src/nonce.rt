//! Nonces, inline.
ghost use Rattle.std.specs.Prelude.{◌≡◌, ◌↔◌, IsTrue, IsSome, IfSome};
ghost use Rattle.std.specs.List.{list_all};
ghost use Rattle.std.specs.Char.{is_ascii_alphanumeric};
ghost use Rattle.save_session.specs.Nonce.{IsNonce};

use arrayvec::ArrayVec;
use std::marker::Model;

/// The most bytes of a nonce.
const MOST: usize = 32;

/// What tells a session's lock ids from those of everybody else: 1 to 32 ASCII letters and digits.
#[derive(PartialEq, Eq, Drop)]
pub struct Nonce {
    bytes: ArrayVec<u8, MOST>,
}

impl Model for Nonce {
    ghost use Rattle.std.specs.Prelude.{List, ℕ};
    ghost use Rattle.save_session.specs.Nonce.{IsNonce};

    ghost Value = { List ℕ };

    ghost view = { λ s. s.bytes.items };

    ghost invariant = { λ s. IsNonce s.bytes.items };

    ghost inverse = { λ xs. record { bytes = record { items = xs } } };
}

impl Nonce {
    /// The nonce that these bytes are, if they are one. It takes no memory.
    pub fn read(bytes: &[u8]) -> Option<Nonce>
        ensures exact { IsSome result ↔ IsNonce bytes.now }
        ensures value { IfSome result (λ nonce. nonce ≡ bytes.now) }
    {
        if !is_nonce(bytes) {
            return None;
        }
        let mut inline = ArrayVec::new();
        let _fits = inline.try_extend_from_slice(bytes);
        Some(Nonce { bytes: inline })
    }

    /// The letters and digits of the nonce.
    pub fn as_slice(&self) -> &[u8]
        ensures value { result.now ≡ self.now }
        ensures form { IsNonce self.now }
    {
        self.bytes.as_slice()
    }

    /// An equal nonce. It takes no memory.
    pub fn copy(&self) -> Nonce
        ensures { result ≡ self.now }
    {
        let mut inline = ArrayVec::new();
        let _fits = inline.try_extend_from_slice(self.bytes.as_slice());
        Nonce { bytes: inline }
    }
}

fn has_nonce_bytes(bytes: &[u8]) -> bool
    ensures { result ≡ list_all is_ascii_alphanumeric bytes.now }
{
    bytes.iter().all(|byte| byte.is_ascii_alphanumeric())
}

fn is_nonce(bytes: &[u8]) -> bool
    ensures { IsTrue result ↔ IsNonce bytes.now }
{
    if bytes.is_empty() || bytes.len() > MOST {
        return false;
    }
    has_nonce_bytes(bytes)
}
