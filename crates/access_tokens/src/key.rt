//! Keys, inline.
ghost use Rattle.std.specs.Prelude.{◌≡◌, ◌↔◌, List, ℕ, IsSome, IfSome};
ghost use Rattle.access_tokens.specs.Hmac.{hmac};
ghost use Rattle.access_tokens.specs.Key.{IsKey, IsHexOf};

use crate::mac::{INNER_PAD, OUTER_PAD, begun, code_from, copy_of};
use arrayvec::ArrayVec;
use sha2::Sha256;
use std::marker::Model;
use wopi_text::decode_hex;

/// The most bytes of a key.
const MOST: usize = 64;

/// A secret key: 1 to 64 bytes.
#[derive(Drop)]
pub struct Key {
    bytes: ArrayVec<u8, MOST>,
    /// What each code under the key begins with: hashers that have taken in its block under the inner and the
    /// outer pad.
    inner: Sha256,
    outer: Sha256,
}

impl Model for Key {
    ghost use Rattle.std.specs.Prelude.{List, ℕ};
    ghost use Rattle.sha2.specs.Hashers.{Holds256};
    ghost use Rattle.access_tokens.specs.Hmac.{block_of, padded};
    ghost use Rattle.access_tokens.specs.Key.{IsKey};

    ghost Value = { List ℕ };

    ghost view = { λ k. k.bytes.items };

    ghost invariant = { λ k. IsKey k.bytes.items × Holds256 k.inner (padded 0x36 (block_of k.bytes.items)) × Holds256 k.outer (padded 0x5c (block_of k.bytes.items)) };
}

impl Key {
    /// The key that these hex digits write, if they write one. The digits may be of either case.
    /// It takes no memory.
    pub fn read(hex: &[u8]) -> Option<Key>
        ensures exact { IsSome result ↔ ((key : List ℕ) × IsHexOf key hex.now) }
        ensures value { IfSome result (λ key. IsHexOf key hex.now) }
    {
        let half = hex.len() / 2;
        if half == 0 || half > MOST {
            return None;
        }
        let mut decoded = [0u8; MOST];
        let bytes = &mut decoded[..half];
        if !decode_hex(hex, bytes) {
            return None;
        }
        let mut inline = ArrayVec::new();
        let _fits = inline.try_extend_from_slice(bytes);
        let inner = begun(INNER_PAD, inline.as_slice());
        let outer = begun(OUTER_PAD, inline.as_slice());
        Some(Key {
            bytes: inline,
            inner,
            outer,
        })
    }

    /// The bytes of the key.
    pub fn as_slice(&self) -> &[u8]
        ensures value { result.now ≡ self.now }
        ensures form { IsKey self.now }
    {
        self.bytes.as_slice()
    }

    /// An equal key. It takes no memory.
    pub fn copy(&self) -> Key
        ensures { result ≡ self.now }
    {
        let mut inline = ArrayVec::new();
        let _fits = inline.try_extend_from_slice(self.bytes.as_slice());
        Key {
            bytes: inline,
            inner: copy_of(&self.inner),
            outer: copy_of(&self.outer),
        }
    }

    /// HMAC-SHA256 of a message under the key (RFC 2104). It takes no memory.
    pub(crate) fn code(&self, message: &[u8]) -> [u8; 32]
        ensures { result ≡ hmac self.now message.now }
    {
        code_from(&self.inner, &self.outer, message)
    }
}
