//! HMAC-SHA256 (RFC 2104).
ghost use Rattle.std.specs.Prelude.{◌≡◌, ◌++◌, ◌≤◌, ℕ, List, length};
ghost use Rattle.sha2.specs.Hashers.{Holds256};
ghost use Rattle.sha2.specs.Sha256.{sha256};
ghost use Rattle.access_tokens.specs.Hmac.{block_of, filled, hmac, padded};
ghost use Rattle.access_tokens.specs.TokenText.{mac_of};

use crate::Key;
use sha2::{Digest, Sha256};

/// The bytes of a block of SHA-256.
const BLOCK: usize = 64;

/// What each byte of the key's block is xored with before the message is hashed.
pub(crate) const INNER_PAD: u8 = 0x36;

/// What each byte of the key's block is xored with before the inner digest is hashed.
pub(crate) const OUTER_PAD: u8 = 0x5c;

/// HMAC-SHA256 of a message under a key of any length (RFC 2104). It takes no memory.
pub fn hmac(key: &[u8], message: &[u8]) -> [u8; 32]
    ensures { result ≡ hmac key.now message.now }
{
    code_from(&begun(INNER_PAD, key), &begun(OUTER_PAD, key), message)
}

/// A hasher that has taken in the key's block under a pad.
pub(crate) fn begun(pad: u8, key: &[u8]) -> Sha256
    ensures { Holds256 result (padded pad (block_of key.now)) }
{
    let mut hasher = Sha256::new();
    hasher.update(&padded(pad, &block_of(key)));
    hasher
}

/// The code of a message, from the two hashers of its key.
#[tactic(auto, unfolding(crate::specs::Hmac::hmac))]
pub(crate) fn code_from(inner: &Sha256, outer: &Sha256, message: &[u8]) -> [u8; 32]
    ensures { (key : List ℕ) → Holds256 inner.now (padded 0x36 (block_of key)) → Holds256 outer.now (padded 0x5c (block_of key)) → result ≡ hmac key message.now }
{
    let digest = digest_behind(inner, message);
    digest_behind(outer, &digest)
}

/// HMAC-SHA256 of a text, in 64 digits of lower-case hex.
pub(crate) fn mac_of(key: &Key, text: &[u8]) -> [u8; 64]
    ensures { result ≡ mac_of key.now text.now }
{
    let code = key.code(text);
    let mut digits = [0u8; 64];
    let _fits = hex::encode_to_slice(code.as_slice(), &mut digits);
    digits
}

/// The key as one block.
fn block_of(key: &[u8]) -> [u8; BLOCK]
    ensures { result ≡ block_of key.now }
{
    if key.len() > BLOCK {
        filled(&Sha256::digest(key))
    } else {
        filled(key)
    }
}

/// A block that begins with the bytes and is filled with zeros.
fn filled(bytes: &[u8]) -> [u8; BLOCK]
    requires { length bytes.now ≤ 64 }
    ensures { result ≡ filled bytes.now }
{
    let mut block = [0u8; BLOCK];
    for (i, byte) in bytes.iter().enumerate() {
        block[i] = *byte;
    }
    block
}

/// The block, each byte xor the pad.
fn padded(pad: u8, block: &[u8; BLOCK]) -> [u8; BLOCK]
    ensures { result ≡ padded pad block.now }
{
    let mut padded = *block;
    for byte in &mut padded {
        *byte ^= pad;
    }
    padded
}

/// The digest of a piece behind what the hasher has taken in.
fn digest_behind(hasher: &Sha256, piece: &[u8]) -> [u8; 32]
    ensures { (begin : List ℕ) → Holds256 hasher.now begin → result ≡ sha256 (begin ++ piece.now) }
{
    let mut hasher = copy_of(hasher);
    hasher.update(piece);
    hasher.finalize()
}

/// A hasher that has taken in the same.
pub(crate) fn copy_of(hasher: &Sha256) -> Sha256
    ensures { result ≡ hasher.now }
{
    let Ok(copy) = hasher.clone() else {
        unreachable!()
    };
    copy
}
