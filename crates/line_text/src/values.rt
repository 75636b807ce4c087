//! What words say. Each reader is exact: a word that it reads is the one spelling of what it gives.
ghost use Rattle.std.specs.Prelude.{◌≡◌, ◌≢◌, ◌↔◌, ◌<◌, ◌^◌, Bool, ℕ, List, decimal, Some, Ok, IsTrue, IfOk, IfSome, IfNone};
ghost use Rattle.hex.specs.Hex.{IsBytes, decode_of};
ghost use Rattle.wopi_model.specs.Moment.{IsMoment};
ghost use Rattle.line_text.specs.Words.{hex_text, yes_or_no};

use std::alloc::Global;
use wopi_text::{Bytes, MOMENTS_END, Memory, decimal_read, hex_decoded};

/// Whether the words are the same.
pub fn is_word(word: &[u8], other: &[u8]) -> bool
    ensures { IsTrue result ↔ (word.now ≡ other.now) }
{
    word == other
}

/// The number that a word is.
pub fn number_read(word: &[u8]) -> Option<u64>
    ensures { (n : ℕ) → (result ≡ Some n) ↔ ((n < 2 ^ 64) × (word.now ≡ decimal n)) }
{
    decimal_read(word)
}

/// The moment that a word is.
pub fn moment_read(word: &[u8]) -> Option<u64>
    ensures { (n : ℕ) → (result ≡ Some n) ↔ (IsMoment n × (word.now ≡ decimal n)) }
{
    let moment = number_read(word)?;
    if moment < MOMENTS_END {
        Some(moment)
    } else {
        None
    }
}

/// The bytes that a word writes in lower-case hex, `-` for none.
pub fn hex_read(alloc: Global, word: &[u8]) -> Result<Option<Bytes>, Memory>
    ensures some { IfOk result (λ read. IfSome read (λ contents. IsBytes contents × (word.now ≡ hex_text contents))) }
    ensures none { IfOk result (λ read. IfNone read ((contents : List ℕ) → IsBytes contents → word.now ≢ hex_text contents)) }
{
    if is_word(word, b"-".as_slice()) {
        return Ok(Some(Bytes::from_vec(Vec::new(alloc))));
    }
    if word.is_empty() {
        return Ok(None);
    }
    let Some(contents) = hex_decoded(alloc, word)? else {
        return Ok(None);
    };
    let text = hex::encode(alloc, contents.as_slice())?;
    if is_word(text.as_bytes(), word) {
        Ok(Some(Bytes::from_vec(contents)))
    } else {
        Ok(None)
    }
}

/// A yes or a no.
pub fn yes_or_no_read(word: &[u8]) -> Option<bool>
    ensures some { IfSome result (λ test. word.now ≡ yes_or_no test) }
    ensures none { IfNone result ((test : Bool) → word.now ≢ yes_or_no test) }
{
    if is_word(word, b"yes".as_slice()) {
        return Some(true);
    }
    if is_word(word, b"no".as_slice()) {
        return Some(false);
    }
    None
}
