//! What the words of a schedule's lines say.
ghost use Rattle.std.specs.Prelude.{◌≡◌, ◌≢◌, ◌↔◌, ◌≤◌, ◌+◌, All, Option, ℕ, List, ◌∷◌, decimal, Some, Ok, IsTrue, IfOk, IfSome, IfNone, IsSome};
ghost use Rattle.schedule_text.specs.Grammar.{IsContents, IsCounted, IsLockOrNone, IsLockWord, IsReference, lock_word, reference_word};
ghost use Rattle.schedule_text.specs.declared.schedule.Reference.{Reference};
ghost use Rattle.line_text.specs.Words.{hex_text};

use crate::Reference;
use line_text::{hex_read, is_word, number_read};
use std::alloc::Global;
use wopi_text::{Bytes, LockId, Memory};

/// Twice the most bytes that a word writes.
const MOST_DIGITS: usize = 16_384;

/// The most bytes of a lock id in a schedule.
const MOST_LOCK: usize = 256;

/// The contents that a word writes in lower-case hex, `-` for none: no more than a line can have.
pub(crate) fn contents_read(alloc: Global, word: &[u8]) -> Result<Option<Bytes>, Memory>
    ensures some { IfOk result (λ read. IfSome read (λ contents. IsContents contents × (word.now ≡ hex_text contents))) }
    ensures none { IfOk result (λ read. IfNone read ((contents : List ℕ) → IsContents contents → word.now ≢ hex_text contents)) }
{
    if word.len() > MOST_DIGITS {
        return Ok(None);
    }
    hex_read(alloc, word)
}

/// The number from 1 that a word is.
pub(crate) fn counted_read(word: &[u8]) -> Option<u64>
    ensures { (n : ℕ) → (result ≡ Some n) ↔ (IsCounted n × (word.now ≡ decimal n)) }
{
    let Some(number) = number_read(word) else {
        return None;
    };
    if number == 0 {
        return None;
    }
    Some(number)
}

/// The number from 1 behind a `^`.
fn last_read(word: &[u8]) -> Option<u64>
    ensures { (n : ℕ) → (result ≡ Some n) ↔ (IsCounted n × (word.now ≡ 94 ∷ decimal n)) }
{
    if word.is_empty() {
        return None;
    }
    if word[0] != b'^' {
        return None;
    }
    counted_read(&word[1..])
}

/// The number of a request or of a reply that a word is.
pub(crate) fn reference_read(word: &[u8]) -> Option<Reference>
    ensures some { IfSome result (λ reference. IsReference reference × (word.now ≡ reference_word reference)) }
    ensures none { IfNone result ((reference : Reference) → IsReference reference → word.now ≢ reference_word reference) }
{
    if let Some(number) = counted_read(word) {
        return Some(Reference::Number(number));
    }
    let Some(number) = last_read(word) else {
        return None;
    };
    Some(Reference::Last(number))
}

/// Whether the word has visible bytes alone.
fn is_visible(word: &[u8]) -> bool
    ensures { IsTrue result ↔ All (λ byte. (33 ≤ byte) × (byte ≤ 126)) word.now }
{
    word.iter().all(|byte| (b'!'..=b'~').contains(byte))
}

/// The lock id that a word is: at most 256 visible bytes, and not just a dash.
pub(crate) fn lock_read(word: &[u8]) -> Option<LockId>
    ensures exact { IsSome result ↔ IsLockWord word.now }
    ensures value { IfSome result (λ id. id ≡ word.now) }
{
    if is_word(word, b"-".as_slice()) {
        return None;
    }
    if word.len() > MOST_LOCK {
        return None;
    }
    if !is_visible(word) {
        return None;
    }
    LockId::read(word)
}

/// The session, counted from 0, that a word names by its number from 1.
pub(crate) fn place_read(word: &[u8]) -> Option<u64>
    ensures { (s : ℕ) → (result ≡ Some s) ↔ (IsCounted (s + 1) × (word.now ≡ decimal (s + 1))) }
{
    let Some(number) = counted_read(word) else {
        return None;
    };
    Some(number - 1)
}

/// The lock of a PutFile: `-` says that there is none.
pub(crate) fn lock_or_none_read(word: &[u8]) -> Option<Option<LockId>>
    ensures some { IfSome result (λ lock. IsLockOrNone lock × (word.now ≡ lock_word lock)) }
    ensures none { IfNone result ((lock : Option (List ℕ)) → IsLockOrNone lock → word.now ≢ lock_word lock) }
{
    if is_word(word, b"-".as_slice()) {
        return Some(None);
    }
    let Some(id) = lock_read(word) else {
        return None;
    };
    Some(Some(id))
}
