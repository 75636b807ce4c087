//! What the words of a journal's lines say.
ghost use Rattle.std.specs.Prelude.{◌≡◌, ◌≢◌, ◌↔◌, ◌<◌, ◌≤◌, ◌^◌, Bool, Option, ℕ, List, ◌∷◌, true, decimal, Some, None, Ok, IsTrue, IfOk, IfSome, IfNone, IsSome, length};
ghost use Rattle.hex.specs.Hex.{decode_of, encode_lower};
ghost use Rattle.wopi_text.specs.LockId.{IsLockId};
ghost use Rattle.wopi_text.specs.declared.reason.Reason.{Reason};
ghost use Rattle.host_table.specs.Text.{hex_text, optional_hex, optional_number, overwrite_text, rights_text, reason_text, version_text};
ghost use Rattle.journal_text.specs.Lines.{Fits, MayFit, MayBeLock, is_status};

use line_text::{is_word, number_read, yes_or_no_read};
use wopi_text::{LockId, Reason, decode_hex};

/// The most bytes of a lock id.
const MOST: usize = 1_024;

/// The number of a shard that a word is.
pub fn shard_read(word: &[u8]) -> Option<u8>
    ensures { (n : ℕ) → (result ≡ Some n) ↔ ((n < 16) × (word.now ≡ decimal n)) }
{
    let number = number_read(word)?;
    if number < 16 {
        Some(number as u8)
    } else {
        None
    }
}

/// The number of a pass that a word is.
pub(crate) fn pass_read(word: &[u8]) -> Option<u32>
    ensures { (n : ℕ) → (result ≡ Some n) ↔ ((n < 2 ^ 32) × (word.now ≡ decimal n)) }
{
    let number = number_read(word)?;
    if number <= u64::from(u32::MAX) {
        Some(number as u32)
    } else {
        None
    }
}

/// Whether an entry can have the status.
fn is_status(number: u64) -> bool
    ensures { result ≡ is_status number }
{
    number == 200
        || number == 401
        || number == 404
        || number == 409
        || number == 412
        || number == 500
}

/// The status that a word is.
pub(crate) fn status_read(word: &[u8]) -> Option<u16>
    ensures { (n : ℕ) → (result ≡ Some n) ↔ ((is_status n ≡ true) × (word.now ≡ decimal n)) }
{
    let number = number_read(word)?;
    if number > 500 {
        return None;
    }
    if is_status(number) {
        Some(number as u16)
    } else {
        None
    }
}

/// The number that a word is: `-` says that there is none.
pub fn optional_number_read(word: &[u8]) -> Option<Option<u64>>
    ensures some { IfSome result (λ number. MayFit number × (word.now ≡ optional_number number)) }
    ensures none { IfNone result ((number : Option ℕ) → MayFit number → word.now ≢ optional_number number) }
{
    if is_word(word, b"-".as_slice()) {
        return Some(None);
    }
    let Some(number) = number_read(word) else {
        return None;
    };
    Some(Some(number))
}

/// The number behind a `v`.
pub fn told_version(word: &[u8]) -> Option<u64>
    ensures { (n : ℕ) → (result ≡ Some n) ↔ (Fits n × (word.now ≡ 118 ∷ decimal n)) }
{
    if word.is_empty() {
        return None;
    }
    if word[0] != b'v' {
        return None;
    }
    number_read(&word[1..])
}

/// The version that a word tells: `-` says that there is none.
#[tactic(auto, unfolding(host_table::specs::Text::version_text))]
pub(crate) fn version_read(word: &[u8]) -> Option<Option<u64>>
    ensures some { IfSome result (λ version. MayFit version × (word.now ≡ version_text version)) }
    ensures none { IfNone result ((version : Option ℕ) → MayFit version → word.now ≢ version_text version) }
{
    if is_word(word, b"-".as_slice()) {
        return Some(None);
    }
    let Some(version) = told_version(word) else {
        return None;
    };
    Some(Some(version))
}

/// The reason that a word tells: `-` says that there is none.
#[tactic(auto, unfolding(host_table::specs::Text::reason_text))]
pub(crate) fn reason_read(word: &[u8]) -> Option<Option<Reason>>
    ensures some { IfSome result (λ reason. word.now ≡ reason_text reason) }
    ensures none { IfNone result ((reason : Option Reason) → word.now ≢ reason_text reason) }
{
    if is_word(word, b"-".as_slice()) {
        return Some(None);
    }
    if is_word(word, b"locked".as_slice()) {
        return Some(Some(Reason::Locked));
    }
    if is_word(word, b"not-locked".as_slice()) {
        return Some(Some(Reason::NotLocked));
    }
    if is_word(word, b"spent".as_slice()) {
        return Some(Some(Reason::Spent));
    }
    if is_word(word, b"taken".as_slice()) {
        return Some(Some(Reason::Taken));
    }
    if is_word(word, b"changed".as_slice()) {
        return Some(Some(Reason::Changed));
    }
    None
}

/// Whether a file may be overwritten.
#[tactic(auto, unfolding(host_table::specs::Text::overwrite_text))]
pub(crate) fn overwrite_read(word: &[u8]) -> Option<bool>
    ensures some { IfSome result (λ overwrite. word.now ≡ overwrite_text overwrite) }
    ensures none { IfNone result ((overwrite : Bool) → word.now ≢ overwrite_text overwrite) }
{
    yes_or_no_read(word)
}

/// Whether a token allows to write.
#[tactic(auto, unfolding(host_table::specs::Text::rights_text))]
pub(crate) fn rights_read(word: &[u8]) -> Option<bool>
    ensures some { IfSome result (λ write. word.now ≡ rights_text write) }
    ensures none { IfNone result ((write : Bool) → word.now ≢ rights_text write) }
{
    if is_word(word, b"w".as_slice()) {
        return Some(true);
    }
    if is_word(word, b"r".as_slice()) {
        return Some(false);
    }
    None
}

/// Whether the digits write the bytes.
fn writes(digits: &[u8], bytes: &[u8]) -> bool
    requires { length bytes.now ≤ 1024 }
    ensures { IsTrue result ↔ (digits.now ≡ encode_lower bytes.now) }
{
    let mut room = [0u8; 2 * MOST];
    let text = &mut room[..2 * bytes.len()];
    match hex::encode_to_slice(bytes, text) {
        Ok(()) => digits == &*text,
        Err(_) => false,
    }
}

/// The lock id that a word writes in lower-case hex. It takes no memory.
pub fn lock_read(word: &[u8]) -> Option<LockId>
    ensures some { IfSome result (λ id. IsLockId id × (word.now ≡ hex_text id)) }
    ensures none { IfNone result ((id : List ℕ) → IsLockId id → word.now ≢ hex_text id) }
{
    let half = word.len() / 2;
    if half > MOST {
        return None;
    }
    let mut room = [0u8; MOST];
    let decoded = &mut room[..half];
    if !decode_hex(word, decoded) {
        return None;
    }
    if !writes(word, decoded) {
        return None;
    }
    let Some(id) = LockId::read(decoded) else {
        return None;
    };
    Some(id)
}

/// The lock id that a word writes in lower-case hex: `-` says that there is none. It takes no memory.
pub(crate) fn optional_lock_read(word: &[u8]) -> Option<Option<LockId>>
    ensures some { IfSome result (λ lock. MayBeLock lock × (word.now ≡ optional_hex lock)) }
    ensures none { IfNone result ((lock : Option (List ℕ)) → MayBeLock lock → word.now ≢ optional_hex lock) }
{
    if is_word(word, b"-".as_slice()) {
        return Some(None);
    }
    let Some(id) = lock_read(word) else {
        return None;
    };
    Some(Some(id))
}
