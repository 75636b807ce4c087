//! What the words of an entry's line say was asked.
ghost use Rattle.std.specs.Prelude.{◌≡◌, ◌≢◌, ◌∷◌, ◌++◌, [], List, ℕ, IfSome, IfNone, codes};
ghost use Rattle.host_core.specs.declared.entry.EntryAct.{EntryAct};
ghost use Rattle.journal_text.specs.Lines.{IsAct};
ghost use Rattle.journal_text.specs.Acts.{IsLocking, IsNamed};
ghost use Rattle.journal_text.specs.Words.{act_words, words_of};

use crate::values::{lock_read, optional_lock_read, optional_number_read, overwrite_read};
use host_core::EntryAct;
use line_text::{is_word, number_read, split_word};
use wopi_text::LockId;

/// The act at the front of a row, and what stands behind it. It takes no memory.
pub(crate) fn act_read(row: &[u8]) -> Option<(EntryAct, &[u8])>
    ensures some { IfSome result (λ read. IsAct read.0 × (words_of row.now ≡ act_words read.0 ++ words_of read.1.now)) }
    ensures none { IfNone result ((asked : EntryAct) (word : List ℕ) (words : List (List ℕ)) → IsAct asked → words_of row.now ≢ act_words asked ++ word ∷ words) }
{
    let Some((word, rest)) = split_word(row) else {
        return None;
    };
    if let Some(act) = bare_read(word) {
        return Some((act, rest));
    }
    let Some((first, rest)) = split_word(rest) else {
        return None;
    };
    if let Some(act) = single_read(word, first) {
        return Some((act, rest));
    }
    let Some((second, rest)) = split_word(rest) else {
        return None;
    };
    let Some(act) = double_read(word, first, second) else {
        return None;
    };
    Some((act, rest))
}

/// The act that one word asks for.
fn bare_read(word: &[u8]) -> Option<EntryAct>
    ensures some { IfSome result (λ asked. IsAct asked × (act_words asked ≡ word.now ∷ [])) }
    ensures none { IfNone result ((asked : EntryAct) → act_words asked ≢ word.now ∷ []) }
{
    if is_word(word, b"info".as_slice()) {
        return Some(EntryAct::Info);
    }
    if is_word(word, b"getlock".as_slice()) {
        return Some(EntryAct::GetLock);
    }
    if is_word(word, b"look".as_slice()) {
        return Some(EntryAct::Look);
    }
    if is_word(word, b"delete".as_slice()) {
        return Some(EntryAct::Delete);
    }
    None
}

/// The act that two words ask for.
fn single_read(word: &[u8], of: &[u8]) -> Option<EntryAct>
    ensures some { IfSome result (λ asked. IsAct asked × (act_words asked ≡ word.now ∷ of.now ∷ [])) }
    ensures none { IfNone result ((asked : EntryAct) → IsAct asked → act_words asked ≢ word.now ∷ of.now ∷ []) }
{
    if is_word(word, b"get".as_slice()) {
        let Some(most) = optional_number_read(of) else {
            return None;
        };
        return Some(EntryAct::Get { most });
    }
    let Some(id) = lock_read(of) else {
        return None;
    };
    let Some(act) = locking_read(word, id) else {
        return None;
    };
    Some(act)
}

/// The act of a word under one lock.
fn locking_read(word: &[u8], id: LockId) -> Option<EntryAct>
    ensures some { IfSome result (λ asked. IsLocking word.now id asked) }
    ensures none { IfNone result ((asked : EntryAct) → IsNamed word.now asked → ⊥) }
{
    if is_word(word, b"lock".as_slice()) {
        return Some(EntryAct::Lock { id });
    }
    if is_word(word, b"refresh".as_slice()) {
        return Some(EntryAct::Refresh { id });
    }
    if is_word(word, b"unlock".as_slice()) {
        return Some(EntryAct::Unlock { id });
    }
    None
}

/// The act that three words ask for.
fn double_read(word: &[u8], first: &[u8], second: &[u8]) -> Option<EntryAct>
    ensures some { IfSome result (λ asked. IsAct asked × (act_words asked ≡ word.now ∷ first.now ∷ second.now ∷ [])) }
    ensures none { IfNone result ((asked : EntryAct) → IsAct asked → act_words asked ≢ word.now ∷ first.now ∷ second.now ∷ []) }
{
    if is_word(word, b"put".as_slice()) {
        return put_read(first, second);
    }
    if is_word(word, b"relock".as_slice()) {
        return relock_read(first, second);
    }
    if is_word(word, b"create".as_slice()) {
        return create_read(first, second);
    }
    None
}

/// A PutFile under a lock or none, of contents of a size.
fn put_read(lock: &[u8], size: &[u8]) -> Option<EntryAct>
    ensures some { IfSome result (λ asked. IsAct asked × (act_words asked ≡ codes "put" ∷ lock.now ∷ size.now ∷ [])) }
    ensures none { IfNone result ((asked : EntryAct) → IsAct asked → act_words asked ≢ codes "put" ∷ lock.now ∷ size.now ∷ []) }
{
    let Some(lock) = optional_lock_read(lock) else {
        return None;
    };
    let Some(size) = number_read(size) else {
        return None;
    };
    Some(EntryAct::Put { lock, size })
}

/// An UnlockAndRelock.
fn relock_read(old: &[u8], new: &[u8]) -> Option<EntryAct>
    ensures some { IfSome result (λ asked. IsAct asked × (act_words asked ≡ codes "relock" ∷ old.now ∷ new.now ∷ [])) }
    ensures none { IfNone result ((asked : EntryAct) → IsAct asked → act_words asked ≢ codes "relock" ∷ old.now ∷ new.now ∷ []) }
{
    let Some(old) = lock_read(old) else {
        return None;
    };
    let Some(id) = lock_read(new) else {
        return None;
    };
    Some(EntryAct::Relock { old, id })
}

/// A copy that may overwrite or not, of contents of a size.
fn create_read(overwrite: &[u8], size: &[u8]) -> Option<EntryAct>
    ensures some { IfSome result (λ asked. IsAct asked × (act_words asked ≡ codes "create" ∷ overwrite.now ∷ size.now ∷ [])) }
    ensures none { IfNone result ((asked : EntryAct) → IsAct asked → act_words asked ≢ codes "create" ∷ overwrite.now ∷ size.now ∷ []) }
{
    let Some(overwrite) = overwrite_read(overwrite) else {
        return None;
    };
    let Some(size) = number_read(size) else {
        return None;
    };
    Some(EntryAct::Create { overwrite, size })
}
