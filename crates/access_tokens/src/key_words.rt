//! The words that write keys.
ghost use Rattle.std.specs.Prelude.{◌↔◌, IsSome, IfSome, IfNone};
ghost use Rattle.access_tokens.specs.Key.{IsHexOf};
ghost use Rattle.access_tokens.specs.Keys.{IsEntryOf, IsWordOf};
ghost use Rattle.access_tokens.specs.declared.keys.KeyEntry.{KeyEntry};
ghost use Rattle.access_tokens.specs.declared.keys.Keys.{Keys};

use crate::marks::split_at;
use crate::numbers::key_number_read;
use crate::{Key, KeyEntry, Keys};

impl Keys {
    /// The keys that a word writes, if it writes any: `HEX`, a key of the number 0; `N:HEX`, a key
    /// of the number N; or `N:HEX,M:HEX`, the current key and the former one. The numbers are
    /// canonical decimals of 0 to 255, and those of two keys differ. It takes no memory.
    pub fn read(word: &[u8]) -> Option<Keys>
        ensures exact { IsSome result ↔ ((keys : Keys) × IsWordOf keys word.now) }
        ensures value { IfSome result (λ keys. IsWordOf keys word.now) }
    {
        match Key::read(word) {
            Some(key) => Some(Keys {
                current: KeyEntry { number: 0, key },
                former: None,
            }),
            None => numbered(word),
        }
    }
}

/// Keys with their numbers: one, or the current one and the former one.
fn numbered(word: &[u8]) -> Option<Keys>
    ensures some { IfSome result (λ keys. IsWordOf keys word.now) }
    ensures none { IfNone result ((keys : Keys) → IsWordOf keys word.now → IsHexOf keys.current.key word.now) }
{
    let Some((first, second)) = split_at(word, b',') else {
        let current = entry_read(word)?;
        return Some(Keys {
            current,
            former: None,
        });
    };
    let current = entry_read(first)?;
    let former = entry_read(second)?;
    if former.number == current.number {
        return None;
    }
    Some(Keys {
        current,
        former: Some(former),
    })
}

/// A key with its number.
fn entry_read(text: &[u8]) -> Option<KeyEntry>
    ensures some { IfSome result (λ entry. IsEntryOf entry text.now) }
    ensures none { IfNone result ((entry : KeyEntry) → ¬ IsEntryOf entry text.now) }
{
    let (digits, hex) = split_at(text, b':')?;
    let number = key_number_read(digits)?;
    let key = Key::read(hex)?;
    Some(KeyEntry { number, key })
}
