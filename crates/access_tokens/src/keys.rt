//! Keys by their numbers: the one that signs, and the one that signed before it.
ghost use Rattle.std.specs.Option.{ForSome};
ghost use Rattle.std.specs.Prelude.{◌≢◌, ◌≤◌};

use crate::Key;

/// A key and its number, which the tokens that it signs name.
#[derive(Drop)]
pub struct KeyEntry {
    pub number: u8,
    pub key: Key,
    pub ghost range: { number ≤ 255 },
}

/// The keys in force, whose numbers differ. The current one signs; tokens of either are read. While
/// a key is exchanged, the one before it stays as the former one.
#[derive(Drop)]
pub struct Keys {
    pub current: KeyEntry,
    pub former: Option<KeyEntry>,
    pub ghost differ: { ForSome former (λ entry. entry.number ≢ current.number) },
}
