//! Names of files, inline.
ghost use Rattle.std.specs.Prelude.{◌≡◌, ◌==◌, ◌↔◌, ◌%◌, IsTrue, IsOk, IfOk, sum};
ghost use Rattle.std.specs.List.{list_all, list_any};
ghost use Rattle.std.specs.Str.{chars};
ghost use Rattle.wopi_text.specs.FileName.{IsFileName, is_name_char, forbidden, shard_of};

use crate::BadName;
use crate::inline::Inline;
use std::marker::Model;

/// The most bytes of a file's name.
pub const NAME_LIMIT: usize = 128;

/// The number of shards of a host.
const SHARDS: u32 = 16;

/// A file's name: 1 to 128 bytes of UTF-8 without control characters and without the characters
/// that file systems keep for themselves, with no leading period and no closing period or space.
#[derive(PartialEq, Eq, Drop)]
pub struct FileName {
    bytes: Inline<NAME_LIMIT>,
}

impl Model for FileName {
    ghost use Rattle.std.specs.Prelude.{List, ℕ};
    ghost use Rattle.wopi_text.specs.FileName.{IsFileName};

    ghost Value = { List ℕ };

    ghost view = { λ s. s.bytes };

    ghost invariant = { λ s. IsFileName s.bytes };

    ghost inverse = { λ xs. record { bytes = xs } };
}

impl FileName {
    /// The name that these bytes are, if they are one.
    pub fn read(bytes: &[u8]) -> Result<FileName, BadName>
        ensures exact { IsOk result ↔ IsFileName bytes.now }
        ensures value { IfOk result (λ name. name ≡ bytes.now) }
    {
        if !is_file_name(bytes) {
            return Err(BadName);
        }
        Ok(FileName {
            bytes: Inline::new(bytes),
        })
    }

    /// The name as UTF-8.
    pub fn as_slice(&self) -> &[u8]
        ensures value { result.now ≡ self.now }
        ensures form { IsFileName self.now }
    {
        self.bytes.as_slice()
    }

    /// The name as text.
    pub fn as_str(&self) -> &str
        ensures value { result.now ≡ self.now }
        ensures form { IsFileName self.now }
    {
        let bytes = self.as_slice();
        match str::from_utf8(bytes) {
            Ok(text) => text,
            Err(_) => unreachable!(),
        }
    }

    /// The number of the shard, below 16, that keeps the file of this name.
    pub fn shard(&self) -> u8
        ensures { result ≡ shard_of self.now }
    {
        let total: u32 = self.as_slice().iter().map(|b| u32::from(*b)).sum();
        (total % SHARDS) as u8
    }

    /// An equal name. It takes no memory.
    pub fn copy(&self) -> FileName
        ensures { result ≡ self.now }
    {
        FileName {
            bytes: self.bytes.copy(),
        }
    }
}

/// Whether a file system may keep the character for itself.
fn is_forbidden(character: char) -> bool
    ensures { result ≡ list_any (λ other. other == character) forbidden }
{
    matches!(
        character,
        '/' | '\\' | ':' | '*' | '?' | '"' | '<' | '>' | '|'
    )
}

/// Whether a file's name may have the character: it is no control character and none of those that
/// file systems keep for themselves.
pub fn is_name_char(character: char) -> bool
    ensures { result ≡ is_name_char character }
{
    !character.is_control() && !is_forbidden(character)
}

fn has_name_chars(text: &str) -> bool
    ensures { result ≡ list_all is_name_char (chars text.now) }
{
    text.chars().all(|c| is_name_char(c))
}

fn is_file_name(bytes: &[u8]) -> bool
    ensures { IsTrue result ↔ IsFileName bytes.now }
{
    if bytes.is_empty() || bytes.len() > NAME_LIMIT {
        return false;
    }
    let last = bytes[bytes.len() - 1];
    if bytes[0] == b'.' || last == b'.' || last == b' ' {
        return false;
    }
    match str::from_utf8(bytes) {
        Ok(text) => has_name_chars(text),
        Err(_) => false,
    }
}
