//! Names of users, inline.
ghost use Rattle.std.specs.Prelude.{◌≡◌, ◌↔◌, IsTrue, IsSome, IfSome};
ghost use Rattle.std.specs.List.{list_all};
ghost use Rattle.wopi_model.specs.User.{IsUser, is_user_byte};

use std::marker::Model;
use wopi_text::Inline;

/// The most bytes of a user's name.
const MOST: usize = 64;

/// A user's name: 1 to 64 ASCII letters, digits, `_` and `-`.
#[derive(PartialEq, Eq, Drop)]
pub struct User {
    bytes: Inline<MOST>,
}

impl Model for User {
    ghost use Rattle.std.specs.Prelude.{List, ℕ};
    ghost use Rattle.wopi_model.specs.User.{IsUser};

    ghost Value = { List ℕ };

    ghost view = { λ s. s.bytes };

    ghost invariant = { λ s. IsUser s.bytes };

    ghost inverse = { λ xs. record { bytes = xs } };
}

impl User {
    /// The user that these bytes name, if they name one. It takes no memory.
    pub fn read(bytes: &[u8]) -> Option<User>
        ensures exact { IsSome result ↔ IsUser bytes.now }
        ensures value { IfSome result (λ user. user ≡ bytes.now) }
    {
        if !is_user(bytes) {
            return None;
        }
        Some(User {
            bytes: Inline::new(bytes),
        })
    }

    /// The letters of the name.
    pub fn as_slice(&self) -> &[u8]
        ensures value { result.now ≡ self.now }
        ensures form { IsUser self.now }
    {
        self.bytes.as_slice()
    }

    /// An equal name. It takes no memory.
    pub fn copy(&self) -> User
        ensures { result ≡ self.now }
    {
        User {
            bytes: self.bytes.copy(),
        }
    }
}

fn is_user_byte(byte: u8) -> bool
    ensures { result ≡ is_user_byte byte }
{
    byte.is_ascii_alphanumeric() || byte == b'_' || byte == b'-'
}

fn has_user_bytes(bytes: &[u8]) -> bool
    ensures { result ≡ list_all is_user_byte bytes.now }
{
    bytes.iter().all(|byte| is_user_byte(*byte))
}

fn is_user(bytes: &[u8]) -> bool
    ensures { IsTrue result ↔ IsUser bytes.now }
{
    if bytes.is_empty() || bytes.len() > MOST {
        return false;
    }
    has_user_bytes(bytes)
}
