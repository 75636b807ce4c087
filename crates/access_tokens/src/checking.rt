//! Whether the code of a text is right.
ghost use Rattle.std.specs.Prelude.{◌≡◌, ◌≤◌, ◌-◌, None, Some, IsTrue, ◌↔◌, IfSome, IfNone, length, take};
ghost use Rattle.access_tokens.specs.Keys.{key_of};
ghost use Rattle.access_tokens.specs.Signed.{front_of, IsChecked};
ghost use Rattle.access_tokens.specs.TokenText.{mac_of};

use crate::form::MAC;
use crate::mac::mac_of;
use crate::{Key, Keys};
use thiserror::Error;
use wopi_text::are_equal;

/// Why a text is no token.
#[derive(Clone, Copy, Debug, PartialEq, Eq, Error)]
pub enum TokenFault {
    /// It isn't written as a token is.
    #[error("the text is no token")]
    BadForm,
    /// It is, but the key whose number it has isn't in force.
    #[error("the key of the token is not in force")]
    NoKey,
    /// The key is in force, but the code is that of another text or under another key.
    #[error("the code of the token is wrong")]
    BadMac,
}

/// Whether the digits are the code, under the key of that number, of what stands in the text before them and their
/// period. It takes no memory.
pub fn check_code(keys: &Keys, number: u8, text: &[u8], mac: &[u8]) -> Result<(), TokenFault>
    requires { 65 ≤ length text.now }
    ensures { IsChecked keys.now number text.now mac.now result }
{
    let Some(key) = key_of(keys, number) else {
        return Err(TokenFault::NoKey);
    };
    if is_right(key, text, mac) {
        Ok(())
    } else {
        Err(TokenFault::BadMac)
    }
}

/// The key of that number, where one is in force.
fn key_of(keys: &Keys, number: u8) -> Option<&Key>
    ensures some { IfSome result (λ key. key_of keys.now number ≡ Some key.now) }
    ensures none { IfNone result (key_of keys.now number ≡ None) }
{
    if keys.current.number == number {
        return Some(&keys.current.key);
    }
    match &keys.former {
        Some(former) if former.number == number => Some(&former.key),
        _ => None,
    }
}

/// Whether the code is that of what stands before it and its period.
fn is_right(key: &Key, text: &[u8], mac: &[u8]) -> bool
    requires { 65 ≤ length text.now }
    ensures { IsTrue result ↔ (mac.now ≡ mac_of key.now (front_of text.now)) }
{
    let signed = &text[..text.len() - MAC - 1];
    are_equal(mac, &mac_of(key, signed))
}
