//! How a container's token is read.
ghost use Rattle.std.specs.Prelude.{◌≡◌, ◌≢◌, ◌↔◌, ◌∷◌, Ok, Err, IfSome, IfNone, List, ℕ, codes, decimal};
ghost use Rattle.wopi_model.specs.User.{IsUser};
ghost use Rattle.access_tokens.specs.Fields.{parts_of};
ghost use Rattle.access_tokens.specs.Keys.{IsKeyNumber};
ghost use Rattle.containers.specs.TokenText.{HasReading, IsForged, IsSigned, IsUnkeyed, ReadsAs};
ghost use Rattle.containers.specs.declared.token.ContainerToken.{ContainerToken};

use crate::token::ContainerToken;
use access_tokens::{
    Keys, TokenFault, check_code, claims_of, key_number_read, split_field, tail_of,
};
use wopi_model::User;

/// What a text begins with, and what stands behind it.
#[derive(Drop)]
struct Head<'a> {
    /// The number of the key.
    number: u8,
    user: User,
    rest: &'a [u8],
}

/// What a text reads as, whether its code is right or not.
#[derive(Drop)]
struct Reading<'a> {
    /// The number of the key.
    number: u8,
    token: ContainerToken,
    mac: &'a [u8],
}

/// The token with this text under the keys. It takes no memory.
pub fn container_read(keys: &Keys, text: &[u8]) -> Result<ContainerToken, TokenFault>
    ensures exact { (token : ContainerToken) → (result ≡ Ok token) ↔ IsSigned keys.now text.now token }
    ensures bad_form { (result ≡ Err TokenFault.BadForm) ↔ (¬ HasReading text.now) }
    ensures no_key { (result ≡ Err TokenFault.NoKey) ↔ IsUnkeyed keys.now text.now }
    ensures bad_mac { (result ≡ Err TokenFault.BadMac) ↔ IsForged keys.now text.now }
{
    let Some(reading) = reading_of(text) else {
        return Err(TokenFault::BadForm);
    };
    match check_code(keys, reading.number, text, reading.mac) {
        Ok(()) => Ok(reading.token),
        Err(fault) => Err(fault),
    }
}

/// What the text reads as, if it is written as a container's token is.
fn reading_of(text: &[u8]) -> Option<Reading<'_>>
    ensures some { IfSome result (λ reading. ReadsAs text.now reading.number reading.token reading.mac.now) }
    ensures none { IfNone result (¬ HasReading text.now) }
{
    let head = head_of(text)?;
    let tail = tail_of(head.rest)?;
    let claims = claims_of(&tail)?;
    Some(Reading {
        number: head.number,
        token: ContainerToken {
            user: head.user,
            write: claims.write,
            serial: claims.serial,
            issued: claims.issued,
            expires: claims.expires,
        },
        mac: tail.mac,
    })
}

/// Takes the form's name, the number of the key and the user off a text.
fn head_of(text: &[u8]) -> Option<Head<'_>>
    ensures some { IfSome result (λ head. IsKeyNumber head.number × IsUser head.user
        × (parts_of text.now ≡ codes "c1" ∷ decimal head.number ∷ head.user ∷ parts_of head.rest.now)) }
    ensures none { IfNone result ((number : ℕ) (user : List ℕ) (field : List ℕ) (fields : List (List ℕ)) → IsKeyNumber number → IsUser user
        → parts_of text.now ≢ codes "c1" ∷ decimal number ∷ user ∷ field ∷ fields) }
{
    let (form, rest) = split_field(text)?;
    if form != b"c1".as_slice() {
        return None;
    }
    let (digits, rest) = split_field(rest)?;
    let number = key_number_read(digits)?;
    let (user, rest) = split_field(rest)?;
    let user = User::read(user)?;
    Some(Head { number, user, rest })
}
