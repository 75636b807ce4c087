//! How tokens are read.
ghost use Rattle.std.specs.Prelude.{◌≡◌, ◌≢◌, ◌↔◌, ◌≤◌, ◌-◌, None, Some, Ok, Err, IsTrue, IfSome, IfNone, length, take};
ghost use Rattle.wopi_model.specs.declared.token.Token.{Token};
ghost use Rattle.access_tokens.specs.Fields.{list_of, token_fields};
ghost use Rattle.access_tokens.specs.Keys.{key_of};
ghost use Rattle.access_tokens.specs.TokenText.{HasReading, IsForged, IsMac, IsSigned, IsUnkeyed, IsWritable, ReadsAs, mac_of};

use crate::checking::{TokenFault, check_code};
use crate::claims::claims_of;
use crate::fields::{Fields, split, take_head};
use crate::keys::Keys;
use wopi_model::{Token, User};
use wopi_text::id_read;

/// What a text reads as, whether its code is right or not.
#[derive(Drop)]
struct Reading<'a> {
    /// The number of the key, where the version writes one.
    written: Option<u8>,
    token: Token,
    mac: &'a [u8],
}

/// The token with this text under the keys. It takes no memory.
pub fn read(keys: &Keys, text: &[u8]) -> Result<Token, TokenFault>
    ensures exact { (token : Token) → (result ≡ Ok token) ↔ IsSigned keys.now text.now token }
    ensures bad_form { (result ≡ Err TokenFault.BadForm) ↔ (¬ HasReading text.now) }
    ensures no_key { (result ≡ Err TokenFault.NoKey) ↔ IsUnkeyed keys.now text.now }
    ensures bad_mac { (result ≡ Err TokenFault.BadMac) ↔ IsForged keys.now text.now }
{
    let Some(reading) = reading_of(text) else {
        return Err(TokenFault::BadForm);
    };
    match check_code(keys, reading.written.unwrap_or(0), text, reading.mac) {
        Ok(()) => Ok(reading.token),
        Err(fault) => Err(fault),
    }
}

/// What the text reads as, if it is written as a token is.
fn reading_of(text: &[u8]) -> Option<Reading<'_>>
    ensures some { IfSome result (λ reading. ReadsAs text.now reading.written reading.token reading.mac.now) }
    ensures none { IfNone result (¬ HasReading text.now) }
{
    let head = take_head(text)?;
    let fields = split(head.rest)?;
    let token = token_of(&fields)?;
    Some(Reading {
        written: head.written,
        token,
        mac: fields.tail.mac,
    })
}

/// The token that the fields tell, if each has its form.
fn token_of(fields: &Fields) -> Option<Token>
    ensures some { IfSome result (λ token. IsWritable token × IsMac fields.now.tail.mac.now × (list_of fields.now ≡ token_fields token fields.now.tail.mac.now)) }
    ensures none { IfNone result ((token : Token) → IsWritable token → IsMac fields.now.tail.mac.now → list_of fields.now ≢ token_fields token fields.now.tail.mac.now) }
{
    let user = User::read(fields.user)?;
    let Ok(file) = id_read(fields.id) else {
        return None;
    };
    let claims = claims_of(&fields.tail)?;
    Some(Token {
        user,
        file,
        write: claims.write,
        serial: claims.serial,
        issued: claims.issued,
        expires: claims.expires,
    })
}
