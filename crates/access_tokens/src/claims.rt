//! What every token claims beside its user, and the end of its text, which says it.
ghost use Rattle.std.specs.Prelude.{◌≡◌, ◌≢◌, ◌++◌, IfSome, IfNone, OnOk};
ghost use Rattle.access_tokens.specs.Claims.{AreWritable, claims_text};
ghost use Rattle.access_tokens.specs.Fields.{claim_fields, tail_list};
ghost use Rattle.access_tokens.specs.TokenText.{IsMac};

use crate::fields::Tail;
use crate::form::{is_mac, may_write, rights_of};
use crate::numbers::{moment_read, number_read};
use crate::pushing::{push_field, push_number};
use wopi_text::Memory;

/// What every token claims beside its user: a right, a serial number, and from when to when.
#[derive(Clone, Copy, Debug, PartialEq, Eq)]
pub struct Claims {
    /// Whether the user may write.
    pub write: bool,
    pub serial: u64,
    pub issued: u64,
    pub expires: u64,
}

/// The claims that the fields tell, if each has its form and the last one may be a code.
pub fn claims_of(tail: &Tail) -> Option<Claims>
    ensures some { IfSome result (λ claims. AreWritable claims × IsMac tail.now.mac.now × (tail_list tail.now ≡ claim_fields claims tail.now.mac.now)) }
    ensures none { IfNone result ((claims : Claims) → AreWritable claims → IsMac tail.now.mac.now → tail_list tail.now ≢ claim_fields claims tail.now.mac.now) }
{
    if !is_mac(tail.mac) {
        return None;
    }
    let write = may_write(tail.rights)?;
    let serial = number_read(tail.serial)?;
    let issued = moment_read(tail.issued)?;
    let expires = moment_read(tail.expires)?;
    Some(Claims {
        write,
        serial,
        issued,
        expires,
    })
}

/// Appends the fields that tell the claims, a period before each. Where there is no memory, some of them stand there.
pub fn push_claims(text: &mut Vec<u8>, claims: Claims) -> Result<(), Memory>
    ensures { OnOk result (text.new.items ≡ text.old.items ++ claims_text claims) }
{
    push_field(text, rights_of(claims.write))?;
    push_number(text, claims.serial)?;
    push_number(text, claims.issued)?;
    push_number(text, claims.expires)
}
