//! The fields of a text, which periods part.
ghost use Rattle.std.specs.Prelude.{◌≡◌, ◌≢◌, ◌↔◌, ◌++◌, ℕ, List, [], ◌∷◌, Option, Some, IfSome, IfNone, codes, length};
ghost use Rattle.access_tokens.specs.Fields.{head_fields, list_of, parts_of, tail_list};
ghost use Rattle.access_tokens.specs.Keys.{IsKeyNumber};

use crate::marks::split_at;
use crate::numbers::key_number_read;

/// What a text begins with, and what stands behind it.
#[derive(Clone, Copy)]
pub(crate) struct Head<'a> {
    /// The number of the key, where the version writes one.
    pub(crate) written: Option<u8>,
    pub(crate) rest: &'a [u8],
}

/// The fields that end the text of every token, whatever stands in them.
#[derive(Clone, Copy)]
pub struct Tail<'a> {
    pub rights: &'a [u8],
    pub serial: &'a [u8],
    pub issued: &'a [u8],
    pub expires: &'a [u8],
    pub mac: &'a [u8],
}

/// The seven fields that tell a token and its code, whatever stands in them.
#[derive(Clone, Copy)]
pub(crate) struct Fields<'a> {
    pub(crate) user: &'a [u8],
    pub(crate) id: &'a [u8],
    pub(crate) tail: Tail<'a>,
}

/// Takes the version off a text, and the number of its key where the version writes one.
pub(crate) fn take_head(text: &[u8]) -> Option<Head<'_>>
    ensures some { IfSome result (λ head. IfSome head.written IsKeyNumber × (parts_of text.now ≡ head_fields head.written ++ parts_of head.rest.now)) }
    ensures none { IfNone result ((written : Option ℕ) (field : List ℕ) (fields : List (List ℕ)) → IfSome written IsKeyNumber
        → parts_of text.now ≢ head_fields written ++ field ∷ fields) }
{
    let (version, rest) = split_field(text)?;
    match version_of(version)? {
        Version::One => Some(Head {
            written: None,
            rest,
        }),
        Version::Two => {
            let (digits, rest) = split_field(rest)?;
            let number = key_number_read(digits)?;
            Some(Head {
                written: Some(number),
                rest,
            })
        }
    }
}

/// The versions of the form of tokens. The second writes the number of the key.
#[derive(Clone, Copy)]
enum Version {
    One,
    Two,
}

fn version_of(field: &[u8]) -> Option<Version>
    ensures one { (result ≡ Some Version.One) ↔ (field.now ≡ codes "v1") }
    ensures two { (result ≡ Some Version.Two) ↔ (field.now ≡ codes "v2") }
{
    match field {
        b"v1" => Some(Version::One),
        b"v2" => Some(Version::Two),
        _ => None,
    }
}

/// Parts a text at its periods, where it has six of them.
pub(crate) fn split(text: &[u8]) -> Option<Fields<'_>>
    ensures some { IfSome result (λ fields. parts_of text.now ≡ list_of fields) }
    ensures none { IfNone result (length (parts_of text.now) ≢ 7) }
{
    let (user, rest) = split_field(text)?;
    let (id, rest) = split_field(rest)?;
    let tail = tail_of(rest)?;
    Some(Fields { user, id, tail })
}

/// Parts a text at its periods, where it has four of them.
pub fn tail_of(text: &[u8]) -> Option<Tail<'_>>
    ensures some { IfSome result (λ tail. parts_of text.now ≡ tail_list tail) }
    ensures none { IfNone result (length (parts_of text.now) ≢ 5) }
{
    let (rights, rest) = split_field(text)?;
    let (serial, rest) = split_field(rest)?;
    let (issued, rest) = split_field(rest)?;
    let (expires, mac) = split_field(rest)?;
    match split_field(mac) {
        Some(_) => None,
        None => Some(Tail {
            rights,
            serial,
            issued,
            expires,
            mac,
        }),
    }
}

/// What stands before the first period, and what behind it.
pub fn split_field(text: &[u8]) -> Option<(&[u8], &[u8])>
    ensures some { IfSome result (λ parts. parts_of text.now ≡ parts.0.now ∷ parts_of parts.1.now) }
    ensures none { IfNone result (parts_of text.now ≡ text.now ∷ []) }
{
    let (field, rest) = split_at(text, b'.')?;
    Some((field, rest))
}
