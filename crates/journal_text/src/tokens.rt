//! Tokens without their codes.
ghost use Rattle.std.specs.Prelude.{◌≡◌, ◌≢◌, IfSome, IfNone, length};
ghost use Rattle.wopi_model.specs.declared.token.Token.{Token};
ghost use Rattle.journal_text.specs.Lines.{IsToken};
ghost use Rattle.host_table.specs.Text.{token_fields};
ghost use Rattle.journal_text.specs.Words.{parts_of, token_parts};
ghost use Rattle.journal_text.specs.Tokens.{list_of};

use crate::values::rights_read;
use line_text::{has_mark, number_read, split_at_mark};
use wopi_model::{Token, User};
use wopi_text::id_read;

/// The six fields of a token, whatever stands in them.
#[derive(Clone, Copy)]
pub(crate) struct Fields<'a> {
    pub(crate) user: &'a [u8],
    pub(crate) id: &'a [u8],
    pub(crate) rights: &'a [u8],
    pub(crate) serial: &'a [u8],
    pub(crate) issued: &'a [u8],
    pub(crate) expires: &'a [u8],
}

/// The token that a word writes, without its code. It takes no memory.
pub(crate) fn token_read(word: &[u8]) -> Option<Token>
    ensures some { IfSome result (λ token. IsToken token × (word.now ≡ token_fields token)) }
    ensures none { IfNone result ((token : Token) → IsToken token → word.now ≢ token_fields token) }
{
    let Some(fields) = split(word) else {
        return None;
    };
    let Some(token) = token_of(&fields) else {
        return None;
    };
    Some(token)
}

/// Parts a text at its periods, where it has five of them.
fn split(text: &[u8]) -> Option<Fields<'_>>
    ensures some { IfSome result (λ fields. parts_of text.now ≡ list_of fields) }
    ensures none { IfNone result (length (parts_of text.now) ≢ 6) }
{
    let (user, rest) = split_at_mark(text, b'.')?;
    let (id, rest) = split_at_mark(rest, b'.')?;
    let (rights, rest) = split_at_mark(rest, b'.')?;
    let (serial, rest) = split_at_mark(rest, b'.')?;
    let (issued, expires) = split_at_mark(rest, b'.')?;
    if has_mark(expires, b'.') {
        return None;
    }
    Some(Fields {
        user,
        id,
        rights,
        serial,
        issued,
        expires,
    })
}

/// The token that the fields tell, if each has its form.
fn token_of(fields: &Fields) -> Option<Token>
    ensures some { IfSome result (λ token. IsToken token × (list_of fields.now ≡ token_parts token)) }
    ensures none { IfNone result ((token : Token) → IsToken token → list_of fields.now ≢ token_parts token) }
{
    let user = User::read(fields.user)?;
    let Ok(file) = id_read(fields.id) else {
        return None;
    };
    let write = rights_read(fields.rights)?;
    let serial = number_read(fields.serial)?;
    let issued = number_read(fields.issued)?;
    let expires = number_read(fields.expires)?;
    Some(Token {
        user,
        file,
        write,
        serial,
        issued,
        expires,
    })
}
