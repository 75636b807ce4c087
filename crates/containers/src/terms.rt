//! What the addresses of all files of a listing have in common.
ghost use Rattle.std.specs.Prelude.{◌≡◌, true, OnOk};
ghost use Rattle.std.specs.Str.{IsUtf8};
ghost use Rattle.wopi_model.specs.Moment.{IsMoment};
ghost use Rattle.access_tokens.specs.Addresses.{address_with, is_base};
ghost use Rattle.containers.specs.Listed.{child_token};
ghost use Rattle.containers.specs.TokenText.{IsWritable};

use crate::token::ContainerToken;
use access_tokens::{Keys, push_address};
use host_core::Child;
use wopi_model::Token;
use wopi_text::Memory;

/// What the addresses of all files of a listing have in common: the keys that sign, the base, the token under which
/// they are listed, and the moment.
#[derive(Clone, Copy)]
pub(crate) struct Terms<'a> {
    pub(crate) keys: &'a Keys,
    pub(crate) base: &'a [u8],
    pub(crate) token: &'a ContainerToken,
    pub(crate) moment: u64,
}

/// The token that the address of a file carries.
fn child_token(terms: &Terms<'_>, child: &Child) -> Token
    ensures { result ≡ child_token terms.now.token.now terms.now.moment child.now }
{
    Token {
        user: terms.token.user.copy(),
        file: child.name.copy(),
        write: terms.token.write,
        serial: terms.token.serial,
        issued: terms.moment,
        expires: terms.token.expires,
    }
}

/// Puts the address of a file, with a token for it, into the room, in place of what is there.
pub(crate) fn put_address(
    room: &mut Vec<u8>,
    terms: &Terms<'_>,
    child: &Child,
) -> Result<(), Memory>
    requires base { is_base terms.now.base.now ≡ true }
    requires token { IsWritable terms.now.token.now }
    requires moment { IsMoment terms.now.moment }
    ensures value { OnOk result (room.new.items ≡ address_with terms.now.base.now terms.now.keys.now (child_token terms.now.token.now terms.now.moment child.now)) }
    ensures text { OnOk result (IsUtf8 room.new.items) }
{
    let _name = child.name.as_slice();
    room.clear();
    push_address(room, terms.base, terms.keys, &child_token(terms, child))?;
    Ok(())
}
