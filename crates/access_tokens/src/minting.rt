//! How tokens are written.
ghost use Rattle.std.specs.Prelude.{◌≡◌, ◌++◌, Some, IfOk, OnOk};
ghost use Rattle.access_tokens.specs.TokenText.{signed_text, token_text};

use crate::Keys;
use crate::claims::{Claims, push_claims};
use crate::pushing::{push_code, push_field, push_id, push_number};
use std::alloc::Global;
use wopi_model::Token;
use wopi_text::{Bytes, Memory};

/// The most bytes of the text of a token whose moments are moments.
const MOST: usize = 448;

/// The text of the token under the current key, in version 2.
pub fn mint(alloc: Global, keys: &Keys, token: &Token) -> Result<Bytes, Memory>
    ensures { IfOk result (λ text. text ≡ token_text keys.now token.now) }
{
    let mut text = Vec::with_capacity(alloc, MOST)?;
    mint_into(&mut text, keys, token)?;
    Ok(Bytes::from_vec(text))
}

/// Appends the text of the token under the current key, in version 2, as [`mint`] writes it. Where there is no memory
/// for it, a part of it may stand there.
pub fn mint_into(text: &mut Vec<u8>, keys: &Keys, token: &Token) -> Result<(), Memory>
    ensures { OnOk result (text.new.items ≡ text.old.items ++ token_text keys.now token.now) }
{
    let start = text.len();
    push_signed(text, keys.current.number, token)?;
    push_code(text, start, &keys.current.key)
}

/// Appends what is signed of the token with the key of that number.
#[tactic(auto, unfolding(crate::specs::TokenText::signed_text))]
fn push_signed(text: &mut Vec<u8>, key_number: u8, token: &Token) -> Result<(), Memory>
    ensures { OnOk result (text.new.items ≡ text.old.items ++ signed_text (Some key_number) token.now) }
{
    text.extend_from_slice(b"v2")?;
    push_number(text, key_number as u64)?;
    push_field(text, token.user.as_slice())?;
    text.push(b'.')?;
    push_id(text, &token.file)?;
    push_claims(
        text,
        Claims {
            write: token.write,
            serial: token.serial,
            issued: token.issued,
            expires: token.expires,
        },
    )?;
    Ok(())
}
