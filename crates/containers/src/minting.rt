//! How a container's token is written.
ghost use Rattle.std.specs.Prelude.{◌≡◌, ◌++◌, IfOk, OnOk};
ghost use Rattle.containers.specs.TokenText.{container_text, signed_text};

use crate::token::ContainerToken;
use access_tokens::{Claims, Keys, push_claims, push_code, push_field, push_number};
use std::alloc::Global;
use wopi_text::{Bytes, Memory};

/// The most bytes of the text of a token whose moments are moments.
const MOST: usize = 192;

/// The text of the token under the current key.
pub fn container_mint(alloc: Global, keys: &Keys, token: &ContainerToken) -> Result<Bytes, Memory>
    ensures { IfOk result (λ text. text ≡ container_text keys.now token.now) }
{
    let mut text = Vec::with_capacity(alloc, MOST)?;
    push_signed(&mut text, keys.current.number, token)?;
    push_code(&mut text, 0, &keys.current.key)?;
    Ok(Bytes::from_vec(text))
}

/// Appends what is signed of the token with the key of that number.
#[tactic(auto, unfolding(crate::specs::TokenText::signed_text))]
fn push_signed(text: &mut Vec<u8>, key_number: u8, token: &ContainerToken) -> Result<(), Memory>
    ensures { OnOk result (text.new.items ≡ text.old.items ++ signed_text key_number token.now) }
{
    text.extend_from_slice(b"c1")?;
    push_number(text, key_number as u64)?;
    push_field(text, token.user.as_slice())?;
    push_claims(
        text,
        Claims {
            write: token.write,
            serial: token.serial,
            issued: token.issued,
            expires: token.expires,
        },
    )?;
    Ok(())
}
