//! The address of a file, which carries a token for it.
ghost use Rattle.std.specs.Prelude.{◌≡◌, ◌++◌, OnOk};
ghost use Rattle.access_tokens.specs.Addresses.{address_with};

use crate::Keys;
use crate::minting::mint_into;
use crate::pushing::push_id;
use wopi_model::Token;
use wopi_text::Memory;

/// Appends the address of the token's file, with the token in its query. Where there is no memory for it, a part of it
/// may stand there.
#[tactic(auto, unfolding(crate::specs::Addresses::address_text))]
pub fn push_address(
    text: &mut Vec<u8>,
    base: &[u8],
    keys: &Keys,
    token: &Token,
) -> Result<(), Memory>
    ensures { OnOk result (text.new.items ≡ text.old.items ++ address_with base.now keys.now token.now) }
{
    text.extend_from_slice(base)?;
    text.extend_from_slice(b"/wopi/files/")?;
    push_id(text, &token.file)?;
    text.extend_from_slice(b"?access_token=")?;
    mint_into(text, keys, token)?;
    Ok(())
}
