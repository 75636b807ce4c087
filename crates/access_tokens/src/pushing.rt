//! How the fields of a token are appended to its text. Where there is no memory for a field, a part of it may stand there.
ghost use Rattle.std.specs.Prelude.{◌≡◌, ◌≤◌, ◌∷◌, ◌++◌, OnOk, decimal, drop, vec_len};
ghost use Rattle.wopi_text.specs.Ids.{id_of};
ghost use Rattle.access_tokens.specs.TokenText.{mac_of, period};

use crate::Key;
use crate::mac::mac_of;
use itoa::Buffer;
use wopi_text::{FileName, Memory, NAME_LIMIT};

/// Appends a period and a field.
pub fn push_field(text: &mut Vec<u8>, field: &[u8]) -> Result<(), Memory>
    ensures { OnOk result (text.new.items ≡ text.old.items ++ period ∷ field.now) }
{
    text.push(b'.')?;
    text.extend_from_slice(field)?;
    Ok(())
}

/// Appends a period and a number in decimal.
pub fn push_number(text: &mut Vec<u8>, number: u64) -> Result<(), Memory>
    ensures { OnOk result (text.new.items ≡ text.old.items ++ period ∷ decimal number) }
{
    let mut buffer = Buffer::new();
    push_field(text, buffer.format(number).as_bytes())
}

/// Appends the id of a file.
pub(crate) fn push_id(text: &mut Vec<u8>, name: &FileName) -> Result<(), Memory>
    ensures { OnOk result (text.new.items ≡ text.old.items ++ id_of name.now) }
{
    let bytes = name.as_slice();
    let mut digits = [0u8; 2 * NAME_LIMIT];
    let id = &mut digits[..2 * bytes.len()];
    let _fits = hex::encode_to_slice(bytes, id);
    text.extend_from_slice(id)?;
    Ok(())
}

/// Appends a period and the code, under the key, of all that stands from that place on.
pub fn push_code(text: &mut Vec<u8>, start: usize, key: &Key) -> Result<(), Memory>
    requires { start ≤ vec_len text.old }
    ensures { OnOk result (text.new.items ≡ text.old.items ++ period ∷ mac_of key.now (drop start text.old.items)) }
{
    let mac = mac_of(key, &text[start..]);
    push_field(text, &mac)
}
