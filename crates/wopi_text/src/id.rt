//! Ids of files.
ghost use Rattle.std.specs.Prelude.{◌≡◌, ◌≤◌, ◌↔◌, IsTrue, IsOk, IfOk, length};
ghost use Rattle.wopi_text.specs.FileName.{name_limit};
ghost use Rattle.wopi_text.specs.Ids.{id_of, IsId};

use crate::{BadId, Bytes, FileName, Memory, NAME_LIMIT, decode_hex};
use std::alloc::Global;

/// The id of a file's name: its bytes in lower-case hex.
pub fn id_text(alloc: Global, name: &FileName) -> Result<Bytes, Memory>
    ensures { IfOk result (λ id. id ≡ id_of name.now) }
{
    let text = hex::encode(alloc, name.as_slice())?;
    Ok(Bytes::from_vec(text.into_bytes()))
}

/// Whether the bytes are the id of the name.
fn is_id_of(bytes: &[u8], name: &[u8]) -> bool
    requires { length name.now ≤ name_limit }
    ensures { IsTrue result ↔ (bytes.now ≡ id_of name.now) }
{
    let mut digits = [0u8; 2 * NAME_LIMIT];
    let id = &mut digits[..2 * name.len()];
    match hex::encode_to_slice(name, id) {
        Ok(()) => bytes == &*id,
        Err(_) => false,
    }
}

/// The name of the file with this id. It takes no memory.
pub fn id_read(bytes: &[u8]) -> Result<FileName, BadId>
    ensures exact { IsOk result ↔ IsId bytes.now }
    ensures value { IfOk result (λ name. bytes.now ≡ id_of name) }
{
    let half = bytes.len() / 2;
    if half > NAME_LIMIT {
        return Err(BadId);
    }
    let mut decoded = [0u8; NAME_LIMIT];
    let name = &mut decoded[..half];
    if !decode_hex(bytes, name) {
        return Err(BadId);
    }
    if !is_id_of(bytes, name) {
        return Err(BadId);
    }
    match FileName::read(name) {
        Ok(name) => Ok(name),
        Err(_) => Err(BadId),
    }
}
