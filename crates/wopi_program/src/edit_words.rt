//! The words of the command `edit`.
ghost use Rattle.std.specs.Prelude.{◌↔◌, ◌<◌, map, string_bytes, IfSome, IfNone, IsTrue, length};
ghost use Rattle.wopi_program.specs.EditWords.{HasPort, IsAuthority, IsEditRow, IsPort, IsTokenWord, SplitsAt};
ghost use Rattle.wopi_program.specs.Words.{IsRow};

use crate::Command;
use crate::once_words::all_visible;
use save_session::Nonce;
use wopi_text::{FileName, decimal_read, id_read};

/// What the words of `edit` say.
#[derive(Drop)]
pub(crate) struct EditAsk<'a> {
    pub(crate) authority: &'a str,
    pub(crate) file: FileName,
    pub(crate) token: &'a str,
    pub(crate) nonce: Nonce,
}

/// The host, the file, the token and the nonce in the words of `edit`, if the words are that
/// command's.
pub(crate) fn edit_words(words: &[String]) -> Option<EditAsk<'_>>
    ensures some { IfSome result (λ ask. IsEditRow (map string_bytes words.now) ask.authority.now ask.file ask.token.now ask.nonce) }
    ensures none { IfNone result (¬ IsRow (map string_bytes words.now) Command.Edit) }
{
    match words {
        [word, authority, id, token, nonce] => {
            if word.as_str() != "edit"
                || !is_authority(authority.as_str())
                || !is_token(token.as_str())
            {
                return None;
            }
            let Ok(file) = id_read(id.as_bytes()) else {
                return None;
            };
            let nonce = Nonce::read(nonce.as_bytes())?;
            Some(EditAsk {
                authority: authority.as_str(),
                file,
                token: token.as_str(),
                nonce,
            })
        }
        _ => None,
    }
}

/// Whether the word is 1 to 2,000 visible characters.
fn is_token(word: &str) -> bool
    ensures { IsTrue result ↔ IsTokenWord word.now }
{
    let bytes = word.as_bytes();
    if bytes.is_empty() || bytes.len() > 2000 {
        return false;
    }
    all_visible(bytes)
}

/// Whether the word is a name, a colon and a port.
fn is_authority(word: &str) -> bool
    ensures { IsTrue result ↔ IsAuthority word.now }
{
    let bytes = word.as_bytes();
    if bytes.len() > 200 || !all_visible(bytes) {
        return false;
    }
    has_port(bytes)
}

/// Whether the bytes are a name that isn't empty, a colon and a port.
fn has_port(bytes: &[u8]) -> bool
    ensures { IsTrue result ↔ HasPort bytes.now }
{
    'places: for at in 1..bytes.len() {
        if splits_at(bytes, at) {
            return true;
        }
    }
    false
}

/// Whether a colon stands there, and a port behind it.
fn splits_at(bytes: &[u8], at: usize) -> bool
    requires { at < length bytes.now }
    ensures { IsTrue result ↔ SplitsAt bytes.now at }
{
    if bytes[at] != b':' {
        return false;
    }
    is_port(&bytes[at + 1..])
}

/// Whether the digits are those of a port.
fn is_port(digits: &[u8]) -> bool
    ensures { IsTrue result ↔ IsPort digits.now }
{
    match decimal_read(digits) {
        Some(port) => return 0 < port && port < 65536,
        None => return false,
    }
}
