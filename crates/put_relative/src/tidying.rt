//! How a suggestion becomes a name.
ghost use Rattle.std.specs.Prelude.{◌≡◌, ◌↔◌, ◌<◌, ◌≤◌, ◌-◌, IsTrue, true, length, slice_index, IfOk, Err, string_bytes};
ghost use Rattle.put_relative.specs.CopyNames.{IsTidy, asked_for, in_a_name, is_closing, replaced, tidied, without_closing};

use crate::stem::stem_len;
use std::alloc::{AllocError, Global};
use thiserror::Error;
use wopi_text::{FileName, Memory, is_name_char};

/// The most bytes of a tidied name, which leave room for ` (99)`.
const MOST: usize = 123;

/// Why a suggestion makes no name.
#[derive(Clone, Copy, Debug, PartialEq, Eq, Error)]
pub enum TidyFault {
    /// What is left of it is no name of a file, or has more than 123 bytes.
    #[error("the suggestion makes no name")]
    BadName,
    /// Want of memory.
    #[error("want of memory")]
    Memory,
}

/// The name that a suggestion makes beside its source. A suggestion with a period at its start is
/// an ending for the source's stem. What no name may have becomes `_`, and closing periods and
/// spaces are taken off.
pub fn tidy(alloc: Global, source: &FileName, suggestion: &str) -> Result<FileName, TidyFault>
    ensures ok { IfOk result (λ name. name ≡ tidied source.now suggestion.now) }
    ensures tidy { IfOk result IsTidy }
    ensures bad_name { result ≡ Err TidyFault.BadName → ¬ IsTidy (tidied source.now suggestion.now) }
{
    let Ok(text) = asked_for(alloc, source, suggestion) else {
        return Err(TidyFault::Memory);
    };
    let kept = without_closing(&text);
    if kept.len() > MOST {
        return Err(TidyFault::BadName);
    }
    match FileName::read(kept) {
        Ok(name) => Ok(name),
        Err(_) => Err(TidyFault::BadName),
    }
}

fn asked_for(alloc: Global, source: &FileName, suggestion: &str) -> Result<Vec<u8>, Memory>
    ensures { IfOk result (λ text. text.items ≡ asked_for source.now suggestion.now) }
{
    let changed = replaced(alloc, suggestion)?;
    let asked = suggestion.as_bytes();
    if asked.is_empty() || asked[0] != b'.' {
        return Ok(changed.into_bytes());
    }
    let name = source.as_slice();
    let mut text = name[..stem_len(name)].to_vec(alloc)?;
    text.extend_from_slice(changed.as_bytes())?;
    Ok(text)
}

fn replaced(alloc: Global, text: &str) -> Result<String, AllocError>
    ensures { IfOk result (λ changed. string_bytes changed ≡ replaced text.now) }
{
    text.chars().map(|c| in_a_name(c)).collect(alloc)
}

fn in_a_name(character: char) -> char
    ensures { result ≡ in_a_name character }
{
    if is_name_char(character) {
        character
    } else {
        '_'
    }
}

/// The text without closing periods and spaces.
fn without_closing(text: &[u8]) -> &[u8]
    ensures { result.now ≡ without_closing text.now }
{
    let mut end = text.len();
    'back: while is_closed(text, end) {
        end -= 1;
    }
    &text[..end]
}

/// Whether a period or a space stands before this place.
fn is_closed(text: &[u8], end: usize) -> bool
    requires { end ≤ length text.now }
    ensures { IsTrue result ↔ ((0 < end) × (is_closing (slice_index text.now (end - 1)) ≡ true)) }
{
    if end == 0 {
        return false;
    }
    let last = text[end - 1];
    last == b'.' || last == b' '
}
