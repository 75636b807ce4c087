//! The words for editors, behind those that stand in every row of `serve` and `once`.
ghost use Rattle.std.specs.Prelude.{◌≡◌, ◌↔◌, IfOk, IsTrue, drop, map, string_bytes};
ghost use Rattle.std.specs.Option.{option_copied};
ghost use Rattle.wopi_program.specs.EditorWords.{TellsOrigin, behind_editor, behind_origin, origin_in, origin_told, serves_editors};

use access_tokens::is_origin;
use std::alloc::Global;
use wopi_text::{Bytes, Memory};

/// Whether `--editor` stands in front of these words.
pub(crate) fn serves_editors(words: &[String]) -> bool
    ensures { result ≡ serves_editors (map string_bytes words.now) }
{
    match words {
        [] => false,
        [word, ..] => word.as_str() == "--editor",
    }
}

/// What `--origin` in front of these words names.
fn origin_in(words: &[String]) -> Option<&[u8]>
    ensures { option_copied result ≡ origin_in (map string_bytes words.now) }
{
    match words {
        [name, origin, ..] => {
            if name.as_str() == "--origin" {
                return Some(origin.as_bytes());
            }
            None
        }
        [_] => None,
        [] => None,
    }
}

/// The words behind it and its value, or all of them where it doesn't stand there.
fn behind_origin(words: &[String]) -> &[String]
    ensures { map string_bytes result.now ≡ behind_origin (map string_bytes words.now) }
{
    match words {
        [name, _, rest @ ..] => {
            if name.as_str() == "--origin" {
                return rest;
            }
            words
        }
        [_] => words,
        [] => words,
    }
}

/// The origin that is told to editors, where these words name one behind `--editor`.
fn origin_told(words: &[String]) -> Option<&[u8]>
    ensures { option_copied result ≡ origin_told (map string_bytes words.now) }
{
    match words {
        [] => None,
        [word, rest @ ..] => {
            if word.as_str() == "--editor" {
                return origin_in(rest);
            }
            None
        }
    }
}

/// The words behind all of these, or all of them where `--editor` doesn't stand there.
pub(crate) fn behind_editor(words: &[String]) -> &[String]
    ensures { map string_bytes result.now ≡ behind_editor (map string_bytes words.now) }
{
    match words {
        [] => words,
        [word, rest @ ..] => {
            if word.as_str() == "--editor" {
                return behind_origin(rest);
            }
            words
        }
    }
}

/// Whether what is told is an origin.
pub(crate) fn tells_origin(words: &[String]) -> bool
    ensures { IsTrue result ↔ TellsOrigin (map string_bytes words.now) }
{
    match origin_told(words) {
        Some(origin) => return is_origin(origin),
        None => return true,
    }
}

/// The words from that place on.
pub(crate) fn words_from(words: &[String], place: usize) -> &[String]
    ensures { map string_bytes result.now ≡ drop place (map string_bytes words.now) }
{
    if words.len() < place {
        return &[];
    }
    &words[place..]
}

/// A copy of the origin, where there is one.
fn origin_copied(alloc: Global, origin: Option<&[u8]>) -> Result<Option<Bytes>, Memory>
    ensures { IfOk result (λ copy. copy ≡ option_copied origin.entry) }
{
    match origin {
        Some(origin) => Ok(Some(Bytes::from_slice(alloc, origin)?)),
        None => Ok(None),
    }
}

/// A copy of the origin that is told to editors, where the words from that place on name one.
pub(crate) fn origin_from(
    alloc: Global,
    words: &[String],
    place: usize,
) -> Result<Option<Bytes>, Memory>
    ensures { IfOk result (λ origin. origin ≡ origin_told (drop place (map string_bytes words.now))) }
{
    origin_copied(alloc, origin_told(words_from(words, place)))
}
