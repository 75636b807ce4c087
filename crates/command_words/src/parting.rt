//! Words, parted into those that have a place and those that are options.
ghost use Rattle.std.specs.Prelude.{◌≡◌, ◌++◌, ◌∷◌, [], IfOk, OnOk, IfErr, false, map, string_bytes, length};
ghost use Rattle.command_words.specs.Parts.{IsUnfinished, halved, halves, lacks_value, parted_of, parts_of};

use crate::options::{Kind, is_flag, takes};
use crate::wrong::{Refused, missing};
use std::alloc::Global;
use wopi_text::Memory;

/// The words of a command behind its name.
#[derive(Drop)]
pub(crate) struct Parted {
    /// Those that are no options, in their order.
    pub places: Vec<String>,
    /// Each option and then its value, in their order.
    pub options: Vec<String>,
    /// The options that stand alone.
    pub flags: Vec<String>,
}

/// Puts a copy of a word behind the others.
pub(crate) fn push_word(alloc: Global, words: &mut Vec<String>, word: &str) -> Result<(), Memory>
    ensures { OnOk result (map string_bytes words.new.items ≡ map string_bytes words.old.items ++ word.now ∷ []) }
{
    let copy = String::from_str(alloc, word)?;
    words.push(copy)?;
    Ok(())
}

/// Puts a word behind the others, in two where it is an option, `=` and its value.
fn push_halves(alloc: Global, kind: Kind, words: &mut Vec<String>, word: &str) -> Result<(), Memory>
    ensures { OnOk result (map string_bytes words.new.items ≡ map string_bytes words.old.items ++ halves kind word.now) }
{
    match word.split_once('=') {
        Some((name, value)) => {
            if takes(kind, name) {
                push_word(alloc, words, name)?;
                return push_word(alloc, words, value);
            }
            push_word(alloc, words, word)
        }
        None => push_word(alloc, words, word),
    }
}

/// The words with each option and its value apart.
pub(crate) fn halve(alloc: Global, kind: Kind, words: &[String]) -> Result<Vec<String>, Memory>
    ensures { IfOk result (λ all. map string_bytes all.items ≡ halved kind (map string_bytes words.now)) }
{
    let mut all = Vec::new(alloc);
    for word in words {
        push_halves(alloc, kind, &mut all, word.as_str())?;
    }
    Ok(all)
}

/// Parts the words. An option that is the last of them lacks its value.
pub(crate) fn part(alloc: Global, kind: Kind, words: &[String]) -> Result<Parted, Refused>
    ensures parts { IfOk result (λ parted. parts_of parted ≡ parted_of kind (map string_bytes words.now)) }
    ensures whole { IfOk result (λ _. lacks_value kind (map string_bytes words.now) ≡ false) }
    ensures lacks { IfErr result (λ refused. IsUnfinished refused (lacks_value kind (map string_bytes words.now))) }
{
    let mut places = Vec::new(alloc);
    let mut options = Vec::new(alloc);
    let mut flags = Vec::new(alloc);
    let mut at = 0;
    'words: while at < words.len() {
        let word = words[at].as_str();
        if is_flag(kind, word) {
            let Ok(()) = push_word(alloc, &mut flags, word) else {
                return Err(Refused::Memory);
            };
            at += 1;
        } else if !takes(kind, word) {
            let Ok(()) = push_word(alloc, &mut places, word) else {
                return Err(Refused::Memory);
            };
            at += 1;
        } else if at + 1 == words.len() {
            return Err(missing(
                "the value of the last option",
                "it stands behind the option, or behind an = at its end",
            ));
        } else {
            let Ok(()) = push_word(alloc, &mut options, word) else {
                return Err(Refused::Memory);
            };
            let Ok(()) = push_word(alloc, &mut options, words[at + 1].as_str()) else {
                return Err(Refused::Memory);
            };
            at += 2;
        }
    }
    Ok(Parted {
        places,
        options,
        flags,
    })
}
