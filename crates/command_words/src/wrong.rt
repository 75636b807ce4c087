//! What is wrong with words, and the line that tells it.
ghost use Rattle.std.specs.Prelude.{◌≡◌, ◌++◌, IfOk, OnOk, Some, codes, map, string_bytes};
ghost use Rattle.std.specs.List.{list_all};
ghost use Rattle.command_words.specs.declared.wrong.Refused.TheVariants as fault;
ghost use Rattle.command_words.specs.Explaining.{is_plain, is_visible, text_shown, word_shown};

use std::alloc::{AllocError, AllocFailed, Global};
use wopi_text::Memory;

/// How a word is wrong.
#[derive(Clone, Copy, Debug, PartialEq, Eq)]
pub enum How {
    /// The word at this place is, and may be shown.
    Shown(usize),
    /// It is, and isn't shown: a key and a token are secrets.
    Hidden,
    Missing,
}

/// A word that is wrong, and its rule.
#[derive(Clone, Copy, Debug, PartialEq, Eq)]
pub struct Wrong {
    /// What it is called, as `PORT`.
    pub name: &'static str,
    /// What it has to be.
    pub rule: &'static str,
    pub how: How,
}

/// Why words weren't read.
#[derive(Clone, Copy, Debug, PartialEq, Eq)]
pub enum Refused {
    Words(Wrong),
    Memory,
}

impl From<Memory> for Refused {
    ghost from_gives = { λ _ refused. refused ≡ fault.Memory };

    fn from(_: Memory) -> Refused {
        Refused::Memory
    }
}

/// A word that isn't shown.
pub(crate) fn hidden(name: &'static str, rule: &'static str) -> Refused {
    Refused::Words(Wrong {
        name,
        rule,
        how: How::Hidden,
    })
}

/// A word that isn't there.
pub(crate) fn missing(name: &'static str, rule: &'static str) -> Refused {
    Refused::Words(Wrong {
        name,
        rule,
        how: How::Missing,
    })
}

/// The most bytes of a word that is shown.
const MOST_SHOWN: usize = 60;

/// Whether each byte is a visible character of ASCII.
fn are_visible(bytes: &[u8]) -> bool
    ensures { result ≡ list_all is_visible bytes.now }
{
    bytes.iter().all(|b| (b'!'..=b'~').contains(b))
}

/// Whether the word is short, and of visible characters of ASCII alone.
fn is_plain(word: &str) -> bool
    ensures { result ≡ is_plain word.now }
{
    let bytes = word.as_bytes();
    !bytes.is_empty() && bytes.len() <= MOST_SHOWN && are_visible(bytes)
}

/// Puts the word behind the line, where it may be shown.
fn push_word(line: &mut Vec<u8>, word: &str) -> Result<(), Memory>
    ensures { OnOk result (line.new.items ≡ line.old.items ++ word_shown (Some word.now)) }
{
    if is_plain(word) {
        line.extend_from_slice(b" ")?;
        line.extend_from_slice(word.as_bytes())?;
    }
    Ok(())
}

/// Puts what stands between the name and the colon behind the line.
fn push_shown(line: &mut Vec<u8>, words: &[String], how: How) -> Result<(), Memory>
    ensures { OnOk result (line.new.items ≡ line.old.items ++ text_shown (map string_bytes words.now) how) }
{
    match how {
        How::Hidden => {}
        How::Missing => line.extend_from_slice(b" is missing")?,
        How::Shown(place) => {
            if let Some(word) = words.get(place) {
                push_word(line, word.as_str())?;
            }
        }
    }
    Ok(())
}

/// The line that tells what is wrong with a word of these, with a line feed, as
/// `PORT 99999: a number from 1 to 65535`: what the word is called, the word, and its rule. A word that is long or not
/// visible isn't shown.
pub fn wrong_line(alloc: Global, words: &[String], wrong: Wrong) -> Result<Vec<u8>, Memory>
    ensures { IfOk result (λ line. line.items ≡ wrong.name.now ++ text_shown (map string_bytes words.now) wrong.how ++ codes ": " ++ wrong.rule.now ++ codes "\n") }
{
    let mut line = wrong.name.as_bytes().to_vec(alloc)?;
    push_shown(&mut line, words, wrong.how)?;
    line.extend_from_slice(b": ")?;
    line.extend_from_slice(wrong.rule.as_bytes())?;
    line.extend_from_slice(b"\n")?;
    Ok(line)
}
