//! The words of a trace, and its lines.
ghost use Rattle.std.specs.Prelude.{◌≡◌, ◌++◌, ◌∷◌, [], IfOk, OnOk, map, decimal, if◌then◌else◌};
ghost use Rattle.replay_cmd.specs.Words.{hex_text, version_shown, lock_shown, reason_shown, line_text};

use itoa::Buffer;
use std::alloc::Global;
use wopi_text::{Bytes, LockField, Memory, Reason};

/// The words, each in memory of its own.
pub fn words_of(alloc: Global, words: &[&[u8]]) -> Result<Vec<Bytes>, Memory>
    ensures { IfOk result (λ list. list.items ≡ map (λ word. word.now) words.now) }
{
    let mut list = Vec::new(alloc);
    for word in words {
        list.push(Bytes::from_slice(alloc, word)?)?;
    }
    Ok(list)
}

/// A number in decimal.
pub fn number_word(alloc: Global, number: u64) -> Result<Bytes, Memory>
    ensures { IfOk result (λ word. word ≡ decimal number) }
{
    let mut buffer = Buffer::new();
    Ok(Bytes::from_slice(alloc, buffer.format(number).as_bytes())?)
}

/// A version, or that there is none.
pub fn version_word(alloc: Global, version: Option<u64>) -> Result<Bytes, Memory>
    ensures { IfOk result (λ word. word ≡ version_shown version) }
{
    match version {
        None => return Ok(Bytes::from_slice(alloc, b"-")?),
        Some(version) => {
            let mut buffer = Buffer::new();
            let mut word = Vec::new(alloc);
            word.push(b'v')?;
            word.extend_from_slice(buffer.format(version).as_bytes())?;
            return Ok(Bytes::from_vec(word));
        }
    }
}

/// Bytes in hex, or that there are none.
pub fn hex_word(alloc: Global, bytes: &[u8]) -> Result<Bytes, Memory>
    ensures { IfOk result (λ word. word ≡ hex_text bytes.now) }
{
    if bytes.is_empty() {
        return Ok(Bytes::from_slice(alloc, b"-")?);
    }
    let digits = hex::encode(alloc, bytes)?;
    Ok(Bytes::from_vec(digits.into_bytes()))
}

/// The lock that stands, or that none does.
pub fn lock_word(lock: &LockField) -> &[u8]
    ensures { result.now ≡ lock_shown lock.now }
{
    match lock {
        LockField::Held(id) => id.as_slice(),
        LockField::Empty => b"-",
        LockField::Absent => b"-",
    }
}

/// Why it is a 409, or that there is no reason.
pub fn reason_word(alloc: Global, reason: Option<Reason>) -> Result<Bytes, Memory>
    ensures { IfOk result (λ word. word ≡ reason_shown reason) }
{
    match reason {
        Some(reason) => return Ok(Bytes::from_slice(alloc, reason.text().as_bytes())?),
        None => return Ok(Bytes::from_slice(alloc, b"-")?),
    }
}

/// A word, a number, and more words.
pub fn numbered_words(
    alloc: Global,
    word: &[u8],
    number: u64,
    others: Vec<Bytes>,
) -> Result<Vec<Bytes>, Memory>
    ensures { IfOk result (λ words. words.items ≡ word.now ∷ decimal number ∷ others.items) }
{
    let mut others = others;
    let mut words = Vec::new(alloc);
    words.push(Bytes::from_slice(alloc, word)?)?;
    words.push(number_word(alloc, number)?)?;
    words.append(&mut others)?;
    Ok(words)
}

/// Appends a word, behind a space where it isn't the first.
fn push_word(text: &mut Vec<u8>, word: &[u8], is_first: bool) -> Result<(), Memory>
    ensures { OnOk result (text.new.items ≡ text.old.items ++ (if is_first then word.now else 32 ∷ word.now)) }
{
    if !is_first {
        text.push(b' ')?;
        text.extend_from_slice(word)?;
        return Ok(());
    }
    text.extend_from_slice(word)?;
    Ok(())
}

/// Appends words with single spaces between them, and a line feed.
pub fn push_line(text: &mut Vec<u8>, words: &[Bytes]) -> Result<(), Memory>
    ensures { OnOk result (text.new.items ≡ text.old.items ++ line_text words.now) }
{
    let mut is_first = true;
    'words: for word in words {
        push_word(text, word.as_slice(), is_first)?;
        is_first = false;
    }
    text.push(b'\n')?;
    Ok(())
}
