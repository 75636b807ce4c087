//! The first line, the lines of opening files, and the last line.
ghost use Rattle.std.specs.Prelude.{◌≡◌, ◌≢◌, ◌↔◌, ◌∷◌, [], ℕ, List, Some, IfOk, IfSome, IfNone, IsTrue, codes, decimal};
ghost use Rattle.host_core.specs.Opening.{IsFirstVersion};
ghost use Rattle.wopi_model.specs.Moment.{IsMoment};
ghost use Rattle.journal_text.specs.declared.text.Format.{Format};
ghost use Rattle.journal_text.specs.Lines.{IsFile, IsOpening};
ghost use Rattle.journal_text.specs.Words.{file_words, first_words, last_words, words_of};

use crate::text::Format;
use host_core::MOST_FIRST;
use line_text::{has_more, hex_read, is_word, moment_read, number_read, split_word};
use std::alloc::Global;
use wopi_text::{Bytes, FileName, Memory, id_read};

/// The form of a journal, when its host opened, and the version of the opening files.
#[derive(Clone, Copy)]
pub(crate) struct Opening {
    pub(crate) form: Format,
    pub(crate) opened: u64,
    pub(crate) first: u64,
}

/// What the first line of a journal tells, if it is one.
pub(crate) fn first_read(row: &[u8]) -> Option<Opening>
    ensures some { IfSome result (λ read. IsOpening read.form read.opened read.first × (words_of row.now ≡ first_words read.form read.opened read.first)) }
    ensures none { IfNone result ((form : Format) (opened first : ℕ) → IsOpening form opened first → words_of row.now ≢ first_words form opened first) }
{
    let Some((version, rest)) = begin_read(row) else {
        return None;
    };
    if is_word(version, b"1".as_slice()) {
        let Some(opened) = first_form(rest) else {
            return None;
        };
        return Some(Opening {
            form: Format::First,
            opened,
            first: 1,
        });
    }
    if !is_word(version, b"2".as_slice()) {
        return None;
    }
    let Some((opened, first)) = second_form(rest) else {
        return None;
    };
    Some(Opening {
        form: Format::Second,
        opened,
        first,
    })
}

/// The version's word in the first line, and what stands behind it.
pub fn begin_read(row: &[u8]) -> Option<(&[u8], &[u8])>
    ensures some { IfSome result (λ read. words_of row.now ≡ codes "wopi" ∷ codes "journal" ∷ read.0.now ∷ words_of read.1.now) }
    ensures none { IfNone result ((version word : List ℕ) (words : List (List ℕ)) → words_of row.now ≢ codes "wopi" ∷ codes "journal" ∷ version ∷ word ∷ words) }
{
    let (wopi, rest) = split_word(row)?;
    let (journal, rest) = split_word(rest)?;
    let (version, rest) = split_word(rest)?;
    if !is_word(wopi, b"wopi".as_slice()) {
        return None;
    }
    if !is_word(journal, b"journal".as_slice()) {
        return None;
    }
    Some((version, rest))
}

/// When a host opened, in the first form.
fn first_form(row: &[u8]) -> Option<u64>
    ensures some { IfSome result (λ opened. IsMoment opened × (words_of row.now ≡ codes "opened" ∷ decimal opened ∷ [])) }
    ensures none { IfNone result ((opened : ℕ) → IsMoment opened → words_of row.now ≢ codes "opened" ∷ decimal opened ∷ []) }
{
    let Some((word, opened)) = split_word(row) else {
        return None;
    };
    if !is_word(word, b"opened".as_slice()) {
        return None;
    }
    if has_more(opened) {
        return None;
    }
    let Some(opened) = moment_read(opened) else {
        return None;
    };
    Some(opened)
}

/// When a host opened and the version of the opening files, in the second form.
fn second_form(row: &[u8]) -> Option<(u64, u64)>
    ensures some { IfSome result (λ read. IsMoment read.0 × IsFirstVersion read.1 × (words_of row.now ≡ codes "opened" ∷ decimal read.0 ∷ codes "first" ∷ decimal read.1 ∷ [])) }
    ensures none { IfNone result ((opened first : ℕ) → IsMoment opened → IsFirstVersion first → words_of row.now ≢ codes "opened" ∷ decimal opened ∷ codes "first" ∷ decimal first ∷ []) }
{
    let (word, rest) = split_word(row)?;
    let (opened, rest) = split_word(rest)?;
    let (second, first) = split_word(rest)?;
    if !is_word(word, b"opened".as_slice()) {
        return None;
    }
    if !is_word(second, b"first".as_slice()) {
        return None;
    }
    if has_more(first) {
        return None;
    }
    let opened = moment_read(opened)?;
    let first = version_read(first)?;
    Some((opened, first))
}

/// The version of opening files that a word is.
fn version_read(word: &[u8]) -> Option<u64>
    ensures { (n : ℕ) → (result ≡ Some n) ↔ (IsFirstVersion n × (word.now ≡ decimal n)) }
{
    let number = number_read(word)?;
    if number < 1 {
        return None;
    }
    if number > MOST_FIRST {
        return None;
    }
    Some(number)
}

/// The opening file that a line tells, if it is such a line.
pub(crate) fn file_read(alloc: Global, row: &[u8]) -> Result<Option<(FileName, Bytes)>, Memory>
    ensures some { IfOk result (λ read. IfSome read (λ file. IsFile file × (words_of row.now ≡ file_words file))) }
    ensures none { IfOk result (λ read. IfNone read ((file : List ℕ × List ℕ) → IsFile file → words_of row.now ≢ file_words file)) }
{
    let Some((id, digits)) = file_parts(row) else {
        return Ok(None);
    };
    let Ok(name) = id_read(id) else {
        return Ok(None);
    };
    let Some(contents) = hex_read(alloc, digits)? else {
        return Ok(None);
    };
    Ok(Some((name, contents)))
}

/// The two words behind `file`, where a line has just these.
fn file_parts(row: &[u8]) -> Option<(&[u8], &[u8])>
    ensures some { IfSome result (λ parts. words_of row.now ≡ codes "file" ∷ parts.0.now ∷ parts.1.now ∷ []) }
    ensures none { IfNone result ((id digits : List ℕ) → words_of row.now ≢ codes "file" ∷ id ∷ digits ∷ []) }
{
    let (kind, rest) = split_word(row)?;
    let (id, digits) = split_word(rest)?;
    if !is_word(kind, b"file".as_slice()) {
        return None;
    }
    if has_more(digits) {
        return None;
    }
    Some((id, digits))
}

/// Whether a line is the last one, after so many entries.
pub(crate) fn is_last(form: Format, row: &[u8], entries: u64) -> bool
    ensures { IsTrue result ↔ (words_of row.now ≡ last_words form entries) }
{
    match form {
        Format::First => return is_first_last(row),
        Format::Second => return is_second_last(row, entries),
    }
}

/// Whether a line is the last one, in the first form.
fn is_first_last(row: &[u8]) -> bool
    ensures { IsTrue result ↔ (words_of row.now ≡ codes "end" ∷ []) }
{
    if has_more(row) {
        return false;
    }
    is_word(row, b"end".as_slice())
}

/// Whether a line is the last one after so many entries, in the second form.
fn is_second_last(row: &[u8], entries: u64) -> bool
    ensures { IsTrue result ↔ (words_of row.now ≡ codes "end" ∷ decimal entries ∷ []) }
{
    let Some((word, number)) = split_word(row) else {
        return false;
    };
    if !is_word(word, b"end".as_slice()) {
        return false;
    }
    if has_more(number) {
        return false;
    }
    let Some(number) = number_read(number) else {
        return false;
    };
    number == entries
}
