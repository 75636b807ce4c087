//! The lines of a segment.
ghost use Rattle.std.specs.Prelude.{◌≡◌, ◌≢◌, ◌<◌, ◌∷◌, [], ℕ, List, Option, Some, IfSome, IfNone, IsTrue, ◌↔◌, codes, decimal};
ghost use Rattle.wopi_text.specs.Ids.{id_of};
ghost use Rattle.wopi_text.specs.FileName.{IsFileName};
ghost use Rattle.wopi_model.specs.declared.locks.Lock.{Lock};
ghost use Rattle.wopi_model.specs.declared.locks.Spent.{Spent};
ghost use Rattle.host_core.specs.Opening.{IsFirstVersion};
ghost use Rattle.wopi_model.specs.Moment.{IsMoment};
ghost use Rattle.journal_text.specs.Lines.{Fits, MayFit};
ghost use Rattle.journal_text.specs.Words.{words_of};
ghost use Rattle.journal_segments.specs.declared.rows.Head.{Head};
ghost use Rattle.journal_segments.specs.declared.rows.Row.{Row};
ghost use Rattle.journal_segments.specs.Line.{holds_words, off_words};
ghost use Rattle.journal_segments.specs.Rows.{IsAt, IsForm, IsHead, IsHeld, IsLine, IsLock, IsSpent, at_words, filled, head_words, held_words, lock_words, now_words, opened_words, row_words, shard_words, spent_words, words_with};
ghost use Rattle.journal_segments.specs.Seen.{is_off};

use host_core::MOST_FIRST;
use journal_text::{
    Line, bare_line_read, begin_read, lock_read, optional_number_read, shard_read, told_size,
    told_version,
};
use line_text::{has_more, is_word, moment_read, number_read, split_word};
use wopi_model::{Lock, Spent};
use wopi_text::{Bytes, FileName, id_read};

/// What a segment's first line tells.
#[derive(Clone, Copy)]
pub struct Head {
    pub shard: u8,
    /// When the host opened, in milliseconds.
    pub opened: u64,
    /// The version of the opening files.
    pub first: u64,
    /// The shard's time, in milliseconds.
    pub now: u64,
    /// The stamp of the last entry before.
    pub last: u64,
}

/// What a line behind the first tells.
#[derive(Drop)]
pub enum Row {
    /// A file that was met, with its version, and its size, if it is there.
    At(FileName, u64, Option<u64>),
    /// The lock of that file.
    Held(FileName, Lock),
    /// An id that was spent on that file.
    Spent(FileName, Spent),
    /// An entry, with the contents that were accepted.
    Entry(Line),
    /// The line before doesn't count.
    Off,
    /// What stands under a name behind a store fault.
    Holds(FileName, Option<Bytes>),
}

/// The words behind one, where there are three.
fn three_behind<'a>(row: &'a [u8], kind: &[u8]) -> Option<(&'a [u8], &'a [u8], &'a [u8])>
    ensures some { IfSome result (λ parts. words_of row.now ≡ kind.now ∷ parts.0.now ∷ parts.1.now ∷ parts.2.now ∷ []) }
    ensures none { IfNone result ((a b c : List ℕ) → words_of row.now ≢ kind.now ∷ a ∷ b ∷ c ∷ []) }
{
    let (word, rest) = split_word(row)?;
    let (first, rest) = split_word(rest)?;
    let (second, third) = split_word(rest)?;
    if !is_word(word, kind) {
        return None;
    }
    if has_more(third) {
        return None;
    }
    Some((first, second, third))
}

/// The words behind one, where there are two.
fn two_behind<'a>(row: &'a [u8], kind: &[u8]) -> Option<(&'a [u8], &'a [u8])>
    ensures some { IfSome result (λ parts. words_of row.now ≡ kind.now ∷ parts.0.now ∷ parts.1.now ∷ []) }
    ensures none { IfNone result ((a b : List ℕ) → words_of row.now ≢ kind.now ∷ a ∷ b ∷ []) }
{
    let (word, rest) = split_word(row)?;
    let (first, second) = split_word(rest)?;
    if !is_word(word, kind) {
        return None;
    }
    if has_more(second) {
        return None;
    }
    Some((first, second))
}

/// The word behind one, and what stands behind it.
fn labelled<'a>(row: &'a [u8], label: &[u8]) -> Option<(&'a [u8], &'a [u8])>
    ensures some { IfSome result (λ parts. words_of row.now ≡ label.now ∷ parts.0.now ∷ words_of parts.1.now) }
    ensures none { IfNone result ((a b : List ℕ) (words : List (List ℕ)) → words_of row.now ≢ label.now ∷ a ∷ b ∷ words) }
{
    let (word, rest) = split_word(row)?;
    let (first, rest) = split_word(rest)?;
    if !is_word(word, label) {
        return None;
    }
    Some((first, rest))
}

/// The word behind one, where there is no other.
fn closing<'a>(row: &'a [u8], label: &[u8]) -> Option<&'a [u8]>
    ensures some { IfSome result (λ word. words_of row.now ≡ label.now ∷ word.now ∷ []) }
    ensures none { IfNone result ((a : List ℕ) → words_of row.now ≢ label.now ∷ a ∷ []) }
{
    let (word, first) = split_word(row)?;
    if !is_word(word, label) {
        return None;
    }
    if has_more(first) {
        return None;
    }
    Some(first)
}

/// The file that a line tells of, its version and its size, if it is such a line.
fn at_read(row: &[u8]) -> Option<(FileName, u64, Option<u64>)>
    ensures some { IfSome result (λ read. IsAt read.0 read.1 read.2 × (words_of row.now ≡ at_words read.0 read.1 read.2)) }
    ensures none { IfNone result ((name : List ℕ) (version : ℕ) (size : Option ℕ) → IsAt name version size → words_of row.now ≢ at_words name version size) }
{
    let Some((id, version, size)) = three_behind(row, b"at".as_slice()) else {
        return None;
    };
    let Ok(name) = id_read(id) else {
        return None;
    };
    let Some(version) = told_version(version) else {
        return None;
    };
    let Some(size) = optional_number_read(size) else {
        return None;
    };
    Some((name, version, size))
}

/// A lock that ends a line.
fn lock_closing(row: &[u8]) -> Option<Lock>
    ensures some { IfSome result (λ lock. IsLock lock × (words_of row.now ≡ lock_words lock)) }
    ensures none { IfNone result ((lock : Lock) → IsLock lock → words_of row.now ≢ lock_words lock) }
{
    let Some((lock, rest)) = split_word(row) else {
        return None;
    };
    let Some((since, until)) = split_word(rest) else {
        return None;
    };
    if has_more(until) {
        return None;
    }
    let Some(id) = lock_read(lock) else {
        return None;
    };
    let Some(since) = moment_read(since) else {
        return None;
    };
    let Some(until) = number_read(until) else {
        return None;
    };
    Some(Lock { id, since, until })
}

/// The file that a line tells of and its lock, if it is such a line.
fn held_read(row: &[u8]) -> Option<(FileName, Lock)>
    ensures some { IfSome result (λ read. IsHeld read.0 read.1 × (words_of row.now ≡ held_words read.0 read.1)) }
    ensures none { IfNone result ((name : List ℕ) (lock : Lock) → IsHeld name lock → words_of row.now ≢ held_words name lock) }
{
    let Some((id, rest)) = labelled(row, b"held".as_slice()) else {
        return None;
    };
    let Ok(name) = id_read(id) else {
        return None;
    };
    let Some(lock) = lock_closing(rest) else {
        return None;
    };
    Some((name, lock))
}

/// The file that a line tells of and an id that was spent on it, if it is such a line.
fn spent_read(row: &[u8]) -> Option<(FileName, Spent)>
    ensures some { IfSome result (λ read. IsSpent read.0 read.1 × (words_of row.now ≡ spent_words read.0 read.1)) }
    ensures none { IfNone result ((name : List ℕ) (one : Spent) → IsSpent name one → words_of row.now ≢ spent_words name one) }
{
    let Some((id, lock, until)) = three_behind(row, b"spent".as_slice()) else {
        return None;
    };
    let Ok(name) = id_read(id) else {
        return None;
    };
    let Some(id) = lock_read(lock) else {
        return None;
    };
    let Some(until) = number_read(until) else {
        return None;
    };
    Some((name, Spent { id, until }))
}

/// Whether a line takes back the one before it.
fn is_off(row: &[u8]) -> bool
    ensures { IsTrue result ↔ (words_of row.now ≡ off_words) }
{
    if has_more(row) {
        return false;
    }
    is_word(row, b"off".as_slice())
}

/// The name under which a line tells that so many bytes stand, if it is such a line.
fn holds_read(row: &[u8]) -> Option<(FileName, Option<u64>)>
    ensures some { IfSome result (λ read. IsFileName read.0 × MayFit read.1 × (words_of row.now ≡ holds_words read.0 read.1)) }
    ensures none { IfNone result ((name : List ℕ) (size : Option ℕ) → IsFileName name → MayFit size → words_of row.now ≢ holds_words name size) }
{
    let Some((id, size)) = two_behind(row, b"holds".as_slice()) else {
        return None;
    };
    let Ok(name) = id_read(id) else {
        return None;
    };
    let Some(size) = optional_number_read(size) else {
        return None;
    };
    Some((name, size))
}

/// What a line behind the first tells, without its contents, and their size, if it is one by itself.
pub(crate) fn row_read(row: &[u8]) -> Option<(Row, Option<u64>)>
    ensures some { IfSome result (λ read. IsLine read.0 read.1 × (words_of row.now ≡ words_with read.0 read.1)) }
    ensures none { IfNone result ((one : Row) → IsForm one → words_of row.now ≢ row_words one) }
{
    if let Some((name, version, size)) = at_read(row) {
        return Some((Row::At(name, version, size), None));
    }
    if let Some((name, lock)) = held_read(row) {
        return Some((Row::Held(name, lock), None));
    }
    if let Some((name, one)) = spent_read(row) {
        return Some((Row::Spent(name, one), None));
    }
    if let Some((name, size)) = holds_read(row) {
        return Some((Row::Holds(name, None), size));
    }
    if is_off(row) {
        return Some((Row::Off, None));
    }
    let Some(line) = bare_line_read(row) else {
        return None;
    };
    let size = told_size(&line.act, line.status);
    Some((Row::Entry(line), size))
}

/// The row with the contents that stand behind its line.
pub(crate) fn filled(row: Row, contents: Bytes) -> Row
    ensures { result ≡ filled row (Some contents) }
{
    match row {
        Row::Entry(line) => {
            let contents = Some(contents);
            return Row::Entry(Line { contents, ..line });
        }
        Row::Holds(name, _before) => return Row::Holds(name, Some(contents)),
        other => return other,
    }
}

/// Whether a line takes back the one before it.
pub(crate) fn takes_back(row: &Row) -> bool
    ensures { result ≡ is_off row.now }
{
    match row {
        Row::Off => return true,
        _ => return false,
    }
}

/// The version that opening files may have.
fn first_version_read(word: &[u8]) -> Option<u64>
    ensures some { IfSome result (λ n. IsFirstVersion n × (word.now ≡ decimal n)) }
    ensures none { IfNone result ((n : ℕ) → IsFirstVersion n → word.now ≢ decimal n) }
{
    let Some(number) = number_read(word) else {
        return None;
    };
    if number < 1 {
        return None;
    }
    if number > MOST_FIRST {
        return None;
    }
    Some(number)
}

/// The moment behind a word, and what stands behind it.
fn moment_behind<'a>(row: &'a [u8], label: &[u8]) -> Option<(u64, &'a [u8])>
    ensures some { IfSome result (λ read. IsMoment read.0 × (words_of row.now ≡ label.now ∷ decimal read.0 ∷ words_of read.1.now)) }
    ensures none { IfNone result ((n : ℕ) (word : List ℕ) (words : List (List ℕ)) → IsMoment n → words_of row.now ≢ label.now ∷ decimal n ∷ word ∷ words) }
{
    let Some((word, rest)) = labelled(row, label) else {
        return None;
    };
    let Some(number) = moment_read(word) else {
        return None;
    };
    Some((number, rest))
}

/// The version behind a word, and what stands behind it.
fn first_behind<'a>(row: &'a [u8], label: &[u8]) -> Option<(u64, &'a [u8])>
    ensures some { IfSome result (λ read. IsFirstVersion read.0 × (words_of row.now ≡ label.now ∷ decimal read.0 ∷ words_of read.1.now)) }
    ensures none { IfNone result ((n : ℕ) (word : List ℕ) (words : List (List ℕ)) → IsFirstVersion n → words_of row.now ≢ label.now ∷ decimal n ∷ word ∷ words) }
{
    let Some((word, rest)) = labelled(row, label) else {
        return None;
    };
    let Some(number) = first_version_read(word) else {
        return None;
    };
    Some((number, rest))
}

/// The number behind the last word but one.
fn number_closing(row: &[u8], label: &[u8]) -> Option<u64>
    ensures some { IfSome result (λ n. Fits n × (words_of row.now ≡ label.now ∷ decimal n ∷ [])) }
    ensures none { IfNone result ((n : ℕ) → Fits n → words_of row.now ≢ label.now ∷ decimal n ∷ []) }
{
    let Some(word) = closing(row, label) else {
        return None;
    };
    let Some(number) = number_read(word) else {
        return None;
    };
    Some(number)
}

/// The shard's time and the last stamp, which end a first line.
fn head_end(row: &[u8]) -> Option<(u64, u64)>
    ensures some { IfSome result (λ read. IsMoment read.0 × Fits read.1 × (words_of row.now ≡ now_words read.0 read.1)) }
    ensures none { IfNone result ((now last : ℕ) → IsMoment now → Fits last → words_of row.now ≢ now_words now last) }
{
    let Some((now, rest)) = moment_behind(row, b"now".as_slice()) else {
        return None;
    };
    let Some(last) = number_closing(rest, b"last".as_slice()) else {
        return None;
    };
    Some((now, last))
}

/// When the host opened and the version of the opening files, and what stands behind them.
fn head_middle(row: &[u8]) -> Option<(u64, u64, &[u8])>
    ensures some { IfSome result (λ read. IsMoment read.0 × IsFirstVersion read.1 × (words_of row.now ≡ opened_words read.0 read.1 (words_of read.2.now))) }
    ensures none { IfNone result ((opened first : ℕ) (word : List ℕ) (words : List (List ℕ)) → IsMoment opened → IsFirstVersion first → words_of row.now ≢ opened_words opened first (word ∷ words)) }
{
    let Some((opened, rest)) = moment_behind(row, b"opened".as_slice()) else {
        return None;
    };
    let Some((first, rest)) = first_behind(rest, b"first".as_slice()) else {
        return None;
    };
    Some((opened, first, rest))
}

/// The number of the shard, and what stands behind it.
fn head_begin(row: &[u8]) -> Option<(u8, &[u8])>
    ensures some { IfSome result (λ read. (read.0 < 16) × (words_of row.now ≡ shard_words read.0 (words_of read.1.now))) }
    ensures none { IfNone result ((shard : ℕ) (word : List ℕ) (words : List (List ℕ)) → shard < 16 → words_of row.now ≢ shard_words shard (word ∷ words)) }
{
    let Some((version, rest)) = begin_read(row) else {
        return None;
    };
    if !is_word(version, b"3".as_slice()) {
        return None;
    }
    let Some((word, rest)) = labelled(rest, b"shard".as_slice()) else {
        return None;
    };
    let Some(shard) = shard_read(word) else {
        return None;
    };
    Some((shard, rest))
}

/// What a segment's first line tells, if it is one.
pub fn head_read(row: &[u8]) -> Option<Head>
    ensures some { IfSome result (λ head. IsHead head × (words_of row.now ≡ head_words head)) }
    ensures none { IfNone result ((head : Head) → IsHead head → words_of row.now ≢ head_words head) }
{
    let Some((shard, rest)) = head_begin(row) else {
        return None;
    };
    let Some((opened, first, rest)) = head_middle(rest) else {
        return None;
    };
    let Some((now, last)) = head_end(rest) else {
        return None;
    };
    Some(Head {
        shard,
        opened,
        first,
        now,
        last,
    })
}
