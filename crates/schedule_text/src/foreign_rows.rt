//! The lines of requests that somebody else sends.
ghost use Rattle.std.specs.Prelude.{◌≡◌, ◌↔◌, ℕ, IfOk, IfSome, IfNone, IsSome};
ghost use Rattle.wopi_text.specs.FileName.{IsFileName};
ghost use Rattle.wopi_headers.specs.declared.ask.Op.{Op};
ghost use Rattle.schedule_text.specs.declared.schedule.ForeignAsk.{ForeignAsk};
ghost use Rattle.schedule_text.specs.Grammar.{IsAsked, IsForeignRow, words_of};
ghost use Rattle.schedule_text.specs.Readings.{Asks};
ghost use Rattle.schedule_text.specs.RowKinds.{IsBare, IsBareOp, IsCopy, IsLocked, IsLockedOp, IsPut, IsRelock};
ghost use Rattle.schedule_text.specs.Schedules.{carried};

use crate::schedule::ForeignAsk;
use crate::values::{contents_read, lock_or_none_read, lock_read};
use line_text::{
    five_words, four_words, is_word, moment_read, split_word, three_words, two_words,
    yes_or_no_read,
};
use std::alloc::Global;
use wopi_headers::{Op, Target};
use wopi_text::{Bytes, FileName, LockId, Memory, id_read};

/// The moment and the request of somebody else that a line tells of, if it is such a line.
pub(crate) fn foreign_read(alloc: Global, row: &[u8]) -> Result<Option<(u64, ForeignAsk)>, Memory>
    ensures some { IfOk result (λ read. IfSome read (λ found. IsForeignRow row.now found.0 found.1)) }
    ensures none { IfOk result (λ read. IfNone read ((moment : ℕ) (ask : ForeignAsk) → IsForeignRow row.now moment ask → ⊥)) }
{
    let Some((kind, rest)) = split_word(row) else {
        return Ok(None);
    };
    if !is_word(kind, b"foreign".as_slice()) {
        return Ok(None);
    }
    let Some((moment, rest)) = split_word(rest) else {
        return Ok(None);
    };
    let Some((expires, asked)) = split_word(rest) else {
        return Ok(None);
    };
    let Some(moment) = moment_read(moment) else {
        return Ok(None);
    };
    let Some(expires) = moment_read(expires) else {
        return Ok(None);
    };
    let Some(ask) = ask_read(alloc, asked, expires)? else {
        return Ok(None);
    };
    Ok(Some((moment, ask)))
}

/// What a text asks for, if it asks for something.
fn ask_read(alloc: Global, text: &[u8], expires: u64) -> Result<Option<ForeignAsk>, Memory>
    ensures some { IfOk result (λ read. IfSome read (Asks text.now expires)) }
    ensures none { IfOk result (λ read. IfNone read ((ask : ForeignAsk) → IsAsked (words_of text.now) ask → ⊥)) }
{
    if let Some(ask) = bare_read(alloc, text, expires) {
        return Ok(Some(ask));
    }
    if let Some(ask) = locked_read(alloc, text, expires) {
        return Ok(Some(ask));
    }
    if let Some(ask) = relock_read(alloc, text, expires) {
        return Ok(Some(ask));
    }
    if let Some(ask) = put_read(alloc, text, expires)? {
        return Ok(Some(ask));
    }
    match copy_read(alloc, text, expires) {
        Ok(Some(ask)) => return Ok(Some(ask)),
        Ok(None) => return Ok(None),
        Err(fault) => return Err(fault),
    }
}

/// The operation of a word behind which stands the file alone.
fn bare_op(word: &[u8]) -> Option<Op>
    ensures some { IfSome result (IsBare word.now) }
    ensures none { IfNone result ((op : Op) → IsBare word.now op → ⊥) }
{
    if is_word(word, b"info".as_slice()) {
        return Some(Op::Info);
    }
    if is_word(word, b"get".as_slice()) {
        return Some(Op::Get { most: None });
    }
    if is_word(word, b"getlock".as_slice()) {
        return Some(Op::GetLock);
    }
    if is_word(word, b"delete".as_slice()) {
        return Some(Op::Delete);
    }
    None
}

/// The operation of a word under one lock.
fn locked_op(word: &[u8], id: LockId) -> Option<Op>
    ensures some { IfSome result (IsLocked word.now id) }
    ensures none { IfNone result ((op : Op) → IsLocked word.now id op → ⊥) }
{
    if is_word(word, b"lock".as_slice()) {
        return Some(Op::Lock { id });
    }
    if is_word(word, b"refresh".as_slice()) {
        return Some(Op::Refresh { id });
    }
    if is_word(word, b"unlock".as_slice()) {
        return Some(Op::Unlock { id });
    }
    None
}

/// An operation on a file, where it has neither a lock nor a body.
fn bare_read(alloc: Global, text: &[u8], expires: u64) -> Option<ForeignAsk>
    ensures some { IfSome result (Asks text.now expires) }
    ensures none { IfNone result ((ask : ForeignAsk) → IsBareOp ask.op → IsAsked (words_of text.now) ask → ⊥) }
{
    let Some((kind, id)) = two_words(text) else {
        return None;
    };
    let Ok(file) = id_read(id) else {
        return None;
    };
    let Some(op) = bare_op(kind) else {
        return None;
    };
    Some(ForeignAsk {
        expires,
        file,
        op,
        body: Bytes::from_vec(Vec::new(alloc)),
        target: None,
    })
}

/// An operation on a file under one lock, without a body.
fn locked_read(alloc: Global, text: &[u8], expires: u64) -> Option<ForeignAsk>
    ensures some { IfSome result (Asks text.now expires) }
    ensures none { IfNone result ((ask : ForeignAsk) → IsLockedOp ask.op → IsAsked (words_of text.now) ask → ⊥) }
{
    let Some((kind, id, lock)) = three_words(text) else {
        return None;
    };
    let Ok(file) = id_read(id) else {
        return None;
    };
    let Some(lock) = lock_read(lock) else {
        return None;
    };
    let Some(op) = locked_op(kind, lock) else {
        return None;
    };
    Some(ForeignAsk {
        expires,
        file,
        op,
        body: Bytes::from_vec(Vec::new(alloc)),
        target: None,
    })
}

/// An UnlockAndRelock.
fn relock_read(alloc: Global, text: &[u8], expires: u64) -> Option<ForeignAsk>
    ensures some { IfSome result (Asks text.now expires) }
    ensures none { IfNone result ((ask : ForeignAsk) → IsRelock ask.op → IsAsked (words_of text.now) ask → ⊥) }
{
    let Some((kind, id, old, new)) = four_words(text) else {
        return None;
    };
    if !is_word(kind, b"relock".as_slice()) {
        return None;
    }
    let Ok(file) = id_read(id) else {
        return None;
    };
    let Some(old) = lock_read(old) else {
        return None;
    };
    let Some(id) = lock_read(new) else {
        return None;
    };
    Some(ForeignAsk {
        expires,
        file,
        op: Op::Relock { old, id },
        body: Bytes::from_vec(Vec::new(alloc)),
        target: None,
    })
}

/// A PutFile.
fn put_read(alloc: Global, text: &[u8], expires: u64) -> Result<Option<ForeignAsk>, Memory>
    ensures some { IfOk result (λ read. IfSome read (Asks text.now expires)) }
    ensures none { IfOk result (λ read. IfNone read ((ask : ForeignAsk) → IsPut ask.op → IsAsked (words_of text.now) ask → ⊥)) }
{
    let Some((kind, id, lock, digits)) = four_words(text) else {
        return Ok(None);
    };
    if !is_word(kind, b"put".as_slice()) {
        return Ok(None);
    }
    let Ok(file) = id_read(id) else {
        return Ok(None);
    };
    let Some(lock) = lock_or_none_read(lock) else {
        return Ok(None);
    };
    let Some(body) = contents_read(alloc, digits)? else {
        return Ok(None);
    };
    Ok(Some(ForeignAsk {
        expires,
        file,
        op: Op::Put { lock },
        body,
        target: None,
    }))
}

/// A PutRelativeFile.
fn copy_read(alloc: Global, text: &[u8], expires: u64) -> Result<Option<ForeignAsk>, Memory>
    ensures some { IfOk result (λ read. IfSome read (Asks text.now expires)) }
    ensures none { IfOk result (λ read. IfNone read ((ask : ForeignAsk) → IsCopy ask.op → IsAsked (words_of text.now) ask → ⊥)) }
{
    let Some((kind, id, target, overwrite, digits)) = five_words(text) else {
        return Ok(None);
    };
    if !is_word(kind, b"relative".as_slice()) {
        return Ok(None);
    }
    let Ok(file) = id_read(id) else {
        return Ok(None);
    };
    let Ok(name) = id_read(target) else {
        return Ok(None);
    };
    let Some(overwrite) = yes_or_no_read(overwrite) else {
        return Ok(None);
    };
    let Some(body) = contents_read(alloc, digits)? else {
        return Ok(None);
    };
    let carried = carried(name.as_slice());
    let target = name_read(carried);
    let name = Bytes::from_slice(alloc, carried)?;
    Ok(Some(ForeignAsk {
        expires,
        file,
        op: Op::PutRelative {
            target: Target::Relative { name, overwrite },
        },
        body,
        target,
    }))
}

/// The name without the spaces at its front, as a header carries it.
fn carried(name: &[u8]) -> &[u8]
    ensures { result.now ≡ carried name.now }
{
    let mut front = 0usize;
    'spaces: while front < name.len() && name[front] == b' ' {
        front += 1;
    }
    &name[front..]
}

/// The name that these bytes are, if a file can have it.
fn name_read(bytes: &[u8]) -> Option<FileName>
    ensures exact { IsSome result ↔ IsFileName bytes.now }
    ensures value { IfSome result (λ name. name ≡ bytes.now) }
{
    match FileName::read(bytes) {
        Ok(name) => return Some(name),
        Err(_) => return None,
    }
}
