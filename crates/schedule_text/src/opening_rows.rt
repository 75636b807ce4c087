//! The lines of the files and of the sessions.
ghost use Rattle.std.specs.Prelude.{◌≡◌, ◌≢◌, length, IfOk, IfSome, IfNone};
ghost use Rattle.schedule_text.specs.declared.schedule.FileLine.{FileLine};
ghost use Rattle.schedule_text.specs.declared.schedule.SessionLine.{SessionLine};
ghost use Rattle.schedule_text.specs.Grammar.{IsFileRow, IsSessionRow, words_of};
ghost use Rattle.schedule_text.specs.RowKinds.{AreSessionWords};

use crate::schedule::{FileLine, SessionLine};
use crate::values::contents_read;
use line_text::{five_words, four_words, is_word, moment_read, three_words};
use save_session::Nonce;
use std::alloc::Global;
use wopi_text::{Memory, id_read};

/// The file that a line tells of, if it is such a line.
pub(crate) fn file_read(alloc: Global, row: &[u8]) -> Result<Option<FileLine>, Memory>
    ensures some { IfOk result (λ read. IfSome read (IsFileRow row.now)) }
    ensures none { IfOk result (λ read. IfNone read ((file : FileLine) → IsFileRow row.now file → ⊥)) }
{
    let Some((kind, id, digits)) = three_words(row) else {
        return Ok(None);
    };
    if !is_word(kind, b"file".as_slice()) {
        return Ok(None);
    }
    let Ok(name) = id_read(id) else {
        return Ok(None);
    };
    let Some(contents) = contents_read(alloc, digits)? else {
        return Ok(None);
    };
    Ok(Some(FileLine { name, contents }))
}

/// The session that the first four words of a line tell of, with a token that was issued then, if they
/// are those of such a line.
fn session_of(
    kind: &[u8],
    id: &[u8],
    nonce: &[u8],
    expires: &[u8],
    issued: u64,
) -> Option<SessionLine>
    ensures some { IfSome result (AreSessionWords kind.now id.now nonce.now expires.now) }
    ensures issued { IfSome result (λ session. session.issued ≡ issued) }
    ensures none { IfNone result ((session : SessionLine) → AreSessionWords kind.now id.now nonce.now expires.now session → ⊥) }
{
    if !is_word(kind, b"session".as_slice()) {
        return None;
    }
    let Ok(file) = id_read(id) else {
        return None;
    };
    let Some(nonce) = Nonce::read(nonce) else {
        return None;
    };
    let Some(expires) = moment_read(expires) else {
        return None;
    };
    Some(SessionLine {
        file,
        nonce,
        expires,
        issued,
    })
}

/// The session that a line with the moment at which its token was issued tells of, if it is such a line.
fn issued_read(row: &[u8]) -> Option<SessionLine>
    ensures some { IfSome result (IsSessionRow row.now) }
    ensures none { IfNone result ((session : SessionLine) → IsSessionRow row.now session → length (words_of row.now) ≢ 5) }
{
    let Some((kind, id, nonce, expires, issued)) = five_words(row) else {
        return None;
    };
    let Some(issued) = moment_read(issued) else {
        return None;
    };
    session_of(kind, id, nonce, expires, issued)
}

/// The session that a line tells of, if it is such a line. It takes no memory.
pub(crate) fn session_read(row: &[u8]) -> Option<SessionLine>
    ensures some { IfSome result (IsSessionRow row.now) }
    ensures none { IfNone result ((session : SessionLine) → IsSessionRow row.now session → ⊥) }
{
    let Some((kind, id, nonce, expires)) = four_words(row) else {
        return issued_read(row);
    };
    session_of(kind, id, nonce, expires, 0)
}
