//! Rulings told as answers.
ghost use Rattle.std.specs.Prelude.{◌≡◌, ◌==◌, [], IfOk, codes, true, unwrap_or, if◌then◌else◌};
ghost use Rattle.wopi_headers.specs.declared.answer.BodyKind.TheVariants.{Plain};
ghost use Rattle.file_info.specs.Info.{HasTexts};
ghost use Rattle.host_server.specs.Editing.{last_in, may_tell};
ghost use Rattle.wopi_acts.specs.Answers.{status_only, kind_of_contents, ruling_told};
ghost use Rattle.host_server.specs.Telling.{journal_full, info_of, info_told_to};

use crate::editing::info_body;
use access_tokens::Token;
use file_info::{Info, Saved};
use host_core::Ruling;
use std::alloc::Global;
use wopi_headers::{Answer, BodyKind, version_text};
use wopi_text::{Bytes, FileName, LockField, Memory};

/// Who owns every file.
const OWNER: &[u8] = b"owner";

/// An answer that tells nothing but its status.
pub fn status_only(alloc: Global, status: u16) -> Answer
    ensures { result ≡ status_only status }
{
    Answer {
        status,
        lock: LockField::Absent,
        reason: None,
        version: None,
        kind: BodyKind::None,
        body: Bytes::from_vec(Vec::new(alloc)),
    }
}

/// The answer where a shard takes no more.
pub fn journal_full(alloc: Global) -> Result<Answer, Memory>
    ensures { IfOk result (λ a. a ≡ journal_full) }
{
    let body = Bytes::from_slice(alloc, b"journal full")?;
    Ok(Answer {
        status: 500,
        lock: LockField::Absent,
        reason: None,
        version: None,
        kind: BodyKind::Plain,
        body,
    })
}

/// The kind and the body of the answer that tells a ruling of this status.
fn body_told(
    alloc: Global,
    status: u16,
    contents: Option<Bytes>,
) -> Result<(BodyKind, Bytes), Memory>
    ensures { IfOk result (λ parts. (parts.0 ≡ (if status == 500 then Plain else kind_of_contents contents))
        × (parts.1 ≡ (if status == 500 then codes "store fault" else unwrap_or contents []))) }
{
    if status == 500 {
        return Ok((BodyKind::Plain, Bytes::from_slice(alloc, b"store fault")?));
    }
    match contents {
        Some(contents) => Ok((BodyKind::Octets, contents)),
        None => Ok((BodyKind::None, Bytes::from_vec(Vec::new(alloc)))),
    }
}

/// The answer that tells a ruling. Contents are moved into it. Most rulings tell no lock, and then no place of one is moved.
pub fn ruling_told(alloc: Global, ruling: Ruling) -> Result<Answer, Memory>
    ensures { IfOk result (λ a. a ≡ ruling_told ruling) }
{
    let (kind, body) = body_told(alloc, ruling.status, ruling.contents)?;
    match &ruling.lock {
        LockField::Absent => {
            return Ok(Answer {
                status: ruling.status,
                lock: LockField::Absent,
                reason: ruling.reason,
                version: ruling.version,
                kind,
                body,
            });
        }
        _ => {
            return Ok(Answer {
                status: ruling.status,
                lock: ruling.lock,
                reason: ruling.reason,
                version: ruling.version,
                kind,
                body,
            });
        }
    }
}

/// What is told of the file of that name.
fn info_of(
    alloc: Global,
    name: &FileName,
    token: &Token,
    version: u64,
    size: u64,
) -> Result<Info, Memory>
    ensures info { IfOk result (λ info. info ≡ info_of name.now token.now version size) }
    ensures texts { IfOk result HasTexts }
{
    Ok(Info {
        name: Bytes::from_slice(alloc, name.as_slice())?,
        owner: Bytes::from_slice(alloc, OWNER)?,
        user: Bytes::from_slice(alloc, token.user.as_slice())?,
        version: version_text(alloc, version)?,
        size,
        can_write: token.write,
    })
}

/// The answer that tells CheckFileInfo's ruling, by whether the host serves editors, in which page, and what it tells of the
/// file's last save. Its body has the version, and no field has it.
pub fn info_told(
    alloc: Global,
    editor: bool,
    origin: &Option<Bytes>,
    saved: &Option<Saved>,
    name: &FileName,
    token: &Token,
    ruling: Ruling,
) -> Result<Answer, Memory>
    requires { may_tell origin.now ≡ true }
    ensures { IfOk result (λ a. a ≡ info_told_to editor origin.now (last_in saved.now) name.now token.now ruling) }
{
    let accepted = ruling.status == 200;
    let version = ruling.version.unwrap_or(0);
    let size = ruling.size;
    let mut answer = ruling_told(alloc, ruling)?;
    if accepted {
        let info = info_of(alloc, name, token, version, size)?;
        answer.version = None;
        answer.kind = BodyKind::Json;
        answer.body = info_body(alloc, editor, origin, saved, &info)?;
    }
    Ok(answer)
}
