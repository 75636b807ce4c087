//! What editors are told of their calls.
ghost use Rattle.std.specs.Prelude.{◌≡◌, IfOk, IfSome, is_some, true};
ghost use Rattle.wopi_model.specs.Moment.{IsMoment};
ghost use Rattle.host_server.specs.Asking.{asks_info, asks_save};
ghost use Rattle.host_server.specs.Editing.{last_in, last_of, may_tell};
ghost use Rattle.host_server.specs.Telling.{late_told, save_told, told_by};

use crate::telling::{info_told, ruling_told};
use access_tokens::Token;
use file_info::{Saved, save_text};
use host_core::{Digest, EditorReceipt, Facts, Ruling};
use std::alloc::Global;
use wopi_headers::{Answer, BodyKind, Op, Suite};
use wopi_text::{Bytes, FileName, Memory, Reason};

pub fn is_info(op: &Op) -> bool
    ensures { result ≡ asks_info op.now }
{
    matches!(op, Op::Info)
}

fn is_save(op: &Op) -> bool
    ensures { result ≡ asks_save op.now }
{
    matches!(op, Op::Put { lock: _ })
}

/// When a file was last saved and the digest of its contents, where both are told.
fn saved_in(facts: Option<Facts>) -> Option<Saved>
    requires { IfSome facts (λ told. IsMoment told.saved) }
    ensures { last_in result ≡ last_of facts }
{
    let facts = facts?;
    let Digest { bytes } = facts.digest?;
    Some(Saved {
        moment: facts.saved,
        digest: bytes,
    })
}

/// The answer to a save. Where it was accepted, its body tells when that was.
fn save_told(alloc: Global, facts: Option<Facts>, ruling: Ruling) -> Result<Answer, Memory>
    requires { IfSome facts (λ told. IsMoment told.saved) }
    ensures { IfOk result (λ a. a ≡ save_told facts ruling) }
{
    let Some(facts) = facts else {
        return ruling_told(alloc, ruling);
    };
    let accepted = ruling.status == 200;
    let mut answer = ruling_told(alloc, ruling)?;
    if accepted {
        answer.kind = BodyKind::Json;
        answer.body = save_text(alloc, facts.saved)?;
    }
    Ok(answer)
}

/// The answer to a save that came too late, by what the look at the file's lock was ruled.
fn late_told(alloc: Global, suite: Suite, ruling: Ruling) -> Result<Answer, Memory>
    ensures { IfOk result (λ a. a ≡ late_told suite ruling) }
{
    if ruling.status != 200 {
        return ruling_told(alloc, ruling);
    }
    Ok(Answer {
        status: 409,
        lock: ruling.lock,
        reason: Some(Reason::Changed),
        version: None,
        kind: BodyKind::Json,
        body: Bytes::from_slice(alloc, suite.changed_text().as_bytes())?,
    })
}

/// The answer to a call of an editor in a page of that origin, which goes by that name.
pub fn told_by(
    alloc: Global,
    origin: &Option<Bytes>,
    suite: Suite,
    op: &Op,
    name: &FileName,
    token: &Token,
    told: EditorReceipt,
) -> Result<Answer, Memory>
    requires page { may_tell origin.now ≡ true }
    requires timed { IfSome told.facts (λ facts. IsMoment facts.saved) }
    ensures { IfOk result (λ a. a ≡ told_by origin.now suite (is_some told.late) (asks_info op.now) (asks_save op.now) name.now token.now told.facts told.receipt.ruling) }
{
    let EditorReceipt {
        receipt,
        late,
        facts,
    } = told;
    if late.is_some() {
        return late_told(alloc, suite, receipt.ruling);
    }
    if is_info(op) {
        let saved = saved_in(facts);
        return info_told(alloc, true, origin, &saved, name, token, receipt.ruling);
    }
    if is_save(op) {
        return save_told(alloc, facts, receipt.ruling);
    }
    ruling_told(alloc, receipt.ruling)
}
