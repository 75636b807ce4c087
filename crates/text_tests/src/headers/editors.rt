//! What editors say in fields of their own.
use super::{FILE, request};
use std::alloc::Global;
use std::test::Fail;
use wopi_headers::{Answer, BodyKind, Suite, known_in, reply_of};
use wopi_http::Method;
use wopi_text::{Bytes, LockField, LockId, Memory, Reason};

const SAVED: &str = "2026-11-30T18:05:09.1230000Z";

const LATER: &str = "2026-11-30T18:05:09.1240000Z";

/// By which name a save with these fields says when its file was last saved; `none` where it says nothing, and `refused`
/// where that can't be read.
fn said(alloc: Global, named: &[(&str, &str)]) -> Result<&'static str, Memory> {
    let asked = request(alloc, Method::Post, FILE, named)?;
    match known_in(asked.fields.as_slice()) {
        None => Ok("refused"),
        Some(None) => Ok("none"),
        Some(Some(known)) => {
            if known.text != SAVED.as_bytes() {
                return Ok("another");
            }
            match known.suite {
                Suite::Cool => Ok("cool"),
                Suite::Lool => Ok("lool"),
            }
        }
    }
}

#[test]
fn a_save_says_by_either_name_when_its_file_was_saved(rt: HostRuntime) -> Result<(), Fail> {
    let alloc = rt.alloc();
    let cool = ("x-cool-wopi-timestamp", SAVED);
    let lool = ("X-LOOL-WOPI-Timestamp", SAVED);
    assert!(rt; said(alloc, &[])? == "none");
    assert!(rt; said(alloc, &[("X-WOPI-Timestamp", SAVED)])? == "none");
    assert!(rt; said(alloc, &[cool])? == "cool");
    assert!(rt; said(alloc, &[lool])? == "lool");
    assert!(rt; said(alloc, &[lool, cool])? == "cool");
    Ok(())
}

#[test]
fn two_moments_of_one_save_are_refused(rt: HostRuntime) -> Result<(), Fail> {
    let alloc = rt.alloc();
    let cool = ("X-COOL-WOPI-Timestamp", SAVED);
    let lool = ("X-LOOL-WOPI-Timestamp", LATER);
    assert!(rt; said(alloc, &[cool, lool])? == "refused");
    assert!(rt; said(alloc, &[cool, cool])? == "refused");
    assert!(rt; said(alloc, &[lool, lool])? == "refused");
    Ok(())
}

#[test]
fn a_file_that_was_saved_since_is_told_in_words_and_in_json(rt: HostRuntime) -> Result<(), Fail> {
    let answer = Answer {
        status: 409,
        lock: LockField::Held(LockId::read(b"L1").ok_or("an id")?),
        reason: Some(Reason::Changed),
        version: None,
        kind: BodyKind::Json,
        body: Bytes::from_slice(rt.alloc(), Suite::Cool.changed_text().as_bytes())?,
    };
    let reply = reply_of(rt.alloc(), answer, false)?;
    assert!(rt; reply.body.as_slice() == b"{\"COOLStatusCode\":1010}".as_slice());
    assert!(rt; Suite::Lool.changed_text() == "{\"LOOLStatusCode\":1010}");
    let wanted = [
        ("Content-Length", "23"),
        ("Content-Type", "application/json"),
        ("X-WOPI-Lock", "L1"),
        ("X-WOPI-LockFailureReason", "file changed since"),
    ];
    assert!(rt; reply.fields.len() == wanted.len());
    for (field, (name, value)) in reply.fields.as_slice().iter().zip(wanted) {
        assert!(rt; field.name.as_slice() == name.as_bytes());
        assert!(rt; field.value.as_slice() == value.as_bytes());
    }
    Ok(())
}
