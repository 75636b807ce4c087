use std::alloc::Global;
use std::test::Fail;
use wopi_headers::{Answer, AskFault, BodyKind, Op, ask_of, reply_of};
use wopi_http::{Field, Fields, Method, Request};
use wopi_text::{Bytes, LockField, LockId, Memory, Reason};

mod client;
mod containers;
mod editors;

const FILE: &str = "/wopi/files/612e637376";

fn request(
    alloc: Global,
    method: Method,
    target: &str,
    named: &[(&str, &str)],
) -> Result<Request, Memory> {
    let mut fields = Fields::new(alloc);
    for (name, value) in named {
        let name = Bytes::from_slice(alloc, name.as_bytes())?;
        let value = Bytes::from_slice(alloc, value.as_bytes())?;
        fields.push(Field { name, value })?;
    }
    Ok(Request {
        method,
        target: Bytes::from_slice(alloc, target.as_bytes())?,
        version: 1,
        fields,
        body: Bytes::from_vec(Vec::new(alloc)),
    })
}

fn status(
    alloc: Global,
    method: Method,
    target: &str,
    named: &[(&str, &str)],
) -> Result<u16, Memory> {
    match ask_of(alloc, &request(alloc, method, target, named)?) {
        Ok(_) => Ok(200),
        Err(AskFault::Refused { status }) => Ok(status),
        Err(AskFault::Memory) => Err(Memory),
    }
}

#[test]
fn a_lock_request_names_its_file_its_token_and_its_id(rt: HostRuntime) -> Result<(), Fail> {
    let named = [
        ("x-wopi-override", "LOCK"),
        ("X-WOPI-Lock", "L1"),
        ("X-WOPI-Proof", "c2ln"),
    ];
    let target = "http://h:80/wopi/files/612e637376?a=b&access_token=a%2Bb+c&access_token=d";
    let asked = request(rt.alloc(), Method::Post, target, &named)?;
    let ask = ask_of(rt.alloc(), &asked)?;
    assert!(rt; ask.file.as_str() == "a.csv");
    assert!(rt; ask.token.as_slice() == b"a+b+c".as_slice());
    match &ask.op {
        Op::Lock { id } => assert!(rt; id.as_slice() == b"L1".as_slice()),
        _ => assert!(rt; false),
    }
    Ok(())
}

#[test]
fn a_copy_is_asked_for_by_a_name_in_utf_7_alone(rt: HostRuntime) -> Result<(), Fail> {
    let alloc = rt.alloc();
    let copy = ("X-WOPI-Override", "PUT_RELATIVE");
    for (text, wanted) in [("+AOk-.csv", 200), ("+AOl-", 400)] {
        let named = [copy, ("X-WOPI-SuggestedTarget", text)];
        assert!(rt;
            status(alloc, Method::Post, FILE, &named)? == wanted,
            "{text}"
        );
    }
    Ok(())
}

#[test]
fn a_conflict_carries_its_lock_and_its_reason(rt: HostRuntime) -> Result<(), Fail> {
    let answer = Answer {
        status: 409,
        lock: LockField::Held(LockId::read(b"L1").ok_or("an id")?),
        reason: Some(Reason::Locked),
        version: None,
        kind: BodyKind::None,
        body: Bytes::from_vec(Vec::new(rt.alloc())),
    };
    let reply = reply_of(rt.alloc(), answer, true)?;
    let wanted = [
        ("Content-Length", "0"),
        ("X-WOPI-Lock", "L1"),
        ("X-WOPI-LockFailureReason", "locked"),
        ("Connection", "close"),
    ];
    assert!(rt; reply.fields.len() == wanted.len());
    for (field, (name, value)) in reply.fields.as_slice().iter().zip(wanted) {
        assert!(rt; field.name.as_slice() == name.as_bytes());
        assert!(rt; field.value.as_slice() == value.as_bytes());
    }
    Ok(())
}
