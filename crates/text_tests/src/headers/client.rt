//! What a client asks, and what it is told.
use std::alloc::Global;
use std::test::Fail;
use wopi_headers::{
    Answer, Ask, BodyKind, Op, Target, answer_of, ask_of, request_bytes, request_of, version_text,
};
use wopi_http::{Field, Fields, Reply};
use wopi_text::{Bytes, FileName, LockField, LockId, Memory, Reason};

/// An ask of the file `a.csv`.
fn ask(alloc: Global, op: Op) -> Result<Ask, Fail> {
    Ok(Ask {
        file: FileName::read(b"a.csv")?,
        token: Bytes::from_slice(alloc, b"t 0+~")?,
        op,
    })
}

fn id(bytes: &[u8]) -> Result<LockId, Fail> {
    match LockId::read(bytes) {
        Some(id) => Ok(id),
        None => Err(Fail::from("no lock id")),
    }
}

/// The text of the request for an operation.
fn asked(alloc: Global, op: Op, body: &[u8]) -> Result<Bytes, Fail> {
    Ok(request_bytes(alloc, &ask(alloc, op)?, "h:80", body)?)
}

#[test]
fn requests_as_a_client_writes_them(rt: HostRuntime) -> Result<(), Fail> {
    let alloc = rt.alloc();
    assert!(rt;
        asked(alloc, Op::Get { most: Some(9) }, b"")?.as_slice()
            == b"GET /wopi/files/612e637376/contents?access_token=t%200%2B~ HTTP/1.1\r\nHost: h:80\r\nX-WOPI-MaxExpectedSize: 9\r\nConnection: close\r\n\r\n".as_slice()
    );
    let relock = Op::Relock {
        old: id(b"n-1")?,
        id: id(b"n-2")?,
    };
    assert!(rt;
        asked(alloc, relock, b"")?.as_slice()
            == b"POST /wopi/files/612e637376?access_token=t%200%2B~ HTTP/1.1\r\nHost: h:80\r\nX-WOPI-Override: LOCK\r\nX-WOPI-Lock: n-2\r\nX-WOPI-OldLock: n-1\r\nContent-Length: 0\r\nConnection: close\r\n\r\n".as_slice()
    );
    let target = Target::Relative {
        name: Bytes::from_slice(alloc, "é.csv".as_bytes())?,
        overwrite: false,
    };
    assert!(rt;
        asked(alloc, Op::PutRelative { target }, b"x")?.as_slice()
            == b"POST /wopi/files/612e637376?access_token=t%200%2B~ HTTP/1.1\r\nHost: h:80\r\nX-WOPI-Override: PUT_RELATIVE\r\nX-WOPI-RelativeTarget: +AOk-.csv\r\nX-WOPI-OverwriteRelativeTarget: false\r\nContent-Length: 1\r\nConnection: close\r\n\r\nx".as_slice()
    );
    assert!(rt; version_text(alloc, 12)?.as_slice() == b"v12".as_slice());
    Ok(())
}

#[test]
fn a_save_is_asked_for_with_its_lock_and_its_body(rt: HostRuntime) -> Result<(), Fail> {
    let alloc = rt.alloc();
    let put = Op::Put {
        lock: Some(id(b"n-1")?),
    };
    let request = request_of(alloc, &ask(alloc, put)?, "h:80", b"1,9\n")?;
    assert!(rt; request.body.as_slice() == b"1,9\n".as_slice());
    let back = ask_of(alloc, &request)?;
    assert!(rt; back.file.as_str() == "a.csv");
    assert!(rt; back.token.as_slice() == b"t 0+~".as_slice());
    match &back.op {
        Op::Put { lock: Some(lock) } => assert!(rt; lock.as_slice() == b"n-1".as_slice()),
        _ => assert!(rt; false),
    }
    Ok(())
}

/// What a reply with these fields tells.
fn told(alloc: Global, named: &[(&str, &str)], body: &[u8]) -> Result<Answer, Memory> {
    let mut fields = Fields::new(alloc);
    for (name, value) in named {
        let name = Bytes::from_slice(alloc, name.as_bytes())?;
        let value = Bytes::from_slice(alloc, value.as_bytes())?;
        fields.push(Field { name, value })?;
    }
    let body = Bytes::from_slice(alloc, body)?;
    Ok(answer_of(Reply {
        status: 409,
        fields,
        body,
    }))
}

#[test]
fn fields_of_a_reply_are_told_in_any_order_and_case(rt: HostRuntime) -> Result<(), Fail> {
    let alloc = rt.alloc();
    let named = [
        ("server", "nginx"),
        ("x-wopi-itemversion", "v7"),
        ("x-wopi-lockfailurereason", "lock id spent"),
        ("X-Wopi-Lock", "L2"),
        ("content-type", "text/plain"),
    ];
    let answer = told(alloc, &named, b"x")?;
    assert!(rt; answer.status == 409);
    assert!(rt; answer.version == Some(7));
    assert!(rt; answer.reason == Some(Reason::Spent));
    assert!(rt; answer.kind == BodyKind::Plain);
    match &answer.lock {
        LockField::Held(lock) => assert!(rt; lock.as_slice() == b"L2".as_slice()),
        LockField::Absent | LockField::Empty => assert!(rt; false),
    }
    Ok(())
}
