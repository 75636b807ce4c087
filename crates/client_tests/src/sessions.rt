use save_session::{Input, Nonce, Outcome, Output, Session};
use std::alloc::Global;
use std::test::Fail;
use wopi_headers::{Answer, BodyKind, Op};
use wopi_text::{Bytes, LockField, LockId, Memory};

fn answer(alloc: Global, status: u16, lock: LockField, body: &[u8]) -> Result<Input, Memory> {
    Ok(Input::Reply(Answer {
        status,
        lock,
        reason: None,
        version: Some(1),
        kind: BodyKind::Octets,
        body: Bytes::from_slice(alloc, body)?,
    }))
}

fn accepted(alloc: Global) -> Result<Input, Memory> {
    answer(alloc, 200, LockField::Absent, b"")
}

/// The name of the operation that was sent, and the lock id that it presents or takes.
fn sent(output: &Output) -> (&'static str, &[u8]) {
    match output {
        Output::Send(Op::Info) => ("info", &[]),
        Output::Send(Op::Get { .. }) => ("get", &[]),
        Output::Send(Op::Lock { id }) => ("lock", id.as_slice()),
        Output::Send(Op::Put { lock: Some(id) }) => ("put", id.as_slice()),
        Output::Send(Op::Relock { id, .. }) => ("relock", id.as_slice()),
        _ => ("none", &[]),
    }
}

#[test]
fn two_saves_go_out_under_two_ids(rt: HostRuntime) -> Result<(), Fail> {
    let alloc = rt.alloc();
    let Some(nonce) = Nonce::read(b"n7") else {
        return Ok(assert!(rt; false));
    };
    assert!(rt; nonce.as_slice() == b"n7".as_slice());
    let mut session = Session::new(nonce);
    assert!(rt; sent(&session.step(Input::Start)).0 == "info");
    assert!(rt; sent(&session.step(accepted(alloc)?)) == ("lock", b"n7-1".as_slice()));
    assert!(rt; sent(&session.step(accepted(alloc)?)).0 == "get");
    let read = answer(alloc, 200, LockField::Absent, b"1,2")?;
    assert!(rt;
        matches!(
            session.step(read),
            Output::Tell(Outcome::Opened { version: Some(1) })
        )
    );
    assert!(rt; session.contents() == b"1,2".as_slice());
    let first = Input::Save(Bytes::from_slice(alloc, b"3")?);
    assert!(rt; sent(&session.step(first)) == ("put", b"n7-1".as_slice()));
    assert!(rt; session.body() == b"3".as_slice());
    assert!(rt;
        matches!(
            session.step(accepted(alloc)?),
            Output::Tell(Outcome::Saved { .. })
        )
    );
    assert!(rt; session.body().is_empty());
    let second = Input::Save(Bytes::from_slice(alloc, b"4")?);
    assert!(rt; sent(&session.step(second)) == ("relock", b"n7-2".as_slice()));
    assert!(rt; session.body().is_empty());
    let Some(next) = LockId::read(b"n7-2") else {
        return Ok(assert!(rt; false));
    };
    let relocked = answer(alloc, 409, LockField::Held(next), b"")?;
    assert!(rt; sent(&session.step(relocked)) == ("put", b"n7-2".as_slice()));
    assert!(rt; session.body() == b"4".as_slice());
    Ok(())
}
