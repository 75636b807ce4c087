//! Lost answers, and replies that can't be read.
use super::{
    ACCEPTED, ASK_INFO, CONTENTS, INFO, INFO_HEAD, PUT, desktop, dialer, request, save, session,
};
use save_session::{Input, Outcome};
use std::alloc::Global;
use std::test::Fail;
use wopi_client::{DriveFault, drive};

/// The contents of a save that was handed back.
fn handed_back(told: &Result<Outcome, DriveFault>) -> &[u8] {
    match told {
        Err(DriveFault::Ignored(Input::Save(contents))) => contents.as_slice(),
        _ => &[],
    }
}

#[test]
fn a_lost_request_is_sent_three_times(rt: HostRuntime) -> Result<(), Fail> {
    let alloc = rt.alloc();
    let desktop = desktop(alloc)?;
    let mut session = session();
    let mut host = dialer(alloc, &[])?;
    let started = drive(alloc, &desktop, &mut session, &mut host, Input::Start);
    assert!(rt; matches!(started, Ok(Outcome::NoAnswer)));
    assert!(rt; host.exchanges().len() == 3);
    for place in 0..3 {
        assert!(rt; request(&host, place) == ASK_INFO);
    }
    let wish = save(alloc, b"1,9\n")?;
    let saved = drive(alloc, &desktop, &mut session, &mut host, wish);
    assert!(rt; handed_back(&saved) == b"1,9\n".as_slice());
    Ok(())
}

#[test]
fn a_save_outlasts_a_bad_reply(rt: HostRuntime) -> Result<(), Fail> {
    let alloc = rt.alloc();
    let desktop = desktop(alloc)?;
    let mut session = session();
    let mut host = dialer(alloc, &[INFO, ACCEPTED, CONTENTS, b"", ACCEPTED, CONTENTS])?;
    let opened = drive(alloc, &desktop, &mut session, &mut host, Input::Start);
    assert!(rt; matches!(opened, Ok(Outcome::Opened { .. })));
    let wish = save(alloc, b"1,9\n")?;
    let saved = drive(alloc, &desktop, &mut session, &mut host, wish);
    assert!(rt; matches!(saved, Err(DriveFault::BadReply { at: 0 })));
    assert!(rt; session.body() == b"1,9\n".as_slice());
    let read = drive(alloc, &desktop, &mut session, &mut host, Input::Read);
    assert!(rt; matches!(read, Ok(Outcome::Read { .. })));
    assert!(rt; request(&host, 3) == PUT);
    assert!(rt; request(&host, 4) == PUT);
    Ok(())
}
