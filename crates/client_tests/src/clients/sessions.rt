//! A session from its start to its end.
use super::{ACCEPTED, ASK_INFO, CONTENTS, INFO, PUT, desktop, dialer, request, save, session};
use save_session::{Input, Outcome};
use std::test::Fail;
use wopi_client::{DriveFault, drive};
use wopi_text::{LockField, Reason};

const TAKE_LOCK: &[u8] = b"POST /wopi/files/612e637376?access_token=t%200 HTTP/1.1\r\n\
Host: localhost:8880\r\nX-WOPI-Override: LOCK\r\nX-WOPI-Lock: n-1\r\nContent-Length: 0\r\nConnection: close\r\n\r\n";

const GET: &[u8] = b"GET /wopi/files/612e637376/contents?access_token=t%200 HTTP/1.1\r\n\
Host: localhost:8880\r\nConnection: close\r\n\r\n";

const RELOCK: &[u8] = b"POST /wopi/files/612e637376?access_token=t%200 HTTP/1.1\r\n\
Host: localhost:8880\r\nX-WOPI-Override: LOCK\r\nX-WOPI-Lock: n-2\r\nX-WOPI-OldLock: n-1\r\nContent-Length: 0\r\nConnection: close\r\n\r\n";

const SECOND_PUT: &[u8] = b"POST /wopi/files/612e637376/contents?access_token=t%200 HTTP/1.1\r\n\
Host: localhost:8880\r\nX-WOPI-Override: PUT\r\nX-WOPI-Lock: n-2\r\nContent-Length: 4\r\nConnection: close\r\n\r\n7,9\n";

const UNLOCK: &[u8] = b"POST /wopi/files/612e637376?access_token=t%200 HTTP/1.1\r\n\
Host: localhost:8880\r\nX-WOPI-Override: UNLOCK\r\nX-WOPI-Lock: n-2\r\nContent-Length: 0\r\nConnection: close\r\n\r\n";

#[test]
fn the_seven_requests_of_two_saves(rt: HostRuntime) -> Result<(), Fail> {
    let alloc = rt.alloc();
    let desktop = desktop(alloc)?;
    let mut session = session();
    let mut host = dialer(
        alloc,
        &[
            INFO, ACCEPTED, CONTENTS, ACCEPTED, ACCEPTED, ACCEPTED, ACCEPTED,
        ],
    )?;
    let opened = drive(alloc, &desktop, &mut session, &mut host, Input::Start);
    assert!(rt; matches!(opened, Ok(Outcome::Opened { version: Some(1) })));
    assert!(rt; session.contents() == b"1,2\n".as_slice());
    let first = save(alloc, b"1,9\n")?;
    let saved = drive(alloc, &desktop, &mut session, &mut host, first);
    assert!(rt; matches!(saved, Ok(Outcome::Saved { version: Some(2) })));
    let second = save(alloc, b"7,9\n")?;
    let saved = drive(alloc, &desktop, &mut session, &mut host, second);
    assert!(rt; matches!(saved, Ok(Outcome::Saved { .. })));
    let closed = drive(alloc, &desktop, &mut session, &mut host, Input::Close);
    assert!(rt; matches!(closed, Ok(Outcome::Closed)));
    let wanted = [ASK_INFO, TAKE_LOCK, GET, PUT, RELOCK, SECOND_PUT, UNLOCK];
    assert!(rt; host.exchanges().len() == wanted.len());
    for (exchange, text) in host.exchanges().iter().zip(wanted) {
        assert!(rt; exchange.request.as_slice() == text);
    }
    assert!(rt; request(&host, 7) == b"".as_slice());
    Ok(())
}
