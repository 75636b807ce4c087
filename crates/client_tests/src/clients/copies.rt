//! Copies under another name.
use super::{desktop, dialer, request};
use save_session::Outcome;
use std::test::Fail;
use wopi_client::{AsFault, AsOutcome, save_as};

const COPY: &[u8] = b"POST /wopi/files/612e637376?access_token=t%200 HTTP/1.1\r\n\
Host: localhost:8880\r\nX-WOPI-Override: PUT_RELATIVE\r\nX-WOPI-RelativeTarget: b.csv\r\nX-WOPI-OverwriteRelativeTarget: false\r\nContent-Length: 4\r\nConnection: close\r\n\r\n1,9\n";

#[test]
fn a_copy_is_asked_for_once(rt: HostRuntime) -> Result<(), Fail> {
    let alloc = rt.alloc();
    let desktop = desktop(alloc)?;
    let made =
        b"HTTP/1.1 200 OK\r\nContent-Length: 33\r\n\r\n{\"Name\":\"b.csv\",\"Url\":\"http://h\"}  ";
    let taken =
        b"HTTP/1.1 409 Conflict\r\nContent-Length: 0\r\nX-WOPI-Lock: \r\nX-WOPI-LockFailureReason: name taken\r\n\r\n";
    let odd = b"HTTP/1.1 200 OK\r\nContent-Length: 2\r\n\r\n{}";
    let mut host = dialer(alloc, &[made, taken, odd])?;
    match save_as(alloc, &desktop, &mut host, "b.csv", b"1,9\n") {
        Ok(AsOutcome::Saved { name }) => assert!(rt; name.as_slice() == b"b.csv".as_slice()),
        _ => assert!(rt; false),
    }
    assert!(rt; request(&host, 0) == COPY);
    let refused = save_as(alloc, &desktop, &mut host, "b.csv", b"1,9\n");
    assert!(rt; matches!(refused, Ok(AsOutcome::Other(Outcome::Conflict { .. }))));
    let unread = save_as(alloc, &desktop, &mut host, "b.csv", b"1,9\n");
    assert!(rt; matches!(unread, Err(AsFault::BadReply { at: 38 })));
    let lost = save_as(alloc, &desktop, &mut host, "b.csv", b"1,9\n");
    assert!(rt; matches!(lost, Ok(AsOutcome::Other(Outcome::NoAnswer))));
    assert!(rt; host.exchanges().len() == 4);
    Ok(())
}
