//! What commands write and send.
use super::{ACCEPTED, CONTENTS, INFO, Left, dialer, editor, run};
use grid_editor::{EditFault, Script, Went};
use outside::{MemSink, ScriptDialer};
use std::alloc::Global;
use std::process::Abort;
use std::test::Fail;
use wopi_text::Bytes;

const PUT: &[u8] = b"POST /wopi/files/612e637376/contents?access_token=t0 HTTP/1.1\r\n\
Host: localhost:8880\r\nX-WOPI-Override: PUT\r\nX-WOPI-Lock: n-1\r\nContent-Length: 4\r\nConnection: close\r\n\r\n1,9\n";

const SAVED: &[u8] = b"HTTP/1.1 200 OK\r\nContent-Length: 0\r\nX-WOPI-ItemVersion: v3\r\n\r\n";

const COPIED: &[u8] =
    b"HTTP/1.1 200 OK\r\nContent-Length: 33\r\n\r\n{\"Name\":\"b.csv\",\"Url\":\"http://h\"}  ";

fn expect(rt: &impl Abort, left: &Left, written: &[u8], requests: usize) -> Result<(), Fail> {
    assert!(rt; left.output.as_slice() == written);
    assert!(rt; left.dialer.exchanges().len() == requests);
    Ok(())
}

#[test]
fn a_sheet_is_opened_edited_saved_and_closed(rt: HostRuntime) -> Result<(), Fail> {
    let text = b"open\nset 1 2 9\nsave\nset 1 1 7\nsave\nsaveas b.csv\nrefresh\nclose\n";
    let replies = [
        INFO, ACCEPTED, CONTENTS, ACCEPTED, ACCEPTED, SAVED, COPIED, ACCEPTED, ACCEPTED,
    ];
    let left = run(rt.alloc(), text, &replies)?;
    assert!(rt; matches!(left.end, Ok(Went::On)));
    expect(
        &rt,
        &left,
        b"opened v1 1\nsaved v2\nsaved v3\nsaved as b.csv\nrefreshed\nclosed\n",
        9,
    )?;
    let exchanges = left.dialer.exchanges();
    assert!(rt; exchanges.len() > 3);
    assert!(rt; exchanges[3].request.as_slice() == PUT);
    Ok(())
}

#[test]
fn a_sheet_over_the_limits_may_only_be_closed(rt: HostRuntime) -> Result<(), Fail> {
    let alloc = rt.alloc();
    let mut wide =
        b"HTTP/1.1 200 OK\r\nContent-Length: 1025\r\nX-WOPI-ItemVersion: v1\r\n\r\n".to_vec(alloc)?;
    for _ in 0..1024 {
        wide.push(b',')?;
    }
    wide.push(b'\n')?;
    let text = b"open\nshow\nopen\nsave\nrefresh\nclose\nclose\n";
    let left = run(alloc, text, &[INFO, ACCEPTED, &wide, ACCEPTED])?;
    assert!(rt; matches!(left.end, Ok(Went::On)));
    expect(
        &rt,
        &left,
        b"too many\nnot open\nnot open\nnot open\nnot open\nclosed\nnot open\n",
        4,
    )
}
