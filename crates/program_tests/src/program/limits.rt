//! The greatest contents, lock id, connection and journal, and one more.
use super::{TOKEN, lock_request, once};
use std::alloc::Global;
use std::test::Fail;
use wopi_text::Memory;

const LOCKED: &[u8] = b"HTTP/1.1 200 OK\r\nContent-Length: 0\r\nX-WOPI-ItemVersion: v1\r\n\r\n";

/// The head of a save of so many bytes under the lock L1.
fn head(alloc: Global, bytes: usize) -> Result<Vec<u8>, Memory> {
    let text = format!(in alloc;
        "POST /wopi/files/612e637376/contents?access_token={TOKEN} HTTP/1.1\r\nHost: h\r\nX-WOPI-Override: PUT\r\nX-WOPI-Lock: L1\r\nContent-Length: {bytes}\r\n\r\n"
    )?;
    Ok(text.into_bytes())
}

#[test]
fn a_save_has_up_to_sixteen_mebibytes(rt: HostRuntime) -> Result<(), Fail> {
    let alloc = rt.alloc();
    let mut input = lock_request(alloc, "L1")?;
    input.extend_from_slice(&head(alloc, 16_777_216)?)?;
    input.extend_from_slice(&vec![in alloc; b'x'; 16_777_216]?)?;
    input.extend_from_slice(&head(alloc, 16_777_217)?)?;
    let left = once(&rt, alloc, &input)?;
    let wanted =
        "HTTP/1.1 200 OK\r\nContent-Length: 0\r\nX-WOPI-ItemVersion: v1\r\n\r\nHTTP/1.1 200 OK\r\nContent-Length: 0\r\nX-WOPI-ItemVersion: v2\r\n\r\nHTTP/1.1 413 Content Too Large\r\nContent-Length: 0\r\nConnection: close\r\n\r\n";
    assert!(rt; left.output.as_slice() == wanted.as_bytes());
    Ok(())
}

#[test]
fn an_id_has_up_to_1024_bytes(rt: HostRuntime) -> Result<(), Fail> {
    let alloc = rt.alloc();
    let bad = b"HTTP/1.1 400 Bad Request\r\nContent-Length: 0\r\n\r\n".as_slice();
    for (length, wanted) in [(1_024, LOCKED), (1_025, bad)] {
        let bytes = vec![in alloc; b'x'; length]?;
        let request = lock_request(alloc, str::from_utf8(&bytes)?)?;
        let left = once(&rt, alloc, &request)?;
        assert!(rt; left.output.as_slice() == wanted, "{length}");
    }
    Ok(())
}

/// Whether the output is one reply so often, and then another.
fn is_so_often(output: &[u8], times: usize, each: &[u8], last: &[u8]) -> bool {
    let mut rest = output;
    for _ in 0..times {
        match rest.strip_prefix(each) {
            Some(behind) => rest = behind,
            None => return false,
        }
    }
    rest == last
}

#[test]
fn the_ten_thousandth_reply_closes(rt: HostRuntime) -> Result<(), Fail> {
    let alloc = rt.alloc();
    let mut input = Vec::new(alloc);
    for _ in 0..10_001 {
        input.extend_from_slice(b"GET / HTTP/1.1\r\nHost: h\r\n\r\n")?;
    }
    let left = once(&rt, alloc, &input)?;
    let missing = b"HTTP/1.1 404 Not Found\r\nContent-Length: 0\r\n\r\n";
    let closing = b"HTTP/1.1 404 Not Found\r\nContent-Length: 0\r\nConnection: close\r\n\r\n";
    assert!(rt; is_so_often(left.output.as_slice(), 9_999, missing, closing));
    Ok(())
}

#[test]
fn a_shard_takes_as_many_calls_as_its_journal_has_room(rt: HostRuntime) -> Result<(), Fail> {
    let alloc = rt.alloc();
    let request = lock_request(alloc, "L1")?;
    let mut input = Vec::new(alloc);
    for _ in 0..4_097 {
        input.extend_from_slice(&request)?;
    }
    let left = once(&rt, alloc, &input)?;
    let full =
        b"HTTP/1.1 500 Internal Server Error\r\nContent-Length: 12\r\nContent-Type: text/plain\r\n\r\njournal full";
    assert!(rt; is_so_often(left.output.as_slice(), 4_096, LOCKED, full));
    Ok(())
}
