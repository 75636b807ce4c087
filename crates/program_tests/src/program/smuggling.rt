//! Requests whose end two readers may see at different places. Behind each stands a whole request: it is never
//! answered, since the reply to what came before it closes the connection.
use super::{Left, TOKEN, joined, once};
use std::alloc::Global;
use std::sync::Wait;
use std::test::Fail;
use std::thread::Threads;
use wopi_text::Memory;

const BAD: &str = "HTTP/1.1 400 Bad Request\r\nContent-Length: 0\r\nConnection: close\r\n\r\n";

const UNKNOWN: &str =
    "HTTP/1.1 501 Not Implemented\r\nContent-Length: 0\r\nConnection: close\r\n\r\n";

/// What `once` leaves of a POST with these lines in its head and these bytes behind it, and then a deletion of the
/// folder's file.
fn smuggled<'a, R: Threads + Wait + Sync>(
    rt: &R,
    alloc: Global,
    lines: &'a str,
    behind: &'a str,
) -> Result<Left, Memory> {
    let parts = [
        "POST / HTTP/1.1\r\nHost: h\r\n",
        lines,
        "\r\n",
        behind,
        "POST /wopi/files/612e637376?access_token=",
        TOKEN,
        " HTTP/1.1\r\nHost: h\r\nX-WOPI-Override: DELETE\r\n\r\n",
    ];
    once(rt, alloc, &joined(alloc, &parts)?)
}

/// Whether the one reply is this, and the file is there.
fn is_left(left: &Left, reply: &str) -> bool {
    left.status == 0
        && left.output.as_slice() == reply.as_bytes()
        && left.kept("a.csv") == b"1,2\n".as_slice()
}

#[test]
fn two_lengths_close(rt: HostRuntime) -> Result<(), Fail> {
    for lines in [
        "Content-Length: 0\r\nContent-Length: 5\r\n",
        "Content-Length: 5\r\nContent-Length: 5\r\n",
        "Content-Length: 5\r\ncontent-length: 0\r\n",
        "Content-Length: 0, 5\r\n",
    ] {
        let left = smuggled(&rt, rt.alloc(), lines, "12345")?;
        assert!(rt; is_left(&left, BAD), "{lines}");
    }
    Ok(())
}

#[test]
fn a_length_beside_chunks_closes(rt: HostRuntime) -> Result<(), Fail> {
    for lines in [
        "Content-Length: 5\r\nTransfer-Encoding: chunked\r\n",
        "Transfer-Encoding: chunked\r\nContent-Length: 5\r\n",
        "Transfer-Encoding: identity\r\nContent-Length: 5\r\n",
        "Transfer-Encoding:\r\nContent-Length: 5\r\n",
    ] {
        let left = smuggled(&rt, rt.alloc(), lines, "0\r\n\r\n")?;
        assert!(rt; is_left(&left, BAD), "{lines}");
    }
    Ok(())
}

#[test]
fn another_spelling_of_chunked_closes(rt: HostRuntime) -> Result<(), Fail> {
    for lines in [
        "Transfer-Encoding: xchunked\r\n",
        "Transfer-Encoding: chunkedx\r\n",
        "Transfer-Encoding: chunked;\r\n",
        "Transfer-Encoding: chunked;q=1\r\n",
        "Transfer-Encoding: \"chunked\"\r\n",
        "Transfer-Encoding: 'chunked'\r\n",
        "Transfer-Encoding: chun ked\r\n",
        "Transfer-Encoding: chunked, chunked\r\n",
        "Transfer-Encoding: ,chunked\r\n",
        "Transfer-Encoding: chunked,\r\n",
        "Transfer-Encoding: identity, chunked\r\n",
        "Transfer-Encoding: chunked, identity\r\n",
        "Transfer-Encoding: identity\r\n",
        "Transfer-Encoding:\r\n",
        "Transfer-Encoding: chunked\r\nTransfer-Encoding: identity\r\n",
        "Transfer-Encoding: identity\r\nTransfer-Encoding: chunked\r\n",
        "Transfer-Encoding: chunked\r\ntransfer-encoding: chunked\r\n",
        "Transfer-Encoding: \u{7f}chunked\r\n",
    ] {
        let left = smuggled(&rt, rt.alloc(), lines, "0\r\n\r\n")?;
        let reply = if lines.contains('\u{7f}') {
            BAD
        } else {
            UNKNOWN
        };
        assert!(rt; is_left(&left, reply), "{lines}");
    }
    Ok(())
}

#[test]
fn a_space_before_the_colon_closes(rt: HostRuntime) -> Result<(), Fail> {
    for lines in [
        "Transfer-Encoding : chunked\r\n",
        "Transfer-Encoding\r\n: chunked\r\n",
        "Transfer-Encoding\t: chunked\r\n",
        "Transfer-Encoding \r\n : chunked\r\n",
        "Content-Length : 5\r\n",
        "A: b\r\n Transfer-Encoding: chunked\r\n",
        "Transfer Encoding: chunked\r\n",
        ": chunked\r\n",
    ] {
        let left = smuggled(&rt, rt.alloc(), lines, "0\r\n\r\n")?;
        assert!(rt; is_left(&left, BAD), "{lines}");
    }
    Ok(())
}

#[test]
fn obsolete_folding_closes(rt: HostRuntime) -> Result<(), Fail> {
    for lines in [
        "Transfer-Encoding:\r\n chunked\r\n",
        "Transfer-Encoding: chunked\r\n , identity\r\n",
        "Content-Length: 1\r\n 0\r\n",
        "Content-Length:\r\n\t5\r\n",
        "A: b\r\n\tContent-Length: 5\r\n",
    ] {
        let left = smuggled(&rt, rt.alloc(), lines, "0\r\n\r\n")?;
        assert!(rt; is_left(&left, BAD), "{lines}");
    }
    Ok(())
}

#[test]
fn chunk_sizes_out_of_form_close(rt: HostRuntime) -> Result<(), Fail> {
    for behind in [
        "\r\n0\r\n\r\n",
        " 0\r\n\r\n",
        "+0\r\n\r\n",
        "-1\r\n\r\n",
        "0x0\r\n\r\n",
        "0_0\r\n\r\n",
        "\00\r\n\r\n",
        "10000000000000000\r\n\r\n",
        "0\r\nA : b\r\n\r\n",
    ] {
        let left = smuggled(&rt, rt.alloc(), "Transfer-Encoding: chunked\r\n", behind)?;
        assert!(rt; is_left(&left, BAD), "{behind:?}");
    }
    Ok(())
}
