//! A save whose body comes in chunks, after the line that asks for it.
use super::{ONCE, TOKEN, joined, lock_request, once, run_with, whole};
use std::alloc::Global;
use std::test::Fail;
use wopi_text::Memory;

const LOCKED: &str = "HTTP/1.1 200 OK\r\nContent-Length: 0\r\nX-WOPI-ItemVersion: v1\r\n\r\n";

const CONTINUE: &str = "HTTP/1.1 100 Continue\r\n\r\n";

const SAVED: &str = "HTTP/1.1 200 OK\r\nContent-Length: 0\r\nX-WOPI-ItemVersion: v2\r\n\r\n";

const BODY: &[u8] = b"4\r\n1,9\n\r\n0\r\n\r\n";

/// The lines that a usual client puts into its heads.
const CURL: &str =
    "User-Agent: curl/8.5.0\r\nAccept: */*\r\nContent-Type: application/octet-stream\r\n";

/// A Lock request, and then the head of a save in chunks with these lines.
fn lock_and_head(alloc: Global, lines: &str) -> Result<Vec<u8>, Memory> {
    let mut input = lock_request(alloc, "L1")?;
    let head = format!(in alloc;
        "POST /wopi/files/612e637376/contents?access_token={TOKEN} HTTP/1.1\r\nHost: localhost:8880\r\n{lines}X-WOPI-Override: PUT\r\nX-WOPI-Lock: L1\r\nExpect: 100-continue\r\nTransfer-Encoding: chunked\r\n\r\n"
    )?;
    input.extend_from_slice(head.as_bytes())?;
    Ok(input)
}

#[test]
fn a_save_in_chunks_parted_anywhere_gets_its_line_and_its_reply(
    rt: HostRuntime,
) -> Result<(), Fail> {
    let alloc = rt.alloc();
    let wanted = format!(in alloc; "{LOCKED}{CONTINUE}{SAVED}")?;
    for lines in ["", CURL] {
        let mut input = lock_and_head(alloc, lines)?;
        input.extend_from_slice(BODY)?;
        let mut given = whole(&input);
        for piece in 1..60 {
            given.piece = piece;
            let left = run_with(&rt, alloc, &ONCE, &given)?;
            assert!(rt; left.status == 0);
            assert!(rt; left.output.as_slice() == wanted.as_bytes(), "by {piece}");
            assert!(rt; left.kept("a.csv") == b"1,9\n".as_slice());
        }
    }
    Ok(())
}
