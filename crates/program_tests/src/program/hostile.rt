//! Inputs with bytes changed, dropped, doubled and spliced, from fixed seeds: each run ends by a status of its command,
//! and each reply is one that a client reads.
use super::answers::sized;
use super::edits::{CONTENTS, INFO, VERSION_1, VERSION_2, edit};
use super::replays::{LATE, OPENING};
use super::spoiling::{Draws, replaced, spoiled};
use super::{ONCE, TOKEN, joined, once, request_by, requests, run_with, whole};
use std::alloc::Global;
use std::sync::Wait;
use std::test::Fail;
use std::thread::Threads;
use wopi_http::{Reply, ReplyFault, count_named, read_placed_reply};
use wopi_text::Memory;

/// What a host answers where nothing fails and memory is ample.
const ANSWERED: [u16; 8] = [200, 400, 401, 404, 409, 412, 413, 501];

/// Whether a reply, where others come behind it or none, is one of a host's.
fn is_answer(reply: &Reply, is_last: bool) -> bool {
    let fields = reply.fields.as_slice();
    ANSWERED.contains(&reply.status)
        && count_named(fields, b"Content-Length") == 1
        && (is_last || count_named(fields, b"Connection") == 0)
        && (reply.status != 409 || count_named(fields, b"X-WOPI-LockFailureReason") == 1)
}

/// What stands behind the reply that the bytes begin with, where it is one of a host's.
fn behind_answer(alloc: Global, bytes: &[u8]) -> Result<Option<&[u8]>, Memory> {
    match read_placed_reply(alloc, bytes) {
        Ok((reply, at)) => {
            let end = at
                .saturating_add(reply.body.as_slice().len())
                .min(bytes.len());
            let behind = &bytes[end..];
            if is_answer(&reply, behind.is_empty()) {
                Ok(Some(behind))
            } else {
                Ok(None)
            }
        }
        Err(ReplyFault::Bad { .. }) => Ok(None),
        Err(ReplyFault::Memory) => Err(Memory),
    }
}

/// Whether the bytes are replies of a host, one behind the other.
fn are_answers(alloc: Global, bytes: &[u8]) -> Result<bool, Memory> {
    let mut rest = bytes;
    for _ in 0..bytes.len() {
        if rest.is_empty() {
            return Ok(true);
        }
        match behind_answer(alloc, rest)? {
            Some(behind) => rest = behind,
            None => return Ok(false),
        }
    }
    Ok(rest.is_empty())
}

const LOCK: [&str; 4] = [
    "POST",
    "",
    "X-WOPI-Override: LOCK\r\nX-WOPI-Lock: L1\r\n",
    "",
];

/// Requests of every kind.
const REQUESTS: [[&str; 4]; 10] = [
    ["GET", "", "", ""],
    ["GET", "/contents", "X-WOPI-MaxExpectedSize: 9\r\n", ""],
    LOCK,
    [
        "POST",
        "/contents",
        "X-WOPI-Override: PUT\r\nX-WOPI-Lock: L1\r\n",
        "1,9\n",
    ],
    [
        "POST",
        "",
        "X-WOPI-Override: LOCK\r\nX-WOPI-Lock: L2\r\nX-WOPI-OldLock: L1\r\n",
        "",
    ],
    LOCK,
    [
        "POST",
        "",
        "X-WOPI-Override: PUT_RELATIVE\r\nX-WOPI-SuggestedTarget: +AOk-.csv\r\n",
        "x",
    ],
    [
        "POST",
        "",
        "X-WOPI-Override: PUT_RELATIVE\r\nX-WOPI-RelativeTarget: b.csv\r\nX-WOPI-OverwriteRelativeTarget: true\r\n",
        "y",
    ],
    [
        "POST",
        "",
        "X-WOPI-Override: UNLOCK\r\nX-WOPI-Lock: L2\r\n",
        "",
    ],
    ["POST", "", "X-WOPI-Override: DELETE\r\n", ""],
];

/// A save in chunks, which asks for the line before its body.
fn save_in_chunks(alloc: Global) -> Result<Vec<u8>, Memory> {
    joined(
        alloc,
        &[
            "POST /wopi/files/612e637376/contents?access_token=",
            TOKEN,
            " HTTP/1.1\r\nHost: h\r\nX-WOPI-Override: PUT\r\nX-WOPI-Lock: L1\r\nExpect: 100-continue\r\nTransfer-Encoding: chunked\r\n\r\n4;a=b\r\n1,9\n\r\n1\r\n\n\r\n0\r\nA: b\r\n\r\n",
        ],
    )
}

/// Runs `once` on an input that comes in pieces, and says whether it ends well with replies of a host.
fn is_answered<R: Threads + Wait + Sync>(
    rt: &R,
    alloc: Global,
    input: &[u8],
    piece: usize,
) -> Result<bool, Memory> {
    let mut given = whole(input);
    given.piece = piece;
    let left = run_with(rt, alloc, &ONCE, &given)?;
    Ok(left.status == 0 && are_answers(alloc, left.output.as_slice())?)
}

#[test]
fn requests_spoiled_anywhere_get_replies_that_a_client_reads(rt: HostRuntime) -> Result<(), Fail> {
    let alloc = rt.alloc();
    let mut draws = Draws { state: 1 };
    let mut good = requests(alloc, &REQUESTS)?;
    good.extend_from_slice(&save_in_chunks(alloc)?)?;
    for round in 0..300 {
        let from = draws.below(good.len());
        let input = spoiled(alloc, &mut draws, &good[from.min(good.len())..])?;
        assert!(rt; is_answered(&rt, alloc, &input, 700)?, "round {round}");
    }
    Ok(())
}

/// What comes in the place of a byte of a token.
const LETTERS: [&[u8]; 13] = [
    b"", b"0", b"00", b"1", b"a", b"f", b"A", b"r", b"w", b".", b"-", b"_", b"~",
];

const LOCKED: &str = "HTTP/1.1 200 OK\r\nContent-Length: 0\r\nX-WOPI-ItemVersion: v1\r\n\r\n";

const DEAD: &str = "HTTP/1.1 401 Unauthorized\r\nContent-Length: 0\r\n\r\n";

#[test]
fn a_token_changed_anywhere_is_dead(rt: HostRuntime) -> Result<(), Fail> {
    let alloc = rt.alloc();
    let mut draws = Draws { state: 8 };
    for place in 0..TOKEN.len() {
        let letter = draws.one_of(&LETTERS);
        let token = replaced(alloc, TOKEN.as_bytes(), place, 1, letter)?;
        let text = str::from_utf8(&token)?;
        let wanted = if text == TOKEN { LOCKED } else { DEAD };
        let left = once(&rt, alloc, &request_by(alloc, text, &LOCK)?)?;
        assert!(rt;
            left.output.as_slice() == wanted.as_bytes(),
            "place {place}"
        );
    }
    Ok(())
}

#[test]
fn schedules_spoiled_anywhere_end_by_a_status_of_replay(rt: HostRuntime) -> Result<(), Fail> {
    let alloc = rt.alloc();
    let mut draws = Draws { state: 5 };
    let good = joined(
        alloc,
        &[
            OPENING,
            LATE,
            "close 1\ndeliver ^1 13\nanswer ^1\ntick 90\n",
        ],
    )?;
    for round in 0..200 {
        let schedule = spoiled(alloc, &mut draws, &good)?;
        let left = run_with(&rt, alloc, &["replay"], &whole(&schedule))?;
        let output = left.output.as_slice();
        assert!(rt; left.notes.as_slice().is_empty(), "round {round}");
        if left.status == 7 {
            assert!(rt; output.starts_with(b"line "), "round {round}");
            assert!(rt; output.ends_with(b": bad line\n"), "round {round}");
        } else {
            assert!(rt; left.status == 0, "round {round}");
        }
    }
    Ok(())
}
