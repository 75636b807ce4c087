//! The command `token`, and what `once` answers to the tokens that it writes.
ghost use Rattle.std.specs.Prelude.{◌≡◌, IfOk, length};

use super::{Fakes, Left, ONCE, clocks, fakes, joined, once, request_by, run_in, run_with, whole};
use outside::MemSink;
use std::alloc::Global;
use std::sync::Wait;
use std::test::Fail;
use std::thread::Threads;

/// The words for the token of the tests.
const WORDS: [&str; 8] = [
    "token",
    "4a656665",
    "ann",
    "a.csv",
    "w",
    "1",
    "253402300000000",
    "253402300799999",
];

/// What the command writes of them.
const TEXT: &str =
    "v2.0.ann.612e637376.w.1.253402300000000.253402300799999.d3b4214de337cbf0652f67ed52815e0780b10913047024cbdc4448712c891e48";

const LOCK: [&str; 4] = [
    "POST",
    "",
    "X-WOPI-Override: LOCK\r\nX-WOPI-Lock: L1\r\n",
    "",
];

const SAVE: [&str; 4] = [
    "POST",
    "/contents",
    "X-WOPI-Override: PUT\r\nX-WOPI-Lock: L1\r\n",
    "",
];

const READ: [&str; 4] = ["GET", "/contents", "", ""];

const USER_INFO: [&str; 4] = ["POST", "", "X-WOPI-Override: PUT_USER_INFO\r\n", ""];

#[test]
fn a_token_is_written_with_a_line_feed(rt: HostRuntime) -> Result<(), Fail> {
    let alloc = rt.alloc();
    let left = run_with(&rt, alloc, &WORDS, &whole(b""))?;
    let wanted = joined(alloc, &[TEXT, "\n"])?;
    assert!(rt; left.status == 0);
    assert!(rt; left.output.as_slice() == wanted.as_slice());
    assert!(rt; left.notes.as_slice() == b"".as_slice());
    Ok(())
}

/// The text that the command writes of its words, without the line feed.
fn written<R: Threads + Wait + Sync>(
    rt: &R,
    alloc: Global,
    words: &[&str],
) -> Result<String, Fail> {
    let left = run_with(rt, alloc, words, &whole(b""))?;
    let text = str::from_utf8(left.output.as_slice())?;
    Ok(String::from_str(alloc, text.trim_end())?)
}

/// The key, the file and the rights of tokens, a request on `a.csv` with such a token, and what the reply begins with.
const COUNTS: [([&str; 3], [&str; 4], &str); 6] = [
    (["4a656665", "a.csv", "w"], LOCK, "HTTP/1.1 200 "),
    (["4a656665", "a.csv", "w"], USER_INFO, "HTTP/1.1 501 "),
    (["4a656666", "a.csv", "w"], LOCK, "HTTP/1.1 401 "),
    (["4a656665", "b.csv", "w"], LOCK, "HTTP/1.1 401 "),
    (["4a656665", "a.csv", "r"], LOCK, "HTTP/1.1 404 "),
    (["4a656665", "a.csv", "r"], READ, "HTTP/1.1 200 "),
];

#[test]
fn a_token_counts_for_its_key_its_file_and_its_rights(rt: HostRuntime) -> Result<(), Fail> {
    let alloc = rt.alloc();
    let (issued, expires) = ("253402300000000", "253402300799999");
    for ([key, name, rights], request, line) in &COUNTS {
        let words = ["token", key, "ann", name, rights, "7", issued, expires];
        let token = written(&rt, alloc, &words)?;
        let input = request_by(alloc, token.as_str(), request)?;
        let left = once(&rt, alloc, &input)?;
        assert!(rt; left.status == 0, "{line}");
        assert!(rt;
            left.output.as_slice().starts_with(line.as_bytes()),
            "{line}"
        );
    }
    Ok(())
}

/// The keys of a host, the keys under which a token is written, and what the reply to its lock begins with.
const EXCHANGES: [[&str; 3]; 6] = [
    ["1:4a656665,0:6b", "6b", "HTTP/1.1 200 "],
    ["1:4a656665,0:6b", "1:4a656665", "HTTP/1.1 200 "],
    ["1:4a656665,0:6b", "1:4a656665,0:6b", "HTTP/1.1 200 "],
    ["1:4a656665,0:6b", "1:6b", "HTTP/1.1 401 "],
    ["1:4a656665", "6b", "HTTP/1.1 401 "],
    ["1:4a656665", "255:4a656665", "HTTP/1.1 401 "],
];

#[test]
fn a_key_is_exchanged_while_the_former_one_stays(rt: HostRuntime) -> Result<(), Fail> {
    let alloc = rt.alloc();
    let (issued, expires) = ("253402300000000", "253402300799999");
    for [host, keys, line] in &EXCHANGES {
        let words = ["token", keys, "ann", "a.csv", "w", "7", issued, expires];
        let token = written(&rt, alloc, &words)?;
        let input = request_by(alloc, token.as_str(), &LOCK)?;
        let words = ["once", ".", host, "http://localhost:8880"];
        let left = run_with(&rt, alloc, &words, &whole(&input))?;
        assert!(rt;
            left.output.as_slice().starts_with(line.as_bytes()),
            "{host} {keys}"
        );
    }
    Ok(())
}

const LOCKED: &str = "HTTP/1.1 200 OK\r\nContent-Length: 0\r\nX-WOPI-ItemVersion: v1\r\n\r\n";

const SAVED: &str = "HTTP/1.1 200 OK\r\nContent-Length: 0\r\nX-WOPI-ItemVersion: v2\r\n\r\n";

const SPENT: &str =
    "HTTP/1.1 409 Conflict\r\nContent-Length: 0\r\nX-WOPI-Lock: \r\nX-WOPI-LockFailureReason: lock id spent\r\n\r\n";

const DEAD: &str = "HTTP/1.1 401 Unauthorized\r\nContent-Length: 0\r\n\r\n";

/// Requests by the first or the second of two tokens, which were issued at 0 and expire at 4,000,000 and 9,000,000.
fn requests_by_two<R: Threads + Wait + Sync>(
    rt: &R,
    alloc: Global,
    requests: &[(usize, [&str; 4])],
) -> Result<Fakes, Fail>
    ensures { IfOk result (λ outside. (length outside.folders.items ≡ 1) × (length outside.clocks.items ≡ 1)) }
{
    let first = [
        "token", "4a656665", "ann", "a.csv", "w", "1", "0", "4000000",
    ];
    let second = [
        "token", "4a656665", "ann", "a.csv", "w", "2", "0", "9000000",
    ];
    let first = written(rt, alloc, &first)?;
    let second = written(rt, alloc, &second)?;
    let mut input = Vec::new(alloc);
    for (number, request) in requests {
        let token = if *number == 1 { &first } else { &second };
        input.extend_from_slice(&request_by(alloc, token.as_str(), request)?)?;
    }
    Ok(fakes(alloc, &whole(&input))?)
}

#[test]
fn an_id_stays_spent_until_its_token_expires(rt: HostRuntime) -> Result<(), Fail> {
    let alloc = rt.alloc();
    let locks = [
        (1, LOCK),
        (1, LOCK),
        (1, LOCK),
        (2, LOCK),
        (1, LOCK),
        (2, LOCK),
    ];
    let mut outside = requests_by_two(&rt, alloc, &locks)?;
    outside.clocks = clocks(
        alloc,
        &[0, 1_800_000, 3_999_999, 3_999_999, 4_000_000, 4_000_000],
    )?;
    let left = run_in(&rt, alloc, &ONCE, outside)?;
    let wanted = joined(alloc, &[LOCKED, SPENT, SPENT, SPENT, DEAD, LOCKED])?;
    assert!(rt; left.output.as_slice() == wanted.as_slice());
    Ok(())
}

#[test]
fn a_save_that_comes_again_after_its_lock_ended_is_refused(rt: HostRuntime) -> Result<(), Fail> {
    let alloc = rt.alloc();
    let requests = [(2, LOCK), (2, SAVE), (2, SAVE)];
    let mut outside = requests_by_two(&rt, alloc, &requests)?;
    outside.clocks = clocks(alloc, &[0, 1, 1_800_000])?;
    let left = run_in(&rt, alloc, &ONCE, outside)?;
    let wanted = joined(alloc, &[LOCKED, SAVED, SPENT])?;
    assert!(rt; left.output.as_slice() == wanted.as_slice());
    Ok(())
}
