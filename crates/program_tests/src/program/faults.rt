//! Streams and folders that fail.
use super::replays::{LATE, OPENED, OPENING, REFUSED};
use super::{ONCE, fakes, joined, requests, run_in, run_with, whole};
use outside::MemSink;
use std::test::Fail;

const LOCK: [&str; 4] = [
    "POST",
    "",
    "X-WOPI-Override: LOCK\r\nX-WOPI-Lock: L1\r\n",
    "",
];

const LOCK_2: [&str; 4] = [
    "POST",
    "",
    "X-WOPI-Override: LOCK\r\nX-WOPI-Lock: L2\r\n",
    "",
];

const LOCKED: &str = "HTTP/1.1 200 OK\r\nContent-Length: 0\r\nX-WOPI-ItemVersion: v1\r\n\r\n";

const CONFLICT: &str =
    "HTTP/1.1 409 Conflict\r\nContent-Length: 0\r\nX-WOPI-Lock: L1\r\nX-WOPI-LockFailureReason: locked\r\n\r\n";

const PUT: &str = "X-WOPI-Override: PUT\r\nX-WOPI-Lock: L1\r\n";

#[test]
fn a_fault_is_told_and_ends_the_run(rt: HostRuntime) -> Result<(), Fail> {
    let alloc = rt.alloc();
    let input = requests(alloc, &[LOCK])?;
    let mut given = whole(&input);
    given.piece = 16;
    for (read, write, store, status, line) in [
        (3, 0, 0, 3, "read fault\n"),
        (0, 1, 0, 4, "write fault\n"),
        (0, 0, 2, 5, "folder fault\n"),
        (0, 0, 3, 5, "folder fault\n"),
        (0, 0, 4, 5, "folder fault\n"),
    ] {
        given.failing_read = read;
        given.failing_write = write;
        given.failing_store = store;
        let left = run_with(&rt, alloc, &ONCE, &given)?;
        assert!(rt; left.status == status);
        assert!(rt; left.notes.as_slice() == line.as_bytes());
        assert!(rt; left.output.as_slice().is_empty(), "{line}");
    }
    Ok(())
}

#[test]
fn a_store_fault_leaves_the_file_and_the_next_save_mends_it(rt: HostRuntime) -> Result<(), Fail> {
    let alloc = rt.alloc();
    let input = requests(
        alloc,
        &[
            LOCK,
            ["POST", "/contents", PUT, "1,9\n"],
            ["GET", "/contents", "", ""],
            ["POST", "/contents", PUT, "1,8\n"],
        ],
    )?;
    let mut given = whole(&input);
    given.failing_store = 5;
    let left = run_with(&rt, alloc, &ONCE, &given)?;
    let wanted =
        "HTTP/1.1 200 OK\r\nContent-Length: 0\r\nX-WOPI-ItemVersion: v1\r\n\r\nHTTP/1.1 500 Internal Server Error\r\nContent-Length: 11\r\nContent-Type: text/plain\r\n\r\nstore faultHTTP/1.1 200 OK\r\nContent-Length: 4\r\nContent-Type: application/octet-stream\r\nX-WOPI-ItemVersion: v1\r\n\r\n1,2\nHTTP/1.1 200 OK\r\nContent-Length: 0\r\nX-WOPI-ItemVersion: v2\r\n\r\n";
    assert!(rt; left.output.as_slice() == wanted.as_bytes());
    assert!(rt; left.kept("a.csv") == b"1,8\n".as_slice());
    Ok(())
}

#[test]
fn a_read_that_fails_leaves_a_front_of_the_replies(rt: HostRuntime) -> Result<(), Fail> {
    let alloc = rt.alloc();
    let input = requests(alloc, &[LOCK, LOCK_2])?;
    let wanted = joined(alloc, &[LOCKED, CONFLICT])?;
    let mut given = whole(&input);
    given.piece = 64;
    let reads = input.len().div_ceil(64).saturating_add(1) as u64;
    for place in 1..20 {
        given.failing_read = place;
        let left = run_with(&rt, alloc, &ONCE, &given)?;
        let status = if place <= reads { 3 } else { 0 };
        assert!(rt; left.status == status, "read {place}");
        assert!(rt; wanted.starts_with(left.output.as_slice()), "read {place}");
        assert!(rt;
            (left.output.as_slice() == wanted.as_slice()) == (place >= reads),
            "read {place}"
        );
    }
    Ok(())
}

#[test]
fn a_write_that_fails_leaves_a_front_of_the_replies(rt: HostRuntime) -> Result<(), Fail> {
    let alloc = rt.alloc();
    let input = requests(alloc, &[LOCK, LOCK_2])?;
    let mut given = whole(&input);
    for (place, status, output) in [
        (1, 4, [""].as_slice()),
        (2, 4, [LOCKED].as_slice()),
        (3, 0, [LOCKED, CONFLICT].as_slice()),
    ] {
        given.failing_write = place;
        let left = run_with(&rt, alloc, &ONCE, &given)?;
        assert!(rt; left.status == status, "write {place}");
        assert!(rt; left.output.as_slice() == joined(alloc, output)?.as_slice());
    }
    Ok(())
}
