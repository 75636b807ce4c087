//! A script whose answers are lost, and whose reads and writes fail in turn.
use super::edits::{CONTENTS, INFO, VERSION_1, VERSION_2, VERSION_3, edit_on};
use super::whole;
use outside::ScriptDialer;
use std::alloc::Global;
use std::test::Fail;
use wopi_text::{Bytes, Memory};

const SCRIPT: &[u8] = b"open\nset 1 2 9\nsave\nset 1 1 7\nsave\nclose\n";

const TOLD: &[u8] = b"opened v1 1\nsaved v2\nsaved v3\nclosed\n";

const REPLIES: [&[u8]; 7] = [
    INFO, VERSION_1, CONTENTS, VERSION_2, VERSION_2, VERSION_3, VERSION_3,
];

/// A host that answers so, but whose answer of this number is lost at first.
fn losing(alloc: Global, lost: usize) -> Result<ScriptDialer, Memory> {
    let mut list = Vec::new(alloc);
    for (place, reply) in REPLIES.iter().enumerate() {
        if place == lost {
            list.push(None)?;
        }
        list.push(Some(Bytes::from_slice(alloc, reply)?))?;
    }
    Ok(ScriptDialer::new(alloc, list))
}

/// A host that loses none.
fn answering(alloc: Global) -> Result<ScriptDialer, Memory> {
    losing(alloc, REPLIES.len())
}

#[test]
fn a_request_whose_answer_is_lost_is_sent_again(rt: HostRuntime) -> Result<(), Fail> {
    let alloc = rt.alloc();
    for lost in 0..REPLIES.len() {
        let left = edit_on(&rt, alloc, &whole(SCRIPT), losing(alloc, lost)?)?;
        assert!(rt; left.status == 0, "answer {lost}");
        assert!(rt; left.output.as_slice() == TOLD, "answer {lost}");
        let exchanges = left.dialer.exchanges();
        assert!(rt; exchanges.len() == 8, "answer {lost}");
        let first = exchanges.get(lost).ok_or("a request")?;
        let again = exchanges.get(lost.saturating_add(1)).ok_or("a request")?;
        assert!(rt;
            first.request.as_slice() == again.request.as_slice(),
            "answer {lost}"
        );
    }
    Ok(())
}

#[test]
fn a_line_that_fails_is_the_last_of_a_script(rt: HostRuntime) -> Result<(), Fail> {
    let alloc = rt.alloc();
    let mut given = whole(SCRIPT);
    for (place, status, told, requests) in [
        (1, 4, b"".as_slice(), 3),
        (2, 4, b"opened v1 1\n".as_slice(), 4),
        (3, 4, b"opened v1 1\nsaved v2\n".as_slice(), 6),
        (4, 4, b"opened v1 1\nsaved v2\nsaved v3\n".as_slice(), 7),
        (5, 0, TOLD, 7),
    ] {
        given.failing_write = place;
        let left = edit_on(&rt, alloc, &given, answering(alloc)?)?;
        assert!(rt; left.status == status, "write {place}");
        assert!(rt; left.output.as_slice() == told, "write {place}");
        assert!(rt; left.dialer.exchanges().len() == requests, "write {place}");
    }
    Ok(())
}
