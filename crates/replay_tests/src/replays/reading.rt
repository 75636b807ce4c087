//! Texts as schedules.
use schedule_text::{Schedule, ScheduleFault};
use std::alloc::Global;
use std::process::Abort;
use std::test::Fail;

/// A schedule of two files and two sessions.
const OPENING: &[u8] = b"file 612e637376 312c320a\nfile 62 -\nsession 612e637376 n 9000000\n\
session 62 m2 253402300799999\n";

/// The first nine lines of most of the worked schedules.
const OPENED: &[u8] = b"file 612e637376 312c320a\nsession 612e637376 n 9000000\nopen 1\n\
deliver 1 0\nanswer 1\ndeliver 2 0\nanswer 2\ndeliver 3 0\nanswer 3\n";

fn expect_bad(rt: &impl Abort, alloc: Global, text: &[u8], line: u64) -> Result<(), Fail> {
    let read = Schedule::read(alloc, text);
    assert!(rt; matches!(read, Err(ScheduleFault::BadLine { line: at }) if at == line));
    Ok(())
}

/// The opening is read with such lines behind it, and how many events it then has.
fn events_behind(alloc: Global, opening: &[u8], lines: &[u8]) -> Result<usize, Fail> {
    let mut text = opening.to_vec(alloc)?;
    text.extend_from_slice(lines)?;
    let schedule = Schedule::read(alloc, &text)?;
    Ok(schedule.events().len())
}

/// With the line behind the opening, the fifth is bad, whatever follows.
fn expect_bad_fifth(rt: &impl Abort, alloc: Global, line: &[u8]) -> Result<(), Fail> {
    let mut text = OPENING.to_vec(alloc)?;
    text.extend_from_slice(line)?;
    expect_bad(rt, alloc, &text, 5)?;
    text.extend_from_slice(b"\nopen 1\n")?;
    expect_bad(rt, alloc, &text, 5)
}

#[test]
fn each_event_is_read(rt: HostRuntime) -> Result<(), Fail> {
    let lines = b"open 1\nread 2\nsave 1 00ff\nsave 2 -\nrefresh 1\nclose 2\nlose 1\n\
deliver 1 0\ndeliver ^3 253402300799999\nanswer 18446744073709551615\nanswer ^1\ntick 10\n";
    assert!(rt; events_behind(rt.alloc(), OPENING, lines)? == 12);
    Ok(())
}

#[test]
fn each_foreign_request_is_read(rt: HostRuntime) -> Result<(), Fail> {
    let lines = b"foreign 1 9 info 62\nforeign 1 9 get 62\nforeign 1 9 put 62 - 00\n\
foreign 1 9 put 62 L -\nforeign 1 9 lock 62 L\nforeign 1 9 getlock 62\nforeign 1 9 refresh 62 L\n\
foreign 1 9 unlock 62 L\nforeign 1 9 relock 62 L --\nforeign 1 9 delete 62\n\
foreign 1 9 relative 62 63 yes 00\nforeign 1 9 relative 62 202e63 no -\n";
    assert!(rt; events_behind(rt.alloc(), OPENING, lines)? == 12);
    Ok(())
}

#[test]
fn the_worked_schedules_are_read(rt: HostRuntime) -> Result<(), Fail> {
    let alloc = rt.alloc();
    let late = b"save 1 41\nlose 1\nlose 1\nlose 1\nsave 1 42\ndeliver 7 10\nanswer 4\n\
deliver 8 11\nanswer 5\ndeliver 4 12\n";
    assert!(rt; events_behind(alloc, OPENED, late)? == 17);
    let mut closed = late.to_vec(alloc)?;
    closed.extend_from_slice(b"close 1\ndeliver 9 13\nanswer 7\ndeliver 2 14\ndeliver 4 15\n")?;
    assert!(rt; events_behind(alloc, OPENED, &closed)? == 22);
    let again = b"save 1 41\ndeliver 4 1\nanswer 4\nsave 1 42\ndeliver 5 2\nlose 1\ndeliver 6 3\n\
answer 6\ndeliver 7 4\nanswer 7\n";
    assert!(rt; events_behind(alloc, OPENED, again)? == 17);
    let emptied = b"save 1 -\ndeliver 4 1\nanswer 4\ndeliver 4 1800000\n";
    assert!(rt; events_behind(alloc, OPENED, emptied)? == 11);
    let copied = b"file 652e637376 -\nforeign 0 9000000 put 652e637376 - 41\n\
foreign 1 9000000 relative 652e637376 612e637376 no 78\nforeign 2 9000000 delete 652e637376\n";
    assert!(rt; events_behind(alloc, b"", copied)? == 3);
    Ok(())
}

#[test]
fn a_line_of_no_kind_is_bad(rt: HostRuntime) -> Result<(), Fail> {
    expect_bad(&rt, rt.alloc(), b"jump 1", 1)
}

const BAD: [&[u8]; 43] = [
    b"open 3",
    b"open 0",
    b"open 01",
    b"open  1",
    b"open 1 ",
    b" open 1",
    b"Open 1",
    b"lose 18446744073709551617",
    b"save 1",
    b"save 1 0",
    b"save 1 0F",
    b"save 1 --",
    b"deliver 0 1",
    b"deliver ^0 1",
    b"deliver 01 1",
    b"deliver 18446744073709551616 1",
    b"deliver 1 253402300800000",
    b"tick 253402300800000",
    b"tick 01",
    b"answer",
    b"restart",
    b"restart 0",
    b"restart 01",
    b"restart 253402300800000",
    b"session 61 n-1 1",
    b"session 61 k 1 -",
    b"session 61 k 1 1 1",
    b"session 61 k 1 253402300800000",
    b"session 61 k 253402300800000",
    b"foreign 1 9 lock 62 n-",
    b"foreign 1 9 put 62 m2-1 00",
    b"foreign 1 9 relock 62 L n-7",
    b"foreign 1 9 relock 62 n-7 L",
    b"foreign 1 9 lock 62 -",
    b"foreign 1 9 lock 62 ",
    b"foreign 1 9 lock 62 \x7f",
    b"foreign 253402300800000 9 info 62",
    b"foreign 1 253402300800000 info 62",
    b"foreign 1 9 info 6",
    b"foreign 1 9 info 6A",
    b"foreign 1 9 relative 62 63 maybe 00",
    b"foreign 1 9 relative 62 2e63 yes 00",
    b"foreign 1 9 put 62 - 00 ",
];

#[test]
fn the_first_bad_line_is_named(rt: HostRuntime) -> Result<(), Fail> {
    for line in BAD {
        expect_bad_fifth(&rt, rt.alloc(), line)?;
    }
    Ok(())
}

/// So many sessions.
fn sessions(alloc: Global, count: usize) -> Result<Vec<u8>, Fail> {
    let mut text = Vec::new(alloc);
    for place in 0..count {
        text.extend_from_slice(b"session 61 n")?;
        for _ in 0..place / 9 {
            text.push(b'x')?;
        }
        text.push(b'1'.saturating_add((place % 9) as u8))?;
        text.extend_from_slice(b" 1\n")?;
    }
    Ok(text)
}

#[test]
fn a_schedule_has_64_sessions(rt: HostRuntime) -> Result<(), Fail> {
    let text = sessions(rt.alloc(), 64)?;
    assert!(rt; Schedule::read(rt.alloc(), &text)?.sessions().len() == 64);
    let text = sessions(rt.alloc(), 65)?;
    expect_bad(&rt, rt.alloc(), &text, 65)
}

#[test]
fn a_schedule_ends_at_16_000_lines(rt: HostRuntime) -> Result<(), Fail> {
    let mut text = b"tick 1\n".to_vec(rt.alloc())?;
    for _ in 1..16_000 {
        text.extend_from_slice(b"tick 1\n")?;
    }
    assert!(rt; Schedule::read(rt.alloc(), &text)?.events().len() == 16_000);
    text.push(b'\n')?;
    expect_bad(&rt, rt.alloc(), &text, 16_001)
}

#[test]
fn contents_and_ids_have_their_greatest_lengths(rt: HostRuntime) -> Result<(), Fail> {
    let alloc = rt.alloc();
    let longest = [
        (b"file 61 ".as_slice(), b'0', 2 * 8_192, 2 * 8_193),
        (b"foreign 1 9 lock 62 ".as_slice(), b'x', 256, 257),
    ];
    for (front, byte, most, more) in longest {
        let mut line = front.to_vec(alloc)?;
        line.resize(front.len().saturating_add(most), byte)?;
        let schedule = Schedule::read(alloc, &line)?;
        let lines = schedule
            .files()
            .len()
            .saturating_add(schedule.events().len());
        assert!(rt; lines == 1);
        line.resize(front.len().saturating_add(more), byte)?;
        expect_bad(&rt, alloc, &line, 1)?;
    }
    Ok(())
}
