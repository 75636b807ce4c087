//! Traces and summaries of runs.
use replay_cmd::{ScriptWire, Straight, Wire, World, trace_text};
use schedule_text::Schedule;
use std::alloc::Global;
use std::process::Abort;
use std::test::Fail;
use wopi_text::Bytes;

/// A session begins to open the file.
const BEGUN: &[u8] = b"file 612e637376 312c320a\nsession 612e637376 n 9000000\nopen 1\n\
deliver 1 0\nanswer 1\n";

/// What opens the file then.
const OPENS: &[u8] = b"deliver 2 0\nanswer 2\ndeliver 3 0\nanswer 3\n";

/// The trace until the file is open.
const OPENED: &[u8] = b"send 1 info\nreply 1 200 v1 4\nsend 2 lock n-1\nreply 2 200 v1\n\
send 3 get\nreply 3 200 v1 312c320a\ntell 1 opened v1\n";

/// A save that got no answer in three tries arrives after the next save.
const LATE: &[u8] = b"save 1 41\nlose 1\nlose 1\nlose 1\nsave 1 42\ndeliver 7 10\nanswer 4\n\
deliver 8 11\nanswer 5\ndeliver 4 12\n";

/// What is shown of it.
const LATE_SHOWN: &[u8] = b"send 4 put n-1 41\nsend 5 put n-1 41\nsend 6 put n-1 41\n\
tell 1 no answer\nsend 7 relock n-1 n-2\nreply 4 200 v1\nsend 8 put n-2 42\nreply 5 200 v2\n\
tell 1 saved v2\nreply 6 409 n-2 lock id spent\n";

/// Over the wire, the trace of the schedule that the text is reads so.
pub fn expect_over<W: Wire>(
    rt: &impl Abort,
    alloc: Global,
    wire: &mut W,
    text: &[u8],
    trace: &[u8],
) -> Result<(), Fail> {
    let schedule = Schedule::read(alloc, text)?;
    let world = World::run(alloc, &schedule, wire)?;
    let shown = trace_text(alloc, &world)?;
    assert!(rt; shown.as_slice() == trace);
    Ok(())
}

/// Once the file is open, the trace of such lines goes on so.
fn expect_opened(rt: &impl Abort, alloc: Global, lines: &[u8], trace: &[u8]) -> Result<(), Fail> {
    let mut text = BEGUN.to_vec(alloc)?;
    text.extend_from_slice(OPENS)?;
    text.extend_from_slice(lines)?;
    let mut shown = OPENED.to_vec(alloc)?;
    shown.extend_from_slice(trace)?;
    expect_over(rt, alloc, &mut Straight, &text, &shown)
}

#[test]
fn a_late_save_is_refused(rt: HostRuntime) -> Result<(), Fail> {
    let alloc = rt.alloc();
    let mut shown = LATE_SHOWN.to_vec(alloc)?;
    shown.extend_from_slice(b"end 612e637376 v2 n-2 42\n")?;
    expect_opened(&rt, alloc, LATE, &shown)
}

#[test]
fn what_arrives_after_the_close_is_refused(rt: HostRuntime) -> Result<(), Fail> {
    let alloc = rt.alloc();
    let mut lines = LATE.to_vec(alloc)?;
    lines.extend_from_slice(b"close 1\ndeliver 9 13\nanswer 7\ndeliver 2 14\ndeliver 4 15\n")?;
    let mut shown = LATE_SHOWN.to_vec(alloc)?;
    shown.extend_from_slice(
        b"send 9 unlock n-2\nreply 7 200 v2\ntell 1 closed\nreply 8 409 - lock id spent\n\
reply 9 409 - lock id spent\nend 612e637376 v2 - 42\n",
    )?;
    expect_opened(&rt, alloc, &lines, &shown)
}

#[test]
fn a_relock_whose_answer_is_lost_is_settled(rt: HostRuntime) -> Result<(), Fail> {
    let lines = b"save 1 41\ndeliver 4 1\nanswer 4\nsave 1 42\ndeliver 5 2\nlose 1\ndeliver 6 3\n\
answer 6\ndeliver 7 4\nanswer 7\n";
    let shown = b"send 4 put n-1 41\nreply 4 200 v2\ntell 1 saved v2\nsend 5 relock n-1 n-2\n\
reply 5 200 v2\nsend 6 relock n-1 n-2\nreply 6 409 n-2 lock id spent\nsend 7 put n-2 42\n\
reply 7 200 v3\ntell 1 saved v3\nend 612e637376 v3 n-2 42\n";
    expect_opened(&rt, rt.alloc(), lines, shown)
}

#[test]
fn an_empty_save_is_not_repeated(rt: HostRuntime) -> Result<(), Fail> {
    let lines = b"save 1 -\ndeliver 4 1\nanswer 4\ndeliver 4 1800000\n";
    let shown = b"send 4 put n-1 -\nreply 4 200 v2\ntell 1 saved v2\nreply 5 409 - lock id spent\n\
end 612e637376 v2 - -\n";
    expect_opened(&rt, rt.alloc(), lines, shown)
}

#[test]
fn somebody_else_fills_copies_and_deletes_a_file(rt: HostRuntime) -> Result<(), Fail> {
    let text = b"file 652e637376 -\nforeign 0 9000000 put 652e637376 - 41\n\
foreign 1 9000000 relative 652e637376 612e637376 no 78\nforeign 2 9000000 delete 652e637376\n";
    let shown = b"reply 1 200 v2\nreply 2 200 612e637376\nreply 3 200\nend 612e637376 v1 - 78\n\
end 652e637376 v2 absent\n";
    expect_over(&rt, rt.alloc(), &mut Straight, text, shown)
}

/// A locked file that another's copy is to overwrite, until its lock is over and it is deleted.
const OVERWRITTEN: &[u8] = b"file 612e637376 312c320a\nfile 652e637376 -\n\
foreign 0 9000000 lock 612e637376 L1\nforeign 1 9000000 delete 612e637376\n\
foreign 2 9000000 relative 652e637376 612e637376 yes 78\n\
foreign 1800002 9000000 relative 652e637376 612e637376 yes 78\n\
foreign 1800002 9000000 info 612e637376\nforeign 1800003 9000000 delete 612e637376\n\
foreign 1800003 9000000 get 612e637376\n\
foreign 1800004 9000000 relative 652e637376 612e637376 no 78\n\
foreign 1800005 9000000 lock 612e637376 L1\n";

const OVERWRITTEN_SHOWN: &[u8] = b"reply 1 200 v1\nreply 2 409 L1 locked\n\
reply 3 409 L1 locked\nreply 4 200 612e637376\nreply 5 200 v2 1\nreply 6 200\nreply 7 404\n\
reply 8 200 612e637376\nreply 9 409 - lock id spent\nend 612e637376 v3 - 78\n\
end 652e637376 v1 - -\n";

#[test]
fn a_locked_file_is_overwritten_once_its_lock_ended(rt: HostRuntime) -> Result<(), Fail> {
    expect_over(
        &rt,
        rt.alloc(),
        &mut Straight,
        OVERWRITTEN,
        OVERWRITTEN_SHOWN,
    )
}

#[test]
fn the_trace_shows_what_came_over_a_straight_wire(rt: HostRuntime) -> Result<(), Fail> {
    let shown = b"send 1 info\nreply 1 200 v1 4\nsend 2 lock n-1\nend 612e637376 v1 - 312c320a\n";
    expect_over(&rt, rt.alloc(), &mut Straight, BEGUN, shown)
}

#[test]
fn the_trace_shows_the_request_that_came(rt: HostRuntime) -> Result<(), Fail> {
    let alloc = rt.alloc();
    let mut instead = Vec::new(alloc);
    let request = Bytes::from_slice(alloc, b"GET /wopi/folders HTTP/1.1\r\nHost: x\r\n\r\n")?;
    instead.push(Some(request))?;
    let mut wire = ScriptWire::new(alloc, instead);
    let shown = b"send 1 info\nreply 1 404\ntell 1 gone\nend 612e637376 v1 - 312c320a\n";
    expect_over(&rt, alloc, &mut wire, BEGUN, shown)
}

#[test]
fn the_trace_shows_the_reply_that_came(rt: HostRuntime) -> Result<(), Fail> {
    let alloc = rt.alloc();
    let mut instead = Vec::new(alloc);
    instead.push(None)?;
    let reply = Bytes::from_slice(alloc, b"HTTP/1.1 500 E\r\nContent-Length: 0\r\n\r\n")?;
    instead.push(Some(reply))?;
    let mut wire = ScriptWire::new(alloc, instead);
    let shown =
        b"send 1 info\nreply 1 200 v1 4\ntell 1 host fault 500\nend 612e637376 v1 - 312c320a\n";
    expect_over(&rt, alloc, &mut wire, BEGUN, shown)
}

/// What comes in place of the messages on a wire, what a schedule does behind its file and its
/// session, and the trace.
struct OverWire {
    instead: &'static [Option<&'static [u8]>],
    lines: &'static [u8],
    shown: &'static [u8],
}

const OVER_WIRES: [OverWire; 5] = [
    // What somebody else asks goes over the wire too.
    OverWire {
        instead: &[Some(b"GET /wopi/folders HTTP/1.1\r\nHost: x\r\n\r\n")],
        lines: b"foreign 0 9000000 info 612e637376\n",
        shown: b"reply 1 404\nend 612e637376 v1 - 312c320a\n",
    },
    // A request that is cut off.
    OverWire {
        instead: &[Some(b"GET /wopi/folders HTTP/1.1\r\nHo")],
        lines: b"foreign 0 9000000 info 612e637376\n",
        shown: b"reply 1 400\nend 612e637376 v1 - 312c320a\n",
    },
    // No bytes.
    OverWire {
        instead: &[Some(b"")],
        lines: b"foreign 0 9000000 info 612e637376\n",
        shown: b"reply 1 400\nend 612e637376 v1 - 312c320a\n",
    },
    // A body of one byte more than there may be.
    OverWire {
        instead: &[Some(b"POST / HTTP/1.1\r\nHost: x\r\nContent-Length: 16777217\r\n\r\n")],
        lines: b"open 1\ndeliver 1 0\n",
        shown: b"send 1 info\nreply 1 413\nend 612e637376 v1 - 312c320a\n",
    },
    // A reply that can't be read counts as no answer, so the request is sent again.
    OverWire {
        instead: &[None, Some(b"HTP")],
        lines: b"open 1\ndeliver 1 0\nanswer 1\n",
        shown: b"send 1 info\nreply 1 200 v1 4\nsend 2 info\nend 612e637376 v1 - 312c320a\n",
    },
];

/// A wire that carries these in place of its messages, where there are any.
fn wire_of(alloc: Global, instead: &[Option<&[u8]>]) -> Result<ScriptWire, Fail> {
    let mut messages = Vec::new(alloc);
    for message in instead {
        match message {
            Some(bytes) => messages.push(Some(Bytes::from_slice(alloc, bytes)?))?,
            None => messages.push(None)?,
        }
    }
    Ok(ScriptWire::new(alloc, messages))
}

#[test]
fn what_comes_over_a_wire_is_answered_as_it_came(rt: HostRuntime) -> Result<(), Fail> {
    let alloc = rt.alloc();
    for row in &OVER_WIRES {
        let mut text = b"file 612e637376 312c320a\nsession 612e637376 n 9000000\n".to_vec(alloc)?;
        text.extend_from_slice(row.lines)?;
        let mut wire = wire_of(alloc, row.instead)?;
        expect_over(&rt, alloc, &mut wire, &text, row.shown)?;
    }
    Ok(())
}
