//! The command `replay`: schedules and their traces to the byte.
use super::{joined, run_with, whole};
use std::test::Fail;

/// A session opens its file.
pub const OPENING: &str =
    "file 612e637376 312c320a\nsession 612e637376 n 9000000\nopen 1\ndeliver 1 0\nanswer 1\ndeliver 2 0\nanswer 2\ndeliver 3 0\nanswer 3\n";

pub const OPENED: &str =
    "send 1 info\nreply 1 200 v1 4\nsend 2 lock n-1\nreply 2 200 v1\nsend 3 get\nreply 3 200 v1 312c320a\ntell 1 opened v1\n";

/// It saves and gets no answer, saves again, and the first save comes late.
pub const LATE: &str =
    "save 1 41\nlose 1\nlose 1\nlose 1\nsave 1 42\ndeliver 7 10\nanswer 4\ndeliver 8 11\nanswer 5\ndeliver 4 12\n";

pub const REFUSED: &str =
    "send 4 put n-1 41\nsend 5 put n-1 41\nsend 6 put n-1 41\ntell 1 no answer\nsend 7 relock n-1 n-2\nreply 4 200 v1\nsend 8 put n-2 42\nreply 5 200 v2\ntell 1 saved v2\nreply 6 409 n-2 lock id spent\n";

/// Words, the parts of an input, and what comes of it: the status, and the parts of the output.
struct Row {
    words: &'static [&'static str],
    input: &'static [&'static str],
    status: u8,
    output: &'static [&'static str],
}

const ROWS: [Row; 10] = [
    Row {
        words: &["replay"],
        input: &[],
        status: 0,
        output: &[],
    },
    Row {
        words: &["replay"],
        input: &["# a late save\n\n", OPENING, LATE],
        status: 0,
        output: &[OPENED, REFUSED, "end 612e637376 v2 n-2 42\n"],
    },
    Row {
        words: &["replay"],
        input: &[
            OPENING,
            LATE,
            "close 1\ndeliver 9 13\nanswer 7\ndeliver 2 14\ndeliver 4 15",
        ],
        status: 0,
        output: &[
            OPENED,
            REFUSED,
            "send 9 unlock n-2\nreply 7 200 v2\ntell 1 closed\nreply 8 409 - lock id spent\nreply 9 409 - lock id spent\nend 612e637376 v2 - 42\n",
        ],
    },
    Row {
        words: &["replay"],
        input: &[
            OPENING,
            "save 1 41\ndeliver 4 1\nanswer 4\nsave 1 42\ndeliver 5 2\nlose 1\ndeliver 6 3\nanswer 6\ndeliver 7 4\nanswer 7\n",
        ],
        status: 0,
        output: &[
            OPENED,
            "send 4 put n-1 41\nreply 4 200 v2\ntell 1 saved v2\nsend 5 relock n-1 n-2\nreply 5 200 v2\nsend 6 relock n-1 n-2\nreply 6 409 n-2 lock id spent\nsend 7 put n-2 42\nreply 7 200 v3\ntell 1 saved v3\nend 612e637376 v3 n-2 42\n",
        ],
    },
    Row {
        words: &["replay"],
        input: &[
            OPENING,
            "save 1 -\ndeliver 4 1\nanswer 4\ndeliver 4 1800000\n",
        ],
        status: 0,
        output: &[
            OPENED,
            "send 4 put n-1 -\nreply 4 200 v2\ntell 1 saved v2\nreply 5 409 - lock id spent\nend 612e637376 v2 - -\n",
        ],
    },
    Row {
        words: &["replay"],
        input: &[
            "file 652e637376 -\nforeign 0 9000000 put 652e637376 - 41\nforeign 1 9000000 relative 652e637376 612e637376 no 78\nforeign 2 9000000 delete 652e637376\n",
        ],
        status: 0,
        output: &[
            "reply 1 200 v2\nreply 2 200 612e637376\nreply 3 200\nend 612e637376 v1 - 78\nend 652e637376 v2 absent\n",
        ],
    },
    Row {
        words: &["replay"],
        input: &["jump 1"],
        status: 7,
        output: &["line 1: bad line\n"],
    },
    Row {
        words: &["replay"],
        input: &[OPENING, "# nobody is session 2\n\nsave 2 41\nopen x\n"],
        status: 7,
        output: &["line 12: bad line\n"],
    },
    Row {
        words: &["replay", "7", "0"],
        input: &["not read"],
        status: 0,
        output: &["requests 0\nreplies 0\nconflicts 0\nsaved 0\nend 612e637376 v1 - 312c320a\n"],
    },
    Row {
        words: &["replay", "18446744073709551615", "0"],
        input: &[],
        status: 0,
        output: &["requests 0\nreplies 0\nconflicts 0\nsaved 0\nend 612e637376 v1 - 312c320a\n"],
    },
];

#[test]
fn schedules_have_their_traces_and_statuses(rt: HostRuntime) -> Result<(), Fail> {
    let alloc = rt.alloc();
    for (place, row) in ROWS.iter().enumerate() {
        let input = joined(alloc, row.input)?;
        let wanted = joined(alloc, row.output)?;
        let left = run_with(&rt, alloc, row.words, &whole(&input))?;
        assert!(rt; left.status == row.status, "row {place}");
        assert!(rt; left.output.as_slice() == wanted.as_slice(), "row {place}");
        assert!(rt; left.notes.as_slice().is_empty(), "row {place}");
    }
    Ok(())
}

#[test]
fn faults_of_a_schedules_streams_are_told(rt: HostRuntime) -> Result<(), Fail> {
    let alloc = rt.alloc();
    let mut given = whole(b"file 612e637376 -\n");
    for (read, write, status, line) in [(1, 0, 3, "read fault\n"), (0, 1, 4, "write fault\n")] {
        given.failing_read = read;
        given.failing_write = write;
        let left = run_with(&rt, alloc, &["replay"], &given)?;
        assert!(rt; left.status == status, "{line}");
        assert!(rt; left.notes.as_slice() == line.as_bytes());
        assert!(rt; left.output.as_slice().is_empty(), "{line}");
    }
    Ok(())
}

#[test]
fn a_schedule_of_ten_thousand_events_has_its_summary(rt: HostRuntime) -> Result<(), Fail> {
    let left = run_with(&rt, rt.alloc(), &["replay", "7", "10000"], &whole(b""))?;
    let wanted =
        "requests 1263\nreplies 2557\nconflicts 560\nsaved 7\nend 612e637376 v60 n64-1 b2\n";
    assert!(rt; left.status == 0);
    assert!(rt; left.output.as_slice() == wanted.as_bytes());
    Ok(())
}
