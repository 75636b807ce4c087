//! The commands `audit` and `contents`: what is said of a journal, and what one has kept, to the byte.
use super::{Given, joined, run_with, whole};
use std::test::Fail;

const HEAD: &str = "wopi journal 2 opened 0 first 1\nfile 612e637376 312c320a\n";

/// A Lock that is taken, up to what is said of it.
const LOCK: &str = "1 11 0 5 5 612e637376 lock 4c31 ann.612e637376.w.2.0.9000000";

const TAKEN: &str = " 200 - - v1 -\n";

/// The same Lock once more, after its token's end.
const LATE: &str = "2 11 0 1800005 1800005 612e637376 lock 4c31 ann.612e637376.w.2.0.9000000";

const SPENT: &str = " 409 - spent - -\n";

/// A save under that lock, which the first form tells.
const SAVED: &str = "wopi journal 1 opened 0\nfile 612e637376 312c320a\n\
1 11 0 5 612e637376 lock 4c31 ann.612e637376.w.2.0.9000000 200 - - v1 -\n\
2 11 0 9 612e637376 put 4c31 2 ann.612e637376.w.2.0.9000000 200 - - v2 3432\nend\n";

/// The parts of a journal, and what comes of it: the status and the output.
struct Row {
    input: &'static [&'static str],
    status: u8,
    output: &'static str,
}

const ROWS: [Row; 9] = [
    Row {
        input: &[HEAD, LOCK, TAKEN, "end 1\n"],
        status: 0,
        output: "legal 1\n",
    },
    Row {
        input: &[HEAD, LOCK, SPENT, "end 1\n"],
        status: 14,
        output: "line 3: ruling\n",
    },
    Row {
        input: &[
            HEAD,
            "1 11 0 5 6 612e637376 lock 4c31 ann.612e637376.w.2.0.9000000",
            TAKEN,
            "end 1\n",
        ],
        status: 14,
        output: "line 3: now\n",
    },
    Row {
        input: &[
            HEAD,
            "1 12 0 5 5 612e637376 lock 4c31 ann.612e637376.w.2.0.9000000",
            TAKEN,
            "end 1\n",
        ],
        status: 14,
        output: "line 3: order\n",
    },
    Row {
        input: &[HEAD, LOCK, TAKEN, LATE, SPENT, "end 2\n"],
        status: 0,
        output: "legal 2\n",
    },
    Row {
        input: &[HEAD, LOCK, TAKEN, LATE, TAKEN, "end 2\n"],
        status: 14,
        output: "line 4: ruling\n",
    },
    Row {
        input: &[SAVED],
        status: 0,
        output: "legal 2\n",
    },
    Row {
        input: &["wopi journal 2 opened 7 first 3\nend 0\n"],
        status: 0,
        output: "legal 0\n",
    },
    Row {
        input: &[HEAD, LOCK, TAKEN],
        status: 7,
        output: "line 4: bad line\n",
    },
];

#[test]
fn journals_are_judged(rt: HostRuntime) -> Result<(), Fail> {
    let alloc = rt.alloc();
    for (place, row) in ROWS.iter().enumerate() {
        let input = joined(alloc, row.input)?;
        let left = run_with(&rt, alloc, &["audit"], &whole(&input))?;
        assert!(rt; left.status == row.status, "row {place}");
        assert!(rt;
            left.output.as_slice() == row.output.as_bytes(),
            "row {place}"
        );
        assert!(rt; left.notes.as_slice().is_empty(), "row {place}");
    }
    Ok(())
}

/// The file and the version that are asked for, and what comes of it: the status, the output and the notes.
struct Sought {
    id: &'static str,
    version: &'static str,
    status: u8,
    output: &'static str,
    notes: &'static str,
}

const SOUGHT: [Sought; 7] = [
    Sought {
        id: "612e637376",
        version: "1",
        status: 0,
        output: "1,2\n",
        notes: "",
    },
    Sought {
        id: "612e637376",
        version: "2",
        status: 0,
        output: "42",
        notes: "",
    },
    Sought {
        id: "612e637376",
        version: "0",
        status: 15,
        output: "",
        notes: "no such version\n",
    },
    Sought {
        id: "612e637376",
        version: "3",
        status: 15,
        output: "",
        notes: "no such version\n",
    },
    Sought {
        id: "622e637376",
        version: "1",
        status: 15,
        output: "",
        notes: "no such version\n",
    },
    Sought {
        id: "612e637376",
        version: "v1",
        status: 2,
        output: "",
        notes: "usage\n",
    },
    Sought {
        id: "61/",
        version: "1",
        status: 2,
        output: "",
        notes: "usage\n",
    },
];

#[test]
fn contents_are_those_of_the_version(rt: HostRuntime) -> Result<(), Fail> {
    let alloc = rt.alloc();
    for (place, one) in SOUGHT.iter().enumerate() {
        let words = ["contents", one.id, one.version];
        let left = run_with(&rt, alloc, &words, &whole(SAVED.as_bytes()))?;
        assert!(rt; left.status == one.status, "row {place}");
        assert!(rt;
            left.output.as_slice() == one.output.as_bytes(),
            "row {place}"
        );
        assert!(rt;
            left.notes.as_slice() == one.notes.as_bytes(),
            "row {place}"
        );
    }
    Ok(())
}

/// The saved journal, of which so many bytes come at once, where that read or that write fails.
fn given(piece: usize, failing_read: u64, failing_write: u64) -> Given<'static> {
    Given {
        input: SAVED.as_bytes(),
        piece,
        failing_read,
        failing_write,
        failing_store: 0,
    }
}

#[test]
fn a_journal_that_fails_is_not_judged(rt: HostRuntime) -> Result<(), Fail> {
    let alloc = rt.alloc();
    let read = run_with(&rt, alloc, &["audit"], &given(50, 2, 0))?;
    assert!(rt; read.status == 3);
    assert!(rt; read.notes.as_slice() == "read fault\n".as_bytes());
    assert!(rt; read.output.as_slice().is_empty());
    let written = run_with(
        &rt,
        alloc,
        &["contents", "612e637376", "2"],
        &given(50, 0, 1),
    )?;
    assert!(rt; written.status == 4);
    assert!(rt; written.notes.as_slice() == "write fault\n".as_bytes());
    assert!(rt; written.output.as_slice().is_empty());
    Ok(())
}

#[test]
fn a_journal_may_come_byte_by_byte(rt: HostRuntime) -> Result<(), Fail> {
    let alloc = rt.alloc();
    let judged = run_with(&rt, alloc, &["audit"], &given(1, 0, 0))?;
    assert!(rt; judged.status == 0);
    assert!(rt; judged.output.as_slice() == "legal 2\n".as_bytes());
    let found = run_with(
        &rt,
        alloc,
        &["contents", "612e637376", "2"],
        &given(1, 0, 0),
    )?;
    assert!(rt; found.status == 0);
    assert!(rt; found.output.as_slice() == "42".as_bytes());
    Ok(())
}
