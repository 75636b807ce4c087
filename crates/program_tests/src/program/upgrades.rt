//! The command `upgrade`: journals in both forms, to the byte.
use super::{Given, joined, run_with, whole};
use std::test::Fail;

/// The opening file, in either form.
const FILE: &str = "file 612e637376 312c320a\n";

const FIRST_HEAD: &str = "wopi journal 1 opened 0\n";

/// A Lock of the first form.
const FIRST_LINE: &str =
    "1 11 0 5 612e637376 lock 4c31 ann.612e637376.w.2.0.9000000 200 - - v1 -\n";

const SECOND_HEAD: &str = "wopi journal 2 opened 0 first 1\n";

/// The same Lock in the second form.
const SECOND_LINE: &str =
    "1 11 0 5 5 612e637376 lock 4c31 ann.612e637376.w.2.0.9000000 200 - - v1 -\n";

/// The parts of an input, and what comes of it: the status, and the parts of the output.
struct Row {
    input: &'static [&'static str],
    status: u8,
    output: &'static [&'static str],
}

/// The journal of demo/, whose second form stands in the README.
const IN_THE_FIRST: &str = "wopi journal 1 opened 0\nfile 612e637376 312c320a\n\
1 11 0 5 612e637376 lock 4c31 ann.612e637376.w.2.0.9000000 200 - - v1 -\n\
2 11 0 9 612e637376 put 4c31 2 ann.612e637376.w.2.0.9000000 200 - - v2 3432\n\
3 11 1 7 612e637376 lock 4232 bob.612e637376.w.3.0.9000000 409 4c31 locked - -\nend\n";

const IN_THE_SECOND: &str = "wopi journal 2 opened 0 first 1\nfile 612e637376 312c320a\n\
1 11 0 5 5 612e637376 lock 4c31 ann.612e637376.w.2.0.9000000 200 - - v1 -\n\
2 11 0 9 9 612e637376 put 4c31 2 ann.612e637376.w.2.0.9000000 200 - - v2 3432\n\
3 11 1 7 9 612e637376 lock 4232 bob.612e637376.w.3.0.9000000 409 4c31 locked - -\nend 3\n";

const ROWS: [Row; 8] = [
    Row {
        input: &[FIRST_HEAD, FILE, FIRST_LINE, "end\n"],
        status: 0,
        output: &[SECOND_HEAD, FILE, SECOND_LINE, "end 1\n"],
    },
    Row {
        input: &[SECOND_HEAD, FILE, SECOND_LINE, "end 1\n"],
        status: 0,
        output: &[SECOND_HEAD, FILE, SECOND_LINE, "end 1\n"],
    },
    Row {
        input: &[FIRST_HEAD, FILE, FIRST_LINE],
        status: 7,
        output: &["line 4: bad line\n"],
    },
    Row {
        input: &[FIRST_HEAD, FILE, SECOND_LINE, "end\n"],
        status: 7,
        output: &["line 3: bad line\n"],
    },
    Row {
        input: &[FIRST_HEAD, FILE, FIRST_LINE, "end\n", "end\n"],
        status: 7,
        output: &["line 5: bad line\n"],
    },
    Row {
        input: &[],
        status: 7,
        output: &["line 1: bad line\n"],
    },
    Row {
        input: &[IN_THE_FIRST],
        status: 0,
        output: &[IN_THE_SECOND],
    },
    Row {
        input: &["wopi journal 1 opened 7\nend\n"],
        status: 0,
        output: &["wopi journal 2 opened 7 first 1\nend 0\n"],
    },
];

#[test]
fn journals_are_brought_to_the_second_form(rt: HostRuntime) -> Result<(), Fail> {
    let alloc = rt.alloc();
    for (place, row) in ROWS.iter().enumerate() {
        let input = joined(alloc, row.input)?;
        let wanted = joined(alloc, row.output)?;
        let left = run_with(&rt, alloc, &["upgrade"], &whole(&input))?;
        assert!(rt; left.status == row.status, "row {place}");
        assert!(rt; left.output.as_slice() == wanted.as_slice(), "row {place}");
        assert!(rt; left.notes.as_slice().is_empty(), "row {place}");
    }
    Ok(())
}

/// A journal that comes so many bytes at a read, and the number of the read or of the write that fails.
fn given(input: &[u8], piece: usize, failing_read: u64, failing_write: u64) -> Given<'_> {
    Given {
        input,
        piece,
        failing_read,
        failing_write,
        failing_store: 0,
    }
}

#[test]
fn a_journal_whose_write_fails_is_told(rt: HostRuntime) -> Result<(), Fail> {
    let alloc = rt.alloc();
    let good = joined(alloc, &[FIRST_HEAD, FILE, FIRST_LINE, "end\n"])?;
    let bad = joined(alloc, &[FIRST_HEAD, FILE, FIRST_LINE])?;
    for input in [good.as_slice(), bad.as_slice()] {
        let left = run_with(&rt, alloc, &["upgrade"], &given(input, 1_000, 0, 1))?;
        assert!(rt; left.status == 4);
        assert!(rt; left.notes.as_slice() == "write fault\n".as_bytes());
        assert!(rt; left.output.as_slice().is_empty());
    }
    Ok(())
}
