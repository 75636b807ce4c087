//! Journals, judged.
use journal_audit::{Audit, AuditFault, Verdict, audit, audit_input};
use journal_text::{JournalFault, read_journal};
use line_text::InputFault;
use outside::MemSource;
use std::alloc::Global;
use std::test::Fail;
use wopi_text::Bytes;

/// A lock that is taken.
const LOCKED: &[u8] =
    b"wopi journal 2 opened 0 first 1\nfile 612e637376 312c320a\n1 11 0 5 5 612e637376 lock 4c31 ann.612e637376.w.2.0.9000000 200 - - v1 -\nend 1\n";

/// The same in the first form.
const LOCKED_BEFORE: &[u8] =
    b"wopi journal 1 opened 0\nfile 612e637376 312c320a\n1 11 0 5 612e637376 lock 4c31 ann.612e637376.w.2.0.9000000 200 - - v1 -\nend\n";

/// What is said of the journal that these bytes are.
fn said_of(alloc: Global, bytes: &[u8]) -> Result<Verdict, Fail> {
    let Ok(text) = read_journal(alloc, bytes) else {
        return Err("a journal".into());
    };
    match audit(alloc, &text) {
        Ok(verdict) => Ok(verdict),
        Err(_) => Err("memory".into()),
    }
}

#[test]
fn a_lock_that_is_taken_is_legal(rt: HostRuntime) -> Result<(), Fail> {
    assert!(rt; said_of(rt.alloc(), LOCKED)? == Verdict::Legal);
    Ok(())
}

#[test]
fn the_first_form_is_judged_by_its_moments(rt: HostRuntime) -> Result<(), Fail> {
    assert!(rt; said_of(rt.alloc(), LOCKED_BEFORE)? == Verdict::Legal);
    Ok(())
}

#[test]
fn a_conflict_that_no_spent_id_explains_is_a_bad_ruling(rt: HostRuntime) -> Result<(), Fail> {
    let journal =
        b"wopi journal 2 opened 0 first 1\nfile 612e637376 312c320a\n1 11 0 5 5 612e637376 lock 4c31 ann.612e637376.w.2.0.9000000 409 - spent - -\nend 1\n";
    let bad = Verdict::Bad {
        line: 3,
        fault: AuditFault::Ruling,
    };
    assert!(rt; said_of(rt.alloc(), journal.as_slice())? == bad);
    Ok(())
}

#[test]
fn a_time_that_runs_ahead_is_bad(rt: HostRuntime) -> Result<(), Fail> {
    let journal =
        b"wopi journal 2 opened 0 first 1\nfile 612e637376 312c320a\n1 11 0 5 6 612e637376 lock 4c31 ann.612e637376.w.2.0.9000000 200 - - v1 -\nend 1\n";
    let bad = Verdict::Bad {
        line: 3,
        fault: AuditFault::Now,
    };
    assert!(rt; said_of(rt.alloc(), journal.as_slice())? == bad);
    Ok(())
}

/// A conflict that no spent id explains, and then a last line that tells of one entry more than there are.
const BAD_BEHIND_ILLEGAL: &[u8] =
    b"wopi journal 2 opened 0 first 1\nfile 612e637376 312c320a\n1 11 0 5 5 612e637376 lock 4c31 ann.612e637376.w.2.0.9000000 409 - spent - -\nend 2\n";

/// What is said of the journal that an input is, of which at most so many bytes come at once.
fn said_in_pieces(
    alloc: Global,
    bytes: &[u8],
    piece: usize,
) -> Result<Result<Audit, InputFault<JournalFault>>, Fail> {
    let input = Bytes::from_slice(alloc, bytes)?;
    let mut source = MemSource::new(input, piece.max(1), Vec::new(alloc));
    Ok(audit_input(alloc, &mut source))
}

#[test]
fn a_journal_is_judged_alike_in_whatever_pieces_it_comes(rt: HostRuntime) -> Result<(), Fail> {
    let alloc = rt.alloc();
    let legal = Audit {
        verdict: Verdict::Legal,
        entries: 1,
    };
    for piece in [1, 50, 4_096] {
        assert!(rt; said_in_pieces(alloc, LOCKED, piece)? == Ok(legal));
        assert!(rt; said_in_pieces(alloc, LOCKED_BEFORE, piece)? == Ok(legal));
    }
    Ok(())
}

#[test]
fn a_bad_line_behind_one_that_is_not_legal_leaves_no_verdict(rt: HostRuntime) -> Result<(), Fail> {
    let bad = InputFault::Text(JournalFault::BadLine { line: 4 });
    assert!(rt; said_in_pieces(rt.alloc(), BAD_BEHIND_ILLEGAL, 50)? == Err(bad));
    Ok(())
}
