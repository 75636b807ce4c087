//! Segments, judged.
ghost use Rattle.std.specs.Prelude.{◌≤◌};

use crate::{RowFault, SegmentAudit, SegmentVerdict, audit_segment};
use journal_segments::SegmentFault;
use line_text::InputFault;
use outside::MemSource;
use std::alloc::Global;
use std::test::Fail;
use wopi_text::Bytes;

/// A shard that goes on: one file, which is locked, and on which an id is refused.
const OPENING: &[u8] =
    b"wopi journal 3 shard 11 opened 0 first 1 now 9 last 2\nat 612e637376 v2 2\nheld 612e637376 4c31 9 9000000\nspent 612e637376 4c30 9000000\n";

/// A save that is taken back, the store fault, what stands there, and the end of the lock.
const ENTRIES: &[u8] =
    b"3 11 1 12 12 612e637376 put 4c31 3 ann.612e637376.w.2.0.9000000 200 - - v3 3\n1\n9\noff\n3 11 1 12 12 612e637376 put 4c31 3 ann.612e637376.w.2.0.9000000 500 - - - -\nholds 612e637376 2\n42\n4 11 1 13 13 612e637376 unlock 4c31 ann.612e637376.w.2.0.9000000 200 - - v2 -\n";

fn audited(
    alloc: Global,
    ends: &[u8],
    piece: usize,
) -> Result<Result<SegmentAudit, InputFault<SegmentFault>>, Fail>
    requires { 1 ≤ piece }
{
    let mut text = Vec::new(alloc);
    text.extend_from_slice(OPENING)?;
    text.extend_from_slice(ENTRIES)?;
    text.extend_from_slice(ends)?;
    let mut source = MemSource::new(Bytes::from_vec(text), piece, Vec::new(alloc));
    Ok(audit_segment(alloc, &mut source))
}

fn verdict_on(alloc: Global, ends: &[u8]) -> Result<SegmentVerdict, Fail> {
    match audited(alloc, ends, 61)? {
        Ok(audit) => return Ok(audit.verdict),
        Err(_) => return Err("no segment".into()),
    }
}

#[test]
fn a_segment_that_goes_on_is_legal(rt: HostRuntime) -> Result<(), Fail> {
    let alloc = rt.alloc();
    for ends in [
        b"".as_slice(),
        b"5 11 1 14 14 612e637376 lock 4c32 ann.612e637376.w.2.0.9000000 200 - - v2 -\n6 11 1 15 15 612e637376 put 4c32 3 ann.612e637376.w.2.0.9000000 200 - - v3 3\n123\n".as_slice(),
        b"5 11 1 14 14 612e637376 getlock ann.612e637376.w.2.0.9000000 200 - - - -\n".as_slice(),
        b"5 11 1 14 14 612e637376 unlock 4c32 ann.612e637376.w.2.0.13 401 - - - -\n".as_slice(),
    ] {
        assert!(rt; verdict_on(alloc, ends)? == SegmentVerdict::Legal);
    }
    Ok(())
}

#[test]
fn a_half_line_is_nothing_wrong(rt: HostRuntime) -> Result<(), Fail> {
    let alloc = rt.alloc();
    match audited(
        alloc,
        b"5 11 1 14 14 612e637376 lock 4c32 ann.612e637376.w.2.0.9000000 200 - - v7",
        7,
    )? {
        Ok(audit) => {
            assert!(rt; audit.verdict == SegmentVerdict::Legal);
            assert_eq!(rt; audit.shard, 11);
            assert_eq!(rt; audit.used as usize, OPENING.len() + ENTRIES.len());
        }
        Err(_) => return Err("no segment".into()),
    }
    Ok(())
}

#[test]
fn a_line_that_no_host_writes_is_found(rt: HostRuntime) -> Result<(), Fail> {
    let alloc = rt.alloc();
    for ends in [
        b"5 11 1 14 14 612e637376 lock 4c32 ann.612e637376.w.2.0.9000000 200 - - v3 -\n".as_slice(),
        b"5 11 1 14 14 612e637376 unlock 4c32 ann.612e637376.w.2.0.9000000 200 - - v2 -\n".as_slice(),
        b"5 11 1 14 14 612e637376 put 4c31 1 ann.612e637376.w.2.0.9000000 200 - - v3 1\n7\n".as_slice(),
        b"5 11 1 14 14 612e637376 lock 4c30 ann.612e637376.w.2.0.9000000 200 - - v2 -\n".as_slice(),
        b"5 11 1 14 14 612e637376 put - 1 ann.612e637376.w.2.0.9000000 200 - - v3 1\n7\n".as_slice(),
        b"5 11 1 14 14 612e637376 lock 4c32 ann.612e637376.w.2.0.9000000 500 - - - -\n".as_slice(),
        b"5 11 1 14 14 612e637376 lock 4c32 ann.612e637376.w.2.0.13 200 - - v2 -\n6 11".as_slice(),
    ] {
        let bad = SegmentVerdict::Bad {
            line: 10,
            fault: RowFault::Ruling,
        };
        assert!(rt; verdict_on(alloc, ends)? == bad);
    }
    Ok(())
}

#[test]
fn what_no_save_told_is_not_taken_back(rt: HostRuntime) -> Result<(), Fail> {
    let alloc = rt.alloc();
    let bad = SegmentVerdict::Bad {
        line: 11,
        fault: RowFault::TakenBack,
    };
    let ends =
        b"5 11 1 14 14 612e637376 lock 4c32 ann.612e637376.w.2.0.9000000 200 - - v2 -\noff\n6 11 1 14 14 612e637376 lock 4c32 ann.612e637376.w.2.0.9000000 200 - - v9 -\n";
    assert!(rt; verdict_on(alloc, ends)? == bad);
    Ok(())
}

#[test]
fn what_is_no_segment_has_no_verdict(rt: HostRuntime) -> Result<(), Fail> {
    let alloc = rt.alloc();
    let ends =
        b"5 11 1 14 14 612e637376 lock 4c32 ann.612e637376.w.2.0.9000000 200 - - v3 -\nholds 612e637376 2\n42\n";
    match audited(alloc, ends, 5)? {
        Ok(_) => return Err("a bad line was taken".into()),
        Err(fault) => { assert!(rt; fault == InputFault::Text(SegmentFault::Bad(11))) }
    }
    Ok(())
}
