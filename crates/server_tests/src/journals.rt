//! Texts of journals, read and written.
use host_table::WriteRoom;
use journal_text::{
    JournalFault, RewriteFault, WriteEnd, read_bytes, read_journal, rewrite, write_lines,
    write_lines_into,
};
use line_text::InputFault;
use outside::{MemSink, MemSource};
use std::alloc::Global;
use std::test::Fail;
use wopi_text::Bytes;

const FIRST_FORM: &[u8] =
    b"wopi journal 1 opened 0\nfile 612e637376 312c320a\n1 11 0 5 612e637376 lock 4c31 ann.612e637376.w.2.0.9000000 200 - - v1 -\nend\n";

const SECOND_FORM: &[u8] =
    b"wopi journal 2 opened 0 first 1\nfile 612e637376 312c320a\n1 11 0 5 5 612e637376 lock 4c31 ann.612e637376.w.2.0.9000000 200 - - v1 -\nend 1\n";

/// The text in the second form of the journal that these bytes are.
fn again(alloc: Global, bytes: &[u8]) -> Result<MemSink, Fail> {
    let Ok(text) = read_journal(alloc, bytes) else {
        return Err("a journal".into());
    };
    let Ok(mut sink) = MemSink::new(alloc, 4_096, Vec::new(alloc)) else {
        return Err("a sink".into());
    };
    match write_lines(alloc, &mut sink, &text) {
        Ok(()) => Ok(sink),
        Err(_) => Err("a write".into()),
    }
}

/// The same, in room that was taken ahead.
fn again_in_room(alloc: Global, bytes: &[u8]) -> Result<MemSink, Fail> {
    let Ok(text) = read_journal(alloc, bytes) else {
        return Err("a journal".into());
    };
    let Ok(mut sink) = MemSink::new(alloc, 4_096, Vec::new(alloc)) else {
        return Err("a sink".into());
    };
    let Ok(room) = WriteRoom::new(alloc) else {
        return Err("room".into());
    };
    match write_lines_into(&mut sink, room, &text) {
        Ok(()) => Ok(sink),
        Err(_) => Err("a write".into()),
    }
}

/// The same, without a list of the entries.
fn rewritten(alloc: Global, bytes: &[u8]) -> Result<MemSink, Fail> {
    let Ok(mut sink) = MemSink::new(alloc, 4_096, Vec::new(alloc)) else {
        return Err("a sink".into());
    };
    match rewrite(alloc, &mut sink, bytes) {
        Ok(()) => Ok(sink),
        Err(_) => Err("a journal".into()),
    }
}

/// The first bad line of a journal whose first line is there, with these lines behind it.
fn bad_line(alloc: Global, lines: &[u8]) -> Result<Option<u64>, Fail> {
    let mut text = b"wopi journal 2 opened 0 first 1\n".to_vec(alloc)?;
    text.extend_from_slice(lines)?;
    match read_journal(alloc, &text) {
        Ok(_) => Ok(None),
        Err(JournalFault::BadLine { line }) => Ok(Some(line)),
        Err(_) => Err("a reading".into()),
    }
}

#[test]
fn a_journal_of_the_first_form_is_written_in_the_second(rt: HostRuntime) -> Result<(), Fail> {
    for sink in [
        again(rt.alloc(), FIRST_FORM)?,
        again_in_room(rt.alloc(), FIRST_FORM)?,
        rewritten(rt.alloc(), FIRST_FORM)?,
    ] {
        assert!(rt; sink.as_slice() == SECOND_FORM);
    }
    Ok(())
}

#[test]
fn a_write_that_fails_is_told(rt: HostRuntime) -> Result<(), Fail> {
    let alloc = rt.alloc();
    let Ok(text) = read_journal(alloc, FIRST_FORM) else {
        return Err("a journal".into());
    };
    let Ok(mut sink) = MemSink::new(alloc, 4_096, [1].to_vec(alloc)?) else {
        return Err("a sink".into());
    };
    let end = write_lines(alloc, &mut sink, &text);
    assert!(rt; matches!(end, Err(WriteEnd::Failed)));
    Ok(())
}

#[test]
fn the_first_bad_line_is_named(rt: HostRuntime) -> Result<(), Fail> {
    assert!(rt; bad_line(rt.alloc(), b"end 0\n")? == None);
    assert!(rt; bad_line(rt.alloc(), b"")? == Some(2));
    assert!(rt; bad_line(rt.alloc(), b"end 0")? == Some(2));
    assert!(rt; bad_line(rt.alloc(), b"end 1\n")? == Some(2));
    assert!(rt; bad_line(rt.alloc(), b"end\n")? == Some(2));
    assert!(rt; bad_line(rt.alloc(), b"end 0\n\n")? == Some(3));
    assert!(rt; bad_line(rt.alloc(), b"file 612e637376 -\nfile 612e637376 -\nend 0\n")? == Some(3));
    assert!(rt; bad_line(rt.alloc(), b"file 622e637376 -\nfile 612e637376 -\nend 0\n")? == Some(3));
    assert!(rt; bad_line(rt.alloc(), b"file 612e637376 -\nfile 622e637376 -\nend 0\n")? == None);
    assert!(rt; bad_line(rt.alloc(), b"file 612e637376 0A\nend 0\n")? == Some(2));
    Ok(())
}

/// The first bad line of a journal with these words before and behind the lock id of its entry, which has so
/// many bytes.
fn bad_under_id(alloc: Global, front: &str, count: usize, end: &str) -> Result<Option<u64>, Fail> {
    let mut text = front.as_bytes().to_vec(alloc)?;
    for _ in 0..count {
        text.extend_from_slice(b"78")?;
    }
    text.extend_from_slice(end.as_bytes())?;
    match read_journal(alloc, &text) {
        Ok(_) => Ok(None),
        Err(JournalFault::BadLine { line }) => Ok(Some(line)),
        Err(_) => Err("a reading".into()),
    }
}

#[test]
fn lock_ids_have_at_most_256_bytes_in_the_first_form_and_1024_in_the_second(
    rt: HostRuntime,
) -> Result<(), Fail> {
    let first = "wopi journal 1 opened 0\n1 11 0 5 612e637376 lock ";
    let second = "wopi journal 2 opened 0 first 1\n1 11 0 5 5 612e637376 lock ";
    let end = " u.612e637376.w.2.0.9 200 - - v1 -\nend\n";
    let counted = " u.612e637376.w.2.0.9 200 - - v1 -\nend 1\n";
    assert!(rt; bad_under_id(rt.alloc(), first, 256, end)? == None);
    assert!(rt; bad_under_id(rt.alloc(), first, 257, end)? == Some(2));
    assert!(rt; bad_under_id(rt.alloc(), second, 1_024, counted)? == None);
    assert!(rt; bad_under_id(rt.alloc(), second, 1_025, counted)? == Some(2));
    Ok(())
}

/// An input of these bytes, so many at a read, whose n-th read fails where one is given.
fn input(alloc: Global, text: &[u8], piece: usize, failing: u64) -> Result<MemSource, Fail> {
    let Ok(bytes) = Bytes::from_slice(alloc, text) else {
        return Err("bytes".into());
    };
    Ok(MemSource::new(bytes, piece.max(1), [failing].to_vec(alloc)?))
}

#[test]
fn an_input_is_read_whole(rt: HostRuntime) -> Result<(), Fail> {
    let alloc = rt.alloc();
    for piece in [1, 7, 1_000] {
        let mut source = input(alloc, SECOND_FORM, piece, 0)?;
        let Ok(bytes) = read_bytes(alloc, &mut source) else {
            return Err("bytes".into());
        };
        assert!(rt; bytes.as_slice() == SECOND_FORM);
    }
    Ok(())
}
