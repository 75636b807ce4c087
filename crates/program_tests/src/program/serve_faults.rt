//! `serve` where its link, its folders and its output fail in turn.
use super::serve::{
    LOCKED, MemLink, ONE_LINE, ONE_LOCK, ONE_WORKER, Served, folders, lines, meet, requests, serve,
};
use outside::{Folder, MemFolder, MemListener, MemSink, MemSource, Pair, ScriptClock};
use std::alloc::Global;
use std::sync::Wait;
use std::test::Fail;
use std::thread::Threads;
use wopi_text::Memory;

/// The number of the link's read, of its write and of the output's write that fails, or 0 where none does.
#[derive(Clone, Copy)]
struct Faults {
    read: u64,
    write: u64,
    output: u64,
}

/// A listener with one link that holds a Lock request.
fn listener(alloc: Global, faults: Faults) -> Result<MemListener<MemLink>, Memory> {
    let mut links = Vec::new(alloc);
    let reads = [faults.read].to_vec(alloc)?;
    let writes = [faults.write].to_vec(alloc)?;
    let source = MemSource::new(requests(alloc, &ONE_LOCK)?, 1_000_000, reads);
    links.push(Pair::new(source, MemSink::new(alloc, 10_000, writes)?))?;
    MemListener::new(alloc, links, Vec::new(alloc))
}

/// What one worker meets, whose clock opens at 0 and then gives 5.
fn met(
    alloc: Global,
    faults: Faults,
    folders: Vec<MemFolder>,
) -> Result<Served<MemFolder, MemLink>, Memory> {
    let mut listeners = Vec::new(alloc);
    listeners.push(listener(alloc, faults)?)?;
    let mut clocks = Vec::new(alloc);
    clocks.push(ScriptClock::new(0, [5u64].to_vec(alloc)?))?;
    let mut outside = meet(alloc, folders, listeners, clocks)?;
    outside.output = MemSink::new(alloc, 10_000, [faults.output].to_vec(alloc)?)?;
    Ok(outside)
}

/// What a run of `serve` left.
struct Left {
    status: u8,
    output: MemSink,
    notes: MemSink,
    replies: Vec<u8>,
}

// Written, since a derived one is spelled out, and proved, wherever it goes.
impl Drop for Left {
    fn drop(self) {
        let Left {
            status: _status,
            output: _output,
            notes: _notes,
            replies: _replies,
        } = self;
    }
}

/// Runs `serve` with one worker; the link's replies are left where it was handed back.
fn left_by<R: Threads + Wait + Sync>(
    rt: &R,
    alloc: Global,
    mut outside: Served<MemFolder, MemLink>,
) -> Result<Left, Fail> {
    let status = serve(rt, alloc, &ONE_WORKER, &mut outside)?;
    let listener = outside.listeners.first().ok_or("a listener")?;
    let replies = match listener.finished_links().first() {
        Some(link) => link.sink.as_slice().to_vec(alloc)?,
        None => Vec::new(alloc),
    };
    Ok(Left {
        status,
        output: outside.output,
        notes: outside.notes,
        replies,
    })
}

const OPENING: [&str; 3] = [
    "wopi journal 2 opened 0 first 1",
    "file 612e637376 312c320a",
    "end 0",
];

/// The number of the link's read and of its write that fails, the lines of the journal, and the link's replies.
struct Row {
    read: u64,
    write: u64,
    journal: &'static [&'static str],
    replies: &'static [u8],
}

const ROWS: [Row; 4] = [
    Row {
        read: 1,
        write: 0,
        journal: &OPENING,
        replies: b"",
    },
    Row {
        read: 2,
        write: 0,
        journal: &ONE_LINE,
        replies: LOCKED,
    },
    Row {
        read: 0,
        write: 1,
        journal: &ONE_LINE,
        replies: b"",
    },
    Row {
        read: 3,
        write: 2,
        journal: &ONE_LINE,
        replies: LOCKED,
    },
];

#[test]
fn a_link_that_fails_ends_nothing_but_its_connection(rt: HostRuntime) -> Result<(), Fail> {
    let alloc = rt.alloc();
    for (place, row) in ROWS.iter().enumerate() {
        let faults = Faults {
            read: row.read,
            write: row.write,
            output: 0,
        };
        let left = left_by(&rt, alloc, met(alloc, faults, folders(alloc)?)?)?;
        let journal = lines(alloc, row.journal)?;
        assert!(rt; left.status == 0, "row {place}");
        assert!(rt; left.output.as_slice() == journal.as_slice(), "row {place}");
        assert!(rt; left.replies.as_slice() == row.replies, "row {place}");
        assert!(rt; left.notes.as_slice().is_empty(), "row {place}");
    }
    Ok(())
}

#[test]
fn a_write_that_fails_leaves_a_front_of_the_journal(rt: HostRuntime) -> Result<(), Fail> {
    let alloc = rt.alloc();
    let journal = lines(alloc, &ONE_LINE)?;
    for output in 1..9 {
        let faults = Faults {
            read: 0,
            write: 0,
            output,
        };
        let left = left_by(&rt, alloc, met(alloc, faults, folders(alloc)?)?)?;
        let is_whole = left.output.as_slice() == journal.as_slice();
        let status = if is_whole { 0 } else { 4 };
        assert!(rt; left.status == status, "write {output}");
        assert!(rt;
            journal.starts_with(left.output.as_slice()),
            "write {output}"
        );
        assert!(rt; left.replies.as_slice() == LOCKED, "write {output}");
        assert!(rt;
            left.notes.as_slice().is_empty() == is_whole,
            "write {output}"
        );
        assert!(rt; output > 1 || !is_whole);
    }
    Ok(())
}

/// 16 folders, of which that with `a.csv` fails at its call of this number.
fn failing(alloc: Global, call: u64) -> Result<Vec<MemFolder>, Memory> {
    let mut folders = Vec::new(alloc);
    for shard in 0..16u32 {
        let numbers = [if shard == 11 { call } else { 0 }].to_vec(alloc)?;
        let mut folder = MemFolder::new(alloc, Vec::new(alloc), numbers);
        let _kept = folder.replace("a.csv", b"1,2\n");
        folders.push(folder)?;
    }
    Ok(folders)
}

#[test]
fn a_folder_that_fails_in_opening_lets_no_link_in(rt: HostRuntime) -> Result<(), Fail> {
    let alloc = rt.alloc();
    let none = Faults {
        read: 0,
        write: 0,
        output: 0,
    };
    for (call, status, notes, replies) in [
        (2, 5, "folder fault\n", b"".as_slice()),
        (3, 5, "folder fault\n", b"".as_slice()),
        (4, 5, "folder fault\n", b"".as_slice()),
        (5, 0, "", LOCKED),
    ] {
        let left = left_by(&rt, alloc, met(alloc, none, failing(alloc, call)?)?)?;
        assert!(rt; left.status == status, "call {call}");
        assert!(rt; left.notes.as_slice() == notes.as_bytes(), "call {call}");
        assert!(rt;
            left.output.as_slice().is_empty() == (status == 5),
            "call {call}"
        );
        assert!(rt; left.replies.as_slice() == replies, "call {call}");
    }
    Ok(())
}
