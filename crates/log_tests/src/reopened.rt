//! A shard that goes on over a folder and a log in memory, at which each call fails in turn.
use crate::logs::{bytes, call, name};
use host_core::{Life, LifeContents, LifeFile, ReopenFault, Shard};
use host_log::Logged;
use host_table::WriteRoom;
use outside::{Folder, MemFolder, MemLog};
use std::alloc::Global;
use std::process::Abort;
use std::test::Fail;
use wopi_model::{Act, Lock, Spent};
use wopi_text::LockId;

fn id(rt: &impl Abort, text: &[u8]) -> LockId {
    LockId::read(text).expect(rt, "a lock id")
}

/// How many calls give the folder its files.
const MADE: u64 = 4;

/// A folder of four files, at which calls fail later on.
fn folder(rt: &impl Abort, alloc: Global, failing: &[u64]) -> Result<MemFolder, Fail> {
    let mut folder = MemFolder::new(alloc, Vec::new(alloc), failing.to_vec(alloc)?);
    assert!(rt; folder.replace("a.txt", b"1\n2") == Ok(()));
    assert!(rt; folder.replace("b.txt", b"") == Ok(()));
    assert!(rt; folder.replace("c.txt", b"gone") == Ok(()));
    assert!(rt; folder.replace("d.txt", b"0") == Ok(()));
    Ok(folder)
}

/// A file that is locked, and on which two ids are refused.
fn locked(rt: &impl Abort, alloc: Global) -> Result<LifeFile, Fail> {
    let mut spent = Vec::new(alloc);
    spent.push(Spent {
        id: id(rt, b"L3"),
        until: 940,
    })?;
    spent.push(Spent {
        id: id(rt, b"L2"),
        until: 950,
    })?;
    Ok(LifeFile {
        name: name(rt, b"a.txt"),
        version: 9,
        contents: LifeContents::Left { size: 3 },
        lock: Some(Lock {
            id: id(rt, b"L1"),
            since: 20,
            until: 900,
        }),
        spent,
    })
}

/// A file of these contents, which has no lock.
fn unlocked(
    rt: &impl Abort,
    alloc: Global,
    file: &[u8],
    version: u64,
    contents: LifeContents,
) -> LifeFile {
    LifeFile {
        name: name(rt, file),
        version,
        contents,
        lock: None,
        spent: Vec::new(alloc),
    }
}

/// What is told of the shard. The folder lacks what was changed last of two files, and nothing is told of a fourth.
fn life(rt: &impl Abort, alloc: Global) -> Result<Life, Fail> {
    let told = LifeContents::Told {
        contents: bytes(alloc, b"345")?,
    };
    let mut files = Vec::new(alloc);
    files.push(unlocked(rt, alloc, b"c.txt", 10, LifeContents::Removed))?;
    files.push(unlocked(rt, alloc, b"b.txt", 8, told))?;
    files.push(locked(rt, alloc)?)?;
    Ok(Life {
        opened: 5,
        first: 7,
        now: 30,
        last: 12,
        files,
    })
}

/// What its segment begins with.
const BEGUN: &[u8] = b"wopi journal 3 shard 0 opened 5 first 7 now 30 last 12\n\
at 612e747874 v9 3\nheld 612e747874 4c31 20 900\nspent 612e747874 4c33 940\nspent 612e747874 4c32 950\n\
at 622e747874 v8 3\nat 642e747874 v7 1\nat 632e747874 v10 -\n";

/// What is appended for a save, and for its unlocking.
const SAVED: &[u8] =
    b"13 15 1 40 40 612e747874 put 4c31 3 ann.612e747874.w.2.5.9000000 200 - - v10 3\n678\n";

const UNLOCKED: &[u8] =
    b"14 15 1 41 41 612e747874 unlock 4c31 ann.612e747874.w.2.5.9000000 200 - - v10 -\n";

/// How many calls a run makes.
const STEPS: usize = 2;

fn act(rt: &impl Abort, alloc: Global, place: usize) -> Result<Act, Fail> {
    Ok(match place {
        0 => Act::Put {
            lock: Some(id(rt, b"L1")),
            contents: bytes(alloc, b"678")?,
        },
        _ => Act::Unlock { id: id(rt, b"L1") },
    })
}

/// What a run leaves: the folder, the log, whether the shard went on, and the statuses that were told before the log was
/// lost.
#[derive(Drop)]
struct Ran {
    folder: MemFolder,
    log: MemLog,
    is_open: bool,
    told: Vec<u16>,
}

/// What a store leaves with which no shard went on.
fn refused(store: Logged<MemFolder, MemLog>, told: Vec<u16>) -> Ran {
    let (folder, log) = store.end();
    Ran {
        folder,
        log,
        is_open: false,
        told,
    }
}

/// A store over the folder and an empty log, whose first call is made then.
fn store(
    rt: &impl Abort,
    alloc: Global,
    in_folder: &[u64],
    in_log: &[u64],
) -> Result<Logged<MemFolder, MemLog>, Fail> {
    let folder = folder(rt, alloc, in_folder)?;
    let log = MemLog::new(alloc, 4096, 4096, in_log.to_vec(alloc)?)?;
    match Logged::resume(alloc, 0, folder, log, 0, WriteRoom::new(alloc)?, false) {
        Ok(store) => Ok(store),
        Err(_handed) => Err("an empty log".into()),
    }
}

/// A shard goes on, and is asked twice, or until its store is lost.
fn run(rt: &impl Abort, alloc: Global, in_folder: &[u64], in_log: &[u64]) -> Result<Ran, Fail> {
    let mut told = Vec::new(alloc);
    let store = store(rt, alloc, in_folder, in_log)?;
    let mut shard = match Shard::reopen(alloc, store, None, 100, life(rt, alloc)?) {
        Ok(shard) => shard,
        Err((store, _why)) => return Ok(refused(store, told)),
    };
    for place in 0..STEPS {
        let mut asked = call(rt, b"a.txt", act(rt, alloc, place)?);
        asked.token.issued = 5;
        match shard.step(asked, 1, 0, 40 + place as u64) {
            Ok((_, ruling, _)) => {
                if shard.is_lost() {
                    break;
                }
                told.push(ruling.status)?;
            }
            Err(_) => return Err("a step".into()),
        }
    }
    let (store, _start) = shard.end();
    let (folder, log) = store.end();
    Ok(Ran {
        folder,
        log,
        is_open: true,
        told,
    })
}

#[test]
fn a_segment_begins_with_what_goes_on(rt: HostRuntime) -> Result<(), Fail> {
    let ran = run(&rt, rt.alloc(), &[], &[])?;
    assert!(rt; ran.told.as_slice() == [200u16, 200].as_slice());
    let text = ran.log.as_slice();
    assert!(rt; text.starts_with(BEGUN) && text.ends_with(UNLOCKED));
    assert!(rt; text.len() == BEGUN.len() + SAVED.len() + UNLOCKED.len());
    assert!(rt; ran.log.synced() == BEGUN.len() + SAVED.len());
    let folder = &ran.folder;
    assert!(rt; folder.contents("a.txt") == Some(b"678".as_slice()));
    assert!(rt; folder.contents("b.txt") == Some(b"345".as_slice()));
    assert!(rt; folder.contents("c.txt").is_none());
    assert!(rt; folder.contents("d.txt") == Some(b"0".as_slice()));
    Ok(())
}

/// How long the log is at the least that is left by a machine that stopped then.
fn least(ran: &Ran) -> usize {
    if !ran.is_open {
        return 0;
    }
    match ran.told.first() {
        Some(200) => BEGUN.len() + SAVED.len(),
        _ => BEGUN.len(),
    }
}

/// What the shard went on with, and each save that was told, stands in the log, also where the machine stops and leaves some bytes
/// behind what was synced.
fn keeps(ran: &mut Ran, whole: &[u8], more: usize) -> bool {
    let least = least(ran);
    if !whole.starts_with(ran.log.as_slice()) || ran.log.as_slice().len() < least {
        return false;
    }
    ran.log.crash(more);
    whole.starts_with(ran.log.as_slice()) && ran.log.as_slice().len() >= least
}

/// How many entries were told before that call of the log failed. Behind its cut come the beginning and its sync, the
/// save's line and its sync, and the other line.
fn told_before(fault: u64) -> usize {
    if fault < 6 {
        return 0;
    }
    if fault == 6 {
        return 1;
    }
    STEPS
}

#[test]
fn at_each_call_of_the_log_that_fails_what_went_on_stands(rt: HostRuntime) -> Result<(), Fail> {
    let whole = run(&rt, rt.alloc(), &[], &[])?;
    for more in [0, 1, 4096] {
        for fault in 2..9 {
            let mut ran = run(&rt, rt.alloc(), &[], &[fault])?;
            assert!(rt; ran.is_open == (fault > 3), "{fault}");
            assert!(rt; ran.told.len() == told_before(fault), "{fault}");
            assert!(rt;
                keeps(&mut ran, whole.log.as_slice(), more),
                "{fault} {more}"
            );
        }
    }
    Ok(())
}

/// What is appended for a save that the folder doesn't take.
const TAKEN_BACK: &[u8] =
    b"off\n13 15 1 40 40 612e747874 put 4c31 3 ann.612e747874.w.2.5.9000000 500 - - - -\n";

#[test]
fn at_each_call_of_the_folder_that_fails_so_it_does(rt: HostRuntime) -> Result<(), Fail> {
    let mut refused: u64 = 0;
    for fault in MADE + 1..40 {
        let ran = run(&rt, rt.alloc(), &[fault], &[])?;
        let text = ran.log.as_slice();
        if !ran.is_open {
            assert!(rt; text.is_empty() && ran.told.is_empty());
            refused = refused.saturating_add(1);
            continue;
        }
        assert!(rt; text.starts_with(BEGUN));
        let is_whole = text.len() == BEGUN.len() + SAVED.len() + UNLOCKED.len();
        let status = if is_whole { 200 } else { 500 };
        assert!(rt; ran.told.as_slice() == [status, 200].as_slice(), "{fault}");
        if !is_whole {
            assert!(rt;
                text.len() == BEGUN.len() + SAVED.len() + TAKEN_BACK.len() + UNLOCKED.len() - 1
            );
        }
    }
    assert!(rt; refused > 6);
    Ok(())
}

#[test]
fn a_log_that_was_begun_is_gone_on_with_by_none(rt: HostRuntime) -> Result<(), Fail> {
    let alloc = rt.alloc();
    // the log's third call is the sync of the beginning
    let first = store(&rt, alloc, &[], &[3])?;
    let lost = match Shard::reopen(alloc, first, None, 100, life(&rt, alloc)?) {
        Ok(_shard) => return Err("the log is lost".into()),
        Err((store, why)) => {
            assert!(rt; matches!(&why, ReopenFault::FolderFault));
            store
        }
    };
    let lost = match Shard::reopen(alloc, lost, None, 100, life(&rt, alloc)?) {
        Ok(_shard) => return Err("the log was lost before".into()),
        Err((store, why)) => {
            assert!(rt; matches!(&why, ReopenFault::Memory));
            store
        }
    };
    let (_folder, log) = lost.end();
    assert!(rt; log.as_slice() == BEGUN);
    assert!(rt; log.synced() == 0);
    Ok(())
}

#[test]
fn nor_is_one_that_was_opened(rt: HostRuntime) -> Result<(), Fail> {
    let alloc = rt.alloc();
    let begun = store(&rt, alloc, &[], &[])?;
    let shard = match Shard::start_endless(alloc, begun, None, 100, 5, 7) {
        Ok(shard) => shard,
        Err(_refused) => return Err("a shard".into()),
    };
    let (opened, _start) = shard.end();
    match Shard::reopen(alloc, opened, None, 100, life(&rt, alloc)?) {
        Ok(_shard) => return Err("the log has a segment".into()),
        Err((store, why)) => {
            assert!(rt; matches!(&why, ReopenFault::Memory));
            assert!(rt; store.is_whole());
        }
    }
    Ok(())
}
