//! A shard over a folder and a log in memory, at which each call fails in turn.
ghost use Rattle.std.specs.Prelude.{◌≤◌};

use host_core::{Shard, StartFault};
use host_log::Logged;
use host_table::WriteRoom;
use outside::{Folder, MemFolder, MemLog, append};
use std::alloc::Global;
use std::process::Abort;
use std::test::Fail;
use wopi_model::{Act, Call, Token, User};
use wopi_text::{Bytes, FileName, LockId};

pub(crate) fn name(rt: &impl Abort, text: &[u8]) -> FileName {
    match FileName::read(text) {
        Ok(name) => name,
        Err(_) => panic!(rt; "a file's name"),
    }
}

pub(crate) fn call(rt: &impl Abort, file: &[u8], act: Act) -> Call {
    Call {
        name: name(rt, file),
        token: Token {
            user: User::read(b"ann").expect(rt, "a user"),
            file: name(rt, file),
            write: true,
            serial: 2,
            issued: 0,
            expires: 9_000_000,
        },
        act,
    }
}

pub(crate) fn bytes(alloc: Global, text: &[u8]) -> Result<Bytes, Fail> {
    Ok(Bytes::from_vec(text.to_vec(alloc)?))
}

/// How many calls a run makes at most.
const STEPS: usize = 5;

/// What is asked of the shard, one after another: a new file, its lock, other contents under it, its unlocking, its end.
fn act(rt: &impl Abort, alloc: Global, place: usize) -> Result<Act, Fail> {
    let id = LockId::read(b"L1").expect(rt, "a lock id");
    Ok(match place {
        0 => Act::Create {
            overwrite: false,
            contents: bytes(alloc, b"1\n2")?,
        },
        1 => Act::Lock { id },
        2 => Act::Put {
            lock: Some(id),
            contents: bytes(alloc, b"345")?,
        },
        3 => Act::Unlock { id },
        _ => Act::Delete,
    })
}

/// Which calls fail.
#[derive(Clone, Copy)]
struct Faults<'a> {
    folder: &'a [u64],
    log: &'a [u64],
    /// The most bytes that the log takes at once.
    most: usize,
}

/// What a run leaves: the folder, the log, whether the shard was opened, and the statuses that were told before the log
/// was lost.
#[derive(Drop)]
struct Ran {
    folder: MemFolder,
    log: MemLog,
    is_open: bool,
    told: Vec<u16>,
}

/// The number of the shard of `a.txt`.
const SHARD: u8 = 15;

/// A shard over an empty folder is asked so often, or until its store is lost.
fn run(rt: &impl Abort, alloc: Global, faults: Faults<'_>, steps: usize) -> Result<Ran, Fail>
    requires { 1 ≤ faults.most }
{
    let mut told = Vec::new(alloc);
    let folder = MemFolder::new(alloc, Vec::new(alloc), faults.folder.to_vec(alloc)?);
    let log = MemLog::new(alloc, 4096, faults.most, faults.log.to_vec(alloc)?)?;
    let mut is_open = false;
    let store = match Logged::resume(alloc, SHARD, folder, log, 0, WriteRoom::new(alloc)?, false) {
        Ok(store) => store,
        Err((folder, log)) => {
            return Ok(Ran {
                folder,
                log,
                is_open,
                told,
            });
        }
    };
    let mut shard = match Shard::start_endless(alloc, store, None, 100, 0, 1) {
        Ok(shard) => shard,
        Err((store, _why)) => {
            let (folder, log) = store.end();
            return Ok(Ran {
                folder,
                log,
                is_open,
                told,
            });
        }
    };
    is_open = true;
    for place in 0..steps.min(STEPS) {
        let asked = call(rt, b"a.txt", act(rt, alloc, place)?);
        match shard.step(asked, 1, 0, 10 + place as u64) {
            Ok((_, ruling, _)) => {
                if shard.is_lost() {
                    break;
                }
                told.push(ruling.status)?;
            }
            Err(_) => return Err("a step".into()),
        }
    }
    let (store, _start) = shard.end();
    let (folder, log) = store.end();
    Ok(Ran {
        folder,
        log,
        is_open,
        told,
    })
}

const NONE: Faults<'static> = Faults {
    folder: &[],
    log: &[],
    most: 4096,
};

/// What a shard over an empty folder begins with.
const HEAD: &[u8] = b"wopi journal 3 shard 15 opened 0 first 1 now 0 last 0\n";

/// What is appended for the opening and each of the calls, where nothing fails.
const WHOLE: &[u8] = b"wopi journal 3 shard 15 opened 0 first 1 now 0 last 0\n\
1 15 1 10 10 612e747874 create no 3 ann.612e747874.w.2.0.9000000 200 - - v1 3\n1\n2\n\
2 15 1 11 11 612e747874 lock 4c31 ann.612e747874.w.2.0.9000000 200 - - v1 -\n\
3 15 1 12 12 612e747874 put 4c31 3 ann.612e747874.w.2.0.9000000 200 - - v2 3\n345\n\
4 15 1 13 13 612e747874 unlock 4c31 ann.612e747874.w.2.0.9000000 200 - - v2 -\n\
5 15 1 14 14 612e747874 delete ann.612e747874.w.2.0.9000000 200 - - - -\n";

#[test]
fn each_entry_stands_in_the_log(rt: HostRuntime) -> Result<(), Fail> {
    for most in [4096, 7] {
        let ran = run(&rt, rt.alloc(), Faults { most, ..NONE }, STEPS)?;
        assert!(rt; ran.told.as_slice() == [200u16, 200, 200, 200, 200].as_slice());
        assert!(rt; ran.log.as_slice() == WHOLE, "{most}");
        assert!(rt; ran.folder.contents("a.txt").is_none());
    }
    Ok(())
}

/// A new file, for whose contents the folder has no place.
const TAKEN_BACK: &[u8] = b"wopi journal 3 shard 15 opened 0 first 1 now 0 last 0\n\
1 15 1 10 10 612e747874 create no 3 ann.612e747874.w.2.0.9000000 200 - - v1 3\n1\n2\noff\n\
1 15 1 10 10 612e747874 create no 3 ann.612e747874.w.2.0.9000000 500 - - - -\n";

#[test]
fn a_fault_of_the_folder_takes_the_entry_back(rt: HostRuntime) -> Result<(), Fail> {
    let faults = Faults {
        folder: &[2],
        ..NONE
    };
    let ran = run(&rt, rt.alloc(), faults, 1)?;
    assert!(rt; ran.told.as_slice() == [500u16].as_slice());
    assert!(rt; ran.log.as_slice() == TAKEN_BACK);
    Ok(())
}

/// How long the log is once so many entries were told, where the shard was opened.
fn end_of(ran: &Ran, ends: &[usize], told: usize) -> usize {
    if !ran.is_open {
        return 0;
    }
    match ends.get(told) {
        None => 0,
        Some(end) => *end,
    }
}

/// How long it is once none, one and so on were told.
fn ends_of(rt: &impl Abort, alloc: Global, folder: &[u64], most: usize) -> Result<Vec<usize>, Fail>
    requires { 1 ≤ most }
{
    let mut ends = Vec::new(alloc);
    for steps in 0..STEPS + 1 {
        let faults = Faults {
            folder,
            log: &[],
            most,
        };
        let ran = run(rt, alloc, faults, steps)?;
        ends.push(ran.log.as_slice().len())?;
    }
    Ok(ends)
}

/// How many entries were told up to the last one that changed the folder.
fn lasting(told: &[u16]) -> usize {
    let mut last = 0;
    for place in 0..told.len() {
        if told[place] == 200 && place % 2 == 0 {
            last = place + 1;
        }
    }
    last
}

/// After how many entries the folder has what it has, at the least. A call that fails leaves half of what it was to write.
fn reached(folder: &MemFolder) -> usize {
    let Some(contents) = folder.contents("a.txt") else {
        return 0;
    };
    if contents == b"345".as_slice() {
        return 3;
    }
    if contents == b"1\n2".as_slice() {
        return 1;
    }
    0
}

/// What was opened and told stands in the log, and so it does where the machine stops and leaves some bytes behind what was synced;
/// but for what changed no contents. What is in the folder stands in the log then.
fn keeps(ran: &mut Ran, whole: &[u8], ends: &[usize], more: usize) -> bool {
    let text = ran.log.as_slice();
    if !whole.starts_with(text) || text.len() < end_of(ran, ends, ran.told.len()) {
        return false;
    }
    ran.log.crash(more);
    let text = ran.log.as_slice();
    whole.starts_with(text)
        && text.len() >= end_of(ran, ends, lasting(&ran.told))
        && text.len() >= end_of(ran, ends, reached(&ran.folder))
}

/// The log fails at each of its calls in turn, its opening among them, until none fails.
fn fails_at_each(
    rt: &impl Abort,
    alloc: Global,
    folder: &[u64],
    most: usize,
    more: usize,
) -> Result<bool, Fail>
    requires { 1 ≤ most }
{
    let faults = Faults {
        folder,
        log: &[],
        most,
    };
    let whole = run(rt, alloc, faults, STEPS)?;
    let ends = ends_of(rt, alloc, folder, most)?;
    for call in 1..100 {
        let faults = Faults {
            folder,
            log: &[call],
            most,
        };
        let mut ran = run(rt, alloc, faults, STEPS)?;
        if ran.log.as_slice().len() == whole.log.as_slice().len() && ran.told.len() == STEPS {
            return Ok(call > 10);
        }
        if !keeps(&mut ran, whole.log.as_slice(), &ends, more) {
            return Ok(false);
        }
    }
    Ok(false)
}

#[test]
fn at_each_call_of_the_log_that_fails_nothing_told_is_missing(rt: HostRuntime) -> Result<(), Fail> {
    for more in [0, 1, 40, 4096] {
        assert!(rt; fails_at_each(&rt, rt.alloc(), &[], 4096, more)?, "{more}");
        assert!(rt; fails_at_each(&rt, rt.alloc(), &[], 7, more)?, "{more}");
    }
    Ok(())
}

#[test]
fn nor_is_it_where_the_folder_fails_too(rt: HostRuntime) -> Result<(), Fail> {
    for fault in 2..8 {
        for more in [0, 3, 4096] {
            assert!(rt;
                fails_at_each(&rt, rt.alloc(), &[fault], 4096, more)?,
                "{fault} {more}"
            );
        }
    }
    Ok(())
}

#[test]
fn a_log_goes_on_behind_its_front(rt: HostRuntime) -> Result<(), Fail> {
    let alloc = rt.alloc();
    let folder = MemFolder::new(alloc, Vec::new(alloc), Vec::new(alloc));
    let mut log = MemLog::new(alloc, 64, 64, Vec::new(alloc))?;
    assert!(rt; append(&mut log, b"first\nsec") == Ok(()));
    let (folder, log) = match Logged::resume(
        alloc,
        SHARD,
        folder,
        log,
        10,
        WriteRoom::new(alloc)?,
        false,
    ) {
        Ok(_store) => return Err("there are nine bytes".into()),
        Err(handed) => handed,
    };
    assert!(rt; log.as_slice() == b"first\nsec".as_slice());
    let store = match Logged::resume(alloc, SHARD, folder, log, 6, WriteRoom::new(alloc)?, false) {
        Ok(store) => store,
        Err(_handed) => return Err("there are six bytes".into()),
    };
    assert!(rt; store.is_whole());
    let (_folder, log) = store.end();
    assert!(rt; log.as_slice() == b"first\n".as_slice());
    assert!(rt; log.synced() == 6);
    Ok(())
}

/// More bytes than are gathered.
const MANY: usize = 70_000;

#[test]
fn large_contents_stand_behind_their_line(rt: HostRuntime) -> Result<(), Fail> {
    let alloc = rt.alloc();
    let folder = MemFolder::new(alloc, Vec::new(alloc), Vec::new(alloc));
    let log = MemLog::new(alloc, 80_000, 80_000, vec![in alloc; 7]?)?;
    let store = match Logged::resume(alloc, SHARD, folder, log, 0, WriteRoom::new(alloc)?, false) {
        Ok(store) => store,
        Err(_handed) => return Err("an empty log".into()),
    };
    let mut shard = match Shard::start_endless(alloc, store, None, 100, 0, 1) {
        Ok(shard) => shard,
        Err(_refused) => return Err("a shard".into()),
    };
    let mut contents = Vec::new(alloc);
    contents.resize(MANY, 10u8)?;
    let made = Act::Create {
        overwrite: false,
        contents: Bytes::from_vec(contents),
    };
    // the log's calls are its cut, the beginning and its sync, the line, the contents, what ends them, and the sync, which fails
    match shard.step(call(&rt, b"a.txt", made), 1, 0, 10) {
        Ok((_, ruling, _)) => assert!(rt; ruling.status == 500),
        Err(_) => return Err("a step".into()),
    }
    assert!(rt; shard.is_lost());
    let (store, _start) = shard.end();
    let (folder, log) = store.end();
    assert!(rt; folder.contents("a.txt").is_none());
    let text = log.as_slice();
    assert!(rt;
        text.starts_with(
            b"wopi journal 3 shard 15 opened 0 first 1 now 0 last 0\n\
1 15 1 10 10 612e747874 create no 70000 ann.612e747874.w.2.0.9000000 200 - - v1 70000\n"
        )
    );
    assert!(rt; text.len() == HEAD.len() + 86 + MANY + 1);
    assert!(rt; log.synced() == HEAD.len());
    Ok(())
}

/// What a shard over two files begins with.
const OPENED: &[u8] = b"wopi journal 3 shard 0 opened 5 first 7 now 5 last 0\n\
at 612e747874 v7 3\nat 622e747874 v7 0\n";

/// What is appended for a save, and for a lock.
const SAVED: &[u8] =
    b"1 0 1 10 10 622e747874 put - 3 ann.622e747874.w.2.5.9000000 200 - - v8 3\n345\n";

const LOCKED: &[u8] =
    b"2 0 1 11 11 622e747874 lock 4c31 ann.622e747874.w.2.5.9000000 200 - - v8 -\n";

/// The log of a shard over two files, on one of which so many calls were made: a save, and a lock.
fn log_over_two(
    rt: &impl Abort,
    alloc: Global,
    steps: usize,
    syncs_all: bool,
) -> Result<MemLog, Fail> {
    let mut folder = MemFolder::new(alloc, Vec::new(alloc), Vec::new(alloc));
    assert!(rt; folder.replace("b.txt", b"") == Ok(()));
    assert!(rt; folder.replace("a.txt", b"1\n2") == Ok(()));
    let log = MemLog::new(alloc, 4096, 4096, Vec::new(alloc))?;
    let store = match Logged::resume(alloc, 0, folder, log, 0, WriteRoom::new(alloc)?, syncs_all) {
        Ok(store) => store,
        Err(_handed) => return Err("an empty log".into()),
    };
    let mut shard = match Shard::start_endless(alloc, store, None, 100, 5, 7) {
        Ok(shard) => shard,
        Err(_refused) => return Err("a shard".into()),
    };
    for place in 0..steps.min(2) {
        let asked = if place == 0 {
            Act::Put {
                lock: None,
                contents: bytes(alloc, b"345")?,
            }
        } else {
            let id = LockId::read(b"L1").expect(rt, "a lock id");
            Act::Lock { id }
        };
        let mut asked = call(rt, b"b.txt", asked);
        asked.token.issued = 5;
        match shard.step(asked, 1, 0, 10 + place as u64) {
            Ok((_, ruling, _)) => assert!(rt; ruling.status == 200),
            Err(_) => return Err("a step".into()),
        }
    }
    let (store, _start) = shard.end();
    let (_folder, log) = store.end();
    Ok(log)
}

#[test]
fn a_segment_begins_with_what_was_opened(rt: HostRuntime) -> Result<(), Fail> {
    let opened = log_over_two(&rt, rt.alloc(), 0, false)?;
    assert!(rt; opened.as_slice() == OPENED);
    assert!(rt; opened.synced() == OPENED.len());
    let saved = log_over_two(&rt, rt.alloc(), 1, false)?;
    assert!(rt; saved.as_slice().starts_with(OPENED) && saved.as_slice().ends_with(SAVED));
    assert!(rt; saved.as_slice().len() == OPENED.len() + SAVED.len());
    assert!(rt; saved.synced() == saved.as_slice().len());
    let locked = log_over_two(&rt, rt.alloc(), 2, false)?;
    assert!(rt;
        locked.as_slice().starts_with(saved.as_slice()) && locked.as_slice().ends_with(LOCKED)
    );
    assert!(rt; locked.as_slice().len() == saved.as_slice().len() + LOCKED.len());
    Ok(())
}

#[test]
fn a_lock_is_synced_where_all_is(rt: HostRuntime) -> Result<(), Fail> {
    let saved = log_over_two(&rt, rt.alloc(), 1, false)?;
    let locked = log_over_two(&rt, rt.alloc(), 2, false)?;
    assert!(rt; locked.synced() == saved.as_slice().len());
    let synced = log_over_two(&rt, rt.alloc(), 2, true)?;
    assert!(rt; synced.as_slice() == locked.as_slice());
    assert!(rt; synced.synced() == synced.as_slice().len());
    Ok(())
}

#[test]
fn a_log_that_is_lost_is_not_opened(rt: HostRuntime) -> Result<(), Fail> {
    let alloc = rt.alloc();
    let folder = MemFolder::new(alloc, Vec::new(alloc), Vec::new(alloc));
    let log = MemLog::new(alloc, 64, 64, vec![in alloc; 3]?)?;
    let store = match Logged::resume(alloc, SHARD, folder, log, 0, WriteRoom::new(alloc)?, false) {
        Ok(store) => store,
        Err(_handed) => return Err("an empty log".into()),
    };
    // the log's third call is the sync of the beginning
    let store = match Shard::start_endless(alloc, store, None, 100, 0, 1) {
        Ok(_shard) => return Err("the log is lost".into()),
        Err((store, why)) => {
            assert!(rt; matches!(&why, StartFault::FolderFault));
            store
        }
    };
    let store = match Shard::start_endless(alloc, store, None, 100, 0, 1) {
        Ok(_shard) => return Err("the log was lost before".into()),
        Err((store, why)) => {
            assert!(rt; matches!(&why, StartFault::Memory));
            store
        }
    };
    assert!(rt; !store.is_whole());
    let (_folder, log) = store.end();
    assert!(rt; log.as_slice() == HEAD);
    assert!(rt; log.synced() == 0);
    Ok(())
}
