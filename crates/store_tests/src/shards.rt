//! Runs of a shard over a folder in memory, by the caller over it.
ghost use Rattle.std.specs.Prelude.{◌≤◌};
ghost use Rattle.wopi_model.specs.Moment.{IsMoment};
ghost use Rattle.host_core.specs.Opening.{IsFirstVersion};

use host_core::{CallFault, Caller, Kept, Shard, Single, StartFault, leave};
use outside::{Folder, MemFolder};
use std::alloc::Global;
use std::process::Abort;
use std::test::Fail;
use wopi_model::{Act, Call, Ruling, Token, User};
use wopi_text::{Bytes, FileName, LockField, LockId, Reason};

mod editing;
mod listing;

/// What is told of a step: its status, the lock, the reason and the version.
#[derive(PartialEq, Eq, Drop)]
struct Told {
    status: u16,
    lock: LockField,
    reason: Option<Reason>,
    version: Option<u64>,
}

fn ok(version: u64) -> Told {
    Told {
        status: 200,
        lock: LockField::Absent,
        reason: None,
        version: Some(version),
    }
}

fn bare(status: u16) -> Told {
    Told {
        status,
        lock: LockField::Absent,
        reason: None,
        version: None,
    }
}

fn conflict(lock: LockField, reason: Reason) -> Told {
    Told {
        status: 409,
        lock,
        reason: Some(reason),
        version: None,
    }
}

fn bytes(alloc: Global, text: &[u8]) -> Result<Bytes, Fail> {
    Ok(Bytes::from_vec(text.to_vec(alloc)?))
}

fn name(rt: &impl Abort, text: &[u8]) -> FileName {
    match FileName::read(text) {
        Ok(name) => name,
        Err(_) => panic!(rt; "a file's name"),
    }
}

fn lock_id(rt: &impl Abort) -> LockId {
    LockId::read(b"L1").expect(rt, "a lock id")
}

/// A call on a file, under a token for another.
fn call_for(rt: &impl Abort, file: &[u8], own: &[u8], act: Act) -> Call {
    Call {
        name: name(rt, file),
        token: Token {
            user: User::read(b"ann").expect(rt, "a user"),
            file: name(rt, own),
            write: true,
            serial: 2,
            issued: 0,
            expires: 9_000_000,
        },
        act,
    }
}

fn call(rt: &impl Abort, file: &[u8], act: Act) -> Call {
    call_for(rt, file, file, act)
}

fn put(alloc: Global, lock: Option<LockId>, text: &[u8]) -> Result<Act, Fail> {
    Ok(Act::Put {
        lock,
        contents: bytes(alloc, text)?,
    })
}

fn create(alloc: Global, overwrite: bool, text: &[u8]) -> Result<Act, Fail> {
    Ok(Act::Create {
        overwrite,
        contents: bytes(alloc, text)?,
    })
}

/// A folder with `a.csv` and an empty `e.csv`. It has answered two calls.
fn folder(alloc: Global, failing: &[u64]) -> Result<MemFolder, Fail> {
    let mut folder = MemFolder::new(alloc, Vec::new(alloc), failing.to_vec(alloc)?);
    folder.replace("e.csv", b"").ok().ok_or("a file")?;
    folder.replace("a.csv", b"1,2\n").ok().ok_or("a file")?;
    Ok(folder)
}

/// A caller over a shard of that folder, whose store calls begin with the eighth call.
fn open(alloc: Global, capacity: u32, failing: &[u64]) -> Result<Single<Kept<MemFolder>>, Fail>
    requires { (1 ≤ capacity) × (capacity ≤ 32768) }
{
    open_from(alloc, capacity, failing, 1)
}

/// The same, where the opening files have that version.
fn open_from(
    alloc: Global,
    capacity: u32,
    failing: &[u64],
    first: u64,
) -> Result<Single<Kept<MemFolder>>, Fail>
    requires capacity { (1 ≤ capacity) × (capacity ≤ 32768) }
    requires first { IsFirstVersion first }
{
    let store = Kept::new(alloc, folder(alloc, failing)?);
    match Shard::start(alloc, store, None, capacity, 0, first) {
        Ok(shard) => Ok(Single::new(shard)),
        Err(_refused) => Err("a shard".into()),
    }
}

fn tell(ruling: &Ruling) -> Told {
    Told {
        status: ruling.status,
        lock: ruling.lock.copy(),
        reason: ruling.reason,
        version: ruling.version,
    }
}

fn step(rt: &impl Abort, single: &mut Single<Kept<MemFolder>>, call: Call, moment: u64) -> Told
    requires { IsMoment moment }
{
    match single.call(call, moment) {
        Ok(receipt) => tell(&receipt.ruling),
        Err(CallFault::Full(_call)) => panic!(rt; "a step"),
        Err(CallFault::Memory(_call)) => panic!(rt; "a step"),
        Err(CallFault::Lost(_call)) => panic!(rt; "a step"),
    }
}

#[test]
fn a_save_that_comes_again_after_its_lock_ended_is_refused(rt: HostRuntime) -> Result<(), Fail> {
    let alloc = rt.alloc();
    let mut single = open(alloc, 4096, &[])?;
    let lock = Act::Lock { id: lock_id(&rt) };
    assert!(rt; step(&rt, &mut single, call(&rt, b"a.csv", lock), 0) == ok(1));
    let save = put(alloc, Some(lock_id(&rt)), b"")?;
    assert!(rt; step(&rt, &mut single, call(&rt, b"a.csv", save), 1) == ok(2));
    let again = put(alloc, Some(lock_id(&rt)), b"")?;
    let late = step(&rt, &mut single, call(&rt, b"a.csv", again), 1_800_000);
    assert!(rt; late == conflict(LockField::Empty, Reason::Spent));
    Ok(())
}

#[test]
fn a_store_fault_leaves_the_file_until_the_next_save(rt: HostRuntime) -> Result<(), Fail> {
    let alloc = rt.alloc();
    let mut single = open(alloc, 4096, &[8])?;
    let lock = Act::Lock { id: lock_id(&rt) };
    assert!(rt; step(&rt, &mut single, call(&rt, b"a.csv", lock), 0) == ok(1));
    let save = put(alloc, Some(lock_id(&rt)), b"new")?;
    assert!(rt; step(&rt, &mut single, call(&rt, b"a.csv", save), 1) == bare(500));
    let named = name(&rt, b"a.csv");
    let torn = single.shard().file(&named).ok_or("the file")?;
    assert!(rt; torn.torn);
    assert!(rt; torn.version == 1);
    assert!(rt; torn.contents == b"1,2\n".as_slice());
    let again = put(alloc, Some(lock_id(&rt)), b"new")?;
    assert!(rt; step(&rt, &mut single, call(&rt, b"a.csv", again), 2) == ok(2));
    let saved = single.shard().file(&named).ok_or("the file")?;
    assert!(rt; !saved.torn);
    assert!(rt; saved.contents == b"new".as_slice());
    Ok(())
}

#[test]
fn a_name_whose_first_store_call_failed_is_no_file(rt: HostRuntime) -> Result<(), Fail> {
    let alloc = rt.alloc();
    let mut single = open(alloc, 4096, &[8])?;
    let made = call_for(&rt, b"b.csv", b"e.csv", create(alloc, false, b"x")?);
    assert!(rt; step(&rt, &mut single, made, 0) == bare(500));
    let named = name(&rt, b"b.csv");
    assert!(rt; single.shard().file(&named).is_none());
    assert!(rt; single.shard().names()?.len() == 2);
    let again = call_for(&rt, b"b.csv", b"e.csv", create(alloc, false, b"x")?);
    assert!(rt; step(&rt, &mut single, again, 1) == ok(1));
    assert!(rt; single.shard().file(&named).is_some());
    Ok(())
}

#[test]
fn a_full_shard_takes_no_step(rt: HostRuntime) -> Result<(), Fail> {
    let alloc = rt.alloc();
    let mut single = open(alloc, 1, &[])?;
    let lock = Act::Lock { id: lock_id(&rt) };
    assert!(rt; step(&rt, &mut single, call(&rt, b"a.csv", lock), 0) == ok(1));
    let full = single.call(call(&rt, b"a.csv", Act::GetLock), 0);
    assert!(rt; matches!(full, Err(CallFault::Full(_))));
    Ok(())
}

#[test]
fn a_shard_leaves_its_opening_its_entries_and_their_contents(rt: HostRuntime) -> Result<(), Fail> {
    let alloc = rt.alloc();
    let mut single = open(alloc, 4096, &[])?;
    let save = put(alloc, None, b"9")?;
    assert!(rt; step(&rt, &mut single, call(&rt, b"e.csv", save), 7) == ok(2));
    let (_folder, past) = leave(single.end());
    let (first, contents) = past.opening(0).ok_or("a file")?;
    assert!(rt; first.as_str() == "a.csv");
    assert!(rt; contents == b"1,2\n".as_slice());
    let (second, contents) = past.opening(1).ok_or("a file")?;
    assert!(rt; second.as_str() == "e.csv");
    assert!(rt; contents.is_empty());
    assert!(rt; past.opening(2).is_none());
    let entry = past.entry(0).ok_or("an entry")?;
    assert!(rt; entry.moment() == 7);
    assert!(rt; entry.status() == 200);
    assert!(rt; past.contents(0).ok_or("contents")? == b"9".as_slice());
    assert!(rt; past.entry(1).is_none());
    Ok(())
}

#[test]
fn the_names_come_in_the_order_of_their_bytes(rt: HostRuntime) -> Result<(), Fail> {
    let alloc = rt.alloc();
    let mut single = open(alloc, 4096, &[])?;
    let made = call_for(&rt, b"b.csv", b"e.csv", create(alloc, false, b"x")?);
    assert!(rt; step(&rt, &mut single, made, 0) == ok(1));
    let names = single.shard().names()?;
    assert!(rt; names.len() == 3);
    assert!(rt; names.get(0).ok_or("a name")?.as_str() == "a.csv");
    assert!(rt; names.get(1).ok_or("a name")?.as_str() == "b.csv");
    assert!(rt; names.get(2).ok_or("a name")?.as_str() == "e.csv");
    Ok(())
}

#[test]
fn a_file_of_more_than_sixteen_mebibytes_opens_no_shard(rt: HostRuntime) -> Result<(), Fail> {
    let alloc = rt.alloc();
    let mut large = folder(alloc, &[])?;
    let contents = vec![in alloc; 0u8; 16_777_217]?;
    large
        .replace("b.csv", contents.as_slice())
        .ok()
        .ok_or("a file")?;
    match Shard::start(alloc, Kept::new(alloc, large), None, 4096, 0, 1) {
        Err(refused) => {
            let (_store, fault) = refused;
            match fault {
                StartFault::TooLarge { name } => assert!(rt; name.as_str() == "b.csv"),
                StartFault::FolderFault => panic!(&rt; "another fault"),
                StartFault::Memory => panic!(&rt; "another fault"),
            }
        }
        Ok(_shard) => panic!(&rt; "a shard"),
    }
    Ok(())
}
