//! Calls on hosts over folders in memory, and the journals that they leave.
ghost use Rattle.std.specs.Prelude.{◌≡◌, ◌^◌, IfOk};
ghost use Rattle.host_table.specs.Passes.{IsPassOf};

use host_core::{Act, Call, Caller, Kept, Receipt};
use host_table::{
    Host, Journal, Pass, Seated, WriteEnd, WriteRoom, write_journal, write_journal_into,
};
use outside::{Folder, MemFolder, MemSink};
use std::alloc::Global;
use std::process::Abort;
use std::sync::Wait;
use std::test::Fail;
use std::thread::join;
use wopi_model::{Token, User};
use wopi_text::{Bytes, FileName, LockId};

mod editing;
mod listing;

/// An entry's stamp and shard.
type Spot = (u64, u8);

/// A store in memory over a folder with `a.csv` and `b.csv`.
fn folder(alloc: Global) -> Result<Kept<MemFolder>, Fail> {
    let mut folder = MemFolder::new(alloc, Vec::new(alloc), Vec::new(alloc));
    folder.replace("a.csv", b"1,2\n").ok().ok_or("a file")?;
    folder.replace("b.csv", b"3,4\n").ok().ok_or("a file")?;
    Ok(Kept::new(alloc, folder))
}

/// A host over 16 such folders, opened at 0, and its first pass. Its files begin at version 7.
fn open(alloc: Global) -> Result<(Host<Kept<MemFolder>>, Pass<Kept<MemFolder>>), Fail>
    ensures of_host { IfOk result (λ begun. IsPassOf begun.0 begun.1) }
    ensures fresh { IfOk result (λ begun. (begun.0.made ≡ 1) × (begun.1.weight ≡ 2 ^ 62)) }
{
    let mut folders = Vec::new(alloc);
    for _ in 0..16 {
        folders.push(folder(alloc)?)?;
    }
    if folders.len() != 16 {
        return Err("16 folders".into());
    }
    match Host::start(alloc, folders, 8, 0, 7) {
        Ok((host, pass)) => Ok((host, pass)),
        Err(_refused) => Err("a host".into()),
    }
}

/// A call that locks a file with L1.
fn lock_call(rt: &impl Abort, file: &[u8]) -> Call {
    let Ok(name) = FileName::read(file) else {
        panic!(rt; "a file's name")
    };
    Call {
        token: Token {
            user: User::read(b"ann").expect(rt, "a user"),
            file: name.copy(),
            write: true,
            serial: 1,
            issued: 0,
            expires: 9_000_000,
        },
        name,
        act: Act::Lock {
            id: LockId::read(b"L1").expect(rt, "a lock id"),
        },
    }
}

/// A save of `a.csv` under L1.
fn save_call(rt: &impl Abort, alloc: Global, text: &[u8]) -> Result<Call, Fail> {
    let mut save = lock_call(rt, b"a.csv");
    save.act = Act::Put {
        lock: Some(LockId::read(b"L1").expect(rt, "a lock id")),
        contents: Bytes::from_vec(text.to_vec(alloc)?),
    };
    Ok(save)
}

/// Makes a call by whatever caller, and tells where its entry stands.
fn make<C: Caller>(caller: &mut C, call: Call) -> Option<Spot>
    ensures basis { C.basis caller.new ≡ C.basis caller.old }
    ensures references { C.references caller.new ≡ C.references caller.old }
{
    match caller.call(call, 7) {
        Ok(Receipt { stamp, shard, .. }) => Some((stamp, shard)),
        Err(_) => None,
    }
}

/// Makes two calls by a pass at its host.
fn make_two<R: Wait>(
    rt: &R,
    host: &Host<Kept<MemFolder>>,
    mut pass: Pass<Kept<MemFolder>>,
    calls: [Call; 2],
) -> (Pass<Kept<MemFolder>>, [Option<Spot>; 2])
    requires { IsPassOf host.now pass }
    ensures { IsPassOf host.now result.0 }
{
    let [first, second] = calls;
    let spots = {
        let mut seated = Seated::new(rt, host, &mut pass);
        [make(&mut seated, first), make(&mut seated, second)]
    };
    (pass, spots)
}

/// Makes a call by a pass at its host.
fn make_one<R: Wait>(
    rt: &R,
    host: &Host<Kept<MemFolder>>,
    pass: &mut Pass<Kept<MemFolder>>,
    call: Call,
) -> Option<Spot>
    requires { IsPassOf host.now pass.old }
    ensures { IsPassOf host.now pass.new }
{
    match host.call(rt, pass, call, 7) {
        Ok(Receipt { stamp, shard, .. }) => Some((stamp, shard)),
        Err(_) => None,
    }
}

/// Closes a host by all its passes.
fn close(
    alloc: Global,
    host: Host<Kept<MemFolder>>,
    first: Pass<Kept<MemFolder>>,
    second: Pass<Kept<MemFolder>>,
) -> Result<(Journal<MemFolder>, Vec<MemFolder>), Fail>
    requires first { IsPassOf host first }
    requires second { IsPassOf host second }
{
    let passes = vec![in alloc; first, second]?;
    if !host.whole(&passes) {
        return Err("all passes".into());
    }
    match host.close(passes) {
        Ok(ended) => Ok(ended),
        Err(_fault) => Err("memory".into()),
    }
}

/// Where the entries of a number stand, in order. All entries where there is no number.
fn spots_of(
    alloc: Global,
    journal: &Journal<MemFolder>,
    number: Option<u32>,
) -> Result<Vec<Option<Spot>>, Fail> {
    let mut spots = Vec::new(alloc);
    for place in 0..8 {
        let Some(entry) = journal.entry(place) else {
            break;
        };
        if number.is_none() || number == Some(entry.pass()) {
            spots.push(Some((entry.stamp(), entry.name().shard())))?;
        }
    }
    Ok(spots)
}

#[test]
fn a_pass_has_its_own_entries_in_the_journal(rt: HostRuntime) -> Result<(), Fail> {
    let alloc = rt.alloc();
    let (mut host, mut first) = open(alloc)?;
    let Ok(second) = host.split(&rt, &mut first) else {
        panic!(rt; "no memory")
    };
    let a = [lock_call(&rt, b"a.csv"), lock_call(&rt, b"b.csv")];
    let b = [lock_call(&rt, b"b.csv"), lock_call(&rt, b"a.csv")];
    let (one, two) = join(
        &rt,
        || make_two(&rt, &host, first, a),
        || make_two(&rt, &host, second, b),
    );
    let (first, mine) = one;
    let (second, others) = two;
    let (journal, _folders) = close(alloc, host, first, second)?;
    assert!(rt; spots_of(alloc, &journal, Some(0))?.as_slice() == mine.as_slice());
    assert!(rt; spots_of(alloc, &journal, Some(1))?.as_slice() == others.as_slice());
    assert!(rt; spots_of(alloc, &journal, None)?.len() == 4);
    Ok(())
}

#[test]
fn a_journal_tells_the_opening_files_and_the_contents(rt: HostRuntime) -> Result<(), Fail> {
    let alloc = rt.alloc();
    let (host, mut first) = open(alloc)?;
    let mut call = lock_call(&rt, b"new.csv");
    call.act = Act::Create {
        overwrite: false,
        contents: Bytes::from_vec(b"5,6\n".to_vec(alloc)?),
    };
    assert!(rt; make_one(&rt, &host, &mut first, call).is_some());
    let passes = vec![in alloc; first]?;
    if !host.whole(&passes) {
        return Err("all passes".into());
    }
    let Ok((journal, _folders)) = host.close(passes) else {
        panic!(rt; "no memory")
    };
    let Some((name, contents)) = journal.opening(11, 0) else {
        panic!(rt; "an opening file")
    };
    assert!(rt; name.as_slice() == b"a.csv".as_slice() && contents == b"1,2\n".as_slice());
    assert!(rt; journal.opening(11, 1).is_none() && journal.opening(0, 0).is_none());
    assert!(rt; journal.contents(0) == Some(b"5,6\n".as_slice()));
    assert!(rt; journal.contents(1).is_none() && journal.entry(1).is_none());
    Ok(())
}

/// Closes a host by its one pass.
fn close_one(
    alloc: Global,
    host: Host<Kept<MemFolder>>,
    pass: Pass<Kept<MemFolder>>,
) -> Result<Journal<MemFolder>, Fail>
    requires { IsPassOf host pass }
{
    let passes = vec![in alloc; pass]?;
    if !host.whole(&passes) {
        return Err("all passes".into());
    }
    match host.close(passes) {
        Ok((journal, _folders)) => Ok(journal),
        Err(_fault) => Err("memory".into()),
    }
}

/// A sink whose n-th write fails where n is not 0.
fn sink(alloc: Global, failing: u64) -> Result<MemSink, Fail> {
    match MemSink::new(alloc, 4_096, [failing].to_vec(alloc)?) {
        Ok(sink) => Ok(sink),
        Err(_) => Err("a sink".into()),
    }
}

#[test]
fn a_journal_is_written_alike_in_either_room(rt: HostRuntime) -> Result<(), Fail> {
    let alloc = rt.alloc();
    let (host, mut first) = open(alloc)?;
    let lock = lock_call(&rt, b"a.csv");
    assert!(rt; make_one(&rt, &host, &mut first, lock).is_some());
    let journal = close_one(alloc, host, first)?;
    let mut plain = sink(alloc, 0)?;
    assert!(rt; write_journal(alloc, &mut plain, &journal).is_ok());
    let mut ahead = sink(alloc, 0)?;
    let Ok(room) = WriteRoom::new(alloc) else {
        return Err("room".into());
    };
    assert!(rt; write_journal_into(&mut ahead, room, &journal).is_ok());
    let text = plain.as_slice();
    assert!(rt; text == ahead.as_slice());
    assert!(rt; text.starts_with(b"wopi journal 2 opened 0 first 7\nfile 612e637376 312c320a\n"));
    assert!(rt; text.ends_with(b" 200 - - v7 -\nend 1\n"));
    Ok(())
}

#[test]
fn a_write_that_fails_is_told(rt: HostRuntime) -> Result<(), Fail> {
    let alloc = rt.alloc();
    let (host, first) = open(alloc)?;
    let journal = close_one(alloc, host, first)?;
    let mut failing = sink(alloc, 1)?;
    let end = write_journal(alloc, &mut failing, &journal);
    assert!(rt; matches!(end, Err(WriteEnd::Failed)));
    Ok(())
}
