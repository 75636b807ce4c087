//! What an editor is told of a file, and which of its saves aren't made.
ghost use Rattle.wopi_model.specs.Moment.{IsMoment};

use super::*;
use host_core::{EditorReceipt, Facts};

/// One call of an editor that knows of that moment.
fn edit(
    rt: &impl Abort,
    single: &mut Single<Kept<MemFolder>>,
    call: Call,
    known: Option<u64>,
    moment: u64,
) -> EditorReceipt
    requires { IsMoment moment }
{
    match single.call_for_editor(call, known, moment) {
        Ok(receipt) => receipt,
        Err(CallFault::Full(_call)) => panic!(rt; "a step"),
        Err(CallFault::Memory(_call)) => panic!(rt; "a step"),
        Err(CallFault::Lost(_call)) => panic!(rt; "a step"),
    }
}

/// What is told of `e.csv` at a moment, with its digest.
fn facts_at(
    rt: &impl Abort,
    single: &mut Single<Kept<MemFolder>>,
    moment: u64,
) -> Result<Facts, Fail>
    requires { IsMoment moment }
{
    let receipt = edit(rt, single, call(rt, b"e.csv", Act::Info), None, moment);
    Ok(receipt.facts.ok_or("the file")?)
}

/// Saves a text under no lock, as long as the file is empty.
fn save(
    rt: &impl Abort,
    alloc: Global,
    single: &mut Single<Kept<MemFolder>>,
    text: &[u8],
    known: Option<u64>,
    moment: u64,
) -> Result<EditorReceipt, Fail>
    requires { IsMoment moment }
{
    let save = put(alloc, None, text)?;
    Ok(edit(rt, single, call(rt, b"e.csv", save), known, moment))
}

// The digests of no bytes and of "abc", as FIPS 180-4's examples have them.
const OF_NOTHING: [u8; 32] =
    *b"\xe3\xb0\xc4\x42\x98\xfc\x1c\x14\x9a\xfb\xf4\xc8\x99\x6f\xb9\x24\x27\xae\x41\xe4\x64\x9b\x93\x4c\xa4\x95\x99\x1b\x78\x52\xb8\x55";

const OF_ABC: [u8; 32] =
    *b"\xba\x78\x16\xbf\x8f\x01\xcf\xea\x41\x41\x40\xde\x5d\xae\x22\x23\xb0\x03\x61\xa3\x96\x17\x7a\x9c\xb4\x10\xff\x61\xf2\x00\x15\xad";

#[test]
fn a_file_tells_its_last_save_and_the_digest_of_its_contents(rt: HostRuntime) -> Result<(), Fail> {
    let alloc = rt.alloc();
    let mut single = open(alloc, 4096, &[])?;
    let first = facts_at(&rt, &mut single, 3)?;
    assert!(rt; first.digest.ok_or("a digest")?.bytes == OF_NOTHING);
    let saved = save(&rt, alloc, &mut single, b"abc", Some(first.saved), 7)?;
    assert!(rt; saved.receipt.ruling.status == 200);
    assert!(rt; saved.late.is_none());
    let told = saved.facts.ok_or("the file")?;
    assert!(rt; told.saved == 7);
    assert!(rt; told.digest.is_none());
    let second = facts_at(&rt, &mut single, 9)?;
    assert!(rt; second.saved == 7);
    assert!(rt; second.digest.ok_or("a digest")?.bytes == OF_ABC);
    Ok(())
}

#[test]
fn a_save_after_another_save_is_not_made(rt: HostRuntime) -> Result<(), Fail> {
    let alloc = rt.alloc();
    let mut single = open(alloc, 4096, &[])?;
    let first = facts_at(&rt, &mut single, 3)?;
    let saved = save(&rt, alloc, &mut single, b"", None, 5)?;
    assert!(rt; saved.receipt.ruling.status == 200);
    let late = save(&rt, alloc, &mut single, b"abc", Some(first.saved), 8)?;
    assert!(rt; late.receipt.ruling.status == 200);
    assert!(rt; late.receipt.ruling.lock == LockField::Empty);
    assert!(rt; late.receipt.back.is_none());
    assert!(rt; late.late.ok_or("the contents")?.as_slice() == b"abc".as_slice());
    assert!(rt; late.facts.ok_or("the file")?.saved == 5);
    let again = save(&rt, alloc, &mut single, b"abc", Some(5), 9)?;
    assert!(rt; again.late.is_none());
    assert!(rt; again.facts.ok_or("the file")?.saved == 9);
    Ok(())
}

#[test]
fn a_conflict_goes_before_a_save_that_comes_too_late(rt: HostRuntime) -> Result<(), Fail> {
    let alloc = rt.alloc();
    let mut single = open(alloc, 4096, &[])?;
    let lock = Act::Lock { id: lock_id(&rt) };
    assert!(rt; step(&rt, &mut single, call(&rt, b"e.csv", lock), 0) == ok(1));
    let late = save(&rt, alloc, &mut single, b"abc", Some(77), 8)?;
    assert!(rt; late.receipt.ruling.status == 409);
    assert!(rt; late.late.is_none());
    let answer = late.receipt;
    assert!(rt; answer.back.ok_or("the contents")?.as_slice() == b"abc".as_slice());
    Ok(())
}

#[test]
fn a_file_that_is_gone_tells_nothing(rt: HostRuntime) -> Result<(), Fail> {
    let mut single = open(rt.alloc(), 4096, &[])?;
    let gone = edit(&rt, &mut single, call(&rt, b"e.csv", Act::Delete), None, 4);
    assert!(rt; gone.receipt.ruling.status == 200);
    assert!(rt; gone.facts.is_none());
    let named = name(&rt, b"b.csv");
    let mut shard = single.end();
    assert!(rt; shard.facts(&named, true).is_none());
    Ok(())
}

#[test]
fn a_file_that_was_not_saved_is_as_old_as_in_its_folder(rt: HostRuntime) -> Result<(), Fail> {
    let alloc = rt.alloc();
    let mut dated = folder(alloc, &[])?;
    dated.date(1_700_000_000_000);
    let Ok(shard) = Shard::start(alloc, Kept::new(alloc, dated), None, 4096, 0, 1) else {
        return Err("a shard".into());
    };
    let mut single = Single::new(shard);
    let first = facts_at(&rt, &mut single, 3)?;
    assert!(rt; first.saved == 1_700_000_000_000);
    Ok(())
}
