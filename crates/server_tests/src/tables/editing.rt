//! What passes tell editors of their files, and which of their saves aren't made.
ghost use Rattle.host_table.specs.Passes.{IsPassOf};
ghost use Rattle.wopi_model.specs.Moment.{IsMoment};

use super::*;
use host_core::EditorReceipt;

/// One call of an editor that knows of that moment, by whatever caller.
fn edit<C: Caller>(
    caller: &mut C,
    call: Call,
    known: Option<u64>,
    moment: u64,
) -> Result<EditorReceipt, Fail>
    requires { IsMoment moment }
{
    match caller.call_for_editor(call, known, moment) {
        Ok(answer) => Ok(answer),
        Err(_fault) => Err("a call".into()),
    }
}

/// One such call by a pass of its host.
fn edit_by<R: Wait>(
    rt: &R,
    host: &Host<Kept<MemFolder>>,
    pass: &mut Pass<Kept<MemFolder>>,
    call: Call,
    known: Option<u64>,
    moment: u64,
) -> Result<EditorReceipt, Fail>
    requires of_host { IsPassOf host.now pass.old }
    requires moment { IsMoment moment }
    ensures { IsPassOf host.now pass.new }
{
    match host.call_for_editor(rt, pass, call, known, moment) {
        Ok(answer) => Ok(answer),
        Err(_fault) => Err("a call".into()),
    }
}

/// A call that asks for what is known of `a.csv`.
fn info_call(rt: &impl Abort) -> Call {
    let mut info = lock_call(rt, b"a.csv");
    info.act = Act::Info;
    info
}

#[test]
fn a_seated_pass_tells_when_a_file_was_saved(rt: HostRuntime) -> Result<(), Fail> {
    let alloc = rt.alloc();
    let (host, mut first) = open(alloc)?;
    let mut seated = Seated::new(&rt, &host, &mut first);
    let lock = edit(&mut seated, lock_call(&rt, b"a.csv"), None, 7)?;
    assert!(rt; lock.receipt.stamp == 1 && lock.receipt.shard == 11);
    let before = lock.facts.ok_or("the file")?;
    assert!(rt; before.digest.is_none());
    let save = save_call(&rt, alloc, b"5,6,7\n")?;
    let saved = edit(&mut seated, save, Some(before.saved), 9)?;
    assert!(rt; saved.receipt.ruling.status == 200 && saved.receipt.place == 1);
    assert!(rt; saved.late.is_none());
    let told = edit(&mut seated, info_call(&rt), None, 12)?;
    let after = told.facts.ok_or("the file")?;
    assert!(rt; after.saved == 9 && after.digest.is_some());
    Ok(())
}

#[test]
fn a_save_after_that_of_another_pass_is_not_made(rt: HostRuntime) -> Result<(), Fail> {
    let alloc = rt.alloc();
    let (mut host, mut first) = open(alloc)?;
    let Ok(mut second) = host.split(&rt, &mut first) else {
        panic!(rt; "no memory")
    };
    let lock = edit_by(&rt, &host, &mut first, lock_call(&rt, b"a.csv"), None, 7)?;
    let known = lock.facts.ok_or("the file")?.saved;
    let save = save_call(&rt, alloc, b"5,6,7\n")?;
    let saved = edit_by(&rt, &host, &mut second, save, Some(known), 9)?;
    assert!(rt; saved.late.is_none());
    assert!(rt; saved.facts.ok_or("the file")?.saved == 9);
    let save = save_call(&rt, alloc, b"8\n")?;
    let late = edit_by(&rt, &host, &mut first, save, Some(known), 9)?;
    assert!(rt; late.receipt.ruling.status == 200 && late.receipt.place == 2);
    assert!(rt; late.receipt.back.is_none());
    assert!(rt; late.late.ok_or("the contents")?.as_slice() == b"8\n".as_slice());
    assert!(rt; late.facts.ok_or("the file")?.saved == 9);
    let again = save_call(&rt, alloc, b"8\n")?;
    let made = edit_by(&rt, &host, &mut first, again, Some(9), 12)?;
    assert!(rt; made.late.is_none());
    assert!(rt; made.facts.ok_or("the file")?.saved == 12);
    Ok(())
}
