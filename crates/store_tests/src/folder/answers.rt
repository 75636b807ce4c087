ghost use Rattle.wopi_model.specs.Moment.{IsMoment};

use super::{FILE_TEXT, FORMER_TEXT, TEXT, WORD, ZERO_TEXT, keys};
use containers::container_answer;
use host_core::{Call, Caller, Kept, Shard, Single};
use outside::{Folder, MemFolder};
use std::alloc::Global;
use std::test::Fail;
use wopi_headers::{Answer, BodyKind, ContainerAsk, ContainerOp};
use wopi_model::{Act, Token, User};
use wopi_text::{Bytes, FileName, LockId};

/// `a.csv` after a save, listed at the moment 50.
const SAVED: &str =
    r#"{"ChildContainers":[],"ChildFiles":[{"Name":"a.csv","Size":4,"Url":"http://h/wopi/files/612e637376?access_token=v2.0.ann.612e637376.w.7.50.9000000.e689d5ef329ed20662ed1969950047907c6ad95a7917bff9401d8b6ddf8e49ec","Version":"v2"}]}"#;

/// A host of one shard over a folder with these files, opened at 0.
fn open(alloc: Global, names: &[&str]) -> Result<Single<Kept<MemFolder>>, Fail> {
    let mut folder = MemFolder::new(alloc, Vec::new(alloc), Vec::new(alloc));
    for name in names {
        folder.replace(name, b"1,2\n").ok().ok_or("a file")?;
    }
    match Shard::start(alloc, Kept::new(alloc, folder), None, 4096, 0, 1) {
        Ok(shard) => Ok(Single::new(shard)),
        Err(_refused) => Err("a shard".into()),
    }
}

fn ask(alloc: Global, text: &str, op: ContainerOp) -> Result<ContainerAsk, Fail> {
    let token = Bytes::from_slice(alloc, text.as_bytes())?;
    Ok(ContainerAsk { token, op })
}

/// What is answered at a moment to who shows this text, by a host that was opened then and then.
fn answer(
    alloc: Global,
    single: &mut Single<Kept<MemFolder>>,
    text: &str,
    op: ContainerOp,
    opened: u64,
    moment: u64,
) -> Result<Answer, Fail>
    requires { IsMoment moment }
{
    let keys = keys(WORD)?;
    let base = Bytes::from_slice(alloc, b"http://h")?;
    let ask = ask(alloc, text, op)?;
    Ok(container_answer(alloc, single, &keys, &base, opened, &ask, moment)?)
}

/// Makes a call on `a.csv`, and tells the status.
fn call(single: &mut Single<Kept<MemFolder>>, act: Act) -> Result<u16, Fail> {
    let token = Token {
        user: User::read(b"ann").ok_or("a user")?,
        file: FileName::read(b"a.csv")?,
        write: true,
        serial: 7,
        issued: 0,
        expires: 9_000_000,
    };
    let name = FileName::read(b"a.csv")?;
    match single.call(Call { name, token, act }, 50) {
        Ok(receipt) => Ok(receipt.ruling.status),
        Err(_refused) => Err("a call".into()),
    }
}

#[test]
fn a_file_is_listed_as_it_was_saved_last(rt: HostRuntime) -> Result<(), Fail> {
    let alloc = rt.alloc();
    let mut single = open(alloc, &["a.csv"])?;
    let id = LockId::read(b"L1").ok_or("an id")?;
    let lock = Some(id.copy());
    assert!(rt; call(&mut single, Act::Lock { id })? == 200);
    let contents = Bytes::from_slice(alloc, b"1,9\n")?;
    assert!(rt; call(&mut single, Act::Put { lock, contents })? == 200);
    let told = answer(alloc, &mut single, TEXT, ContainerOp::Children, 0, 50)?;
    assert!(rt; told.status == 200);
    assert!(rt; told.kind == BodyKind::Json);
    assert!(rt; told.body.as_slice() == SAVED.as_bytes());
    Ok(())
}

#[test]
fn the_files_stand_in_the_order_of_their_bytes(rt: HostRuntime) -> Result<(), Fail> {
    let alloc = rt.alloc();
    let mut single = open(alloc, &["b.csv", "é.csv", "a.csv", "B.csv"])?;
    let told = answer(alloc, &mut single, TEXT, ContainerOp::Children, 0, 50)?;
    let text = str::from_utf8(told.body.as_slice()).ok().ok_or("a text")?;
    let mut last = 0usize;
    for name in ["B.csv", "a.csv", "b.csv", "é.csv"] {
        let place = text.find(name).ok_or("a name")?;
        assert!(rt; place > last);
        last = place;
    }
    Ok(())
}
