//! PutRelativeFile over a shard whose folder is in memory.
ghost use Rattle.std.specs.Prelude.{◌≤◌};
ghost use Rattle.wopi_model.specs.Moment.{IsMoment};

use access_tokens::{Keys, Token, read};
use host_core::{Act, Call, Caller, Kept, Shard, Single};
use host_server::{Desk, answer};
use outside::{Folder, MemFolder};
use std::alloc::Global;
use std::test::Fail;
use wopi_headers::{Answer, BodyKind};
use wopi_http::{Field, Fields, Method, Request};
use wopi_text::{Bytes, FileName, LockField, LockId, Reason};

mod editors;
mod reads;

/// A token for `a.csv` that may write, under the desk's keys.
const FOR_A: &str =
    "v1.ann.612e637376.w.1.253402300000000.253402300799999.e4367dab632e0b350a8cebce225b4b3af9ddf3ae5a45f45b85a6abd4ffe2d92a";

fn desk(alloc: Global) -> Result<Desk, Fail> {
    let keys = Keys::read(b"4a656665").ok_or("keys")?;
    let base = Bytes::from_slice(alloc, b"http://localhost:8880")?;
    Ok(Desk::new(keys, base, 0))
}

/// The token that a text is under the desk's keys.
fn token(desk: &Desk, text: &str) -> Result<Token, Fail> {
    Ok(read(&desk.keys, text.as_bytes()).ok().ok_or("a token")?)
}

/// Files of these names, each with the contents `1,2`.
fn folder(alloc: Global, names: &[&str]) -> Result<MemFolder, Fail> {
    let mut folder = MemFolder::new(alloc, Vec::new(alloc), Vec::new(alloc));
    for name in names {
        folder.replace(name, b"1,2").ok().ok_or("a file")?;
    }
    Ok(folder)
}

fn over(alloc: Global, capacity: u32, folder: MemFolder) -> Result<Single<Kept<MemFolder>>, Fail>
    requires { (1 ≤ capacity) × (capacity ≤ 32768) }
{
    match Shard::start(alloc, Kept::new(alloc, folder), None, capacity, 0, 1) {
        Ok(shard) => Ok(Single::new(shard)),
        Err(_refused) => Err("a shard".into()),
    }
}

/// A caller over such files.
fn open(alloc: Global, capacity: u32, names: &[&str]) -> Result<Single<Kept<MemFolder>>, Fail>
    requires { (1 ≤ capacity) × (capacity ≤ 32768) }
{
    over(alloc, capacity, folder(alloc, names)?)
}

/// A header field: its name and its value.
type Header<'a> = (&'a str, &'a str);

fn suggested(text: &str) -> [Header<'_>; 1] {
    [("X-WOPI-SuggestedTarget", text)]
}

/// A PutRelativeFile of `x` with these headers, for whom a token's text is.
fn request(alloc: Global, text: &str, headers: &[Header<'_>]) -> Result<Request, Fail> {
    let id = text.split('.').nth(2).ok_or("the file's id")?;
    let target = format!(in alloc; "/wopi/files/{id}?access_token={text}")?;
    let mut fields = Fields::new(alloc);
    for (name, value) in [("X-WOPI-Override", "PUT_RELATIVE")].iter().chain(headers) {
        fields.push(Field {
            name: Bytes::from_slice(alloc, name.as_bytes())?,
            value: Bytes::from_slice(alloc, value.as_bytes())?,
        })?;
    }
    Ok(Request {
        method: Method::Post,
        target: Bytes::from_slice(alloc, target.as_bytes())?,
        version: 1,
        fields,
        body: Bytes::from_slice(alloc, b"x")?,
    })
}

/// Puts `x` beside the token's file.
fn put(
    alloc: Global,
    single: &mut Single<Kept<MemFolder>>,
    text: &str,
    headers: &[Header<'_>],
    moment: u64,
) -> Result<Answer, Fail>
    requires { IsMoment moment }
{
    let request = request(alloc, text, headers)?;
    Ok(answer(alloc, single, &desk(alloc)?, request, moment)?)
}

fn contents<'a>(single: &'a Single<Kept<MemFolder>>, name: &[u8]) -> Option<&'a [u8]> {
    let name = FileName::read(name).ok()?;
    Some(single.shard().file(&name)?.contents)
}

#[test]
fn an_ending_makes_a_file_beside_the_source(rt: HostRuntime) -> Result<(), Fail> {
    let alloc = rt.alloc();
    let mut single = open(alloc, 4096, &["a.csv"])?;
    let answer = put(alloc, &mut single, FOR_A, &suggested(".txt"), 5)?;
    let told =
        "{\"Name\":\"a.txt\",\"Url\":\"http://localhost:8880/wopi/files/612e747874?access_token=v2.0.ann.612e747874.w.1.5.253402300799999.7b2ec53d2d5e39a87f4f57e35afc32a842b40e4532dccc2bdfce371a42ffbb9b\"}";
    assert!(rt; answer.status == 200);
    assert!(rt; answer.version == None);
    assert!(rt; answer.kind == BodyKind::Json);
    assert!(rt; answer.body.as_slice() == told.as_bytes());
    assert!(rt; contents(&single, b"a.txt") == Some(b"x".as_slice()));
    Ok(())
}

/// The status and the reason of an act on `a.csv`.
fn act(
    alloc: Global,
    single: &mut Single<Kept<MemFolder>>,
    act: Act,
    moment: u64,
) -> Result<(u16, Option<Reason>), Fail>
    requires { IsMoment moment }
{
    let call = Call {
        name: FileName::read(b"a.csv")?,
        token: token(&desk(alloc)?, FOR_A)?,
        act,
    };
    match single.call(call, moment) {
        Ok(receipt) => Ok((receipt.ruling.status, receipt.ruling.reason)),
        Err(_refused) => Err("an entry".into()),
    }
}

fn version(single: &Single<Kept<MemFolder>>) -> Result<u64, Fail> {
    let name = FileName::read(b"a.csv")?;
    Ok(single.shard().file(&name).ok_or("the file")?.version)
}

#[test]
fn a_suggestion_gets_a_hundred_tries(rt: HostRuntime) -> Result<(), Fail> {
    let alloc = rt.alloc();
    let mut folder = folder(alloc, &["a.csv", "b.csv"])?;
    for number in 1..99 {
        let name = format!(in alloc; "b ({number}).csv")?;
        folder.replace(name.as_str(), b"").ok().ok_or("a file")?;
    }
    let mut single = over(alloc, 4096, folder)?;
    let answer = put(alloc, &mut single, FOR_A, &suggested("b.csv"), 0)?;
    assert!(rt;
        answer
            .body
            .as_slice()
            .starts_with(b"{\"Name\":\"b (99).csv\"")
    );
    let answer = put(alloc, &mut single, FOR_A, &suggested("b.csv"), 0)?;
    assert!(rt; answer.status == 409);
    assert!(rt; answer.reason == Some(Reason::Taken));
    Ok(())
}

/// A caller over `a.csv`, whose removal, the fifth call of the folder, fails.
fn over_a_failing_removal(alloc: Global) -> Result<Single<Kept<MemFolder>>, Fail> {
    let mut folder = MemFolder::new(alloc, Vec::new(alloc), [5u64].as_slice().to_vec(alloc)?);
    folder.replace("a.csv", b"1,2").ok().ok_or("a file")?;
    over(alloc, 4096, folder)
}

fn is_torn(single: &Single<Kept<MemFolder>>) -> Result<bool, Fail> {
    let name = FileName::read(b"a.csv")?;
    Ok(single.shard().file(&name).ok_or("the file")?.torn)
}

#[test]
fn a_deletion_that_the_folder_fails_leaves_a_torn_file(rt: HostRuntime) -> Result<(), Fail> {
    let alloc = rt.alloc();
    let mut single = over_a_failing_removal(alloc)?;
    assert!(rt; !is_torn(&single)?);
    assert!(rt; act(alloc, &mut single, Act::Delete, 0)? == (500, None));
    assert!(rt; is_torn(&single)?);
    assert!(rt; contents(&single, b"a.csv") == Some(b"1,2".as_slice()));
    let get = Act::Get { most: None };
    assert!(rt; act(alloc, &mut single, get, 0)? == (200, None));
    assert!(rt; act(alloc, &mut single, Act::Delete, 0)? == (200, None));
    assert!(rt; !is_torn(&single)?);
    Ok(())
}
