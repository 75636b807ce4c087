use replay_cmd::{ScriptWire, Stage, World};
use schedule_text::{Schedule, generate};
use std::alloc::Global;
use std::test::Fail;
use wopi_text::Bytes;

/// A wire that gives these bytes in place of the first message.
fn instead(alloc: Global, message: &[u8]) -> Result<ScriptWire, Fail> {
    let mut given = Vec::new(alloc);
    given.push(Some(Bytes::from_slice(alloc, message)?))?;
    Ok(ScriptWire::new(alloc, given))
}

/// The status of the first reply.
fn first_status(stage: &Stage) -> Option<u16> {
    match stage.replies.first() {
        Some(reply) => Some(reply.answer.status),
        None => None,
    }
}

#[test]
fn the_host_answers_what_came(rt: HostRuntime) -> Result<(), Fail> {
    let alloc = rt.alloc();
    let schedule = generate(alloc, 7, 100)?;
    let mut wire = instead(alloc, b"GET /wopi/folders HTTP/1.1\r\nHost: x\r\n\r\n")?;
    let world = World::run(alloc, &schedule, &mut wire)?;
    assert!(rt; first_status(&world.stage) == Some(404));
    Ok(())
}

/// A request for the list of the folder, under the key of all schedules.
const CHILDREN: &[u8] =
    b"GET /wopi/containers/root/children?access_token=c1.0.ann.w.7.0.9000000.e0cc1f16dede3033cfe8e3360ef69e2d525f2d27075d07b57df3cdc05dcea359 HTTP/1.1\r\nHost: x\r\n\r\n";

/// The list at the moment 0, with a token whose code was computed by another program.
const LISTED: &[u8] =
    b"{\"ChildContainers\":[],\"ChildFiles\":[{\"Name\":\"a.csv\",\"Size\":4,\"Url\":\"http://localhost/wopi/files/612e637376?access_token=v2.0.ann.612e637376.w.7.0.9000000.317f004f38acf940fb14a515a2cc18e472e09d6a10c8844f354b6839fad30b43\",\"Version\":\"v1\"}]}";

#[test]
fn the_host_lists_its_folder_where_that_is_what_came(rt: HostRuntime) -> Result<(), Fail> {
    let alloc = rt.alloc();
    let text = b"file 612e637376 312c320a\nforeign 0 9000000 info 612e637376\n";
    let schedule = Schedule::read(alloc, text)?;
    let mut wire = instead(alloc, CHILDREN)?;
    let world = World::run(alloc, &schedule, &mut wire)?;
    let reply = world.stage.replies.first().ok_or("a reply")?;
    assert!(rt; reply.answer.body.as_slice() == LISTED);
    Ok(())
}
