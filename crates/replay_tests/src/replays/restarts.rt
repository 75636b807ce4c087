//! Schedules with restarts of the host.
use super::traces::expect_over;
use host_core::{EntryAct, Past};
use replay_cmd::{FaultlessFolder, Straight, World};
use schedule_text::Schedule;
use std::test::Fail;

/// A session saves; its next request arrives after a restart, and another session opens the file then.
const LATE: &[u8] = b"file 612e637376 312c320a\nsession 612e637376 n 9000000\n\
session 612e637376 m 9000000 100\nopen 1\ndeliver 1 0\nanswer 1\ndeliver 2 0\nanswer 2\n\
deliver 3 0\nanswer 3\nsave 1 41\ndeliver 4 1\nanswer 4\nrestart 100\ndeliver 4 101\nopen 2\n\
deliver 5 102\nanswer 6\ndeliver 6 103\n";

const LATE_SHOWN: &[u8] = b"send 1 info\nreply 1 200 v1 4\nsend 2 lock n-1\nreply 2 200 v1\n\
send 3 get\nreply 3 200 v1 312c320a\ntell 1 opened v1\nsend 4 put n-1 41\nreply 4 200 v2\n\
tell 1 saved v2\nrestarted 3\nreply 5 401\nsend 5 info\nreply 6 200 v3 1\nsend 6 lock m-1\n\
reply 7 200 v3\nend 612e637376 v3 m-1 41\n";

#[test]
fn a_late_save_is_refused_after_a_restart_by_its_token(rt: HostRuntime) -> Result<(), Fail> {
    expect_over(&rt, rt.alloc(), &mut Straight, LATE, LATE_SHOWN)
}

#[test]
fn versions_go_on_over_a_restart_and_a_name_that_is_gone_was_never_met(
    rt: HostRuntime,
) -> Result<(), Fail> {
    let text = b"file 612e637376 31\nfile 622e637376 -\nforeign 0 9000000 put 622e637376 - 41\n\
foreign 1 9000000 delete 612e637376\nrestart 2\nforeign 2 9000000 info 622e637376\n\
foreign 3 9000000 info 612e637376\nforeign 4 9000000 relative 622e637376 632e637376 no 78\n\
restart 5\n";
    let shown = b"reply 1 200 v2\nreply 2 200\nrestarted 3\nreply 3 200 v3 1\nreply 4 404\n\
reply 5 200 632e637376\nrestarted 4\nend 622e637376 v4 - 41\nend 632e637376 v4 - 78\n";
    expect_over(&rt, rt.alloc(), &mut Straight, text, shown)
}

#[test]
fn a_lock_ends_at_a_restart(rt: HostRuntime) -> Result<(), Fail> {
    let text = b"file 612e637376 31\nforeign 0 9000000 lock 612e637376 L1\nrestart 5\n\
foreign 5 9000000 lock 612e637376 L2\nforeign 6 9000000 put 612e637376 L1 41\n\
foreign 7 9000000 put 612e637376 L2 42\n";
    let shown = b"reply 1 200 v1\nrestarted 2\nreply 2 200 v2\nreply 3 409 L2 locked\n\
reply 4 200 v3\nend 612e637376 v3 L2 42\n";
    expect_over(&rt, rt.alloc(), &mut Straight, text, shown)
}

/// Three hosts: the first stores under a lock, the second refuses that lock and deletes the file.
const THREE_HOSTS: &[u8] = b"file 612e637376 31\nfile 622e637376 32\n\
foreign 0 9000000 lock 612e637376 L1\nforeign 1 9000000 put 612e637376 L1 41\nrestart 5\n\
foreign 6 9000000 put 612e637376 L1 42\nforeign 7 9000000 delete 612e637376\nrestart 8\n\
foreign 9 9000000 info 622e637376\n";

/// What the entry at a place asked.
fn act_at(past: &Past<FaultlessFolder>, place: u64) -> &'static str {
    let Some(entry) = past.entry(place) else {
        return "none";
    };
    match entry.act() {
        EntryAct::Put { .. } => "put",
        EntryAct::Lock { .. } => "lock",
        EntryAct::Delete => "delete",
        _ => "other",
    }
}

/// The entry at a place is of that file, and was ruled so.
fn was_ruled(past: &Past<FaultlessFolder>, place: u64, name: &[u8], status: u16) -> bool {
    match past.entry(place) {
        Some(entry) => entry.name().as_slice() == name && entry.status() == status,
        None => false,
    }
}

/// The entry at a place brought these contents, and they were accepted.
fn has_brought(past: &Past<FaultlessFolder>, place: u64, contents: &[u8]) -> bool {
    match past.contents(place) {
        Some(bytes) => bytes == contents,
        None => false,
    }
}

#[test]
fn what_ran_before_each_restart_is_kept(rt: HostRuntime) -> Result<(), Fail> {
    let alloc = rt.alloc();
    let schedule = Schedule::read(alloc, THREE_HOSTS)?;
    let world = World::run(alloc, &schedule, &mut Straight)?;
    let stage = &world.stage;
    assert!(rt; stage.pasts.len() == 2);
    let first = &stage.pasts[0];
    assert!(rt; act_at(first, 0) == "lock");
    assert!(rt; act_at(first, 1) == "put");
    assert!(rt; act_at(first, 2) == "none");
    assert!(rt; was_ruled(first, 0, b"a.csv", 200));
    assert!(rt; was_ruled(first, 1, b"a.csv", 200));
    assert!(rt; has_brought(first, 1, b"A"));
    let second = &stage.pasts[1];
    assert!(rt; act_at(second, 0) == "put");
    assert!(rt; act_at(second, 1) == "delete");
    assert!(rt; act_at(second, 2) == "none");
    assert!(rt; was_ruled(second, 0, b"a.csv", 409));
    assert!(rt; was_ruled(second, 1, b"a.csv", 200));
    assert!(rt; stage.host.len() == 1);
    Ok(())
}
