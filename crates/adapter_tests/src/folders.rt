//! A real folder, and one over a file system that fails.
use super::failing_files::Stopping;
use adapters::{Cause, DirFolder, folder_line, too_large_line};
use outside::{Folder, FolderRead, Names, OutFault};
use std::cell::Cell;
use std::fs::File;
use std::os::unix::fs::{PermissionsExt, symlink};
use std::test::Fail;
use std::time::{Duration, UNIX_EPOCH};
use std::{fs, io};

// Makes an empty folder.
fn empty_folder(rt: &HostRuntime, folder: &str) -> io::Result<()> {
    let _old = fs::remove_dir_all(rt, folder);
    fs::create_dir(rt, folder)
}

fn joined(rt: &HostRuntime, names: &Names) -> Result<String, Fail> {
    let mut all = String::new(rt.alloc());
    for name in names.as_slice() {
        all.push_str(name)?;
        all.push(' ')?;
    }
    Ok(all)
}

// Whether the cause is that nothing is at the path.
fn is_lost(cause: Option<Cause<'_>>, path: &str) -> bool {
    match cause {
        Some(cause) => cause.path == path && cause.error.kind() == io::ErrorKind::NotFound,
        None => false,
    }
}

#[test]
fn a_real_folder_lists_reads_replaces_and_removes(rt: HostRuntime) -> Result<(), Fail> {
    const FOLDER: &str = "outside_test_calls";
    empty_folder(&rt, FOLDER)?;
    let mut folder = DirFolder::new(rt.alloc(), &rt, FOLDER)?;
    folder.replace("b.txt", b"second")?;
    folder.replace("a.txt", b"first")?;
    folder.replace("a.txt", b"other")?;
    let names = joined(&rt, &folder.list()?)?;
    assert!(rt; names.as_str() == "a.txt b.txt ");
    assert!(rt;
        matches!(folder.read("a.txt", 5)?, FolderRead::Whole(found) if found.as_slice() == b"other".as_slice())
    );
    assert!(rt; matches!(folder.read("a.txt", 4)?, FolderRead::TooLong));
    folder.remove("a.txt")?;
    folder.remove("a.txt")?;
    assert!(rt; matches!(folder.read("a.txt", 5)?, FolderRead::Absent));
    assert!(rt; folder.cause().is_none());
    fs::remove_dir_all(&rt, FOLDER)?;
    assert!(rt; folder.list().is_err());
    assert!(rt; is_lost(folder.cause(), FOLDER));
    assert!(rt; folder.replace("a.txt", b"") == Err(OutFault::Failed));
    assert!(rt; is_lost(folder.cause(), "outside_test_calls/a.txt"));
    Ok(())
}

#[test]
fn a_real_folder_tells_when_a_file_was_changed(rt: HostRuntime) -> Result<(), Fail> {
    const FOLDER: &str = "outside_test_times";
    const FILE: &str = "outside_test_times/a.txt";
    empty_folder(&rt, FOLDER)?;
    let mut folder = DirFolder::new(rt.alloc(), &rt, FOLDER)?;
    assert!(rt; folder.time("a.txt")?.is_none());
    folder.replace("a.txt", b"first")?;
    let since = Duration::from_millis(1_796_061_909_123);
    let changed = UNIX_EPOCH.checked_add(since).ok_or("a time")?;
    let file = File::options().write(true).open(&rt, FILE)?;
    file.set_modified(changed)?;
    assert!(rt; folder.time("a.txt")? == Some(1_796_061_909_123));
    folder.replace("a.txt", b"second")?;
    assert!(rt; folder.time("a.txt")? != Some(1_796_061_909_123));
    assert!(rt; folder.time("../outside_test_times/a.txt")?.is_none());
    fs::remove_dir_all(&rt, FOLDER)?;
    Ok(())
}

#[test]
fn what_is_no_plain_file_is_left_alone(rt: HostRuntime) -> Result<(), Fail> {
    const FOLDER: &str = "outside_test_plain";
    empty_folder(&rt, FOLDER)?;
    fs::create_dir(&rt, "outside_test_plain/folder")?;
    fs::write(
        &rt,
        "outside_test_plain/.a.txt.tmp",
        b"left over".as_slice(),
    )?;
    symlink(&rt, "/etc/hostname", "outside_test_plain/link")?;
    let mut folder = DirFolder::new(rt.alloc(), &rt, FOLDER)?;
    folder.replace("a.txt", b"contents")?;
    let names = joined(&rt, &folder.list()?)?;
    assert!(rt; names.as_str() == "a.txt ");
    for name in [
        "folder",
        "link",
        "../outside_test_plain/a.txt",
        "..",
        "",
        ".a.txt.tmp",
    ] {
        assert!(rt;
            matches!(folder.read(name, 99)?, FolderRead::Absent),
            "{name}"
        );
        assert!(rt;
            folder.replace(name, b"x") == Err(OutFault::Failed),
            "{name}"
        );
        assert!(rt; folder.remove(name) == Ok(()), "{name}");
    }
    assert!(rt; fs::symlink_metadata(&rt, "outside_test_plain/link")?.is_symlink());
    fs::remove_dir_all(&rt, FOLDER)?;
    Ok(())
}

#[test]
fn a_replaced_file_keeps_its_permissions(rt: HostRuntime) -> Result<(), Fail> {
    const FOLDER: &str = "outside_test_mode";
    const FILE: &str = "outside_test_mode/a.txt";
    empty_folder(&rt, FOLDER)?;
    let mut folder = DirFolder::new(rt.alloc(), &rt, FOLDER)?;
    for mode in [0o600, 0o400, 0o666, 0o777] {
        fs::write(&rt, FILE, b"old".as_slice())?;
        fs::set_permissions(&rt, FILE, fs::Permissions::from_mode(mode))?;
        folder.replace("a.txt", b"new")?;
        assert!(rt; fs::metadata(&rt, FILE)?.permissions().mode() & 0o7777 == mode);
        fs::remove_file(&rt, FILE)?;
    }
    fs::remove_dir_all(&rt, FOLDER)?;
    Ok(())
}

#[test]
fn a_file_of_many_pieces_is_read_whole(rt: HostRuntime) -> Result<(), Fail> {
    const FOLDER: &str = "outside_test_long";
    empty_folder(&rt, FOLDER)?;
    let mut folder = DirFolder::new(rt.alloc(), &rt, FOLDER)?;
    let mut contents = Vec::new(rt.alloc());
    contents.resize(300_000, b'x')?;
    folder.replace("a.txt", &contents)?;
    assert!(rt;
        matches!(folder.read("a.txt", 300_000)?, FolderRead::Whole(found) if found.as_slice() == contents.as_slice())
    );
    assert!(rt; matches!(folder.read("a.txt", 299_999)?, FolderRead::TooLong));
    fs::remove_dir_all(&rt, FOLDER)?;
    Ok(())
}

// The second of two folders is never read.
#[test]
fn what_fails_and_what_is_too_large_is_told(rt: HostRuntime) -> Result<(), Fail> {
    const FOLDER: &str = "outside_test_large";
    const LARGE: &str =
        "outside_test_large/a.txt: 4 bytes; with it the files of its shard have more than 268435456\n";
    const LOST: &str = "outside_test_large: No such file or directory (os error 2)\n";
    let alloc = rt.alloc();
    empty_folder(&rt, FOLDER)?;
    let mut first = DirFolder::new(alloc, &rt, FOLDER)?;
    let mut second = DirFolder::new(alloc, &rt, FOLDER)?;
    first.replace("a.txt", b"four")?;
    let is_long = matches!(first.read("a.txt", 3), Ok(FolderRead::TooLong));
    fs::remove_dir_all(&rt, FOLDER)?;
    let is_lost = second.list().is_err();
    let folders = [first, second];
    let large = too_large_line(alloc, &folders)?;
    let lost = folder_line(alloc, &folders)?;
    assert!(rt; is_long && large.as_deref() == Some(LARGE));
    assert!(rt; is_lost && lost.as_deref() == Some(LOST));
    Ok(())
}

// What a replacement of `old` by `renewed` leaves that stops after so many steps.
#[derive(Drop)]
struct Stopped {
    fault: Option<OutFault>,
    is_old: bool,
    is_new: bool,
    names: String,
}

fn stopped_after(rt: &HostRuntime, steps: u32, fault: io::ErrorKind) -> Result<Stopped, Fail> {
    const FOLDER: &str = "outside_test_stop";
    empty_folder(rt, FOLDER)?;
    fs::write(rt, "outside_test_stop/a.txt", b"old".as_slice())?;
    let left = Cell::new(steps);
    let stopping = Stopping {
        rt,
        left: &left,
        fault,
        names: b"",
    };
    let replaced = DirFolder::new(rt.alloc(), &stopping, FOLDER)?.replace("a.txt", b"renewed");
    let mut folder = DirFolder::new(rt.alloc(), rt, FOLDER)?;
    let names = joined(rt, &folder.list()?)?;
    let FolderRead::Whole(found) = folder.read("a.txt", 99)? else {
        return Err(Fail::new("the file is gone"));
    };
    folder.replace("a.txt", b"again")?;
    fs::remove_dir_all(rt, FOLDER)?;
    Ok(Stopped {
        fault: replaced.err(),
        is_old: found.as_slice() == b"old".as_slice(),
        is_new: found.as_slice() == b"renewed".as_slice(),
        names,
    })
}

#[test]
fn a_replacement_that_stops_at_any_step_leaves_the_old_or_the_new(
    rt: HostRuntime,
) -> Result<(), Fail> {
    let mut was_done = false;
    for steps in 0..16 {
        let stopped = stopped_after(&rt, steps, io::ErrorKind::Other)?;
        let is_done = stopped.fault.is_none();
        assert!(rt;
            stopped.is_new || (stopped.is_old && !is_done),
            "after {steps} steps"
        );
        assert!(rt; stopped.names.as_str() == "a.txt ");
        assert!(rt; is_done || !was_done);
        was_done = is_done;
    }
    assert!(rt; was_done);
    Ok(())
}

#[test]
fn want_of_memory_is_told_only_where_the_old_contents_stand(rt: HostRuntime) -> Result<(), Fail> {
    let mut failed_late = false;
    for steps in 0..16 {
        let stopped = stopped_after(&rt, steps, io::ErrorKind::OutOfMemory)?;
        let is_memory = stopped.fault == Some(OutFault::Memory);
        assert!(rt; stopped.is_old == is_memory, "after {steps} steps");
        failed_late = failed_late || (stopped.is_new && stopped.fault == Some(OutFault::Failed));
    }
    assert!(rt; failed_late);
    Ok(())
}

#[test]
fn a_name_that_is_not_utf_8_makes_the_list_fail(rt: HostRuntime) -> Result<(), Fail> {
    const FOLDER: &str = "outside_test_names";
    empty_folder(&rt, FOLDER)?;
    let left = Cell::new(u32::MAX);
    let odd = Stopping {
        rt: &rt,
        left: &left,
        fault: io::ErrorKind::Other,
        names: b"a\xff\0",
    };
    let mut folder = DirFolder::new(rt.alloc(), &odd, FOLDER)?;
    assert!(rt; matches!(folder.list(), Err(OutFault::Failed)));
    fs::remove_dir_all(&rt, FOLDER)?;
    Ok(())
}
