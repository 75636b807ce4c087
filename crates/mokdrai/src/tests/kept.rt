//! The logs that a command asks for.
use super::typed::words;
use crate::keeping::{keep, logs_of};
use crate::making::parts_of;
use crate::reading::understand;
use adapters::Unopened;
use std::fs;
use std::test::Fail;
use wopi_program::asked_by;

#[test]
fn a_serve_has_logs_in_the_folder_of_its_words(rt: HostRuntime) -> Result<(), Fail> {
    const LOGS: &str = "mokdrai_test_logs";
    let alloc = rt.alloc();
    let _old = fs::remove_dir_all(&rt, LOGS);
    fs::create_dir(&rt, LOGS)?;
    let line = "serve --keep mokdrai_test_logs . 8880 4a http://localhost 2 --ids 7";
    let asking = understand(alloc, &rt, &words(alloc, line)?)?;
    let asked = asked_by(asking.given.words.as_slice());
    let folder = logs_of(asked);
    let files = parts_of(asked).folder;
    assert!(rt; asking.line.is_none() && folder == Some(LOGS) && files == ".");
    let Ok(kept) = keep(alloc, &rt, folder, files) else {
        return Err(Fail::new("no logs were opened"));
    };
    assert!(rt; kept.logs.len() == 16 && kept.lock.is_some());
    assert!(rt; matches!(keep(alloc, &rt, folder, files), Err(Unopened::Held)));
    assert!(rt; matches!(keep(alloc, &rt, Some("."), files), Err(Unopened::Files)));
    let Ok(none) = keep(alloc, &rt, None, files) else {
        return Err(Fail::new("no logs are no fault"));
    };
    assert!(rt; none.lock.is_none() && none.logs.is_empty());
    drop(kept);
    fs::remove_dir_all(&rt, LOGS)?;
    Ok(())
}
