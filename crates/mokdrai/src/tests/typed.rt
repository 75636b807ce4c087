//! What is made of words as people write them.
use crate::around::{Around, USUAL};
use crate::making::{listeners, socket};
use crate::reading::understand;
use std::alloc::Global;
use std::fs;
use std::os::unix::fs::PermissionsExt;
use std::test::Fail;
use wopi_program::{Asked, ServeAsk};
use wopi_text::Memory;

pub(crate) fn words(alloc: Global, line: &str) -> Result<Vec<String>, Memory> {
    let mut words = Vec::new(alloc);
    for word in line.split(' ') {
        words.push(String::from_str(alloc, word)?)?;
    }
    Ok(words)
}

// The key that is run with, and the line that is told.
fn key_and_line(rt: &HostRuntime, line: &str) -> Result<(String, Vec<u8>), Fail> {
    let alloc = rt.alloc();
    let asking = understand(alloc, rt, &words(alloc, line)?)?;
    let key = match asking.given.words.get(1) {
        Some(key) => key.clone()?,
        None => String::new(alloc),
    };
    let line = match asking.line.as_deref() {
        Some(line) => line.to_vec(alloc)?,
        None => Vec::new(alloc),
    };
    Ok((key, line))
}

#[test]
fn a_secret_comes_from_a_file_that_its_owner_alone_may_read(rt: HostRuntime) -> Result<(), Fail> {
    const PATH: &str = "mokdrai_test_key";
    const LINE: &str = "token @mokdrai_test_key --file a.csv --user ann --write --for 10h";
    fs::write(&rt, PATH, b"4a656665\n".as_slice())?;
    fs::set_permissions(&rt, PATH, fs::Permissions::from_mode(0o600))?;
    let (key, line) = key_and_line(&rt, LINE)?;
    assert!(rt; key.as_str() == "4a656665" && line.is_empty());
    fs::set_permissions(&rt, PATH, fs::Permissions::from_mode(0o644))?;
    let (key, line) = key_and_line(&rt, LINE)?;
    assert!(rt; key.is_empty());
    assert!(rt;
        line.as_slice() == b"@PATH: a file that only its owner may read: chmod 600\n".as_slice()
    );
    fs::remove_file(&rt, PATH)?;
    let (key, line) = key_and_line(&rt, LINE)?;
    assert!(rt; key.is_empty());
    assert!(rt; line.starts_with(b"@PATH: a file that can be read"));
    Ok(())
}

// The nonce of an `edit` that tells none.
fn own_nonce(rt: &HostRuntime) -> Result<String, Fail> {
    let alloc = rt.alloc();
    let line = "edit localhost:8880 --file a.csv x";
    let asking = understand(alloc, rt, &words(alloc, line)?)?;
    match asking.given.words.get(4) {
        Some(nonce) => Ok(nonce.clone()?),
        None => Err(Fail::new("there is no nonce")),
    }
}

#[test]
fn each_edit_has_a_nonce_of_its_own(rt: HostRuntime) -> Result<(), Fail> {
    let first = own_nonce(&rt)?;
    let second = own_nonce(&rt)?;
    assert!(rt; first.len() == 32 && second.len() == 32);
    assert!(rt; first.as_str() != second.as_str());
    Ok(())
}

#[test]
fn a_wrong_word_is_told_with_its_rule(rt: HostRuntime) -> Result<(), Fail> {
    let (folder, line) = key_and_line(&rt, "serve . 99999 4a http://localhost 2")?;
    assert!(rt; folder.as_str() == ".");
    assert!(rt; line.starts_with(b"PORT 99999: a number from 1 to 65535"));
    let (folder, line) = key_and_line(&rt, "serve . 8880 4a http://localhost 2 --grace x")?;
    assert!(rt; folder.is_empty());
    assert!(rt; line.starts_with(b"--grace S: a number of seconds"));
    Ok(())
}

#[test]
fn the_address_of_the_words_is_listened_at(rt: HostRuntime) -> Result<(), Fail> {
    let alloc = rt.alloc();
    let line = "serve . 8880 4a http://localhost 2 --listen 192.0.2.1 --idle 7 --grace=0";
    let asking = understand(alloc, &rt, &words(alloc, line)?)?;
    let around = Around::of(&asking.given.around);
    assert!(rt; around.idle == 7 && around.patience == 120 && around.grace == 0);
    let usual = command_words::Around::new(alloc)?;
    assert!(rt; Around::of(&usual) == USUAL);
    let ask = ServeAsk {
        port: 8880,
        workers: 1,
        capacity: 1,
        each: 1,
        first: 1,
        editor: false,
        keep: None,
    };
    let asked = Asked::Serve {
        folder: ".",
        numbers: ask,
        logs: None,
    };
    let mut unbound = None;
    let socket = socket(alloc, &rt, asked, around, None, &mut unbound)?;
    let listeners = listeners(alloc, &rt, asked, &socket, around.limits(), None)?;
    assert!(rt; listeners.len() == 1);
    let Some(unbound) = unbound else {
        return Err(Fail::new("an address of nobody was bound"));
    };
    assert!(rt; unbound.address.as_str() == "192.0.2.1:8880");
    Ok(())
}
