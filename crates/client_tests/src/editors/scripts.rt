//! Texts as scripts.
use grid_editor::{Command, MOST_BYTES, MOST_LINES, Script, ScriptFault};
use std::alloc::Global;
use std::process::Abort;
use std::test::Fail;

fn expect_bad(rt: &impl Abort, alloc: Global, text: &[u8], line: u64) -> Result<(), Fail> {
    let read = Script::read(alloc, text);
    assert!(rt; matches!(read, Err(ScriptFault::BadCommand { line: at }) if at == line));
    Ok(())
}

fn many_lines(alloc: Global, count: usize) -> Result<Vec<u8>, Fail> {
    let mut text = Vec::new(alloc);
    for _ in 0..count {
        text.extend_from_slice(b"show\n")?;
    }
    Ok(text)
}

#[test]
fn a_script_ends_at_16_000_lines(rt: HostRuntime) -> Result<(), Fail> {
    let mut text = many_lines(rt.alloc(), MOST_LINES)?;
    assert!(rt; Script::read(rt.alloc(), &text)?.len() == MOST_LINES);
    text.push(b'\n')?;
    expect_bad(&rt, rt.alloc(), &text, 16_001)
}

#[test]
fn a_script_can_be_made_command_by_command(rt: HostRuntime) -> Result<(), Fail> {
    let mut script = Script::new(rt.alloc());
    assert!(rt; script.len() == 0);
    script.push(Command::Show)?;
    script.push(Command::Close)?;
    assert!(rt; script.len() == 2);
    assert!(rt; matches!(script.get(0), Some(Command::Show)));
    assert!(rt; matches!(script.get(1), Some(Command::Close)));
    assert!(rt; script.get(2).is_none());
    Ok(())
}
