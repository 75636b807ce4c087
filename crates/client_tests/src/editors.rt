//! Scripts over a host by a script: each line that is written, and how many requests were sent.
mod commands;
mod formulas;
mod scripts;
mod undoing;

use grid_editor::{EditFault, Editor, Script, Went};
use outside::{MemSink, ScriptDialer};
use save_session::Nonce;
use std::alloc::Global;
use std::test::Fail;
use wopi_client::Desktop;
use wopi_text::{Bytes, FileName};

const ACCEPTED: &[u8] = b"HTTP/1.1 200 OK\r\nContent-Length: 0\r\nX-WOPI-ItemVersion: v2\r\n\r\n";

const INFO: &[u8] =
    b"HTTP/1.1 200 OK\r\nContent-Length: 79\r\nContent-Type: application/json\r\n\r\n\
{\"BaseFileName\":\"a.csv\",\"OwnerId\":\"owner\",\"Size\":4,\"UserId\":\"u\",\"Version\":\"v1\"}";

const CONTENTS: &[u8] =
    b"HTTP/1.1 200 OK\r\nContent-Length: 4\r\nX-WOPI-ItemVersion: v1\r\n\r\n1,2\n";

/// What a script left: what it wrote, its requests, and how it ended.
#[derive(Drop)]
struct Left {
    output: MemSink,
    dialer: ScriptDialer,
    end: Result<Went, EditFault>,
}

/// A host that answers so, one request after another.
fn dialer(alloc: Global, replies: &[&[u8]]) -> Result<ScriptDialer, Fail> {
    let mut script = Vec::new(alloc);
    for reply in replies {
        script.push(Some(Bytes::from_slice(alloc, reply)?))?;
    }
    Ok(ScriptDialer::new(alloc, script))
}

fn editor(alloc: Global) -> Result<Editor, Fail> {
    let file = FileName::read(b"a.csv")?;
    let token = Bytes::from_slice(alloc, b"t0")?;
    let desktop = Desktop::new(file, token, String::from_str(alloc, "localhost:8880")?);
    Ok(Editor::new(alloc, desktop, Nonce::read(b"n").unwrap())?)
}

/// Runs a script over a host that answers so.
fn run(alloc: Global, text: &[u8], replies: &[&[u8]]) -> Result<Left, Fail> {
    let script = Script::read(alloc, text)?;
    let mut dialer = dialer(alloc, replies)?;
    let mut output = MemSink::new(alloc, 1_000_000, Vec::new(alloc))?;
    let mut editor = editor(alloc)?;
    let end = editor.run(&mut dialer, &mut output, &script);
    Ok(Left {
        output,
        dialer,
        end,
    })
}
