//! Sessions over a dialer by a script: each request to the byte.
mod copies;
mod faults;
mod sessions;

use outside::ScriptDialer;
use save_session::{Input, Nonce, Session};
use std::alloc::Global;
use std::test::Fail;
use wopi_client::Desktop;
use wopi_text::{Bytes, FileName};

const ACCEPTED: &[u8] = b"HTTP/1.1 200 OK\r\nContent-Length: 0\r\nX-WOPI-ItemVersion: v2\r\n\r\n";

const INFO: &[u8] =
    b"HTTP/1.1 200 OK\r\nContent-Length: 79\r\nContent-Type: application/json\r\n\r\n\
{\"BaseFileName\":\"a.csv\",\"OwnerId\":\"owner\",\"Size\":4,\"UserId\":\"u\",\"Version\":\"v1\"}";

const INFO_HEAD: usize = 71;

const CONTENTS: &[u8] =
    b"HTTP/1.1 200 OK\r\nContent-Length: 4\r\nX-WOPI-ItemVersion: v1\r\n\r\n1,2\n";

const ASK_INFO: &[u8] = b"GET /wopi/files/612e637376?access_token=t%200 HTTP/1.1\r\n\
Host: localhost:8880\r\nConnection: close\r\n\r\n";

const PUT: &[u8] = b"POST /wopi/files/612e637376/contents?access_token=t%200 HTTP/1.1\r\n\
Host: localhost:8880\r\nX-WOPI-Override: PUT\r\nX-WOPI-Lock: n-1\r\nContent-Length: 4\r\nConnection: close\r\n\r\n1,9\n";

fn desktop(alloc: Global) -> Result<Desktop, Fail> {
    let file = FileName::read(b"a.csv")?;
    let token = Bytes::from_slice(alloc, b"t 0")?;
    Ok(Desktop::new(file, token, String::from_str(alloc, "localhost:8880")?))
}

/// A host that answers so, one request after another.
fn dialer(alloc: Global, replies: &[&[u8]]) -> Result<ScriptDialer, Fail> {
    let mut script = Vec::new(alloc);
    for reply in replies {
        script.push(Some(Bytes::from_slice(alloc, reply)?))?;
    }
    Ok(ScriptDialer::new(alloc, script))
}

fn session() -> Session {
    Session::new(Nonce::read(b"n").unwrap())
}

fn save(alloc: Global, contents: &[u8]) -> Result<Input, Fail> {
    Ok(Input::Save(Bytes::from_slice(alloc, contents)?))
}

/// The request at this place, or no bytes.
fn request(dialer: &ScriptDialer, place: usize) -> &[u8] {
    match dialer.exchanges().get(place) {
        Some(exchange) => exchange.request.as_slice(),
        None => &[],
    }
}
