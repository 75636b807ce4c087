//! Whole messages and replies, as they stand on the wire.
ghost use Rattle.std.specs.Prelude.{◌≤◌};

use outside::{MemSink, MemSource, Pair};
use std::alloc::Global;
use std::test::Fail;
use wopi_http::{
    Buffer, Field, Fields, Got, Method, Reply, closes, read_request, write_bare, write_reply,
};
use wopi_text::Bytes;

mod client;
mod expecting;
mod places;
mod reads;
mod writes;

const CHUNKED: &[u8] =
    b"POST /wopi/files/61/contents HTTP/1.1\r\nHost: localhost:8880\r\nExpect: 100-Continue\r\nTransfer-Encoding: Chunked\r\n\r\n4;name=value\r\n1,9\n\r\n0\r\nTrailer: x\r\n\r\n";

/// The text, so often.
fn repeated(alloc: Global, text: &[u8], count: usize) -> Result<Vec<u8>, Fail> {
    let mut all = Vec::new(alloc);
    for _ in 0..count {
        all.extend_from_slice(text)?;
    }
    Ok(all)
}

/// Three texts, one after another.
fn joined(alloc: Global, front: &[u8], middle: &[u8], back: &[u8]) -> Result<Vec<u8>, Fail> {
    let mut all = front.to_vec(alloc)?;
    all.extend_from_slice(middle)?;
    all.extend_from_slice(back)?;
    Ok(all)
}

#[test]
fn messages_in_a_row_keep_their_bodies(rt: HostRuntime) -> Result<(), Fail> {
    let alloc = rt.alloc();
    let sized =
        b"PUT /a HTTP/1.0\r\nContent-Length: 3\r\nConnection: x, Close\r\n\r\nabc".as_slice();
    let input = Bytes::from_vec(joined(alloc, CHUNKED, sized, b"")?);
    let source = MemSource::new(input, 100, Vec::new(alloc));
    let mut link = Pair::new(source, MemSink::new(alloc, 64, Vec::new(alloc))?);
    let mut buffer = Buffer::new(alloc)?;
    let Got::Message(first) = read_request(&mut link, &mut buffer) else {
        return Err(Fail::from("no first message"));
    };
    assert!(rt; first.method == Method::Post);
    assert!(rt; first.body.as_slice() == b"1,9\n".as_slice());
    assert!(rt; !closes(&first));
    assert!(rt; link.sink.as_slice() == b"HTTP/1.1 100 Continue\r\n\r\n".as_slice());
    let Got::Message(second) = read_request(&mut link, &mut buffer) else {
        return Err(Fail::from("no second message"));
    };
    assert!(rt; second.target.as_slice() == b"/a".as_slice());
    assert!(rt; second.body.as_slice() == b"abc".as_slice());
    assert!(rt; closes(&second));
    assert!(rt; matches!(read_request(&mut link, &mut buffer), Got::End));
    Ok(())
}

#[test]
fn a_reply_as_it_is_written(rt: HostRuntime) -> Result<(), Fail> {
    let alloc = rt.alloc();
    let mut sink = MemSink::new(alloc, 4096, Vec::new(alloc))?;
    let mut fields = Fields::new(alloc);
    fields.push(Field {
        name: Bytes::from_slice(alloc, b"X-WOPI-Lock")?,
        value: Bytes::from_slice(alloc, b"")?,
    })?;
    let reply = Reply {
        status: 409,
        fields,
        body: Bytes::from_vec(repeated(alloc, b"ab", 1000)?),
    };
    write_reply(&mut sink, &reply)?;
    write_bare(&mut sink, 413, true)?;
    write_bare(&mut sink, 503, false)?;
    let text = joined(
        alloc,
        b"HTTP/1.1 409 Conflict\r\nX-WOPI-Lock: \r\n\r\n",
        reply.body.as_slice(),
        b"HTTP/1.1 413 Content Too Large\r\nContent-Length: 0\r\nConnection: close\r\n\r\nHTTP/1.1 503 Service Unavailable\r\nContent-Length: 0\r\n\r\n",
    )?;
    assert!(rt; sink.as_slice() == text.as_slice());
    Ok(())
}
