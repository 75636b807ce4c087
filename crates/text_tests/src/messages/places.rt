//! Bodies read into their place, from an input that comes in two parts or in large pieces.
ghost use Rattle.std.specs.Prelude.{None};

use super::expecting::given;
use super::{joined, repeated};
use outside::{Failed, MemSink, MemSource, Pair, Source};
use std::alloc::Global;
use std::test::Fail;
use wopi_http::{Buffer, Got, Request, read_request};
use wopi_text::Bytes;

/// Three messages: one with a length, one in chunks, and one without a body.
const INPUT: &[u8] =
    b"PUT /a HTTP/1.1\r\nHost: a\r\nContent-Length: 7\r\nExpect: 100-continue\r\n\r\n1,2\r\n3\nPUT /b HTTP/1.1\r\nHost: a\r\nTransfer-Encoding: chunked\r\n\r\n4;name=value\r\n4,5\n\r\n2\r\n\r\n\r\n0\r\nTrailer: x\r\n\r\nGET /c HTTP/1.1\r\nHost: a\r\n\r\n";

const HEARD: &[u8] = b"/a [1,2\r\n3\n]\n/b [4,5\n\r\n]\n/c []\nend\nHTTP/1.1 100 Continue\r\n\r\n";

/// Gives what comes first, and then the others.
#[derive(Drop)]
struct Cut {
    first: &'static [u8],
    others: &'static [u8],
}

impl Source for Cut {
    ghost left = { λ _. None };

    ghost read_faults = { λ _. 0 };

    fn read(&mut self, into: &mut [u8]) -> Result<usize, Failed> {
        if self.first.is_empty() {
            let (count, rest) = given(self.others, into);
            self.others = rest;
            return Ok(count);
        }
        let (count, rest) = given(self.first, into);
        self.first = rest;
        Ok(count)
    }
}

/// Appends a message's target and body.
fn note(heard: &mut Vec<u8>, message: &Request) -> Result<(), Fail> {
    heard.extend_from_slice(message.target.as_slice())?;
    heard.extend_from_slice(b" [")?;
    heard.extend_from_slice(message.body.as_slice())?;
    heard.extend_from_slice(b"]\n")?;
    Ok(())
}

/// The messages of the input that comes cut here, and what was written for them.
fn heard(alloc: Global, first: &'static [u8], others: &'static [u8]) -> Result<Vec<u8>, Fail> {
    let source = Cut { first, others };
    let mut link = Pair::new(source, MemSink::new(alloc, 64, Vec::new(alloc))?);
    let mut buffer = Buffer::new(alloc)?;
    let mut heard = Vec::new(alloc);
    for _ in 0..4 {
        match read_request(&mut link, &mut buffer) {
            Got::Message(message) => note(&mut heard, &message)?,
            Got::End => heard.extend_from_slice(b"end\n")?,
            _ => return Err(Fail::from("neither a message nor the end")),
        }
    }
    heard.extend_from_slice(link.sink.as_slice())?;
    Ok(heard)
}

#[test]
fn messages_cut_at_any_place_are_heard_as_when_they_come_whole(
    rt: HostRuntime,
) -> Result<(), Fail> {
    for cut in 0..INPUT.len() {
        let heard = heard(rt.alloc(), &INPUT[..cut], &INPUT[cut..])?;
        assert!(rt; heard.as_slice() == HEARD, "at {cut}");
    }
    Ok(())
}

/// The memory that the body of 16 MiB has that comes behind this head, and how many bytes the buffer
/// holds behind it, where pieces come as large as they are asked for.
fn place_of(alloc: Global, head: &[u8], end: &[u8]) -> Result<(usize, usize), Fail> {
    let mut body = Vec::with_capacity(alloc, 16777216)?;
    body.resize(16777216, b'a')?;
    let input = Bytes::from_vec(joined(alloc, head, &body, end)?);
    let source = MemSource::new(input, 16777216, Vec::new(alloc));
    let mut link = Pair::new(source, MemSink::new(alloc, 64, Vec::new(alloc))?);
    let mut buffer = Buffer::new(alloc)?;
    let Got::Message(message) = read_request(&mut link, &mut buffer) else {
        return Err(Fail::from("no message"));
    };
    let read = message.body.into_vec(alloc)?;
    if read.as_slice() != body.as_slice() {
        return Err(Fail::from("another body"));
    }
    Ok((read.capacity(), buffer.held()))
}

#[test]
fn a_body_has_just_its_memory_and_passes_the_buffer_by(rt: HostRuntime) -> Result<(), Fail> {
    let sized = b"PUT /a HTTP/1.1\r\nHost: a\r\nContent-Length: 16777216\r\n\r\n";
    let chunked = b"PUT /a HTTP/1.1\r\nHost: a\r\nTransfer-Encoding: chunked\r\n\r\n1000000\r\n";
    let next = b"GET /c HTTP/1.1\r\nHost: a\r\n\r\n";
    assert!(rt; place_of(rt.alloc(), sized, next)? == (16777216, 0));
    assert!(rt; place_of(rt.alloc(), chunked, b"\r\n0\r\n\r\n")? == (16777216, 0));
    Ok(())
}

#[test]
fn what_a_read_brought_behind_a_message_is_held(rt: HostRuntime) -> Result<(), Fail> {
    let alloc = rt.alloc();
    let input = joined(
        alloc,
        b"GET / HTTP/1.0\r\n\r\n",
        &repeated(alloc, b"a", 40000)?,
        b"",
    )?;
    let source = MemSource::new(Bytes::from_vec(input), 16777216, Vec::new(alloc));
    let mut link = Pair::new(source, MemSink::new(alloc, 64, Vec::new(alloc))?);
    let mut buffer = Buffer::new(alloc)?;
    assert!(rt; buffer.held() == 0);
    assert!(rt; matches!(read_request(&mut link, &mut buffer), Got::Message(_)));
    assert!(rt; buffer.held() == 32768 - 18);
    Ok(())
}
