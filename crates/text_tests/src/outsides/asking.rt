//! A request and its reply over links in memory.
ghost use Rattle.std.specs.Prelude.{◌≤◌, length};

use outside::{AskFault, Failed, Link, MemSink, MemSource, Pair, ReplyEnd, Source, ask_link};
use std::alloc::Global;
use std::test::Fail;
use wopi_text::{Bytes, Memory};

/// A reply of this many bytes.
#[derive(Drop)]
pub struct Counted {
    pub count: usize,
}

impl ReplyEnd for Counted {
    ghost whole = { λ c bytes. c.count ≤ length bytes };

    fn is_whole(&self, bytes: &[u8]) -> Result<bool, Memory> {
        Ok(self.count <= bytes.len())
    }
}

/// A link that gives `reply`, 4 bytes at once, and takes 6 bytes. The read of this number fails.
fn link_of(alloc: Global, number: u64) -> Result<Pair<MemSource, MemSink>, Fail> {
    let reply = Bytes::from_slice(alloc, b"reply")?;
    let source = MemSource::new(reply, 4, [number].as_slice().to_vec(alloc)?);
    Ok(Pair::new(source, MemSink::new(alloc, 6, Vec::new(alloc))?))
}

/// The reply of so many bytes to this request.
fn asked<L: Link>(
    alloc: Global,
    link: &mut L,
    count: usize,
    request: &[u8],
) -> Result<Vec<u8>, AskFault> {
    ask_link(alloc, link, &Counted { count }, request, 100)
}

#[test]
fn a_request_is_sent_whole_before_anything_is_read(rt: HostRuntime) -> Result<(), Fail> {
    let alloc = rt.alloc();
    let mut link = link_of(alloc, 1)?;
    assert!(rt; asked(alloc, &mut link, 9, b"ask") == Err(AskFault::ReadFault));
    assert!(rt; link.sink.as_slice() == b"ask".as_slice());
    let mut link = link_of(alloc, 1)?;
    assert!(rt; asked(alloc, &mut link, 9, b"a long one") == Err(AskFault::WriteFault));
    assert!(rt; link.sink.as_slice() == b"a long".as_slice());
    assert!(rt; link.source.as_slice() == b"reply".as_slice());
    Ok(())
}

#[test]
fn a_reply_of_more_than_the_most_bytes_is_a_fault(rt: HostRuntime) -> Result<(), Fail> {
    let alloc = rt.alloc();
    let mut link = link_of(alloc, 9)?;
    assert!(rt;
        ask_link(alloc, &mut link, &Counted { count: 9 }, b"ask", 3) == Err(AskFault::TooLong)
    );
    Ok(())
}
