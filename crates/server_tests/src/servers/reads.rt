//! When a connection reads, seen by the one read that fails.
ghost use Rattle.std.specs.Prelude.{◌≤◌};

use super::{desk, open};
use host_server::{ConnEnd, serve_connection};
use outside::{MemSink, MemSource, Pair, ScriptClock};
use std::alloc::Global;
use std::test::Fail;
use wopi_text::Bytes;

/// A message that doesn't close.
const GET: &[u8] = b"GET /x HTTP/1.1\r\nHost: h\r\n\r\n";

/// The most bytes of a reply here, and more than a read asks for.
const ROOM: usize = 9999;

/// How a connection over this input ends, whose read of that number fails, and how many bytes were written.
fn served(alloc: Global, input: &[u8], failing: u64) -> Result<(ConnEnd, usize), Fail> {
    let mut single = open(alloc, 4096, &["a.csv"])?;
    let desk = desk(alloc)?;
    let failing = [failing].as_slice().to_vec(alloc)?;
    let source = MemSource::new(Bytes::from_slice(alloc, input)?, ROOM, failing);
    let sink = MemSink::new(alloc, ROOM, Vec::new(alloc))?;
    let mut link = Pair::new(source, sink);
    let mut clock = ScriptClock::new(0, Vec::new(alloc));
    let end = serve_connection(alloc, &mut single, &desk, &mut link, &mut clock);
    Ok((end, link.sink.as_slice().len()))
}

#[test]
fn the_reply_stands_written_at_the_next_read(rt: HostRuntime) -> Result<(), Fail> {
    let alloc = rt.alloc();
    assert!(rt; served(alloc, GET, 1)? == (ConnEnd::ReadFault, 0));
    let (end, count) = served(alloc, GET, 2)?;
    assert!(rt; end == ConnEnd::ReadFault);
    assert!(rt; served(alloc, GET, 0)? == (ConnEnd::Done, count));
    assert!(rt; count > 0);
    Ok(())
}

#[test]
fn nothing_is_read_after_the_end_of_the_input(rt: HostRuntime) -> Result<(), Fail> {
    let alloc = rt.alloc();
    assert!(rt; served(alloc, b"", 2)? == (ConnEnd::Done, 0));
    let (end, _) = served(alloc, GET, 3)?;
    assert!(rt; end == ConnEnd::Done);
    let (end, count) = served(alloc, b"GET /x HT", 3)?;
    assert!(rt; end == ConnEnd::Done);
    assert!(rt; count > 0);
    Ok(())
}
