//! How many writes a reply takes.
ghost use Rattle.std.specs.Prelude.{None};

use super::repeated;
use outside::{Failed, Sink};
use std::alloc::Global;
use std::test::Fail;
use wopi_http::{Field, Fields, Reply, write_bare, write_reply};
use wopi_text::Bytes;

/// Counts writes and their bytes, and takes each whole.
#[derive(Drop)]
struct Counting {
    writes: usize,
    bytes: usize,
}

impl Sink for Counting {
    ghost held = { λ _. None };

    ghost write_faults = { λ _. 0 };

    fn write(&mut self, piece: &[u8]) -> Result<usize, Failed> {
        self.writes = self.writes.saturating_add(1);
        self.bytes = self.bytes.saturating_add(piece.len());
        Ok(piece.len())
    }
}

/// The writes and the bytes of a reply whose body has so many.
fn counted(alloc: Global, count: usize) -> Result<(usize, usize), Fail> {
    let mut fields = Fields::new(alloc);
    fields.push(Field {
        name: Bytes::from_slice(alloc, b"X-WOPI-ItemVersion")?,
        value: Bytes::from_slice(alloc, b"v1")?,
    })?;
    let reply = Reply {
        status: 200,
        fields,
        body: Bytes::from_vec(repeated(alloc, b"a", count)?),
    };
    let mut sink = Counting {
        writes: 0,
        bytes: 0,
    };
    write_reply(&mut sink, &reply)?;
    Ok((sink.writes, sink.bytes))
}

#[test]
fn a_reply_is_one_write_unless_its_body_is_large(rt: HostRuntime) -> Result<(), Fail> {
    let cases = [
        (0, 1),
        (981, 1),
        (982, 1),
        (983, 1),
        (4096, 1),
        (65536, 1),
        (65537, 2),
    ];
    for (count, writes) in cases {
        assert!(rt; counted(rt.alloc(), count)? == (writes, 43 + count));
    }
    Ok(())
}

#[test]
fn a_bare_reply_is_one_write(rt: HostRuntime) -> Result<(), Fail> {
    let mut sink = Counting {
        writes: 0,
        bytes: 0,
    };
    write_bare(&mut sink, 503, true)?;
    assert!(rt; sink.writes == 1);
    Ok(())
}
