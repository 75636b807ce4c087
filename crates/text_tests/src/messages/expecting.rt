//! A client that sends its body only once it was told to go on.
ghost use Rattle.std.specs.Prelude.{◌≤◌, [], None, length};

use outside::{Failed, Link, MemSink, Sink, Source};
use std::alloc::Global;
use std::test::Fail;
use wopi_http::{Buffer, Got, read_request};

const GO_ON: &[u8] = b"HTTP/1.1 100 Continue\r\n\r\n";

/// Gives the head, and then the body, where the sink holds the 100 line; else it fails.
#[derive(Drop)]
struct Expecting {
    head: &'static [u8],
    body: &'static [u8],
    sink: MemSink,
    read_faults: u64,
    write_faults: u64,
}

/// Gives as much as there is room for, and says how much that was and what is left.
pub fn given(from: &'static [u8], into: &mut [u8]) -> (usize, &'static [u8])
    ensures { result.0 ≤ length into.old }
{
    let count = into.len().min(from.len());
    into[..count].copy_from_slice(&from[..count]);
    (count, &from[count..])
}

impl Source for Expecting {
    ghost left = { λ _. None };

    ghost read_faults = { λ l. l.read_faults };

    ghost beside_reads = { λ l. record { bytes = None; faults = l.write_faults; references = [] } };

    fn read(&mut self, into: &mut [u8]) -> Result<usize, Failed> {
        if !self.head.is_empty() {
            let (count, rest) = given(self.head, into);
            self.head = rest;
            return Ok(count);
        }
        if self.sink.as_slice() == GO_ON {
            let (count, rest) = given(self.body, into);
            self.body = rest;
            return Ok(count);
        }
        self.read_faults = self.read_faults.saturating_add(1);
        Err(Failed)
    }
}

impl Sink for Expecting {
    ghost held = { λ _. None };

    ghost write_faults = { λ l. l.write_faults };

    ghost beside_writes = { λ l. record { bytes = None; faults = l.read_faults; references = [] } };

    fn write(&mut self, piece: &[u8]) -> Result<usize, Failed> {
        match self.sink.write(piece) {
            Ok(count) => Ok(count),
            Err(Failed) => {
                self.write_faults = self.write_faults.saturating_add(1);
                Err(Failed)
            }
        }
    }
}

impl Link for Expecting {
    ghost use Rattle.std.specs.Prelude.{refl};

    ghost reads_leave = { λ _. refl };

    ghost writes_leave = { λ _. refl };
}

/// The length of the body that is read, or none where the link fails.
fn body_read(
    alloc: Global,
    head: &'static [u8],
    body: &'static [u8],
) -> Result<Option<usize>, Fail> {
    let mut link = Expecting {
        head,
        body,
        sink: MemSink::new(alloc, 64, Vec::new(alloc))?,
        read_faults: 0,
        write_faults: 0,
    };
    let mut buffer = Buffer::new(alloc)?;
    match read_request(&mut link, &mut buffer) {
        Got::Message(request) => Ok(Some(request.body.as_slice().len())),
        Got::ReadFault => Ok(None),
        _ => Err(Fail::from("neither a message nor a fault of reading")),
    }
}

#[test]
fn the_100_line_is_written_before_a_byte_of_the_body_is_read(rt: HostRuntime) -> Result<(), Fail> {
    let alloc = rt.alloc();
    let sized = b"POST / HTTP/1.1\r\nHost: a\r\nExpect: 100-continue\r\nContent-Length: 4\r\n\r\n";
    assert!(rt; body_read(alloc, sized, b"1,2\n")? == Some(4));
    let chunked =
        b"POST / HTTP/1.1\r\nHost: a\r\nExpect: 100-continue\r\nTransfer-Encoding: chunked\r\n\r\n";
    assert!(rt; body_read(alloc, chunked, b"4\r\n1,2\n\r\n0\r\n\r\n")? == Some(4));
    let unasked = b"POST / HTTP/1.1\r\nHost: a\r\nContent-Length: 4\r\n\r\n";
    assert!(rt; body_read(alloc, unasked, b"1,2\n")? == None);
    Ok(())
}
