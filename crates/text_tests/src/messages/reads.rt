//! How often a link is read.
use outside::{Failed, MemSink, MemSource, Pair, Source};
use std::alloc::Global;
use std::test::Fail;
use wopi_http::{Buffer, Got, read_request};
use wopi_text::Bytes;

/// The answer to this input, whose read of this number fails, as a status: 0 for the end, 1 where a
/// read failed. The read that comes next fails, so it has this number.
fn status_before(alloc: Global, input: &[u8], number: u64) -> Result<(u16, bool), Fail> {
    let failing = [number].as_slice().to_vec(alloc)?;
    let source = MemSource::new(Bytes::from_slice(alloc, input)?, 1000, failing);
    let mut link = Pair::new(source, MemSink::new(alloc, 64, Vec::new(alloc))?);
    let mut buffer = Buffer::new(alloc)?;
    let status = match read_request(&mut link, &mut buffer) {
        Got::End => 0,
        Got::Refused { status, at: _ } => status,
        Got::ReadFault => 1,
        _ => return Err(Fail::from("a message, or another fault")),
    };
    let mut one = [0u8; 1];
    Ok((status, link.read(&mut one) == Err(Failed)))
}

#[test]
fn nothing_is_read_after_a_read_that_gave_nothing(rt: HostRuntime) -> Result<(), Fail> {
    let cases = [
        (b"".as_slice(), 2, 0),
        (b"GET / HT".as_slice(), 3, 400),
        (
            b"PUT / HTTP/1.1\r\nHost: a\r\nContent-Length: 4\r\n\r\n1,".as_slice(),
            3,
            400,
        ),
        (
            b"PUT / HTTP/1.1\r\nHost: a\r\nTransfer-Encoding: chunked\r\n\r\n4\r\n1,".as_slice(),
            3,
            400,
        ),
        (
            b"PUT / HTTP/1.1\r\nHost: a\r\nTransfer-Encoding: chunked\r\n\r\n2\r\n1,\r".as_slice(),
            3,
            400,
        ),
        (
            b"PUT / HTTP/1.1\r\nHost: a\r\nTransfer-Encoding: chunked\r\n\r\n0\r\na: b\r\n".as_slice(),
            3,
            400,
        ),
    ];
    for (input, number, status) in cases {
        assert!(rt; status_before(rt.alloc(), input, number)? == (status, true));
    }
    Ok(())
}
