//! Requests as a client writes them, and replies as it reads them.
use outside::ReplyEnd;
use std::alloc::Global;
use std::test::Fail;
use wopi_http::{
    Field, Fields, Method, ReplyFault, ReplyLength, Request, read_reply, request_text,
};
use wopi_text::Bytes;

#[test]
fn replies_as_other_servers_write_them(rt: HostRuntime) -> Result<(), Fail> {
    let alloc = rt.alloc();
    let cases = [
        (
            b"HTTP/1.0 200 OK\r\nServer: BaseHTTP/0.6 Python/3.11.2\r\nDate: Fri, 27 Nov 2026 11:00:00 GMT\r\n\r\n1,2\n".as_slice(),
            200,
            b"1,2\n".as_slice(),
        ),
        (
            b"HTTP/1.1 200 OK\r\nserver: nginx\r\ndate: Fri, 27 Nov 2026 11:00:00 GMT\r\ncontent-type: application/octet-stream\r\nconnection: close\r\nx-wopi-itemversion: v1\r\ncontent-length: 4\r\n\r\n1,2\n".as_slice(),
            200,
            b"1,2\n".as_slice(),
        ),
        (
            b"HTTP/1.1 100 Continue\r\n\r\nHTTP/1.1 103 Early Hints\r\nLink: </a>\r\n\r\nHTTP/1.1 409 Conflict\r\nX-Wopi-Lock:L2\r\nContent-Length:  0 \r\n\r\n".as_slice(),
            409,
            b"".as_slice(),
        ),
        (
            b"HTTP/1.1 204 No Content\r\nContent-Length: 9\r\n\r\n".as_slice(),
            204,
            b"".as_slice(),
        ),
        (
            b"HTTP/1.1 304 Not Modified\r\nTransfer-Encoding: gzip\r\n\r\nmore".as_slice(),
            304,
            b"".as_slice(),
        ),
        (
            b"HTTP/1.1 503 \r\nTransfer-Encoding: Chunked\r\n\r\n0\r\n\r\n".as_slice(),
            503,
            b"".as_slice(),
        ),
    ];
    for (bytes, status, body) in cases {
        let reply = read_reply(alloc, bytes)?;
        assert!(rt; reply.status == status);
        assert!(rt; reply.body.as_slice() == body);
    }
    Ok(())
}

#[test]
fn a_reply_is_bad_where_its_part_begins(rt: HostRuntime) {
    for (bytes, place) in [
        (b"".as_slice(), 0),
        (b"HTTP/1.1 100 Continue\r\n\r\n".as_slice(), 25),
        (
            b"HTTP/1.1 200 OK\r\nContent-Length: 5\r\n\r\nabc".as_slice(),
            38,
        ),
    ] {
        let read = read_reply(rt.alloc(), bytes);
        assert!(rt; matches!(read, Err(ReplyFault::Bad { at }) if at == place));
    }
}

#[test]
fn a_reply_that_says_how_long_it_is_ends_behind_its_body(rt: HostRuntime) -> Result<(), Fail> {
    let end = ReplyLength::new(rt.alloc());
    for (bytes, is_whole) in [
        (
            b"HTTP/1.1 200 OK\r\nContent-Length: 3\r\n\r\n1,".as_slice(),
            false,
        ),
        (
            b"HTTP/1.1 200 OK\r\nContent-Length: 3\r\n\r\n1,2".as_slice(),
            true,
        ),
        (b"HTTP/1.1 200 OK\r\n\r\n1,2".as_slice(), false),
    ] {
        assert!(rt; end.is_whole(bytes)? == is_whole);
    }
    Ok(())
}

fn field(alloc: Global, name: &[u8], value: &[u8]) -> Result<Field, Fail> {
    Ok(Field {
        name: Bytes::from_slice(alloc, name)?,
        value: Bytes::from_slice(alloc, value)?,
    })
}

#[test]
fn a_request_as_it_is_written(rt: HostRuntime) -> Result<(), Fail> {
    let alloc = rt.alloc();
    let mut fields = Fields::new(alloc);
    fields.push(field(alloc, b"Host", b"localhost:8880")?)?;
    fields.push(field(alloc, b"Content-Length", b"4")?)?;
    let request = Request {
        method: Method::Post,
        target: Bytes::from_slice(alloc, b"/wopi/files/61/contents")?,
        version: 1,
        fields,
        body: Bytes::from_slice(alloc, b"1,2\n")?,
    };
    assert!(rt;
        request_text(alloc, &request)?.as_slice()
            == b"POST /wopi/files/61/contents HTTP/1.1\r\nHost: localhost:8880\r\nContent-Length: 4\r\n\r\n1,2\n".as_slice()
    );
    Ok(())
}
