//! Heads and bodies out of form, each as the only input of `once`, and the reply to the byte.
use super::once;
use std::alloc::Global;
use std::sync::Wait;
use std::test::Fail;
use std::thread::Threads;
use wopi_text::Memory;

const BAD: &str = "HTTP/1.1 400 Bad Request\r\nContent-Length: 0\r\nConnection: close\r\n\r\n";

const TOO_LARGE: &str =
    "HTTP/1.1 413 Content Too Large\r\nContent-Length: 0\r\nConnection: close\r\n\r\n";

const UNKNOWN: &str =
    "HTTP/1.1 501 Not Implemented\r\nContent-Length: 0\r\nConnection: close\r\n\r\n";

/// What an input shows, the input, and the reply to it.
const INPUTS: [[&str; 3]; 16] = [
    ["nothing gets no reply", "", ""],
    ["no Host", "GET / HTTP/1.1\r\nA: b\r\n\r\n", BAD],
    [
        "two Hosts",
        "GET / HTTP/1.1\r\nHost: h\r\nHost: h\r\n\r\n",
        BAD,
    ],
    [
        "a length with a sign",
        "POST / HTTP/1.1\r\nHost: h\r\nContent-Length: +4\r\n\r\n1,2\n",
        BAD,
    ],
    [
        "a list of lengths",
        "POST / HTTP/1.1\r\nHost: h\r\nContent-Length: 4, 4\r\n\r\n1,2\n",
        BAD,
    ],
    [
        "a length twice",
        "POST / HTTP/1.1\r\nHost: h\r\nContent-Length: 4\r\nContent-Length: 4\r\n\r\n1,2\n",
        BAD,
    ],
    [
        "a length of more than 64 bits",
        "POST / HTTP/1.1\r\nHost: h\r\nContent-Length: 99999999999999999999999\r\n\r\n1,2\n",
        TOO_LARGE,
    ],
    [
        "another coding before the chunks",
        "POST / HTTP/1.1\r\nHost: h\r\nTransfer-Encoding: gzip, chunked\r\n\r\n0\r\n\r\n",
        UNKNOWN,
    ],
    [
        "chunks in HTTP/1.0",
        "POST / HTTP/1.0\r\nHost: h\r\nTransfer-Encoding: chunked\r\n\r\n0\r\n\r\n",
        BAD,
    ],
    [
        "a chunk of more than 16 MiB",
        "POST / HTTP/1.1\r\nHost: h\r\nTransfer-Encoding: chunked\r\n\r\n1000001\r\n1,2\n",
        TOO_LARGE,
    ],
    [
        "a chunk's size that is no number",
        "POST / HTTP/1.1\r\nHost: h\r\nTransfer-Encoding: chunked\r\n\r\ng\r\n1,2\n",
        BAD,
    ],
    [
        "a chunk without its line end",
        "POST / HTTP/1.1\r\nHost: h\r\nTransfer-Encoding: chunked\r\n\r\n4\r\n1,2\n0\r\n\r\n",
        BAD,
    ],
    [
        "an input that ends in a chunk",
        "POST / HTTP/1.1\r\nHost: h\r\nTransfer-Encoding: chunked\r\n\r\n4\r\n1,",
        BAD,
    ],
    [
        "an id in upper case",
        "GET /wopi/files/612E637376?access_token=t HTTP/1.1\r\nHost: h\r\n\r\n",
        "HTTP/1.1 404 Not Found\r\nContent-Length: 0\r\n\r\n",
    ],
    [
        "a token whose escape is none",
        "GET /wopi/files/612e637376?access_token=%ZZ HTTP/1.1\r\nHost: h\r\n\r\n",
        "HTTP/1.1 401 Unauthorized\r\nContent-Length: 0\r\n\r\n",
    ],
    [
        "a lock id twice",
        "POST /wopi/files/612e637376?access_token=t HTTP/1.1\r\nHost: h\r\nX-WOPI-Override: LOCK\r\nX-WOPI-Lock: L1\r\nX-WOPI-Lock: L1\r\n\r\n",
        "HTTP/1.1 400 Bad Request\r\nContent-Length: 0\r\n\r\n",
    ],
];

/// An input in which one part stands so often, and the reply to it.
struct Long {
    shows: &'static str,
    front: &'static str,
    part: &'static str,
    times: usize,
    back: &'static str,
    reply: &'static str,
}

const LONG_INPUTS: [Long; 4] = [
    Long {
        shows: "65 fields",
        front: "GET / HTTP/1.1\r\nHost: h\r\n",
        part: "a: b\r\n",
        times: 64,
        back: "\r\n",
        reply: BAD,
    },
    Long {
        shows: "a head of more than 16,384 bytes",
        front: "GET / HTTP/1.1\r\nHost: h\r\na: ",
        part: "x",
        times: 16_384,
        back: "\r\n\r\n",
        reply: BAD,
    },
    Long {
        shows: "65 trailers",
        front: "POST / HTTP/1.1\r\nHost: h\r\nTransfer-Encoding: chunked\r\n\r\n0\r\n",
        part: "a: b\r\n",
        times: 65,
        back: "\r\n",
        reply: BAD,
    },
    Long {
        shows: "70,000 chunks of one byte",
        front: "POST / HTTP/1.1\r\nHost: h\r\nTransfer-Encoding: chunked\r\n\r\n",
        part: "1\r\na\r\n",
        times: 70_000,
        back: "0\r\n\r\n",
        reply: BAD,
    },
];

fn long_input(alloc: Global, long: &Long) -> Result<Vec<u8>, Memory> {
    let mut bytes = long.front.as_bytes().to_vec(alloc)?;
    for _ in 0..long.times {
        bytes.extend_from_slice(long.part.as_bytes())?;
    }
    bytes.extend_from_slice(long.back.as_bytes())?;
    Ok(bytes)
}

/// Whether the input alone gets this reply, and the file stays as it is.
fn gets<R: Threads + Wait + Sync>(
    rt: &R,
    alloc: Global,
    input: &[u8],
    reply: &str,
) -> Result<bool, Memory> {
    let left = once(rt, alloc, input)?;
    Ok(
        left.status == 0
            && left.output.as_slice() == reply.as_bytes()
            && left.kept("a.csv") == b"1,2\n".as_slice(),
    )
}

#[test]
fn inputs_out_of_form_have_their_replies(rt: HostRuntime) -> Result<(), Fail> {
    let alloc = rt.alloc();
    for [shows, input, reply] in &INPUTS {
        assert!(rt; gets(&rt, alloc, input.as_bytes(), reply)?, "{shows}");
    }
    for long in &LONG_INPUTS {
        let input = long_input(alloc, long)?;
        assert!(rt; gets(&rt, alloc, &input, long.reply)?, "{}", long.shows);
    }
    Ok(())
}
