//! Bytes changed, dropped, doubled and spliced, from a seed.
use std::alloc::Global;
use wopi_text::Memory;

/// Numbers from a seed.
#[derive(Drop)]
pub struct Draws {
    pub state: u64,
}

impl Draws {
    /// A number below this one, or 0.
    pub fn below(&mut self, limit: usize) -> usize {
        self.state = self
            .state
            .wrapping_mul(6_364_136_223_846_793_005)
            .wrapping_add(1_442_695_040_888_963_407);
        ((self.state >> 33) as usize)
            .checked_rem(limit)
            .unwrap_or(0)
    }

    pub fn byte(&mut self) -> u8 {
        (self.below(256) % 256) as u8
    }

    pub fn one_of<'a>(&mut self, list: &[&'a [u8]]) -> &'a [u8] {
        match list.get(self.below(list.len())) {
            Some(bytes) => bytes,
            None => b"",
        }
    }
}

/// What is spliced in.
const PIECES: [&[u8]; 72] = [
    b"\r\n",
    b"\n",
    b"\r",
    b"\r\n\r\n",
    b"\r\n ",
    b"\0",
    b"\x0b",
    b"\x7f",
    b"\xff",
    b" ",
    b"\t",
    b":",
    b";",
    b",",
    b"-",
    b".",
    b"%",
    b"%0",
    b"%00",
    b"%zz",
    b"%C3%28",
    b"+",
    b"+-",
    b"+AAA-",
    b"+AOk-",
    b"+2AA-",
    b"+AOl-",
    b"&",
    b"?",
    b"#",
    b"access_token=",
    b"&access_token=x",
    b"/contents",
    b"http://h:80",
    b"HTTP/1.0\r\n",
    b"GET / HTTP/1.1\r\nHost: h\r\n\r\n",
    b"Host: h\r\n",
    b"Content-Length: 4\r\n",
    b"Content-Length: -1\r\n",
    b"Content-Length: 99999999999999999999999\r\n",
    b"Transfer-Encoding: chunked\r\n",
    b"Transfer-Encoding : chunked\r\n",
    b"Connection: close\r\n",
    b"Expect: 100-continue\r\n",
    b"X-WOPI-Lock: L1\r\n",
    b"X-WOPI-OldLock: L1\r\n",
    b"X-WOPI-MaxExpectedSize: 3\r\n",
    b"0\r\n\r\n",
    b"4\r\n1,2\n\r\n",
    b"1000001\r\n",
    b"fffffffffffffffff\r\n",
    b"18446744073709551616",
    b"253402300800000",
    b"^0",
    b"set 1 1 ",
    b"open",
    b"\"",
    b"\\",
    b"\\u0000",
    b"\\ud800",
    b"\\ud83d\\ude00",
    b"{",
    b"}",
    b"[[[[",
    b"]",
    b"null",
    b"true",
    b"-0",
    b"1e999",
    b"\"Size\":-1,",
    b"\"Name\":1,",
    b"\xef\xbb\xbf",
];

/// The bytes with another text in place of so many of them.
pub fn replaced(
    alloc: Global,
    bytes: &[u8],
    from: usize,
    count: usize,
    text: &[u8],
) -> Result<Vec<u8>, Memory> {
    let from = from.min(bytes.len());
    let to = from.saturating_add(count).min(bytes.len());
    let mut all = bytes[..from].to_vec(alloc)?;
    all.extend_from_slice(text)?;
    all.extend_from_slice(&bytes[to..])?;
    Ok(all)
}

/// The bytes with one of them changed, a few dropped or doubled, a few others in their place, or others between them.
fn spoiled_once(alloc: Global, draws: &mut Draws, bytes: &[u8]) -> Result<Vec<u8>, Memory> {
    let from = draws.below(bytes.len());
    let count = draws.below(9);
    let piece = draws.one_of(&PIECES);
    match draws.below(5) {
        0 => replaced(alloc, bytes, from, 1, &[draws.byte()]),
        1 => replaced(alloc, bytes, from, count, b""),
        2 => {
            let to = from.saturating_add(count).min(bytes.len());
            replaced(alloc, bytes, to, 0, &bytes[from.min(to)..to])
        }
        3 => replaced(alloc, bytes, from, count, piece),
        _ => replaced(alloc, bytes, from, 0, piece),
    }
}

/// The bytes with up to four things wrong.
pub fn spoiled(alloc: Global, draws: &mut Draws, bytes: &[u8]) -> Result<Vec<u8>, Memory> {
    let mut now = bytes.to_vec(alloc)?;
    for _ in 0..=draws.below(4) {
        now = spoiled_once(alloc, draws, &now)?;
    }
    Ok(now)
}
