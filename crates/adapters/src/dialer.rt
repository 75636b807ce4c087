//! Requests over TCP.
ghost use Rattle.std.specs.Prelude.{◌≡◌, None};

use crate::limits::Limits;
use crate::link::TcpLink;
use outside::{Dialer, OutFault, ReplyEnd, ask_link};
use std::alloc::Global;
use std::io::{self, ErrorKind};
use std::net::{Net, TcpStream, ToSocketAddrs};
use std::time::{self, Duration};
use wopi_text::Bytes;

// The longest reply: contents of 16 MiB and a head of 64 KiB.
const LONGEST_REPLY: usize = 16_842_752;

/// Sends each request over a connection of its own, all of it before anything is read, and reads until
/// the reply ends, as `end` tells, or the host closes the connection. Of a reply that is longer than
/// 16,842,752 bytes so many are read. A reply of no bytes is a fault, and so is a host that is silent for as
/// long as `idle` says. Once a request may have been sent, whatever goes wrong is a lost answer, want of
/// memory too.
#[derive(Drop)]
pub struct TcpDialer<'a, R, E> {
    rt: &'a R,
    alloc: Global,
    authority: String,
    end: E,
    idle: u32,
    faults: u64,
}

impl<'a, R: Net<Stream = TcpStream> + time::Clock + Copy, E: ReplyEnd> TcpDialer<'a, R, E> {
    /// `authority` is the host and its port, as `localhost:8880`; `idle` are seconds, 0 for ever.
    pub fn new(
        alloc: Global,
        rt: &'a R,
        authority: String,
        end: E,
        idle: u32,
    ) -> TcpDialer<'a, R, E>
        ensures host { result.authority ≡ authority }
        ensures waits { result.idle ≡ idle }
    {
        TcpDialer {
            rt,
            alloc,
            authority,
            end,
            idle,
            faults: 0,
        }
    }
}

impl<'a, R: Net<Stream = TcpStream> + time::Clock + Copy, E: ReplyEnd> Dialer
    for TcpDialer<'a, R, E> {
    ghost exchanges = { λ _. None };

    ghost faults = { λ d. d.faults };

    fn exchange(&mut self, request: &[u8]) -> Result<Bytes, OutFault> {
        match ask(
            self.rt,
            self.alloc,
            &self.authority,
            &self.end,
            self.idle,
            request,
        ) {
            Some(reply) => Ok(Bytes::from_vec(reply)),
            None => {
                self.faults = self.faults.saturating_add(1);
                Err(OutFault::Failed)
            }
        }
    }
}

// A connection, from a host that answers in time.
fn connect<R: Net<Stream = TcpStream>>(
    rt: &R,
    authority: &str,
    idle: u32,
) -> io::Result<TcpStream> {
    if idle == 0 {
        return TcpStream::connect(rt, authority);
    }
    let longest = Duration::from_secs(idle as u64);
    let mut last = io::Error::from(ErrorKind::InvalidInput);
    for address in authority.to_socket_addrs(rt)? {
        match TcpStream::connect_timeout(rt, &address, longest) {
            Ok(stream) => return Ok(stream),
            Err(error) => last = error,
        }
    }
    Err(last)
}

fn ask<R: Net<Stream = TcpStream> + time::Clock + Copy, E: ReplyEnd>(
    rt: &R,
    alloc: Global,
    authority: &str,
    end: &E,
    idle: u32,
    request: &[u8],
) -> Option<Vec<u8>> {
    let stream = connect(rt, authority, idle).ok()?;
    let limits = Limits { idle, patience: 0 };
    let mut link = TcpLink::dialed(stream, *rt, limits, LONGEST_REPLY);
    match ask_link(alloc, &mut link, end, request, LONGEST_REPLY) {
        Ok(reply) if !reply.is_empty() => Some(reply),
        _ => None,
    }
}
