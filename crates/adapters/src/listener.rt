//! Links over TCP, as a worker accepts them.
ghost use Rattle.std.specs.Prelude.{◌≡◌, ◌≤◌, ◌↔◌, None, Ok, OnOk, IsErrOf};

use crate::door::Door;
use crate::limits::Limits;
use crate::link::TcpLink;
use outside::{Accepted, Listener, OutFault};
use std::alloc::Global;
use std::net::TcpStream;
use std::sync::Arc;
use std::time;

/// Accepts connections at a door that workers share, up to a number of its own.
#[derive(Drop)]
pub struct TcpListen<T: time::Clock + Copy> {
    clock: T,
    door: Option<Arc<Door, Global>>,
    limits: Limits,
    // Who waited while no worker was free, and for whom the link before ended.
    next: Option<TcpStream>,
    most: u64,
    accepted: u64,
    finished: u64,
    faults: u64,
    ghost in_hand: { finished ≤ accepted },
    ghost within: { accepted ≤ most },
}

impl<T: time::Clock + Copy> TcpListen<T> {
    /// After `most` connections it answers `Closed`. With no door each accept fails.
    pub fn new(clock: T, door: Option<Arc<Door, Global>>, limits: Limits, most: u64) -> TcpListen<T>
        ensures most { result.most ≡ most }
        ensures accepted { result.accepted ≡ 0 }
        ensures finished { result.finished ≡ 0 }
    {
        TcpListen {
            clock,
            door,
            limits,
            next: None,
            most,
            accepted: 0,
            finished: 0,
            faults: 0,
        }
    }
}

// The next connection: who was found waiting, or who comes.
fn next_stream<T: time::Clock>(
    clock: &T,
    door: &Door,
    next: Option<TcpStream>,
) -> Option<TcpStream> {
    match next {
        Some(stream) if !door.is_closed() => Some(stream),
        _ => door.take(clock),
    }
}

// The next link. Only one behind which the listener takes another gives way.
fn next_link<T: time::Clock + Copy>(
    clock: T,
    door: &Option<Arc<Door, Global>>,
    next: Option<TcpStream>,
    limits: Limits,
    gives_way: bool,
) -> Option<TcpLink<T>> {
    let door = door.as_ref()?.clone().ok()?;
    let stream = next_stream(&clock, &door, next)?;
    Some(TcpLink::accepted(stream, clock, limits, door, gives_way))
}

impl<T: time::Clock + Copy + Send> Listener for TcpListen<T> {
    ghost use Rattle.outside.specs.Faults.{Rose};
    ghost use Rattle.outside.specs.Listener.{AcceptsNumber};

    type Link = TcpLink<T>;

    ghost links_left = { λ _. None };

    ghost finished_links = { λ _. None };

    ghost accepted = { λ l. l.accepted };

    ghost finished = { λ l. l.finished };

    ghost faults = { λ l. l.faults };

    ghost in_hand = { λ l. l.in_hand };

    fn accept(&mut self) -> Result<Accepted<TcpLink<T>>, OutFault>
        requires { self.old.finished ≡ self.old.accepted }
        ensures number { AcceptsNumber self.old.accepted self.new.accepted result }
        ensures finished { self.new.finished ≡ self.old.finished }
        ensures never_falls { self.old.faults ≤ self.new.faults }
        ensures failed { IsErrOf result OutFault.Failed → Rose self.old.faults self.new.faults }
        ensures fine { OnOk result (self.new.faults ≡ self.old.faults) }

        // It is closed exactly after its number of links.
        ensures closed { result ≡ Ok Accepted.Closed ↔ (self.old.accepted ≡ self.old.most) }
        ensures most { self.new.most ≡ self.old.most }
    {
        if self.accepted >= self.most {
            return Ok(Accepted::Closed);
        }
        let next = self.next.take();
        let gives_way = self.accepted + 1 < self.most;
        match next_link(self.clock, &self.door, next, self.limits, gives_way) {
            Some(link) => {
                self.accepted += 1;
                Ok(Accepted::Link(link))
            }
            None => {
                self.faults = self.faults.saturating_add(1);
                Err(OutFault::Failed)
            }
        }
    }

    fn finish(&mut self, link: TcpLink<T>) {
        let mut link = link;
        self.next = link.take_next();
        self.finished += 1;
    }
}
