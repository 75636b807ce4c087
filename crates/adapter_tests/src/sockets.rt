//! The standard streams, the system's clock, and connections over TCP.
ghost use Rattle.std.specs.Prelude.{◌≡◌, ◌≤◌, length};

use adapters::{Door, Limits, StdSink, StdSource, SystemClock, TcpDialer, TcpListen};
use outside::{
    Accepted, Clock, Dialer, Listener, OutFault, ReplyEnd, Sink, Source, read_link, write_link,
};
use std::alloc::Global;
use std::cell::Cell;
use std::io::{self, ErrorKind};
use std::sync::Arc;
use std::test::Fail;
use std::thread::join;
use std::time::{self, Duration};
use wopi_text::Memory;

// A reply of this many bytes.
#[derive(Drop)]
pub(super) struct Counted {
    pub count: usize,
}

impl ReplyEnd for Counted {
    ghost whole = { λ c bytes. c.count ≤ length bytes };

    fn is_whole(&self, bytes: &[u8]) -> Result<bool, Memory> {
        Ok(self.count <= bytes.len())
    }
}

#[test]
fn the_standard_streams_read_and_write(rt: HostRuntime) {
    let mut input = StdSource::new(rt.stdin());
    assert!(rt; input.read(&mut []) == Ok(0));
    let mut output = StdSink::output(rt.stdout());
    assert!(rt; output.write(b"") == Ok(0));
    let mut notes = StdSink::notes(rt.stderr());
    assert!(rt; notes.write(b"a note\n") == Ok(7));
}

// A clock that says one thing after another.
#[derive(Drop)]
struct Says {
    place: Cell<usize>,
}

impl time::Clock for Says {
    fn monotonic(&self) -> io::Result<Duration> {
        Ok(Duration::from_secs(0))
    }

    fn since_1970(&self) -> io::Result<Duration> {
        let place = self.place.get();
        self.place.set(place.saturating_add(1));
        match place {
            0 | 3 => Err(io::Error::from(ErrorKind::Other)),
            1 => Ok(Duration::from_secs(u64::MAX)),
            2 => Ok(Duration::from_millis(253_402_300_799_999)),
            4 => Err(io::Error::from(ErrorKind::InvalidData)),
            _ => Ok(Duration::from_millis(1_700_000_000_123)),
        }
    }
}

#[test]
fn a_system_time_out_of_range_gives_the_nearest_moment(rt: HostRuntime) {
    let says = Says {
        place: Cell::new(0),
    };
    let mut clock = SystemClock::new(&says);
    let latest = 253_402_300_799_999;
    for moment in [0, latest, latest, latest, 0, 1_700_000_000_123] {
        assert!(rt; clock.now() == moment);
    }
    assert!(rt; SystemClock::new(&rt).now() > 1_600_000_000_000);
}

const NEVER: Limits = Limits {
    idle: 0,
    patience: 0,
};

// A door at a port that was free, and the port.
pub(super) fn open_door(rt: &HostRuntime) -> Result<(Arc<Door, Global>, u16), Fail> {
    let door = Door::bind(rt, "127.0.0.1:0", 1)?;
    let port = door.address()?.port();
    Ok((Arc::new(rt.alloc(), door)?, port))
}

#[test]
fn a_socket_that_is_not_bound_makes_each_accept_fail(rt: HostRuntime) {
    let mut listener = TcpListen::new(rt, None, NEVER, 9);
    assert!(rt; matches!(listener.accept(), Err(OutFault::Failed)));
    assert!(rt; matches!(listener.accept(), Err(OutFault::Failed)));
}

// Accepts one connection, reads four bytes, and answers.
fn serve_one(listener: &mut TcpListen<HostRuntime>) -> bool
    requires { listener.old.finished ≡ listener.old.accepted }
{
    let Ok(Accepted::Link(mut link)) = listener.accept() else {
        return false;
    };
    let mut into = [0u8; 4];
    let is_read = read_link(&mut link, &mut into) == Ok(4);
    let is_written = write_link(&mut link, b"reply").is_ok();
    listener.finish(link);
    is_read && is_written && into == *b"ask!" && matches!(listener.accept(), Ok(Accepted::Closed))
}

// This reply ends only where the connection does.
#[test]
fn a_link_that_is_finished_is_closed_while_its_listener_lives(rt: HostRuntime) -> Result<(), Fail> {
    let alloc = rt.alloc();
    let (door, port) = open_door(&rt)?;
    let authority = format!(in alloc; "127.0.0.1:{port}")?;
    let mut listener = TcpListen::new(rt, Some(door), NEVER, 1);
    let mut dialer = TcpDialer::new(alloc, &rt, authority, Counted { count: 9 }, 0);
    let (is_served, reply) = join(
        &rt,
        || serve_one(&mut listener),
        || dialer.exchange(b"ask!"),
    );
    assert!(rt; is_served);
    assert!(rt; reply?.as_slice() == b"reply".as_slice());
    Ok(())
}

// Accepts one connection, reads four bytes, answers, and closes only once the other end has.
fn keep_open(listener: &mut TcpListen<HostRuntime>) -> bool
    requires { listener.old.finished ≡ listener.old.accepted }
{
    let Ok(Accepted::Link(mut link)) = listener.accept() else {
        return false;
    };
    let mut into = [0u8; 4];
    let is_read = read_link(&mut link, &mut into) == Ok(4);
    let is_written = write_link(&mut link, b"reply").is_ok();
    let is_closed = read_link(&mut link, &mut into) == Ok(0);
    listener.finish(link);
    is_read && is_written && is_closed
}

#[test]
fn a_host_that_keeps_the_connection_open_holds_no_reply_up(rt: HostRuntime) -> Result<(), Fail> {
    let alloc = rt.alloc();
    let (door, port) = open_door(&rt)?;
    let authority = format!(in alloc; "127.0.0.1:{port}")?;
    let mut listener = TcpListen::new(rt, Some(door), NEVER, 1);
    let mut dialer = TcpDialer::new(alloc, &rt, authority, Counted { count: 5 }, 0);
    let (is_closed, reply) = join(
        &rt,
        || keep_open(&mut listener),
        || dialer.exchange(b"ask!"),
    );
    assert!(rt; is_closed);
    assert!(rt; reply?.as_slice() == b"reply".as_slice());
    Ok(())
}
