//! What a real link does with time, with others who wait, and at its end.
ghost use Rattle.std.specs.Prelude.{◌≡◌, ◌<◌, IfOk};

use super::sockets::{Counted, open_door};
use adapters::{Limits, TcpDialer, TcpLink, TcpListen, pause_after};
use outside::{Accepted, Dialer, Failed, Listener, OutFault, read_link, write_link};
use std::io::{self, ErrorKind, Read, Write};
use std::net::TcpStream;
use std::test::Fail;
use std::thread::{join, sleep};
use std::time::Duration;

type Served = TcpListen<HostRuntime>;

const SHORT: Limits = Limits {
    idle: 1,
    patience: 1,
};

// A link to somebody who connected.
fn link_of(listener: &mut Served) -> Result<TcpLink<HostRuntime>, Fail>
    requires { listener.old.finished ≡ listener.old.accepted }
    ensures { IfOk result (λ _. listener.new.finished < listener.new.accepted) }
{
    match listener.accept() {
        Ok(Accepted::Link(link)) => Ok(link),
        _ => Err(Fail::from(io::Error::from(ErrorKind::NotConnected))),
    }
}

fn connect(rt: &HostRuntime, port: u16) -> io::Result<TcpStream> {
    TcpStream::connect(rt, ("127.0.0.1", port))
}

// Reads four bytes and answers five.
fn answer(link: &mut TcpLink<HostRuntime>) -> bool {
    let mut into = [0u8; 4];
    let is_read = read_link(link, &mut into) == Ok(4);
    is_read && write_link(link, b"reply").is_ok()
}

#[test]
fn a_silent_client_is_given_up(rt: HostRuntime) -> Result<(), Fail> {
    let (door, port) = open_door(&rt)?;
    let mut listener = TcpListen::new(rt, Some(door), SHORT, 9);
    let _client = connect(&rt, port)?;
    let mut link = link_of(&mut listener)?;
    assert!(rt; read_link(&mut link, &mut [0u8; 4]) == Err(Failed));
    listener.finish(link);
    Ok(())
}

#[test]
fn a_slow_message_is_given_up_and_a_reply_begins_anew(rt: HostRuntime) -> Result<(), Fail> {
    let (door, port) = open_door(&rt)?;
    let mut listener = TcpListen::new(rt, Some(door), SHORT, 9);
    let mut client = connect(&rt, port)?;
    let mut link = link_of(&mut listener)?;
    client.write_all(b"ask!".as_slice())?;
    assert!(rt; answer(&mut link));
    sleep(&rt, Duration::from_millis(1100));
    client.write_all(b"ask!".as_slice())?;
    assert!(rt; read_link(&mut link, &mut [0u8; 4]) == Ok(4));
    sleep(&rt, Duration::from_millis(1100));
    client.write_all(b"ask!".as_slice())?;
    assert!(rt; read_link(&mut link, &mut [0u8; 4]) == Err(Failed));
    listener.finish(link);
    Ok(())
}

#[test]
fn a_client_that_reads_nothing_is_given_up(rt: HostRuntime) -> Result<(), Fail> {
    let (door, port) = open_door(&rt)?;
    let mut listener = TcpListen::new(rt, Some(door), SHORT, 9);
    let _client = connect(&rt, port)?;
    let mut link = link_of(&mut listener)?;
    let mut reply = Vec::new(rt.alloc());
    reply.resize(32_000_000, b'x')?;
    assert!(rt; write_link(&mut link, &reply) == Err(Failed));
    listener.finish(link);
    Ok(())
}

#[test]
fn a_reply_arrives_over_bytes_that_nobody_read(rt: HostRuntime) -> Result<(), Fail> {
    let (door, port) = open_door(&rt)?;
    let mut listener = TcpListen::new(rt, Some(door), SHORT, 1);
    let mut client = connect(&rt, port)?;
    let mut link = link_of(&mut listener)?;
    let mut asked = Vec::new(rt.alloc());
    asked.resize(100_000, b'x')?;
    client.write_all(asked.as_slice())?;
    assert!(rt; answer(&mut link));
    let mut reply = [0u8; 9];
    let (read, ()) = join(&rt, || last_of(client, &mut reply), || drop(link));
    assert!(rt; read? == 5);
    Ok(())
}

// How many bytes come up to the end, and then the connection is closed.
fn last_of(mut client: TcpStream, into: &mut [u8]) -> io::Result<usize> {
    let first = client.read(into)?;
    let last = client.read(into)?;
    Ok(first.saturating_add(last))
}

#[test]
fn a_door_that_is_closed_ends_idle_links_at_once_and_others_later(
    rt: HostRuntime,
) -> Result<(), Fail> {
    let (door, port) = open_door(&rt)?;
    let mut first = TcpListen::new(rt, Some(door.clone()?), SHORT, 1);
    let mut second = TcpListen::new(rt, Some(door.clone()?), SHORT, 1);
    let mut idle = connect(&rt, port)?;
    let mut ended = link_of(&mut first)?;
    let mut busy = connect(&rt, port)?;
    let mut link = link_of(&mut second)?;
    idle.write_all(b"ask!".as_slice())?;
    assert!(rt; answer(&mut ended));
    busy.write_all(b"ask".as_slice())?;
    assert!(rt; read_link(&mut link, &mut [0u8; 4]) == Ok(3));
    door.close();
    assert!(rt; read_link(&mut ended, &mut [0u8; 4]) == Ok(0));
    busy.write_all(b"!".as_slice())?;
    assert!(rt; read_link(&mut link, &mut [0u8; 4]) == Ok(1));
    sleep(&rt, Duration::from_millis(1100));
    busy.write_all(b"!".as_slice())?;
    assert!(rt; read_link(&mut link, &mut [0u8; 4]) == Err(Failed));
    Ok(())
}

#[test]
fn a_host_that_is_silent_gives_no_answer(rt: HostRuntime) -> Result<(), Fail> {
    let alloc = rt.alloc();
    let (_door, port) = open_door(&rt)?;
    let authority = format!(in alloc; "127.0.0.1:{port}")?;
    let mut dialer = TcpDialer::new(alloc, &rt, authority, Counted { count: 5 }, 1);
    assert!(rt; matches!(dialer.exchange(b"ask!"), Err(OutFault::Failed)));
    Ok(())
}

// Accepts one connection, reads four bytes, and writes all of this.
fn send_to(listener: &mut Served, reply: &[u8]) -> bool
    requires { listener.old.finished ≡ listener.old.accepted }
{
    let Ok(Accepted::Link(mut link)) = listener.accept() else {
        return false;
    };
    let is_sent = read_link(&mut link, &mut [0u8; 4]) == Ok(4)
        && write_link(&mut link, reply).is_ok();
    listener.finish(link);
    is_sent
}

#[test]
fn of_a_reply_that_is_too_long_its_front_is_given(rt: HostRuntime) -> Result<(), Fail> {
    let alloc = rt.alloc();
    let (door, port) = open_door(&rt)?;
    let authority = format!(in alloc; "127.0.0.1:{port}")?;
    let mut listener = TcpListen::new(rt, Some(door), SHORT, 1);
    let mut dialer = TcpDialer::new(alloc, &rt, authority, Counted { count: usize::MAX }, 1);
    let mut long = Vec::new(alloc);
    long.resize(16_842_753, b'x')?;
    let (_is_sent, reply) = join(
        &rt,
        || send_to(&mut listener, &long),
        || dialer.exchange(b"ask!"),
    );
    assert!(rt; reply?.as_slice().len() == 16_842_752);
    Ok(())
}

#[test]
fn an_accept_that_fails_for_another_cause_than_the_socket_is_made_again(rt: HostRuntime) {
    for code in [
        4, 11, 12, 23, 24, 64, 71, 92, 95, 100, 101, 103, 105, 112, 113,
    ] {
        assert!(rt;
            pause_after(io::Error::from_raw_os_error(code)).is_some(),
            "{code}"
        );
    }
    for code in [9, 14, 22, 88, 95 + 1000] {
        assert!(rt;
            pause_after(io::Error::from_raw_os_error(code)).is_none(),
            "{code}"
        );
    }
}
