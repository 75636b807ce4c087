//! Listeners that share one socket, and what ends them.
ghost use Rattle.std.specs.Prelude.{◌≡◌, IfOk};

use adapters::{
    Limits, SharedListener, SharedSocket, StopListener, TcpListen, bind, close_at_byte, close_later,
};
use outside::{Accepted, Listener, OutFault, read_link, write_link};
use std::alloc::Global;
use std::fs;
use std::io::{self, ErrorKind, Read, Write};
use std::net::TcpStream;
use std::sync::Arc;
use std::test::Fail;

const LIMITS: Limits = Limits {
    idle: 60,
    patience: 120,
};

type Socket = Arc<SharedSocket, Global>;

type Taken<'a> = StopListener<'a, HostRuntime, SharedListener<TcpListen<HostRuntime>>>;

// A socket at a port that was free.
fn socket(rt: &HostRuntime) -> Result<Socket, Fail> {
    Ok(bind(rt.alloc(), rt, "127.0.0.1:0", 1, None)??)
}

// A listener over the socket, until the stop file is there.
fn one<'a>(rt: &'a HostRuntime, path: &'a str, socket: &Socket) -> Result<Taken<'a>, Fail>
    ensures { IfOk result (λ one. one.finished ≡ one.accepted) }
{
    let own = TcpListen::new(*rt, Some(socket.door.clone()?), LIMITS, 9);
    let shared = SharedListener::new(own, Some(socket.clone()?));
    Ok(StopListener::new(rt, Some(path), shared))
}

// Whether a link was accepted; it is finished at once.
fn takes_one<N: Listener>(listener: &mut N) -> Result<bool, OutFault>
    requires { N.finished listener.old ≡ N.accepted listener.old }
    ensures { N.finished listener.new ≡ N.accepted listener.new }
{
    match listener.accept() {
        Ok(Accepted::Link(link)) => {
            listener.finish(link);
            Ok(true)
        }
        Ok(Accepted::Closed) => Ok(false),
        Err(fault) => Err(fault),
    }
}

fn connect(rt: &HostRuntime, socket: &Socket) -> io::Result<TcpStream> {
    TcpStream::connect(rt, socket.door.address()?)
}

// Whether somebody who connects is refused at once.
fn is_refused(rt: &HostRuntime, socket: &Socket) -> bool {
    match connect(rt, socket) {
        Err(error) => error.kind() == ErrorKind::ConnectionRefused,
        Ok(_) => false,
    }
}

// Makes sure that there is no file.
fn no_file(rt: &HostRuntime, path: &str) -> io::Result<()> {
    match fs::remove_file(rt, path) {
        Err(error) if error.kind() != ErrorKind::NotFound => Err(error),
        _ => Ok(()),
    }
}

#[test]
fn a_stop_that_one_listener_sees_closes_the_socket_of_all(rt: HostRuntime) -> Result<(), Fail> {
    const PATH: &str = "mokdrai_test_stop_of_all";
    no_file(&rt, PATH)?;
    let socket = socket(&rt)?;
    let mut busy = one(&rt, PATH, &socket)?;
    let mut idle = one(&rt, PATH, &socket)?;
    let mut client = connect(&rt, &socket)?;
    let Ok(Accepted::Link(mut link)) = busy.accept() else {
        return Err(Fail::from(io::Error::from(ErrorKind::NotConnected)));
    };
    fs::write(&rt, PATH, b"".as_slice())?;
    let _woken = connect(&rt, &socket)?;
    let is_closed = takes_one(&mut idle) == Ok(false);
    fs::remove_file(&rt, PATH)?;
    assert!(rt; is_closed && is_refused(&rt, &socket));

    // Who is served meanwhile is served to the end.
    client.write_all(b"ask!".as_slice())?;
    let mut into = [0u8; 4];
    assert!(rt; read_link(&mut link, &mut into) == Ok(4));
    assert!(rt; write_link(&mut link, b"fine").is_ok());
    client.read_exact(&mut into)?;
    assert!(rt; into == *b"fine");
    drop(client);
    busy.finish(link);
    assert!(rt; takes_one(&mut busy) == Ok(false));
    Ok(())
}

#[test]
fn a_byte_at_a_path_ends_an_accept_that_waits(rt: HostRuntime) -> Result<(), Fail> {
    const PATH: &str = "mokdrai_test_byte";
    let socket = socket(&rt)?;
    let mut first = one(&rt, "mokdrai_test_none", &socket)?;
    let mut second = one(&rt, "mokdrai_test_none", &socket)?;
    close_at_byte(b"".as_slice(), &socket);
    let _client = connect(&rt, &socket)?;
    let takes = takes_one(&mut first);
    fs::write(&rt, PATH, b"\n".as_slice())?;
    close_later(&rt, Some(PATH), &Some(socket.clone()?))?;
    let ends = [takes_one(&mut first), takes_one(&mut second)];
    fs::remove_file(&rt, PATH)?;
    assert!(rt; takes == Ok(true) && ends == [Ok(false), Ok(false)]);
    assert!(rt; is_refused(&rt, &socket));
    Ok(())
}

#[test]
fn the_last_listener_that_is_let_go_closes_the_socket(rt: HostRuntime) -> Result<(), Fail> {
    const PATH: &str = "mokdrai_test_never_stopped";
    no_file(&rt, PATH)?;
    let socket = socket(&rt)?;
    let first = one(&rt, PATH, &socket)?;
    let second = one(&rt, PATH, &socket)?;
    drop(first);
    let is_open = connect(&rt, &socket).is_ok();
    drop(second);
    assert!(rt; is_open && is_refused(&rt, &socket));
    Ok(())
}
