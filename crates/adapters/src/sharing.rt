//! One socket that many listeners take links of, and that is closed for all of them at once.
ghost use Rattle.std.specs.Prelude.{◌≡◌, ◌≤◌, ◌<◌, ◌+◌, false, IfOk, OnOk, IsErrOf, None, vec_len};
ghost use Rattle.std.specs.List.{AllByRecursion};
ghost use Rattle.adapters.specs.Stopping.{PassesOnShared, TakesBack};

use crate::stopping::CloseAll;
use crate::{Door, Limits, TcpListen};
use outside::{Accepted, Listener, OutFault};
use std::alloc::Global;
use std::fs::{File, Files};
use std::io::{self, Print, Read, Stderr};
use std::net::{Net, TcpListener, TcpStream};
use std::sync::Arc;
use std::sync::atomic::{AtomicBool, AtomicU64, Ordering};
use std::thread::{self, Threads};
use std::time;
use wopi_text::Memory;

/// The line that the first accept writes on the notes.
#[derive(Drop)]
pub struct Ready {
    notes: Stderr,
    line: String,
    is_written: AtomicBool,
}

impl Ready {
    pub fn new(notes: Stderr, line: String) -> Ready {
        Ready {
            notes,
            line,
            is_written: AtomicBool::new(false),
        }
    }

    // Writes it, where nobody has. A failed write changes nothing else.
    fn write(&self) {
        if !self.is_written.swap(true, Ordering::SeqCst) {
            let _written = self.notes.write_all(self.line.as_bytes());
        }
    }
}

/// A listening socket of many listeners.
#[derive(Drop)]
pub struct SharedSocket {
    pub door: Arc<Door, Global>,
    // How many listeners take links of it.
    takers: AtomicU64,
    ready: Option<Ready>,
}

impl SharedSocket {
    fn new(alloc: Global, door: Door, ready: Option<Ready>) -> Result<SharedSocket, Memory> {
        Ok(SharedSocket {
            door: Arc::new(alloc, door)?,
            takers: AtomicU64::new(0),
            ready,
        })
    }

    /// Closes it for all. Who waits to be accepted is closed too.
    pub fn close(&self) {
        self.door.close();
    }

    fn is_closed(&self) -> bool {
        self.door.is_closed()
    }
}

/// A socket that is bound to this address, as `127.0.0.1:8880`, or why it can't be. So many seconds
/// after it was closed its links are. `ready` is told at its first accept.
pub fn bind<R: Net<Stream = TcpStream, Listener = TcpListener>>(
    alloc: Global,
    rt: &R,
    address: &str,
    grace: u32,
    ready: Option<Ready>,
) -> Result<io::Result<Arc<SharedSocket, Global>>, Memory> {
    match Door::bind(rt, address, grace) {
        Ok(door) => {
            let socket = SharedSocket::new(alloc, door, ready)?;
            Ok(Ok(Arc::new(alloc, socket)?))
        }
        Err(error) => Ok(Err(error)),
    }
}

impl CloseAll for Arc<SharedSocket, Global> {
    fn close_all(&self) {
        self.close();
    }
}

// The right to take links. The last that is given up closes the socket.
struct Taker {
    socket: Arc<SharedSocket, Global>,
}

impl Taker {
    fn new(socket: Arc<SharedSocket, Global>) -> Taker {
        socket.takers.fetch_add(1, Ordering::SeqCst);
        Taker { socket }
    }
}

impl Drop for Taker {
    fn drop(self) {
        if self.socket.takers.fetch_sub(1, Ordering::SeqCst) == 1 {
            self.socket.close();
        }
        let Taker { socket } = self;
        drop(socket);
    }
}

/// Takes the links of another listener, and is closed once the socket that it shares is.
#[derive(Drop)]
pub struct SharedListener<N: Listener> {
    listener: N,
    // None where no socket is shared.
    taker: Option<Taker>,
    faults: u64,
}

impl<N: Listener> SharedListener<N> {
    /// `listener` takes its links of the socket. With no socket only its own end ends it.
    pub fn new(listener: N, socket: Option<Arc<SharedSocket, Global>>) -> SharedListener<N>
        ensures listener { result.listener ≡ listener }
        ensures alone { socket ≡ None → result.taker ≡ None }
    {
        let taker = match socket {
            Some(socket) => Some(Taker::new(socket)),
            None => None,
        };
        SharedListener {
            listener,
            taker,
            faults: 0,
        }
    }
}

// Whether the socket was closed for all.
fn is_over(taker: &Option<Taker>) -> bool
    ensures { taker.now ≡ None → result ≡ false }
{
    match taker {
        Some(taker) => taker.socket.is_closed(),
        None => false,
    }
}

// Tells that links are taken now, once for all that share the socket.
fn tell_ready(taker: &Option<Taker>) {
    if let Some(taker) = taker {
        if let Some(ready) = &taker.socket.ready {
            ready.write();
        }
    }
}

impl<N: Listener> CloseAll for SharedListener<N> {
    fn close_all(&self) {
        if let Some(taker) = &self.taker {
            taker.socket.close();
        }
    }
}

impl<N: Listener> Listener for SharedListener<N> {
    ghost use Rattle.outside.specs.Faults.{Rose};
    ghost use Rattle.outside.specs.Listener.{AcceptsNumber};

    type Link = N::Link;

    ghost links_left = { λ _. None };

    ghost finished_links = { λ _. None };

    ghost accepted = { λ l. N.accepted l.listener };

    ghost finished = { λ l. N.finished l.listener };

    ghost faults = { λ l. l.faults };

    ghost in_hand = { λ l. N.in_hand l.listener };

    fn accept(&mut self) -> Result<Accepted<N::Link>, OutFault>
        requires { N.finished self.old.listener ≡ N.accepted self.old.listener }
        ensures number { AcceptsNumber (N.accepted self.old.listener) (N.accepted self.new.listener) result }
        ensures finished { N.finished self.new.listener ≡ N.finished self.old.listener }
        ensures never_falls { self.old.faults ≤ self.new.faults }
        ensures failed { IsErrOf result OutFault.Failed → Rose self.old.faults self.new.faults }
        ensures fine { OnOk result (self.new.faults ≡ self.old.faults) }
        ensures taker { self.new.taker ≡ self.old.taker }

        // It answers what its listener answers. Only where a socket is shared, a fault may be the end.
        ensures asked { PassesOnShared N.links_left N.finished_links N.accepted N.finished N.faults self.old.taker self.old.listener self.new.listener result }
    {
        tell_ready(&self.taker);
        match self.listener.accept() {
            Ok(accepted) => return Ok(accepted),
            Err(fault) => {
                if is_over(&self.taker) {
                    return Ok(Accepted::Closed);
                }
                self.faults = self.faults.saturating_add(1);
                return Err(fault);
            }
        }
    }

    fn finish(&mut self, link: N::Link)
        requires { N.finished self.old.listener < N.accepted self.old.listener }
        ensures finished { N.finished self.new.listener ≡ N.finished self.old.listener + 1 }
        ensures accepted { N.accepted self.new.listener ≡ N.accepted self.old.listener }
        ensures faults { self.new.faults ≡ self.old.faults }
        ensures taker { self.new.taker ≡ self.old.taker }
        ensures kept { TakesBack N.links_left N.finished_links N.accepted N.finished N.faults self.old.listener self.new.listener link }
    {
        self.listener.finish(link);
    }
}

/// One listener for each worker over the socket, each of which takes `most` connections within these
/// limits. With no socket each accept fails.
pub fn share<T: time::Clock + Copy + Send>(
    alloc: Global,
    clock: T,
    socket: &Option<Arc<SharedSocket, Global>>,
    limits: Limits,
    workers: usize,
    most: u64,
) -> Result<Vec<SharedListener<TcpListen<T>>>, Memory>
    ensures count { IfOk result (λ all. vec_len all ≡ workers) }
    ensures each { IfOk result (λ all. AllByRecursion (λ one. (one.listener.most ≡ most) × (one.listener.accepted ≡ 0) × (one.listener.finished ≡ 0)) all.items) }
{
    let mut all = Vec::with_capacity(alloc, workers)?;
    for _ in 0..workers {
        let door = match socket {
            Some(socket) => Some(socket.door.clone()?),
            None => None,
        };
        let own = TcpListen::new(clock, door, limits, most);
        all.push(SharedListener::new(own, socket.clone()?))?;
    }
    Ok(all)
}

/// Waits for a byte, and then closes the socket. At the end of what it reads, or a fault, it doesn't.
pub fn close_at_byte<I: Read + Drop>(mut from: I, socket: &SharedSocket) {
    if let Ok(1) = from.read(&mut [0u8]) {
        socket.close();
    }
}

/// Has `close_at_byte` wait for what comes at the path, in a thread that nobody joins. Where the path
/// can't be opened or no thread can be made, nothing does. A pipe is opened once somebody writes to it.
pub fn close_later<R: Files<File = File> + Threads>(
    rt: &R,
    path: Option<&str>,
    socket: &Option<Arc<SharedSocket, Global>>,
) -> Result<(), Memory> {
    let (Some(path), Some(socket)) = (path, socket) else {
        return Ok(());
    };
    let Ok(pipe) = File::open(rt, path) else {
        return Ok(());
    };
    let socket = socket.clone()?;
    let _thread = thread::spawn(rt, move || close_at_byte(pipe, &socket));
    Ok(())
}
