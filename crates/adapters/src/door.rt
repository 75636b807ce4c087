//! A listening socket that workers share.
//!
//! A worker that is free waits in an accept. Where none does, and a link stands idle between two
//! messages, the link looks at the end of each of its turns whether somebody waits: one link at a time
//! asks the socket, without waiting, and whom it finds it keeps for its own worker, and ends. So
//! nobody is taken whom no worker serves next, and nobody who waits is looked for while a worker is
//! free.
//!
//! A socket that is let go stays open while another thread waits in an accept, so a door is closed by
//! shutting it: the system then ends each accept that waits, and refuses whoever connects.
use crate::turns::moment;
use std::net::{Net, Shutdown, SocketAddr, TcpListener, TcpStream};
use std::os::fd::OwnedFd;
use std::sync::atomic::{AtomicBool, AtomicU64, Ordering};
use std::time::{self, Duration};
use std::{io, thread};

/// A socket that connections come in by, for as many workers as share it.
#[derive(Drop)]
pub struct Door {
    socket: TcpListener,
    // The same socket as a stream, since std shuts streams alone.
    handle: TcpStream,
    // So many seconds after it was closed each link is.
    grace: u32,
    is_closed: AtomicBool,
    // The first moment at which it was seen closed; 0 before.
    closed: AtomicU64,
    // How many workers wait in an accept.
    free: AtomicU64,
    // Whether a link is asking for somebody who waits.
    is_asked: AtomicBool,
}

impl Door {
    /// Binds a socket to an address, as `127.0.0.1:8880`. So many seconds after it was closed its links
    /// are closed too.
    pub fn bind<R: Net<Stream = TcpStream, Listener = TcpListener>>(
        rt: &R,
        address: &str,
        grace: u32,
    ) -> io::Result<Door> {
        let socket = TcpListener::bind(rt, address)?;
        let handle = TcpStream::from(OwnedFd::from(socket.try_clone()?));
        Ok(Door {
            socket,
            handle,
            grace,
            is_closed: AtomicBool::new(false),
            closed: AtomicU64::new(0),
            free: AtomicU64::new(0),
            is_asked: AtomicBool::new(false),
        })
    }

    /// The address, with the port that the system chose where none was named.
    pub fn address(&self) -> io::Result<SocketAddr> {
        self.socket.local_addr()
    }

    /// Closes it for all. Who waits to be accepted is closed too.
    pub fn close(&self) {
        self.is_closed.store(true, Ordering::SeqCst);
        let _done = self.handle.shutdown(Shutdown::Both);
    }

    /// Whether it was closed.
    pub fn is_closed(&self) -> bool {
        self.is_closed.load(Ordering::SeqCst)
    }

    /// Whether at this moment its links have to be closed.
    pub(crate) fn is_past(&self, now: u64) -> bool {
        if !self.is_closed() {
            return false;
        }
        let seen = now.max(1);
        let since = match self
            .closed
            .compare_exchange(0, seen, Ordering::SeqCst, Ordering::SeqCst)
        {
            Ok(_) => seen,
            Err(first) => first,
        };
        now.saturating_sub(since) >= self.grace as u64 * 1000
    }

    /// Waits for the next connection. None says that it was closed, or can't be waited at.
    pub(crate) fn take<T: time::Clock>(&self, clock: &T) -> Option<TcpStream> {
        self.free.fetch_add(1, Ordering::SeqCst);
        let taken = self.wait(clock);
        self.free.fetch_sub(1, Ordering::SeqCst);
        taken
    }

    fn wait<T: time::Clock>(&self, clock: &T) -> Option<TcpStream> {
        for _ in 0..u64::MAX {
            match self.socket.accept() {
                Ok((stream, _address)) => return Some(stream),
                Err(error) => {
                    if self.is_closed() {
                        return None;
                    }
                    thread::sleep(clock, pause_after(error)?);
                }
            }
        }
        None
    }

    /// Somebody who waits while no worker is free. It waits for nobody, and answers one link at a time.
    pub(crate) fn waiting(&self) -> Option<TcpStream> {
        if self.free.load(Ordering::SeqCst) > 0 || self.is_asked.swap(true, Ordering::SeqCst) {
            return None;
        }
        let found = self.ask();
        self.is_asked.store(false, Ordering::SeqCst);
        found
    }

    // A worker that comes meanwhile finds nobody, and asks again a little later.
    fn ask(&self) -> Option<TcpStream> {
        self.socket.set_nonblocking(true).ok()?;
        let found = self.socket.accept();
        let _waits = self.socket.set_nonblocking(false);
        match found {
            Ok((stream, _address)) => Some(stream),
            Err(_) => None,
        }
    }
}

// Linux's numbers of errors.
const EINTR: i32 = 4;

const EAGAIN: i32 = 11;

const ENOMEM: i32 = 12;

const ENFILE: i32 = 23;

const EMFILE: i32 = 24;

const ENONET: i32 = 64;

const EPROTO: i32 = 71;

const ENOPROTOOPT: i32 = 92;

const EOPNOTSUPP: i32 = 95;

const ENETDOWN: i32 = 100;

const ENETUNREACH: i32 = 101;

const ECONNABORTED: i32 = 103;

const ENOBUFS: i32 = 105;

const EHOSTDOWN: i32 = 112;

const EHOSTUNREACH: i32 = 113;

/// How long to wait after an accept that failed so, before the next. None says that the socket can't be
/// used: all others are faults of the connection that came or of its network, as accept(2) has them, or a
/// shortage.
pub fn pause_after(error: io::Error) -> Option<Duration> {
    match error.raw_os_error()? {
        EMFILE | ENFILE | ENOBUFS | ENOMEM => Some(Duration::from_millis(100)),
        EAGAIN => Some(Duration::from_millis(5)),
        EINTR
        | ECONNABORTED
        | EPROTO
        | ENETDOWN
        | ENONET
        | ENOPROTOOPT
        | EOPNOTSUPP
        | EHOSTDOWN
        | ENETUNREACH
        | EHOSTUNREACH => Some(Duration::ZERO),
        _ => None,
    }
}
