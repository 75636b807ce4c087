//! How a host is ended in order.
//!
//! The program can't hear a signal. Whoever wants it to end makes a file at a path that it was told
//! when it began, and then writes a byte into a pipe at another such path. A thread that waits for
//! that byte closes the socket, whether or not a worker is free.
//!
//! Without the pipe, or where no thread could be made, a connection does the same as soon as a
//! worker takes it.
ghost use Rattle.std.specs.Prelude.{◌≡◌, ◌≤◌, ◌<◌, ◌+◌, ◌↔◌, false, IfOk, IfErr, IfSome, IsSome, OnOk, IsErr, IsErrOf, None, Some, Ok, map, vec_len};
ghost use Rattle.std.specs.List.{AllByRecursion};
ghost use Rattle.std.specs.Option.{ForSome};
ghost use Rattle.adapters.specs.Stopping.{Answers, AreOver, IsLink, PassesOn, TakesBack};

use outside::{Accepted, Listener, OutFault};
use std::alloc::Global;
use std::env::{self, Env, VarError};
use std::fs::{self, Files};
use wopi_text::Memory;

// The environment's variable with the path of the stop file.
const STOP: &str = "MOKDRAI_STOP";

// That with the path of a pipe, over which a byte comes once the stop file is there.
const WAKE: &str = "MOKDRAI_WAKE";

/// What a variable comes to that could not be read: no path, or want of memory.
pub fn no_path(error: VarError) -> Result<Option<String>, Memory>
    ensures exact { IsErr result ↔ (error ≡ VarError.OutOfMemory) }
    ensures none { result ≡ Ok None ↔ ¬ (error ≡ VarError.OutOfMemory) }
{
    match error {
        VarError::OutOfMemory => Err(Memory),
        VarError::NotPresent => Ok(None),
        VarError::NotUnicode => Ok(None),
    }
}

/// The path that a variable has; of one that could not be read none, or want of memory.
pub fn path_of(read: Result<String, VarError>) -> Result<Option<String>, Memory>
    ensures path { IfOk read (λ path. result ≡ Ok (Some path)) }
    ensures unread { IfErr read (λ error. IsErr result ↔ (error ≡ VarError.OutOfMemory)) }
    ensures none { IfErr read (λ error. result ≡ Ok None ↔ ¬ (error ≡ VarError.OutOfMemory)) }
{
    match read {
        Ok(path) => return Ok(Some(path)),
        Err(error) => return no_path(error),
    }
}

/// The path of the stop file, where the environment has one that is text.
pub fn stop_path<R: Env + AllocGlobal>(rt: &R) -> Result<Option<String>, Memory> {
    path_of(env::var(rt, STOP))
}

/// The path of that pipe, where the environment has one that is text.
pub fn wake_path<R: Env + AllocGlobal>(rt: &R) -> Result<Option<String>, Memory> {
    path_of(env::var(rt, WAKE))
}

/// A listener that can be closed for all that share where its links come from.
pub trait CloseAll {
    /// No link is given any more, by this listener or by another that shares with it.
    fn close_all(&self);
}

/// Takes the links of another listener until the stop file is there.
///
/// It looks for the file once when it is made and once after each link that it takes. That link is
/// then turned away, and every later accept answers `Closed` and asks nothing. It tells no links,
/// since what it takes is up to the file. A file that can't be looked for isn't there. The other listener has
/// every link back that it gave.
///
/// As soon as it sees the file it closes its listener for all that share with it, also for those
/// that wait in an accept or serve a link. As soon as it gives no more links it lets its listener go.
#[derive(Drop)]
pub struct StopListener<'a, R, N: Listener> {
    rt: &'a R,
    path: Option<&'a str>,
    // None once it is closed.
    listener: Option<N>,
    accepted: u64,
    finished: u64,
    faults: u64,
    ghost in_hand: { finished ≤ accepted },
    ghost lent: { ForSome listener (λ one. N.finished one + accepted ≡ N.accepted one + finished) },
}

impl<'a, R: Files, N: Listener + CloseAll> StopListener<'a, R, N> {
    /// `path` is that of the stop file; with none only the listener's own end ends it.
    pub fn new(rt: &'a R, path: Option<&'a str>, listener: N) -> StopListener<'a, R, N>
        requires { N.finished listener ≡ N.accepted listener }
        ensures listener { IfSome result.listener (λ one. one ≡ listener) }
        ensures untold { path.entry ≡ None → result.listener ≡ Some listener }
        ensures path { result.path ≡ path.entry }
        ensures accepted { result.accepted ≡ 0 }
        ensures finished { result.finished ≡ 0 }
    {
        let listener = if is_there(rt, path) {
            listener.close_all();
            None
        } else {
            Some(listener)
        };
        StopListener {
            rt,
            path,
            listener,
            accepted: 0,
            finished: 0,
            faults: 0,
        }
    }
}

impl<'a, R: Files, N: Listener + CloseAll> Listener for StopListener<'a, R, N>
where
    N::Link: Drop,
{
    ghost use Rattle.outside.specs.Faults.{Rose};
    ghost use Rattle.outside.specs.Listener.{AcceptsNumber};

    type Link = N::Link;

    ghost links_left = { λ _. None };

    ghost finished_links = { λ _. None };

    ghost accepted = { λ l. l.accepted };

    ghost finished = { λ l. l.finished };

    ghost faults = { λ l. l.faults };

    ghost in_hand = { λ l. l.in_hand };

    fn accept(&mut self) -> Result<Accepted<N::Link>, OutFault>
        requires { self.old.finished ≡ self.old.accepted }
        ensures number { AcceptsNumber self.old.accepted self.new.accepted result }
        ensures finished { self.new.finished ≡ self.old.finished }
        ensures never_falls { self.old.faults ≤ self.new.faults }
        ensures failed { IsErrOf result OutFault.Failed → Rose self.old.faults self.new.faults }
        ensures fine { OnOk result (self.new.faults ≡ self.old.faults) }
        ensures path { self.new.path ≡ self.old.path }

        // It keeps its listener exactly where it gives a link, which is the listener's next one.
        ensures open { IsSome self.new.listener ↔ IsLink result }
        ensures kept { IfSome self.old.listener (λ before. IfSome self.new.listener (λ after. Answers N.links_left N.finished_links N.accepted N.finished N.faults before after result)) }

        // It answers what its listener answers, or turns a link away and ends.
        ensures asked { IfSome self.old.listener (λ before. PassesOn N.links_left N.finished_links N.accepted N.finished N.faults self.old.path before result) }

        // Once closed it stays so.
        ensures closed { self.old.listener ≡ None → result ≡ Ok Accepted.Closed }
    {
        let Some(mut listener) = self.listener.take() else {
            return Ok(Accepted::Closed);
        };
        if self.accepted == u64::MAX {
            return Err(OutFault::Memory);
        }
        match listener.accept() {
            Ok(Accepted::Link(link)) => {
                if is_there(self.rt, self.path) {
                    listener.close_all();
                    listener.finish(link);
                    return Ok(Accepted::Closed);
                }
                self.accepted += 1;
                self.listener = Some(listener);
                return Ok(Accepted::Link(link));
            }
            Ok(Accepted::Closed) => return Ok(Accepted::Closed),
            Err(fault) => {
                self.faults = self.faults.saturating_add(1);
                return Err(fault);
            }
        }
    }

    fn finish(&mut self, link: N::Link)
        requires { self.old.finished < self.old.accepted }
        ensures finished { self.new.finished ≡ self.old.finished + 1 }
        ensures accepted { self.new.accepted ≡ self.old.accepted }
        ensures faults { self.new.faults ≡ self.old.faults }
        ensures path { self.new.path ≡ self.old.path }

        // Its listener has the link back.
        ensures open { IsSome self.new.listener ↔ IsSome self.old.listener }
        ensures kept { IfSome self.old.listener (λ before. IfSome self.new.listener (λ after. TakesBack N.links_left N.finished_links N.accepted N.finished N.faults before after link)) }
    {
        self.finished += 1;
        match &mut self.listener {
            Some(listener) => listener.finish(link),
            None => drop(link),
        }
    }
}

// Whether there is a file at the path.
fn is_there<R: Files>(rt: &R, path: Option<&str>) -> bool
    ensures { path.entry ≡ None → result ≡ false }
{
    match path {
        Some(path) => fs::exists(rt, path).unwrap_or(false),
        None => false,
    }
}

/// Each listener, until the stop file is there.
pub fn until_stopped<'a, R: Files, N: Listener + CloseAll>(
    alloc: Global,
    rt: &'a R,
    path: Option<&'a str>,
    listeners: Vec<N>,
) -> Result<Vec<StopListener<'a, R, N>>, Memory>
    requires { AllByRecursion (λ one. N.finished one ≡ N.accepted one) listeners.items }
    ensures count { IfOk result (λ all. vec_len all ≡ vec_len listeners) }
    ensures over { IfOk result (λ all. AreOver (λ one. one.listener) all.items listeners.items) }
    ensures begins { IfOk result (λ all. AllByRecursion (λ one. (one.path ≡ path.entry) × (one.accepted ≡ 0) × (one.finished ≡ 0)) all.items) }
    ensures untold { path.entry ≡ None → IfOk result (λ all. map (λ one. one.listener) all.items ≡ map Some listeners.items) }
{
    let mut all = Vec::with_capacity(alloc, listeners.len())?;
    for listener in listeners {
        all.push(StopListener::new(rt, path, listener))?;
    }
    Ok(all)
}
