//! What a schedule says.
ghost use Rattle.std.specs.Prelude.{◌≡◌};
ghost use Rattle.schedule_text.specs.Schedules.{IsSchedule};

use save_session::Nonce;
use std::marker::Model;
use wopi_headers::Op;
use wopi_text::{Bytes, FileName};

/// A file that stands there when the host opens.
#[derive(Drop)]
pub struct FileLine {
    pub name: FileName,
    pub contents: Bytes,
}

/// A session with a file, and the moments at which its token expires and was issued.
#[derive(Drop)]
pub struct SessionLine {
    pub file: FileName,
    pub nonce: Nonce,
    pub expires: u64,
    pub issued: u64,
}

/// A request or a reply, by its number.
#[derive(Clone, Copy, Debug, PartialEq, Eq)]
pub enum Reference {
    /// Counted from 1 in the order in which they were made.
    Number(u64),
    /// Counted from 1 back from the one that was made last.
    Last(u64),
}

/// What a session is asked for.
#[derive(Drop)]
pub enum Wish {
    Start,
    Read,
    Save(Bytes),
    Refresh,
    Close,
}

/// What somebody else asks the host, with a token that expires at that moment.
#[derive(Drop)]
pub struct ForeignAsk {
    pub expires: u64,
    pub file: FileName,
    pub op: Op,
    pub body: Bytes,
    /// The name of the copy that is asked for, as a header carries it, where a file can have it.
    pub target: Option<FileName>,
}

/// What happens next. Sessions are counted from 0.
#[derive(Drop)]
pub enum EventLine {
    Asks { session: u64, wish: Wish },
    Deliver { request: Reference, moment: u64 },
    Answer { reply: Reference },
    Lose { session: u64 },
    Ticks { moment: u64 },
    Foreign { moment: u64, ask: ForeignAsk },
    /// The host ends, and opens anew over the files that it left.
    Restarts { moment: u64 },
}

/// A schedule: the files and the sessions at the opening, and the events in their order.
#[derive(Drop)]
pub struct Schedule {
    files: Vec<FileLine>,
    sessions: Vec<SessionLine>,
    events: Vec<EventLine>,
}

impl Model for Schedule {
    ghost use Rattle.schedule_text.specs.Schedules.{Lines, IsSchedule};

    ghost Value = { Lines };

    ghost view = { λ s. record { files = s.files.items; sessions = s.sessions.items; events = s.events.items } };

    ghost invariant = { λ s. IsSchedule (record { files = s.files.items; sessions = s.sessions.items; events = s.events.items }) };
}

impl Schedule {
    /// The schedule of these lines.
    pub fn new(files: Vec<FileLine>, sessions: Vec<SessionLine>, events: Vec<EventLine>) -> Schedule
        requires { IsSchedule record { files = files.items; sessions = sessions.items; events = events.items } }
        ensures { result ≡ record { files = files.items; sessions = sessions.items; events = events.items } }
    {
        Schedule {
            files,
            sessions,
            events,
        }
    }

    /// The files at the opening.
    pub fn files(&self) -> &[FileLine]
        ensures value { result.now ≡ self.now.files }
        ensures form { IsSchedule self.now }
    {
        &self.files
    }

    /// The sessions, by their numbers.
    pub fn sessions(&self) -> &[SessionLine]
        ensures value { result.now ≡ self.now.sessions }
        ensures form { IsSchedule self.now }
    {
        &self.sessions
    }

    /// The events in their order.
    pub fn events(&self) -> &[EventLine]
        ensures value { result.now ≡ self.now.events }
        ensures form { IsSchedule self.now }
    {
        &self.events
    }
}
