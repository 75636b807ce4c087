//! A connection over TCP with its limits of time.
//!
//! It waits in turns of at most a quarter of a second, and looks up after each. It gives up by a
//! read or a write that fails: where no byte went either way for as long as its limits say, where a message
//! has been on its way for too long and too slowly, and where the door that it came in by has been closed
//! for its grace. Between two messages it reads as ended where that door was closed, or where somebody
//! waits there and no worker is free; before the first message too, the latter after five seconds.
//!
//! A message is on its way from its first byte that was read since a reply was begun, a reply from its
//! first write since a message was read. So where a client sends more than one message at once, a link whose
//! second one stands incomplete behind the first one's reply counts as one between two messages.
ghost use Rattle.std.specs.Prelude.{◌≤◌, ◌<◌, IfOk, IfSome, length};

use crate::closing::{is_past, linger};
use crate::door::Door;
use crate::limits::{Limits, is_too_silent, is_too_slow};
use crate::turns::{LONGEST, is_over, length_of, millis, moment};
use outside::Failed;
use std::alloc::Global;
use std::io::{Read, Write};
use std::net::TcpStream;
use std::sync::Arc;
use std::time;

// What a head begins with that stands before a reply's, as the line that asks for a body.
const INTERIM: &[u8] = b"HTTP/1.1 1";

// So many milliseconds a link that said nothing yet keeps its worker from somebody who waits.
const FRESH: u64 = 5_000;

// Where a link stands.
#[derive(Clone, Copy, Debug, PartialEq, Eq)]
enum Stage {
    // No byte came yet.
    Fresh,
    // So many bytes of a message came since that moment.
    Coming { since: u64, bytes: u64 },
    // So many bytes of a reply went since that moment, and nothing came behind it.
    Going { since: u64, bytes: u64 },
    // It reads as ended.
    Over,
}

// A connection with its limits.
pub(crate) struct Wire<T: time::Clock + Copy> {
    stream: TcpStream,
    clock: T,
    limits: Limits,
    // None where it was dialed.
    door: Option<Arc<Door, Global>>,
    // Whether it ends for somebody who waits, and who that was.
    gives_way: bool,
    next: Option<TcpStream>,
    // So many bytes more are read.
    most: usize,
    stage: Stage,
    // The turn that the system has for reads, in milliseconds; 0 for none.
    turn: u64,
    // Whether something was written that may not have arrived yet.
    lingers: bool,
}

impl<T: time::Clock + Copy> Drop for Wire<T> {
    fn drop(self) {
        let Wire {
            stream,
            clock,
            limits: _,
            door,
            gives_way: _,
            next,
            most: _,
            stage: _,
            turn: _,
            lingers,
        } = self;
        if lingers {
            linger(stream, &clock, &door);
        } else {
            drop(stream);
        }
        drop(next);
        drop(door);
    }
}

impl<T: time::Clock + Copy> Wire<T> {
    /// None for the door says that it was dialed. Behind `most` bytes it reads as ended.
    pub(crate) fn new(
        stream: TcpStream,
        clock: T,
        limits: Limits,
        door: Option<Arc<Door, Global>>,
        gives_way: bool,
        most: usize,
    ) -> Wire<T> {
        // Small pieces are sent at once, and don't wait for those before them to be acknowledged.
        let _kept = stream.set_nodelay(true);
        let _turns = stream.set_write_timeout(millis(LONGEST));
        Wire {
            stream,
            clock,
            limits,
            door,
            gives_way,
            next: None,
            most,
            stage: Stage::Fresh,
            turn: 0,
            lingers: false,
        }
    }

    /// Waits for bytes. Where there is room, none are the end.
    pub(crate) fn read(&mut self, into: &mut [u8]) -> Result<usize, Failed>
        ensures { IfOk result (λ count. count ≤ length into.old) }
    {
        let room = into.len().min(self.most);
        if room == 0 || self.stage == Stage::Over {
            return Ok(0);
        }
        self.read_in_turns(&mut into[..room])
    }

    fn read_in_turns(&mut self, into: &mut [u8]) -> Result<usize, Failed>
        ensures { IfOk result (λ count. count ≤ length into.old) }
    {
        let begun = moment(&self.clock);
        let is_past = is_past(&self.door, begun);
        self.give_up_if(is_past)?;
        'turns: for turn in 0..u64::MAX {
            if let Some(count) = self.read_in_turn(into, turn, begun)? {
                return Ok(count);
            }
        }
        Err(Failed)
    }

    // None says that nothing came in this turn.
    fn read_in_turn(
        &mut self,
        into: &mut [u8],
        turn: u64,
        begun: u64,
    ) -> Result<Option<usize>, Failed>
        ensures { IfOk result (λ read. IfSome read (λ count. count ≤ length into.old)) }
    {
        self.set_turn(length_of(turn));
        match self.stream.read(into) {
            Ok(count) => {
                self.came(count)?;
                Ok(Some(count))
            }
            Err(error) if is_over(&error) => {
                if self.goes_on(begun)? {
                    Ok(None)
                } else {
                    Ok(Some(0))
                }
            }
            Err(_) => {
                self.lingers = false;
                Err(Failed)
            }
        }
    }

    fn set_turn(&mut self, turn: u64) {
        if self.turn != turn && self.stream.set_read_timeout(millis(turn)).is_ok() {
            self.turn = turn;
        }
    }

    // Counts what came. No bytes are the end.
    fn came(&mut self, count: usize) -> Result<(), Failed> {
        if count == 0 {
            return Ok(());
        }
        self.most = self.most.saturating_sub(count);
        let now = moment(&self.clock);
        self.stage = match self.stage {
            Stage::Coming { since, bytes } => Stage::Coming {
                since,
                bytes: bytes.saturating_add(count as u64),
            },
            _ => Stage::Coming {
                since: now,
                bytes: count as u64,
            },
        };
        let is_slow = self.is_slow_to_come(now);
        self.give_up_if(is_slow)
    }

    // After a turn in which nothing came: whether it waits on, or reads as ended.
    fn goes_on(&mut self, begun: u64) -> Result<bool, Failed> {
        let now = moment(&self.clock);
        if self.is_left(now.saturating_sub(begun)) {
            self.stage = Stage::Over;
            self.lingers = false;
            return Ok(false);
        }
        let gives_up = is_too_silent(self.limits, now.saturating_sub(begun))
            || self.is_slow_to_come(now)
            || is_past(&self.door, now);
        self.give_up_if(gives_up)?;
        Ok(true)
    }

    // Whether it stands before the first message or between two, and its door was closed or is wanted by another.
    fn is_left(&mut self, silence: u64) -> bool {
        let Some(door) = &self.door else {
            return false;
        };
        let gives_way = match self.stage {
            Stage::Fresh => self.gives_way && silence >= FRESH,
            Stage::Going { .. } => self.gives_way,
            Stage::Coming { .. } | Stage::Over => return false,
        };
        if door.is_closed() {
            return true;
        }
        if gives_way {
            self.next = door.waiting();
        }
        self.next.is_some()
    }

    fn is_slow_to_come(&self, now: u64) -> bool {
        match self.stage {
            Stage::Coming { since, bytes } => {
                is_too_slow(self.limits, now.saturating_sub(since), bytes)
            }
            _ => false,
        }
    }

    fn is_slow_to_go(&self, now: u64) -> bool {
        match self.stage {
            Stage::Going { since, bytes } => {
                is_too_slow(self.limits, now.saturating_sub(since), bytes)
            }
            _ => false,
        }
    }

    // Nobody waits for what a link wrote that gives up.
    fn give_up_if(&mut self, gives_up: bool) -> Result<(), Failed> {
        if gives_up {
            self.lingers = false;
            return Err(Failed);
        }
        Ok(())
    }

    /// Waits until some bytes went.
    pub(crate) fn write(&mut self, piece: &[u8]) -> Result<usize, Failed>
        ensures fits { IfOk result (λ count. count ≤ length piece.now) }
        ensures takes { IfOk result (λ count. 0 < length piece.now → 0 < count) }
    {
        let begun = moment(&self.clock);
        let is_past = is_past(&self.door, begun);
        self.give_up_if(is_past)?;
        self.begin(piece, begun);
        'turns: for _ in 0..u64::MAX {
            if let Some(count) = self.write_in_turn(piece, begun)? {
                return Ok(count);
            }
        }
        Err(Failed)
    }

    // A reply begins, but where the piece is one that stands before a reply, as the line that asks for a body.
    fn begin(&mut self, piece: &[u8], now: u64) {
        let is_going = matches!(self.stage, Stage::Going { .. });
        if !is_going && !piece.starts_with(INTERIM) {
            self.stage = Stage::Going {
                since: now,
                bytes: 0,
            };
        }
    }

    // None says that nothing went in this turn.
    fn write_in_turn(&mut self, piece: &[u8], begun: u64) -> Result<Option<usize>, Failed>
        ensures fits { IfOk result (λ written. IfSome written (λ count. count ≤ length piece.now)) }
        ensures takes { IfOk result (λ written. IfSome written (λ count. 0 < length piece.now → 0 < count)) }
    {
        match self.stream.write(piece) {
            Ok(count) if count > 0 || piece.is_empty() => {
                self.went(count)?;
                Ok(Some(count))
            }
            Err(error) if is_over(&error) => {
                let now = moment(&self.clock);
                let gives_up = is_too_silent(self.limits, now.saturating_sub(begun))
                    || self.is_slow_to_go(now)
                    || is_past(&self.door, now);
                self.give_up_if(gives_up)?;
                Ok(None)
            }
            _ => {
                self.lingers = false;
                Err(Failed)
            }
        }
    }

    // Counts what went.
    fn went(&mut self, count: usize) -> Result<(), Failed> {
        self.lingers = self.door.is_some();
        if let Stage::Going { since, bytes } = self.stage {
            self.stage = Stage::Going {
                since,
                bytes: bytes.saturating_add(count as u64),
            };
        }
        let is_slow = self.is_slow_to_go(moment(&self.clock));
        self.give_up_if(is_slow)
    }

    /// Whom it found waiting and ended for.
    pub(crate) fn take_next(&mut self) -> Option<TcpStream> {
        self.next.take()
    }
}
