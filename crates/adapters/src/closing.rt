//! How a connection is closed, so that what was written arrives.
use crate::door::Door;
use crate::turns::{LONGEST, is_over, millis, moment};
use std::alloc::Global;
use std::io::Read;
use std::net::{Shutdown, TcpStream};
use std::sync::Arc;
use std::time;

// The longest that it waits while nothing comes, in milliseconds.
const SILENCE: u64 = 2_000;

// The longest in all.
const WHOLE: u64 = 30_000;

/// Shuts the writing side, and drops what comes until the other end closes, or the time is up. A
/// connection that is closed over bytes that nobody read is reset, and then its other end may never see what
/// was written last.
pub(crate) fn linger<T: time::Clock>(
    mut stream: TcpStream,
    clock: &T,
    door: &Option<Arc<Door, Global>>,
) {
    if stream.shutdown(Shutdown::Write).is_err()
        || stream.set_read_timeout(millis(LONGEST)).is_err()
    {
        return;
    }
    let begun = moment(clock);
    let mut heard = begun;
    let mut dropped = [0u8; 4096];
    for _ in 0..u64::MAX {
        let read = stream.read(&mut dropped);
        let now = moment(clock);
        match read {
            Ok(0) => return,
            Ok(_) => heard = now,
            Err(error) if is_over(&error) => {}
            Err(_) => return,
        }
        if is_up(begun, heard, now) || is_past(door, now) {
            return;
        }
    }
}

// Whether the time is up that began and was last heard of at these moments.
fn is_up(begun: u64, heard: u64, now: u64) -> bool {
    now.saturating_sub(heard) >= SILENCE || now.saturating_sub(begun) >= WHOLE
}

/// Whether the door was closed so long ago that its links have to be closed at this moment.
pub(crate) fn is_past(door: &Option<Arc<Door, Global>>, now: u64) -> bool {
    match door {
        Some(door) => door.is_past(now),
        None => false,
    }
}
