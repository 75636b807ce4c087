//! The turns that a link waits in, so that it looks up now and then.
use std::io::{self, ErrorKind};
use std::time::{self, Duration};

/// The longest turn, in milliseconds.
pub(crate) const LONGEST: u64 = 250;

// The first one.
const FIRST: u64 = 32;

/// How long a turn is, in milliseconds, counted from 0 on: each is twice the one before, up to the longest.
pub(crate) fn length_of(turn: u64) -> u64 {
    match turn {
        0 => FIRST,
        1 => 2 * FIRST,
        2 => 4 * FIRST,
        _ => LONGEST,
    }
}

/// So long, for the system.
pub(crate) fn millis(count: u64) -> Option<Duration> {
    Some(Duration::from_millis(count))
}

/// Whether a read or a write ended since its turn did.
pub(crate) fn is_over(error: &io::Error) -> bool {
    matches!(
        error.kind(),
        ErrorKind::WouldBlock | ErrorKind::TimedOut | ErrorKind::Interrupted
    )
}

/// Milliseconds of the clock that never goes back; 0 where it can't be read, so that no limit is passed.
pub(crate) fn moment<T: time::Clock>(clock: &T) -> u64 {
    match clock.monotonic() {
        Ok(since) => u64::try_from(since.as_millis()).unwrap_or(u64::MAX),
        Err(_) => 0,
    }
}
