//! Connections over TCP. None tells what it gives or holds.
ghost use Rattle.std.specs.Prelude.{[], None};

use crate::door::Door;
use crate::limits::Limits;
use crate::wire::Wire;
use outside::{Failed, Link, Sink, Source};
use std::alloc::Global;
use std::net::TcpStream;
use std::sync::Arc;
use std::time;

/// A connection. Where it is let go, what was written last arrives: the writing side is shut, and what
/// comes is dropped until the other end closes, is silent for two seconds, or thirty have gone.
#[derive(Drop)]
pub struct TcpLink<T: time::Clock + Copy> {
    wire: Wire<T>,
    read_faults: u64,
    write_faults: u64,
}

impl<T: time::Clock + Copy> TcpLink<T> {
    fn over(wire: Wire<T>) -> TcpLink<T> {
        TcpLink {
            wire,
            read_faults: 0,
            write_faults: 0,
        }
    }

    /// A connection that came in by a door. Where it gives way it may end for somebody who waits there.
    pub(crate) fn accepted(
        stream: TcpStream,
        clock: T,
        limits: Limits,
        door: Arc<Door, Global>,
        gives_way: bool,
    ) -> TcpLink<T> {
        TcpLink::over(Wire::new(stream, clock, limits, Some(door), gives_way, usize::MAX))
    }

    /// A connection that was dialed. Behind so many bytes it reads as ended.
    pub(crate) fn dialed(stream: TcpStream, clock: T, limits: Limits, most: usize) -> TcpLink<T> {
        TcpLink::over(Wire::new(stream, clock, limits, None, false, most))
    }

    /// Whom it found waiting and ended for.
    pub(crate) fn take_next(&mut self) -> Option<TcpStream> {
        self.wire.take_next()
    }
}

impl<T: time::Clock + Copy> Source for TcpLink<T> {
    ghost left = { λ _. None };

    ghost read_faults = { λ l. l.read_faults };

    ghost beside_reads = { λ l. record { bytes = None; faults = l.write_faults; references = [] } };

    fn read(&mut self, into: &mut [u8]) -> Result<usize, Failed> {
        match self.wire.read(into) {
            Ok(count) => Ok(count),
            Err(Failed) => {
                self.read_faults = self.read_faults.saturating_add(1);
                Err(Failed)
            }
        }
    }
}

impl<T: time::Clock + Copy> Sink for TcpLink<T> {
    ghost held = { λ _. None };

    ghost write_faults = { λ l. l.write_faults };

    ghost beside_writes = { λ l. record { bytes = None; faults = l.read_faults; references = [] } };

    fn write(&mut self, piece: &[u8]) -> Result<usize, Failed> {
        match self.wire.write(piece) {
            Ok(count) => Ok(count),
            Err(Failed) => {
                self.write_faults = self.write_faults.saturating_add(1);
                Err(Failed)
            }
        }
    }
}

impl<T: time::Clock + Copy> Link for TcpLink<T> {
    ghost use Rattle.std.specs.Prelude.{refl};

    ghost reads_leave = { λ _. refl };

    ghost writes_leave = { λ _. refl };
}
