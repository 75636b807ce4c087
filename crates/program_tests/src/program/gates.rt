//! A folder and a link that wait for each other, through two flags that threads share.
ghost use Rattle.std.specs.Prelude.{[], refl, None};

use outside::{
    Failed, Folder, FolderRead, Link, MemSink, MemSource, Names, OutFault, Sink, Source,
};
use std::alloc::Global;
use std::sync::Arc;
use std::sync::atomic::{AtomicU64, Ordering};
use std::thread;

/// How often a wait looks before it gives up.
const TURNS: u32 = 1_000_000;

/// A flag that is down until it is raised.
pub type Flag = Arc<AtomicU64, Global>;

fn raise(flag: &Flag) {
    flag.store(1, Ordering::SeqCst);
}

/// Whether the flag was up before the wait gave up.
fn comes_up(flag: &Flag) -> bool {
    for _ in 0..TURNS {
        if flag.load(Ordering::SeqCst) == 1 {
            return true;
        }
        thread::yield_now();
    }
    false
}

/// Waits until a count that threads share is so high, without a limit of its own: on a loaded machine it takes longer. A
/// test whose count never is so high runs into the limit that each test of the gate has.
pub fn wait_for(count: &Arc<AtomicU64, Global>, least: u64) {
    for _ in 0..u64::MAX {
        if count.load(Ordering::SeqCst) >= least {
            return;
        }
        thread::yield_now();
    }
}

/// A folder over another. With flags, a call of `replace` raises the first and waits for the second.
#[derive(Drop)]
pub struct GateFolder<F> {
    pub inner: F,
    pub flags: Option<(Flag, Flag)>,
}

impl<F> GateFolder<F> {
    /// Whether a call of `replace` may go on.
    fn passes(&self) -> bool {
        match &self.flags {
            None => true,
            Some((first, second)) => {
                raise(first);
                comes_up(second)
            }
        }
    }
}

impl<F: Folder> Folder for GateFolder<F> {
    ghost files = { λ gate. F.files gate.inner };

    ghost times = { λ gate. F.times gate.inner };

    ghost faults = { λ gate. F.faults gate.inner };

    fn list(&mut self) -> Result<Names, OutFault> {
        self.inner.list()
    }

    fn read(&mut self, name: &str, most: usize) -> Result<FolderRead, OutFault> {
        self.inner.read(name, most)
    }

    fn time(&mut self, name: &str) -> Result<Option<u64>, OutFault> {
        self.inner.time(name)
    }

    fn replace(&mut self, name: &str, contents: &[u8]) -> Result<(), OutFault> {
        if !self.passes() {
            return Err(OutFault::Memory);
        }
        self.inner.replace(name, contents)
    }

    fn remove(&mut self, name: &str) -> Result<(), Failed> {
        self.inner.remove(name)
    }
}

/// A link in memory. With flags, a read waits for the first, and a write raises the second.
#[derive(Drop)]
pub struct FlagLink {
    pub source: MemSource,
    pub sink: MemSink,
    pub flags: Option<(Flag, Flag)>,
    pub read_faults: u64,
    pub write_faults: u64,
}

impl FlagLink {
    /// Whether a read may go on.
    fn passes(&self) -> bool {
        match &self.flags {
            None => true,
            Some((first, _second)) => comes_up(first),
        }
    }
}

impl Source for FlagLink {
    ghost left = { λ _. None };

    ghost read_faults = { λ l. l.read_faults };

    ghost beside_reads = { λ l. record { bytes = None; faults = l.write_faults; references = [] } };

    fn read(&mut self, into: &mut [u8]) -> Result<usize, Failed> {
        if self.passes() {
            if let Ok(count) = self.source.read(into) {
                return Ok(count);
            }
        }
        self.read_faults = self.read_faults.saturating_add(1);
        Err(Failed)
    }
}

impl Sink for FlagLink {
    ghost held = { λ _. None };

    ghost write_faults = { λ l. l.write_faults };

    ghost beside_writes = { λ l. record { bytes = None; faults = l.read_faults; references = [] } };

    fn write(&mut self, piece: &[u8]) -> Result<usize, Failed> {
        if let Some((_first, second)) = &self.flags {
            raise(second);
        }
        match self.sink.write(piece) {
            Ok(count) => Ok(count),
            Err(Failed) => {
                self.write_faults = self.write_faults.saturating_add(1);
                Err(Failed)
            }
        }
    }
}

impl Link for FlagLink {
    ghost reads_leave = { λ _. refl };

    ghost writes_leave = { λ _. refl };
}
