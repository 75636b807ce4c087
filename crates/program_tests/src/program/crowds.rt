//! As many workers as there are links, each of which waits for all the others: none is served before a thread runs for
//! each of them. No clause says how many threads there are.
ghost use Rattle.std.specs.Prelude.{◌≡◌, None};

use crate::program::gates::wait_for;
use crate::program::serve::{LOCKED, ONE_LOCK, Served, folders, meet, requests, serve};
use outside::{Failed, MemFolder, MemListener, MemSink, MemSource, Pair, ScriptClock, Source};
use std::alloc::Global;
use std::sync::Arc;
use std::sync::atomic::{AtomicU64, Ordering};
use std::test::Fail;
use wopi_text::Memory;

/// One more than WORKERS may be.
const CROWD: u64 = 17;

const WORDS: [&str; 8] = [
    "serve",
    ".",
    "8880",
    "4a656665",
    "http://localhost:8880",
    "1",
    "--links",
    "17",
];

/// A source in memory that can be read once all of the crowd were asked for a read.
#[derive(Drop)]
struct CrowdSource {
    inner: MemSource,
    came: Arc<AtomicU64, Global>,
    is_here: bool,
    faults: u64,
}

impl CrowdSource {
    /// Counts itself once, and waits for the others.
    fn meet_all(&mut self)
        ensures { self.new.faults ≡ self.old.faults }
    {
        if !self.is_here {
            self.is_here = true;
            self.came.fetch_add(1, Ordering::SeqCst);
        }
        wait_for(&self.came, CROWD);
    }
}

impl Source for CrowdSource {
    ghost left = { λ _. None };

    ghost read_faults = { λ s. s.faults };

    fn read(&mut self, into: &mut [u8]) -> Result<usize, Failed> {
        self.meet_all();
        if let Ok(count) = self.inner.read(into) {
            return Ok(count);
        }
        self.faults = self.faults.saturating_add(1);
        Err(Failed)
    }
}

type CrowdLink = Pair<CrowdSource, MemSink>;

/// A listener with one link, which holds a Lock.
fn listener(alloc: Global, came: Arc<AtomicU64, Global>) -> Result<MemListener<CrowdLink>, Memory> {
    let source = CrowdSource {
        inner: MemSource::new(requests(alloc, &ONE_LOCK)?, 1_000_000, Vec::new(alloc)),
        came,
        is_here: false,
        faults: 0,
    };
    let mut links = Vec::new(alloc);
    links.push(Pair::new(source, MemSink::new(alloc, 10_000, Vec::new(alloc))?))?;
    MemListener::new(alloc, links, Vec::new(alloc))
}

/// The folders, and a listener and a clock for each of the crowd.
fn crowd(alloc: Global) -> Result<Served<MemFolder, CrowdLink>, Fail> {
    let came = Arc::new(alloc, AtomicU64::new(0))?;
    let mut listeners = Vec::new(alloc);
    let mut clocks = Vec::new(alloc);
    for _ in 0..CROWD {
        listeners.push(listener(alloc, Arc::try_clone(&came)?)?)?;
        clocks.push(ScriptClock::new(0, Vec::new(alloc)))?;
    }
    Ok(meet(alloc, folders(alloc)?, listeners, clocks)?)
}

#[test]
fn each_worker_has_a_thread(rt: HostRuntime) -> Result<(), Fail> {
    let alloc = rt.alloc();
    let mut outside = crowd(alloc)?;
    let status = serve(&rt, alloc, &WORDS, &mut outside)?;
    assert!(rt; status == 0);
    for listener in &outside.listeners {
        let link = listener.finished_links().first().ok_or("a link")?;
        assert!(rt; link.sink.as_slice() == LOCKED);
    }
    Ok(())
}
