//! A log that ends the host in order at its first fault.
ghost use Rattle.std.specs.Prelude.{◌≡◌, ◌≤◌, ◌<◌, None, IfOk, OnErr, OnOk, length};
ghost use Rattle.adapters.specs.Closing.{ClosesAtFault};

use crate::stopping::CloseAll;
use outside::{Failed, Log, Sink};

/// A log over another one. At the first call that fails it closes the listeners, so that each worker ends once it has
/// served its link: who met the fault ends anyway, and the others would wait in an accept. It tells what the log below
/// tells.
#[derive(Drop)]
pub struct ClosingLog<G, H> {
    log: G,
    // None once they were closed, or where there are none.
    listeners: Option<H>,
}

impl<G, H: CloseAll + Drop> ClosingLog<G, H> {
    /// `listeners` closes those that have to end.
    pub fn new(log: G, listeners: Option<H>) -> ClosingLog<G, H>
        ensures log { result.log ≡ log }
        ensures listeners { result.listeners ≡ listeners }
    {
        ClosingLog { log, listeners }
    }

    /// The log below.
    pub fn below(&self) -> &G
        ensures { result.now ≡ self.now.log }
    {
        &self.log
    }

    fn close(&mut self)
        ensures log { self.new.log ≡ self.old.log }
        ensures listeners { self.new.listeners ≡ None }
    {
        if let Some(listeners) = self.listeners.take() {
            listeners.close_all();
        }
    }

    // What the log below answered. At a fault the listeners are closed.
    fn answered<T>(&mut self, answer: Result<T, Failed>) -> Result<T, Failed>
        ensures answer { result ≡ answer }
        ensures log { self.new.log ≡ self.old.log }
        ensures listeners { ClosesAtFault answer self.old.listeners self.new.listeners }
    {
        match answer {
            Ok(value) => Ok(value),
            Err(Failed) => {
                self.close();
                Err(Failed)
            }
        }
    }
}

impl<G: Log, H: CloseAll + Drop> Sink for ClosingLog<G, H> {
    ghost use Rattle.std.specs.Io.KnownBytes.{WriteAppends};
    ghost use Rattle.outside.specs.Faults.{Rose};

    ghost held = { λ l. G.held l.log };

    ghost write_faults = { λ l. G.write_faults l.log };

    ghost beside_writes = { λ l. G.beside_writes l.log };

    fn write(&mut self, piece: &[u8]) -> Result<usize, Failed>
        ensures fits { IfOk result (λ n. n ≤ length piece.now) }
        ensures takes { IfOk result (λ n. 0 < length piece.now → 0 < n) }
        ensures bytes { WriteAppends (G.held self.old.log) (G.held self.new.log) result piece.now }
        ensures beside { G.beside_writes self.new.log ≡ G.beside_writes self.old.log }
        ensures never_falls { G.write_faults self.old.log ≤ G.write_faults self.new.log }
        ensures failed { OnErr result (Rose (G.write_faults self.old.log) (G.write_faults self.new.log)) }
        ensures closes { ClosesAtFault result self.old.listeners self.new.listeners }
    {
        let answer = self.log.write(piece);
        self.answered(answer)
    }
}

impl<G: Log, H: CloseAll + Drop> Log for ClosingLog<G, H> {
    ghost use Rattle.outside.specs.Faults.{Rose};
    ghost use Rattle.outside.specs.Log.{HasLength, IsCutAt, IsFront};

    ghost synced = { λ l. G.synced l.log };

    fn length(&mut self) -> Result<u64, Failed>
        ensures length { IfOk result (HasLength (G.held self.old.log)) }
        ensures held { G.held self.new.log ≡ G.held self.old.log }
        ensures synced { G.synced self.new.log ≡ G.synced self.old.log }
        ensures never_falls { G.write_faults self.old.log ≤ G.write_faults self.new.log }
        ensures failed { OnErr result (Rose (G.write_faults self.old.log) (G.write_faults self.new.log)) }
        ensures closes { ClosesAtFault result self.old.listeners self.new.listeners }
    {
        let answer = self.log.length();
        self.answered(answer)
    }

    fn sync(&mut self) -> Result<(), Failed>
        ensures held { G.held self.new.log ≡ G.held self.old.log }
        ensures synced { OnOk result (G.synced self.new.log ≡ G.held self.old.log) }
        ensures more { IsFront (G.synced self.old.log) (G.synced self.new.log) }
        ensures never_falls { G.write_faults self.old.log ≤ G.write_faults self.new.log }
        ensures failed { OnErr result (Rose (G.write_faults self.old.log) (G.write_faults self.new.log)) }
        ensures closes { ClosesAtFault result self.old.listeners self.new.listeners }
    {
        let answer = self.log.sync();
        self.answered(answer)
    }

    fn resume(&mut self, count: u64) -> Result<(), Failed>
        ensures cut { OnOk result (IsCutAt count (G.held self.old.log) (G.held self.new.log)) }
        ensures synced { OnOk result (G.synced self.new.log ≡ G.held self.new.log) }
        ensures front { IsFront (G.held self.new.log) (G.held self.old.log) }
        ensures never_falls { G.write_faults self.old.log ≤ G.write_faults self.new.log }
        ensures failed { OnErr result (Rose (G.write_faults self.old.log) (G.write_faults self.new.log)) }
        ensures closes { ClosesAtFault result self.old.listeners self.new.listeners }
    {
        let answer = self.log.resume(count);
        self.answered(answer)
    }

    ghost synced_first = { λ l. G.synced_first l.log };

    ghost writes_leave = { λ l. G.writes_leave l.log };
}
