//! Bytes that are kept, and appended to.
ghost use Rattle.std.specs.Prelude.{◌≡◌, ◌≤◌, List, ℕ, Option, IfOk, OnOk, OnErr};
ghost use Rattle.outside.specs.Faults.{Rose};
ghost use Rattle.outside.specs.Log.{IsFront, HasLength, IsCutAt};

use crate::{Failed, Sink};

/// A sink whose bytes are kept. What was synced outlives the machine; of the rest a crash may leave any front. Its write
/// faults count each call that failed, of whatever kind.
pub trait Log: Sink + Drop {
    ghost use Rattle.std.specs.Prelude.{[]};
    ghost use Rattle.outside.specs.Log.{IsFront};

    /// What was synced, where the object tells it.
    ghost synced: { Self → Option (List ℕ) };

    /// How many bytes it holds.
    fn length(&mut self) -> Result<u64, Failed>
        ensures length { IfOk result (HasLength (Self.held self.old)) }
        ensures held { Self.held self.new ≡ Self.held self.old }
        ensures synced { synced self.new ≡ synced self.old }
        ensures never_falls { Self.write_faults self.old ≤ Self.write_faults self.new }
        ensures failed { OnErr result (Rose (Self.write_faults self.old) (Self.write_faults self.new)) };

    /// All that it holds is synced then. After a fault some more of it may be.
    fn sync(&mut self) -> Result<(), Failed>
        ensures held { Self.held self.new ≡ Self.held self.old }
        ensures synced { OnOk result (synced self.new ≡ Self.held self.old) }
        ensures more { IsFront (synced self.old) (synced self.new) }
        ensures never_falls { Self.write_faults self.old ≤ Self.write_faults self.new }
        ensures failed { OnErr result (Rose (Self.write_faults self.old) (Self.write_faults self.new)) };

    /// Cuts what stands behind so many bytes, and syncs these. It fails where there are fewer. After a fault it may be cut
    /// anywhere behind them.
    fn resume(&mut self, count: u64) -> Result<(), Failed>
        ensures cut { OnOk result (IsCutAt count (Self.held self.old) (Self.held self.new)) }
        ensures synced { OnOk result (synced self.new ≡ Self.held self.new) }
        ensures front { IsFront (Self.held self.new) (Self.held self.old) }
        ensures never_falls { Self.write_faults self.old ≤ Self.write_faults self.new }
        ensures failed { OnErr result (Rose (Self.write_faults self.old) (Self.write_faults self.new)) };

    /// That is the front of what it holds.
    ghost synced_first: { (log : Self) → IsFront (synced log) (Self.held log) };

    /// A write syncs nothing.
    ghost writes_leave: { (log : Self) → Self.beside_writes log ≡ record { bytes = synced log; faults = 0; references = [] } };
}
