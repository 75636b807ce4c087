//! A store in which another shard goes on.
ghost use Rattle.std.specs.Prelude.{◌≡◌, ◌≤◌, ℕ, None, IsErrOf, OnOk, OnErr, false, []};
ghost use Rattle.kept_locks.specs.Locks.{Standing};
ghost use Rattle.outside.specs.Faults.{Rose};
ghost use Rattle.outside.specs.Folder.{Keeps, OpensOnly, Removes, Replaces};
ghost use Rattle.host_core.specs.Life.{begin_listed};

use crate::file::KeptFile;
use crate::life::ToldLocks;
use crate::noting::Store;
use outside::{Failed, OutFault};
use std::alloc::Global;

/// A store in which a shard goes on where another one was, of which it is told. Before it does, its folder is made to hold
/// what is told.
pub trait Lasting: Store {
    /// The name then holds these contents, as it is told. No entry is noted for it. After a fault only this name is open.
    fn restore(&mut self, name: &str, contents: &[u8]) -> Result<(), OutFault>
        ensures replaced { OnOk result (Replaces (Self.files self.old) (Self.files self.new) name.now contents.now) }
        ensures torn { OpensOnly (Self.files self.old) (Self.files self.new) name.now }
        ensures other_times { OpensOnly (Self.times self.old) (Self.times self.new) name.now }
        ensures log { (Self.notes self.new).log ≡ (Self.notes self.old).log }
        ensures never_falls { Self.faults self.old ≤ Self.faults self.new }
        ensures failed { IsErrOf result OutFault.Failed → Rose (Self.faults self.old) (Self.faults self.new) };

    /// The name is gone then, as it is told. No entry is noted for it. After a fault only this name is open.
    fn withdraw(&mut self, name: &str) -> Result<(), Failed>
        ensures removed { OnOk result (Removes (Self.files self.old) (Self.files self.new) name.now) }
        ensures torn { OpensOnly (Self.files self.old) (Self.files self.new) name.now }
        ensures other_times { OpensOnly (Self.times self.old) (Self.times self.new) name.now }
        ensures log { (Self.notes self.new).log ≡ (Self.notes self.old).log }
        ensures never_falls { Self.faults self.old ≤ Self.faults self.new }
        ensures failed { OnErr result (Rose (Self.faults self.old) (Self.faults self.new)) };

    /// Goes on with these files, each with the locks at its place: the shard was opened anew at `opened` over files of the
    /// version `first`, its time is `now`, and the last entry before has the stamp `last`.
    /// Where that isn't what was told, as when a file was taken in at its next version, the store has to keep it: the version would else
    /// be told of other contents once more is opened.
    fn go_on(
        &mut self,
        alloc: Global,
        files: &Vec<KeptFile>,
        locks: &Vec<ToldLocks>,
        opened: u64,
        first: u64,
        now: u64,
        last: u64,
    ) -> Result<(), OutFault>
        ensures begin { OnOk result ((Self.notes self.new).begin ≡ begin_listed opened first now last files.now.items locks.now.items) }
        ensures made { OnOk result ((Self.notes self.new).made ≡ []) }
        ensures begun { OnOk result ((Self.notes self.new).begun ≡ None) }
        ensures most { OnOk result ((Self.notes self.new).most ≡ None) }
        ensures going { OnOk result (Self.lost self.new ≡ false) }
        ensures log { (Self.notes self.new).log ≡ (Self.notes self.old).log }
        ensures files { Keeps (Self.files self.old) (Self.files self.new) }
        ensures times { Keeps (Self.times self.old) (Self.times self.new) }
        ensures never_falls { Self.faults self.old ≤ Self.faults self.new }
        ensures failed { IsErrOf result OutFault.Failed → Rose (Self.faults self.old) (Self.faults self.new) };
}
