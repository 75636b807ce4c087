ghost use Rattle.std.specs.Prelude.{◌≡◌, ◌≤◌, ◌<◌, ℕ, IfOk, IfSome, OnOk, IsErrOf, OnErr, Option};
ghost use Rattle.wopi_text.specs.Moments.{moments_end};
ghost use Rattle.outside.specs.Faults.{Rose};
ghost use Rattle.outside.specs.Folder.{Files, Times, Lists, ReadsFile, TellsTime, Keeps, Replaces, OpensOnly, Removes};

use crate::{Failed, Names, OutFault};
use wopi_text::Bytes;

/// What a name in a folder holds.
#[derive(Drop)]
pub enum FolderRead {
    Whole(Bytes),
    Absent,
    TooLong,
}

/// Files by name.
pub trait Folder: Drop {
    /// The bytes under each name, where the object tells them.
    ghost files: { Self → Option Files };

    /// When the file under each name was last changed, where the object tells it.
    ghost times: { Self → Option Times };

    /// How often a call has failed.
    ghost faults: { Self → ℕ };

    /// The names, each once.
    fn list(&mut self) -> Result<Names, OutFault>
        ensures names { IfOk result (Lists (files self.old)) }
        ensures same { Keeps (files self.old) (files self.new) }
        ensures same_times { Keeps (times self.old) (times self.new) }
        ensures never_falls { faults self.old ≤ faults self.new }
        ensures failed { IsErrOf result OutFault.Failed → Rose (faults self.old) (faults self.new) };

    /// The bytes under a name, where they are at most `most`.
    fn read(&mut self, name: &str, most: usize) -> Result<FolderRead, OutFault>
        ensures read { IfOk result (ReadsFile (files self.old) name.now most) }
        ensures same { Keeps (files self.old) (files self.new) }
        ensures same_times { Keeps (times self.old) (times self.new) }
        ensures never_falls { faults self.old ≤ faults self.new }
        ensures failed { IsErrOf result OutFault.Failed → Rose (faults self.old) (faults self.new) };

    /// When the file under a name was last changed, in milliseconds since 1970; none where the name holds nothing.
    fn time(&mut self, name: &str) -> Result<Option<u64>, OutFault>
        ensures moment { IfOk result (λ found. IfSome found (λ moment. moment < moments_end)) }
        ensures told { IfOk result (TellsTime (times self.old) name.now) }
        ensures same { Keeps (files self.old) (files self.new) }
        ensures same_times { Keeps (times self.old) (times self.new) }
        ensures never_falls { faults self.old ≤ faults self.new }
        ensures failed { IsErrOf result OutFault.Failed → Rose (faults self.old) (faults self.new) };

    /// The name then holds the contents. After a fault only this name is open. Its time is open either way.
    fn replace(&mut self, name: &str, contents: &[u8]) -> Result<(), OutFault>
        ensures replaced { OnOk result (Replaces (files self.old) (files self.new) name.now contents.now) }
        ensures torn { OpensOnly (files self.old) (files self.new) name.now }
        ensures other_times { OpensOnly (times self.old) (times self.new) name.now }
        ensures memory { result ≡ Err OutFault.Memory → Keeps (files self.old) (files self.new) }
        ensures never_falls { faults self.old ≤ faults self.new }
        ensures failed { IsErrOf result OutFault.Failed → Rose (faults self.old) (faults self.new) };

    /// The name is gone. After a fault only this name is open.
    fn remove(&mut self, name: &str) -> Result<(), Failed>
        ensures removed { OnOk result (Removes (files self.old) (files self.new) name.now) }
        ensures torn { OpensOnly (files self.old) (files self.new) name.now }
        ensures other_times { OpensOnly (times self.old) (times self.new) name.now }
        ensures never_falls { faults self.old ≤ faults self.new }
        ensures failed { OnErr result (Rose (faults self.old) (faults self.new)) };
}
