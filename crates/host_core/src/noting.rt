//! A folder in which a shard's entries are noted.
ghost use Rattle.std.specs.Prelude.{◌≡◌, ◌≤◌, ◌<◌, ◌++◌, ◌∷◌, [], ℕ, Option, length, Bool, not, true, false, None, Some, Err, IfOk, IfSome, OnOk, OnErr, IsErrOf};
ghost use Rattle.wopi_text.specs.Moments.{moments_end};
ghost use Rattle.outside.specs.Faults.{Rose};
ghost use Rattle.outside.specs.Folder.{Files, Times, Lists, ReadsFile, TellsTime, Keeps, Replaces, OpensOnly, Removes};
ghost use Rattle.host_core.specs.Entries.{Asked, asked_as, ruled, ruled_as};
ghost use Rattle.host_core.specs.Entry.{is_status};
ghost use Rattle.host_core.specs.Notes.{Notes, HasPlace, IsBegunToRemove, IsBegunWith, IsToldAhead, TakesCalls, opening_listed, saved_in, StaysNoted, KeepsOpen};
ghost use Rattle.wopi_model.specs.Begin.{new_life};

use crate::contents::Contents;
use crate::entry::Beginning;
use crate::file::KeptFile;
use outside::{Failed, FolderRead, Names, OutFault};
use std::alloc::Global;
use wopi_model::Ruling;
use wopi_text::Bytes;

/// A folder, and whatever a shard's entries are noted in, one after another. An entry is begun before its call is
/// carried out, and then ended or given up. Nothing else changes the files.
pub trait Store: Drop {
    ghost use Rattle.host_core.specs.Notes.{Notes};

    /// The bytes under each name of the folder, where it tells them.
    ghost files: { Self → Option Files };

    /// When the file under each name was last changed, where the folder tells it.
    ghost times: { Self → Option Times };

    /// How often a call has failed.
    ghost faults: { Self → ℕ };

    /// What was noted.
    ghost notes: { Self → Notes };

    /// What it has noted last may not be kept, and it takes no more.
    ghost lost: { Self → Bool };

    /// It takes any number of entries.
    ghost endless: { Bool };

    /// There are stores of this type that are lost.
    ghost loses: { Bool };

    ghost loses_is: { (store : Self) → lost store ≡ true → loses ≡ true };

    /// The names in the folder, each once.
    fn list(&mut self) -> Result<Names, OutFault>
        ensures names { IfOk result (Lists (files self.old)) }
        ensures same { Keeps (files self.old) (files self.new) }
        ensures same_times { Keeps (times self.old) (times self.new) }
        ensures log { (notes self.new).log ≡ (notes self.old).log }
        ensures never_falls { faults self.old ≤ faults self.new }
        ensures failed { IsErrOf result OutFault.Failed → Rose (faults self.old) (faults self.new) };

    /// The bytes under a name, where they are at most `most`.
    fn read(&mut self, name: &str, most: usize) -> Result<FolderRead, OutFault>
        ensures read { IfOk result (ReadsFile (files self.old) name.now most) }
        ensures same { Keeps (files self.old) (files self.new) }
        ensures same_times { Keeps (times self.old) (times self.new) }
        ensures log { (notes self.new).log ≡ (notes self.old).log }
        ensures never_falls { faults self.old ≤ faults self.new }
        ensures failed { IsErrOf result OutFault.Failed → Rose (faults self.old) (faults self.new) };

    /// When the file under a name was last changed, in milliseconds since 1970; none where the name holds nothing.
    fn time(&mut self, name: &str) -> Result<Option<u64>, OutFault>
        ensures moment { IfOk result (λ found. IfSome found (λ moment. moment < moments_end)) }
        ensures told { IfOk result (TellsTime (times self.old) name.now) }
        ensures same { Keeps (files self.old) (files self.new) }
        ensures same_times { Keeps (times self.old) (times self.new) }
        ensures log { (notes self.new).log ≡ (notes self.old).log }
        ensures never_falls { faults self.old ≤ faults self.new }
        ensures failed { IsErrOf result OutFault.Failed → Rose (faults self.old) (faults self.new) };

    /// Begins anew with the files of an opening, and takes the room for an entry of each call, where calls are bounded.
    fn open(
        &mut self,
        alloc: Global,
        opening: &Vec<KeptFile>,
        opened: u64,
        first: u64,
        calls: Option<u32>,
    ) -> Result<(), OutFault>
        requires bounded { calls ≡ None → endless ≡ true }
        ensures begin { OnOk result ((notes self.new).begin ≡ new_life (opening_listed opening.now.items) opened first) }
        ensures made { OnOk result ((notes self.new).made ≡ []) }
        ensures begun { OnOk result ((notes self.new).begun ≡ None) }
        ensures most { OnOk result (TakesCalls calls (notes self.new).most) }
        ensures going { OnOk result (lost self.new ≡ false) }
        ensures log { (notes self.new).log ≡ (notes self.old).log }
        ensures files { Keeps (files self.old) (files self.new) }
        ensures never_falls { faults self.old ≤ faults self.new }
        ensures failed { IsErrOf result OutFault.Failed → Rose (faults self.old) (faults self.new) };

    /// Begins an entry, for which there is room, where the store isn't lost, nor is it then. It takes no memory.
    fn begin(&mut self, beginning: &Beginning<'_>)
        requires going { lost self.old ≡ false }
        requires begun { (notes self.old).begun ≡ None }
        requires room { HasPlace (notes self.old).most (length (notes self.old).made) }
        ensures made { (notes self.new).made ≡ (notes self.old).made }
        ensures begun { (notes self.new).begun ≡ Some (asked_as beginning.now.stamp beginning.now.pass beginning.now.moment beginning.now.time beginning.now.call.now) }
        ensures saved { (notes self.new).saved ≡ None }
        ensures goes_on { lost self.new ≡ false }
        ensures rest { KeepsOpen (notes self.old) (notes self.new) }
        ensures files { Keeps (files self.old) (files self.new) }
        ensures never_falls { faults self.old ≤ faults self.new };

    /// The name and the contents are those of the call that was begun. The name then holds these, and the call is to be told that version. The contents are taken, and given
    /// as they are to stand with their file; `former` stood there before. After a fault only this name is open, and
    /// the contents stay.
    fn save(
        &mut self,
        alloc: Global,
        version: u64,
        name: &str,
        contents: &mut Bytes,
        former: Option<&Contents>,
    ) -> Result<Contents, OutFault>
        requires begun { IsBegunWith (notes self.old) name.now contents.old }
        ensures live { IfOk result (λ live. live ≡ contents.old) }
        ensures back { OnErr result (contents.new ≡ contents.old) }
        ensures replaced { OnOk result (Replaces (files self.old) (files self.new) name.now contents.old) }
        ensures torn { OpensOnly (files self.old) (files self.new) name.now }
        ensures memory { result ≡ Err OutFault.Memory → Keeps (files self.old) (files self.new) }
        ensures never_falls { faults self.old ≤ faults self.new }
        ensures failed { IsErrOf result OutFault.Failed → Rose (faults self.old) (faults self.new) }
        ensures saved { OnOk result ((notes self.new).saved ≡ Some (Some version, contents.old)) }
        ensures unsaved { OnErr result ((notes self.new).saved ≡ (notes self.old).saved) }
        ensures noted { StaysNoted (notes self.old) (notes self.new) };

    /// The call that was begun removes the file of that name. It is gone then. After a fault only this name is open.
    fn clear(&mut self, name: &str) -> Result<(), Failed>
        requires begun { IsBegunToRemove (notes self.old) name.now }
        ensures removed { OnOk result (Removes (files self.old) (files self.new) name.now) }
        ensures torn { OpensOnly (files self.old) (files self.new) name.now }
        ensures never_falls { faults self.old ≤ faults self.new }
        ensures failed { OnErr result (Rose (faults self.old) (faults self.new)) }
        ensures notes { notes self.new ≡ notes self.old };

    /// Gives the entry that was begun its ruling. What was saved is what an accepted call brought, and the ruling of one that the store
    /// took part in was known ahead. It takes no memory. The store may be lost then, and the entry may not be told.
    fn end(&mut self, ruling: &Ruling)
        requires begun { (one : Asked) × ((notes self.old).begun ≡ Some one) × ((notes self.old).saved ≡ saved_in (ruled ruling.now one)) }
        requires status { is_status ruling.now.status ≡ true }
        requires ahead { IsToldAhead (notes self.old) ruling.now }
        ensures made { (one : Asked) → (notes self.old).begun ≡ Some one → (notes self.new).made ≡ (notes self.old).made ++ ruled_as (not (lost self.new)) ruling.now one ∷ [] }
        ensures ended { (notes self.new).begun ≡ None }
        ensures rest { KeepsOpen (notes self.old) (notes self.new) }
        ensures files { Keeps (files self.old) (files self.new) }
        ensures never_falls { faults self.old ≤ faults self.new };

    /// The entry that was begun is none. It takes no memory.
    fn give_up(&mut self)
        ensures made { (notes self.new).made ≡ (notes self.old).made }
        ensures ended { (notes self.new).begun ≡ None }
        ensures rest { KeepsOpen (notes self.old) (notes self.new) }
        ensures files { Keeps (files self.old) (files self.new) }
        ensures never_falls { faults self.old ≤ faults self.new };

    /// How many entries there are.
    fn count(&self) -> u64
        ensures { result ≡ length (notes self.now).made };

    /// Whether it is lost.
    fn is_lost(&self) -> bool
        ensures { result ≡ lost self.now };
}
