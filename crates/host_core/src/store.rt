//! Contents, put into the store.
ghost use Rattle.std.specs.Prelude.{◌≡◌, ◌≤◌, ◌<◌, ◌+◌, ◌↔◌, length, Some, IsTrue, IfOk, IfErr, OnOk, OnErr};
ghost use Rattle.outside.specs.Faults.{Rose};
ghost use Rattle.outside.specs.Folder.{Keeps, OpensOnly};
ghost use Rattle.wopi_model.specs.Host.{most_kept};
ghost use Rattle.host_core.specs.Notes.{IsBegunWith, StaysNoted};
ghost use Rattle.host_core.specs.Store.{Holds, MatchStored};

use crate::contents::Contents;
use crate::noting::Store;
use outside::OutFault;
use std::alloc::Global;
use std::mem;
use wopi_text::{Bytes, FileName};

/// The most bytes of contents that a shard begins with and takes: 256 MiB.
pub const MOST_KEPT: u64 = 268_435_456;

/// How a store call ended: with the contents as they stand with their file, or in a fault.
#[derive(Drop)]
pub enum Stored {
    Done(Contents),
    Torn,
}

/// Why a call was not taken.
#[derive(Clone, Copy, Debug, PartialEq, Eq)]
pub enum StoreRefusal {
    /// The entries, the stamps or the bytes are used up.
    Full,
    Memory,
}

/// Takes contents out of their place, and leaves no bytes there.
pub fn take(alloc: Global, contents: &mut Bytes) -> Bytes
    ensures { result ≡ contents.old }
{
    mem::replace(contents, Bytes::from_vec(Vec::new(alloc)))
}

/// The contents have room beside so many bytes.
fn has_room(kept: u64, contents: &Bytes) -> bool
    ensures { IsTrue result ↔ (kept + length contents.now ≤ most_kept) }
{
    let len = contents.as_slice().len() as u64;
    kept.saturating_add(len) <= MOST_KEPT
}

/// Writes contents to the store, which takes them. Where it fails they stay, and an `Err` leaves the folder.
pub fn put_away<F: Store>(
    alloc: Global,
    folder: &mut F,
    kept: u64,
    version: u64,
    name: &FileName,
    contents: &mut Bytes,
    former: Option<&Contents>,
) -> Result<Stored, StoreRefusal>
    requires begun { IsBegunWith (F.notes folder.old) name.now contents.old }
    ensures stored { IfOk result (λ stored. MatchStored stored
        (λ live. (live ≡ contents.old) × (Holds (F.files folder.new) name.now (Some contents.old) × ((F.notes folder.new).saved ≡ Some (Some version, contents.old))))
        ((contents.new ≡ contents.old) × (((F.notes folder.new).saved ≡ (F.notes folder.old).saved) × Rose (F.faults folder.old) (F.faults folder.new)))) }
    ensures room { OnOk result (kept + length contents.old ≤ most_kept) }
    ensures back { OnErr result (contents.new ≡ contents.old) }
    ensures others { OpensOnly (F.files folder.old) (F.files folder.new) name.now }
    ensures keeps { OnErr result (Keeps (F.files folder.old) (F.files folder.new)) }
    ensures unsaved { OnErr result ((F.notes folder.new).saved ≡ (F.notes folder.old).saved) }
    ensures full { IfErr result (λ why. why ≡ StoreRefusal.Full → most_kept < kept + length contents.old) }
    ensures noted { StaysNoted (F.notes folder.old) (F.notes folder.new) }
    ensures never_falls { F.faults folder.old ≤ F.faults folder.new }
{
    if !has_room(kept, contents) {
        return Err(StoreRefusal::Full);
    }
    match folder.save(alloc, version, name.as_str(), contents, former) {
        Ok(live) => return Ok(Stored::Done(live)),
        Err(OutFault::Failed) => return Ok(Stored::Torn),
        Err(OutFault::Memory) => return Err(StoreRefusal::Memory),
    }
}
