//! Until when an id is refused on a file.
ghost use Rattle.std.specs.Prelude.{◌≡◌, ◌≤◌, ◌<◌, ◌+◌, true, false, option_copied};
ghost use Rattle.std.specs.HashMap.{IsUnchanged, spare};
ghost use Rattle.kept_locks.specs.Refusals.{Notes, Forgets, ends_after, later_of, refused_by};

use std::collections::HashMap;
use std::hash::{Hash, Hasher};
use wopi_text::LockId;

/// A file's number, and an id that was spent on it.
#[derive(Drop)]
pub struct SpentOn {
    pub file: u32,
    pub id: LockId,
}

impl PartialEq for SpentOn {
    ghost use Rattle.std.specs.Cmp.Rules.{comparing};
    ghost use Rattle.std.proofs.Common.{rules};
    ghost use Rattle.kept_locks.specs.Keys.{is_same};

    ghost eq = { is_same };

    ghost laws = { Prim.search (comparing, rules) };

    fn eq(&self, other: &SpentOn) -> bool {
        self.file == other.file && self.id == other.id
    }
}

impl Eq for SpentOn {
    ghost use Rattle.std.specs.Cmp.Rules.{comparing};
    ghost use Rattle.std.proofs.Common.{rules};

    ghost laws = { Prim.search (comparing, rules) };
}

impl Hash for SpentOn {
    ghost use Rattle.kept_locks.specs.Keys.{fed_of, fed_alike};

    ghost hash_input = { fed_of };

    ghost respects_eq = { fed_alike };

    fn hash<H: Hasher>(&self, state: &mut H) {
        state.write_u32(self.file);
        state.write(self.id.as_slice());
    }
}

/// The later one of two ends.
fn later(until: u64, known: Option<&u64>) -> u64
    ensures { result ≡ later_of until (option_copied known.entry) }
{
    match known {
        None => until,
        Some(known) => until.max(*known),
    }
}

/// Whether the moment is before the end, if there is one.
fn is_before(now: u64, until: Option<&u64>) -> bool
    ensures { result ≡ ends_after now (option_copied until.entry) }
{
    match until {
        None => false,
        Some(until) => now < *until,
    }
}

/// The index has the id of the file, with that end or its own where that is later. Where the index is full, and there is
/// no memory for more, it stays as it was, and that is said.
pub fn note(index: &mut HashMap<SpentOn, u64>, file: u32, id: LockId, until: u64) -> bool
    ensures notes { result ≡ true → Notes index.old index.new (record { file = file; id = id }) until }
    ensures full { result ≡ false → IsUnchanged index.old index.new }
    ensures room { 0 < spare index.old → result ≡ true }
    ensures spare { spare index.old ≤ spare index.new + 1 }
{
    let key = SpentOn { file, id };
    let latest = later(until, index.get(&key));
    match index.insert(key, latest) {
        Ok(_) => return true,
        Err(_) => return false,
    }
}

/// The index has the id of the file no longer, where its end is over at that moment.
pub fn forget(index: &mut HashMap<SpentOn, u64>, file: u32, id: LockId, now: u64)
    ensures forgets { Forgets index.old index.new (record { file = file; id = id }) now }
    ensures spare { spare index.old ≤ spare index.new }
{
    let key = SpentOn { file, id };
    if is_before(now, index.get(&key)) {
        return;
    }
    let _end = index.remove(&key);
}

/// Whether the id is refused on the file at that moment.
pub fn is_refused(index: &HashMap<SpentOn, u64>, file: u32, id: &LockId, now: u64) -> bool
    ensures { result ≡ refused_by index.now file id.now now }
{
    let key = SpentOn {
        file,
        id: id.copy(),
    };
    is_before(now, index.get(&key))
}
