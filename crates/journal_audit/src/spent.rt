//! The spent ids of the files of a shard.
ghost use Rattle.std.specs.Prelude.{◌≡◌, ◌≤◌, ◌&&◌, ◌||◌, [], ℕ, List, Some, false, nat_eq, OnOk, OnErr, option_copied};
ghost use Rattle.journal_audit.specs.Spent.{IsLater, Spends, ends, ends_after, later_of, refused_in, refuses};

use std::alloc::Global;
use std::collections::HashMap;
use std::hash::{Hash, Hasher};
use std::marker::Model;
use wopi_model::Spent;
use wopi_text::{LockId, Memory};

/// So many ids at least stand there before the first are dropped.
const FEW: usize = 1_024;

/// A file's number, and an id that was spent on it.
#[derive(Drop)]
pub(crate) struct SpentOn {
    pub(crate) file: u32,
    pub(crate) id: LockId,
}

impl PartialEq for SpentOn {
    ghost use Rattle.std.specs.Cmp.Rules.{comparing};
    ghost use Rattle.std.proofs.Common.{rules};
    ghost use Rattle.journal_audit.specs.Spent.{is_same};

    ghost eq = { is_same };

    ghost laws = { Prim.search (comparing, rules) };

    fn eq(&self, other: &SpentOn) -> bool {
        self.file == other.file && self.id == other.id
    }
}

impl Eq for SpentOn {
    ghost use Rattle.std.specs.Cmp.Rules.{comparing};
    ghost use Rattle.std.proofs.Common.{rules};

    ghost laws = { Prim.search (comparing, rules) };
}

impl Hash for SpentOn {
    ghost use Rattle.journal_audit.specs.Spent.{fed_of, fed_alike};

    ghost hash_input = { fed_of };

    ghost respects_eq = { fed_alike };

    fn hash<H: Hasher>(&self, state: &mut H) {
        state.write_u32(self.file);
        state.write(self.id.as_slice());
    }
}

/// The ids that are refused on each file, with the latest moment until which each is. Those that are refused no
/// longer go by and by: there are at most twice as many as are still refused, and a few.
pub(crate) struct SpentIds {
    ids: HashMap<SpentOn, u64>,
    /// At so many ids those go that are refused no longer.
    most: usize,
}

impl Drop for SpentIds {
    fn drop(self) {
        let SpentIds {
            ids: _ids,
            most: _most,
        } = self;
    }
}

impl Model for SpentIds {
    ghost use Rattle.journal_audit.specs.Spent.{Ends, pairs_of};

    ghost Value = { Ends };

    ghost view = { λ s. pairs_of s.ids };
}

/// The later one of two ends.
fn later(until: u64, known: Option<&u64>) -> u64
    ensures { result ≡ later_of until (option_copied known.entry) }
{
    match known {
        None => until,
        Some(known) => until.max(*known),
    }
}

/// Whether the moment is before the end, if there is one.
fn is_before(now: u64, until: Option<&u64>) -> bool
    ensures { result ≡ ends_after now (option_copied until.entry) }
{
    match until {
        None => false,
        Some(until) => now < *until,
    }
}

/// Whether the id is refused on the file at that moment.
fn is_refused(ids: &HashMap<SpentOn, u64>, file: u32, id: &LockId, now: u64) -> bool
    ensures { result ≡ refused_in ids.now file id.now now }
{
    let key = SpentOn {
        file,
        id: id.copy(),
    };
    is_before(now, ids.get(&key))
}

/// The id is refused on the file until then at least.
fn note(ids: &mut HashMap<SpentOn, u64>, file: u32, one: Spent) -> Result<(), Memory>
    ensures ok { OnOk result ((on : ℕ) (id : List ℕ) (now : ℕ) → refused_in ids.new on id now ≡ (nat_eq file on && ends (Some one) id now) || refused_in ids.old on id now) }
    ensures err { OnErr result (ids.new.entries ≡ ids.old.entries) }
{
    let key = SpentOn { file, id: one.id };
    let latest = later(one.until, ids.get(&key));
    match ids.insert(key, latest) {
        Ok(_) => return Ok(()),
        Err(_) => return Err(Memory),
    }
}

/// Drops the ids that are refused no longer.
fn drop_over(ids: &mut HashMap<SpentOn, u64>, now: u64)
    ensures later { (on : ℕ) (id : List ℕ) (later : ℕ) → now ≤ later → refused_in ids.new on id later ≡ refused_in ids.old on id later }
    ensures none { (on : ℕ) (id : List ℕ) (at : ℕ) → refused_in ids.old on id at ≡ false → refused_in ids.new on id at ≡ false }
{
    ids.retain(|_, until| now < *until);
}

impl SpentIds {
    /// No id is spent. It takes no memory.
    pub(crate) fn new(alloc: Global) -> SpentIds
        ensures { result ≡ [] }
    {
        SpentIds {
            ids: HashMap::new(alloc),
            most: FEW,
        }
    }

    /// Whether the id is refused on the file at that moment.
    pub(crate) fn refuses(&self, file: u32, id: &LockId, now: u64) -> bool
        ensures { result ≡ refuses self.now file id.now now }
    {
        is_refused(&self.ids, file, id, now)
    }

    /// Spends an id on a file, if there is one.
    pub(crate) fn spend(&mut self, file: u32, one: Option<Spent>) -> Result<(), Memory>
        ensures ok { OnOk result (Spends self.old self.new file one) }
        ensures err { OnErr result (self.new ≡ self.old) }
    {
        match one {
            None => return Ok(()),
            Some(one) => match note(&mut self.ids, file, one) {
                Ok(()) => return Ok(()),
                Err(memory) => return Err(memory),
            },
        }
    }

    /// Drops the ids that are refused no longer, where there are many.
    pub(crate) fn thin(&mut self, now: u64)
        ensures later { IsLater self.old self.new now }
        ensures none { (on : ℕ) (id : List ℕ) (at : ℕ) → refuses self.old on id at ≡ false → refuses self.new on id at ≡ false }
    {
        if self.ids.len() >= self.most {
            drop_over(&mut self.ids, now);
            self.most = self.ids.len().saturating_mul(2).max(FEW);
        }
    }
}
