//! The ids that were spent on one file.
ghost use Rattle.std.specs.Prelude.{◌≡◌, ◌⊎◌, ◌+◌, ◌*◌, ◌≤◌, ◌<◌, ◌^◌, ℕ, ◌∷◌, length, max, None, true, false};
ghost use Rattle.expiry_queue.specs.Chains.{IsLive, spent_of};
ghost use Rattle.wopi_model.specs.Act.{is_spent};
ghost use Rattle.wopi_model.specs.Settle.{still_spent, with_spent};
ghost use Rattle.kept_locks.specs.Refusals.{FallsTo, Goes, HasOnly, IsCounted, LeavesFew, Reindexes, Tells, shown_of, refused_by};
ghost use Rattle.kept_locks.specs.Ties.{one_if};

use crate::index::{SpentOn, is_refused, note};
use crate::purge::purge;
use expiry_queue::SpentChains;
use std::collections::HashMap;
use wopi_model::Spent;
use wopi_text::LockId;

/// Once a chain has so many ids it is purged, unless its last purge left more than half of them.
const MANY: usize = 8;

/// A file's chain, and the latest moment at which the file was stepped. The ids that were over then
/// are shown no longer; where the chain is purged, it has none of them. Where it is told, the index has
/// all of its ids. It has so many ids, and its last purge left so many.
#[derive(Clone, Copy, Drop)]
pub struct Trail {
    pub chain: Option<usize>,
    pub as_of: u64,
    pub purged: bool,
    pub told: bool,
    pub count: usize,
    pub left: usize,
}

/// Whether the index has all ids of a chain of which a purge left so many: all that it had before, or none are left.
fn is_told(told: bool, count: usize) -> bool
    ensures kept { told ≡ true → result ≡ true }
    ensures empty { count ≡ 0 → result ≡ true }
    ensures either { result ≡ true → (told ≡ true) ⊎ (count ≡ 0) }
{
    told || count == 0
}

/// The trail after a step at that moment.
pub fn step_to(
    chains: &mut SpentChains,
    index: &mut HashMap<SpentOn, u64>,
    file: u32,
    trail: Trail,
    now: u64,
) -> Trail
    requires live { IsLive chains.old trail.chain }
    requires tells { Tells (refused_by index.old file) chains.old trail }
    requires only { HasOnly index.old file (spent_of chains.old trail.chain) }
    ensures goes { Goes chains.old chains.new trail result (still_spent (shown_of chains.old trail) now) }
    ensures tells { Tells (refused_by index.new file) chains.new result }
    ensures only { HasOnly index.new file (spent_of chains.new result.chain) }
    ensures as_of { result.as_of ≡ max trail.as_of now }
    ensures index { Reindexes index.old index.new file trail result 0 }
    ensures spare { chains.old.spare ≤ chains.new.spare }
    ensures counted { IsCounted chains.old trail 2 → IsCounted chains.new result 0 }
    ensures left { LeavesFew chains.new trail result }
    ensures falls { FallsTo chains.old chains.new trail result }
    ensures fresh { result.purged ≡ true → result.left ≡ result.count }
{
    if trail.purged && now < trail.as_of {
        let (chain, count) = purge(chains, index, file, trail.chain, now);
        return Trail {
            chain,
            as_of: trail.as_of,
            purged: true,
            told: is_told(trail.told, count),
            count,
            left: count,
        };
    }
    Trail {
        chain: trail.chain,
        as_of: trail.as_of.max(now),
        purged: false,
        told: trail.told,
        count: trail.count,
        left: trail.left,
    }
}

/// The trail without the ids that are not shown.
fn purge_hidden(
    chains: &mut SpentChains,
    index: &mut HashMap<SpentOn, u64>,
    file: u32,
    trail: Trail,
) -> Trail
    requires live { IsLive chains.old trail.chain }
    requires tells { Tells (refused_by index.old file) chains.old trail }
    requires only { HasOnly index.old file (spent_of chains.old trail.chain) }
    requires hidden { trail.purged ≡ false }
    ensures goes { Goes chains.old chains.new trail result (shown_of chains.old trail) }
    ensures tells { Tells (refused_by index.new file) chains.new result }
    ensures only { HasOnly index.new file (spent_of chains.new result.chain) }
    ensures as_of { result.as_of ≡ trail.as_of }
    ensures purged { result.purged ≡ true }
    ensures index { Reindexes index.old index.new file trail result 0 }
    ensures spare { chains.old.spare ≤ chains.new.spare }
    ensures counted { IsCounted chains.new result 0 }
    ensures left { LeavesFew chains.new trail result }
    ensures few { result.left ≤ length (spent_of chains.new result.chain) }
    ensures fresh { result.left ≡ result.count }
{
    let (chain, count) = purge(chains, index, file, trail.chain, trail.as_of);
    Trail {
        chain,
        as_of: trail.as_of,
        purged: true,
        told: is_told(trail.told, count),
        count,
        left: count,
    }
}

/// The trail after a step at that moment, without the ids that are not shown.
pub fn purge_to(
    chains: &mut SpentChains,
    index: &mut HashMap<SpentOn, u64>,
    file: u32,
    trail: Trail,
    now: u64,
) -> Trail
    requires live { IsLive chains.old trail.chain }
    requires tells { Tells (refused_by index.old file) chains.old trail }
    requires only { HasOnly index.old file (spent_of chains.old trail.chain) }
    ensures goes { Goes chains.old chains.new trail result (still_spent (shown_of chains.old trail) now) }
    ensures tells { Tells (refused_by index.new file) chains.new result }
    ensures only { HasOnly index.new file (spent_of chains.new result.chain) }
    ensures as_of { result.as_of ≡ max trail.as_of now }
    ensures purged { result.purged ≡ true }
    ensures index { Reindexes index.old index.new file trail result 0 }
    ensures spare { chains.old.spare ≤ chains.new.spare }
    ensures counted { IsCounted chains.old trail 2 → IsCounted chains.new result 0 }
    ensures left { LeavesFew chains.new trail result }
    ensures fresh { result.left ≡ result.count }
{
    let stepped = step_to(chains, index, file, trail, now);
    if stepped.purged {
        return stepped;
    }
    purge_hidden(chains, index, file, stepped)
}

/// One id more would make the chain longer than 8 ids, and than twice what its last purge left.
fn is_long(trail: &Trail) -> bool
    ensures { result ≡ false → trail.now.count + 1 ≤ max 8 (2 * trail.now.left) }
{
    trail.count >= MANY && trail.count / 2 >= trail.left
}

/// The trail, which an id with that end may follow: one that ended before the last step is shown as
/// well, so that the chain has to be purged first. It is purged too where it has become long.
fn ready_for(
    chains: &mut SpentChains,
    index: &mut HashMap<SpentOn, u64>,
    file: u32,
    trail: Trail,
    until: u64,
) -> Trail
    requires live { IsLive chains.old trail.chain }
    requires tells { Tells (refused_by index.old file) chains.old trail }
    requires only { HasOnly index.old file (spent_of chains.old trail.chain) }
    ensures goes { Goes chains.old chains.new trail result (shown_of chains.old trail) }
    ensures tells { Tells (refused_by index.new file) chains.new result }
    ensures only { HasOnly index.new file (spent_of chains.new result.chain) }
    ensures as_of { result.as_of ≡ trail.as_of }
    ensures fits { (result.purged ≡ true) ⊎ (result.as_of < until) }
    ensures index { Reindexes index.old index.new file trail result 0 }
    ensures spare { chains.old.spare ≤ chains.new.spare }
    ensures counted { (more : ℕ) → IsCounted chains.old trail more → IsCounted chains.new result more }
    ensures short { (more : ℕ) → more ≤ 1 → IsCounted chains.old trail more → result.count + 1 ≤ max 8 (2 * result.left) }
    ensures left { LeavesFew chains.new trail result }
    ensures falls { FallsTo chains.old chains.new trail result }
{
    if trail.purged {
        return trail;
    }
    if trail.as_of < until {
        if !is_long(&trail) {
            return trail;
        }
    }
    purge_hidden(chains, index, file, trail)
}

/// The trail with an id at its front, which the index has as well.
pub fn spend_on(
    chains: &mut SpentChains,
    index: &mut HashMap<SpentOn, u64>,
    file: u32,
    trail: Trail,
    one: Spent,
) -> Trail
    requires live { IsLive chains.old trail.chain }
    requires spare { 1 ≤ chains.old.spare }
    requires tells { Tells (refused_by index.old file) chains.old trail }
    requires only { HasOnly index.old file (spent_of chains.old trail.chain) }
    ensures goes { Goes chains.old chains.new trail result (one ∷ shown_of chains.old trail) }
    ensures tells { Tells (refused_by index.new file) chains.new result }
    ensures only { HasOnly index.new file (spent_of chains.new result.chain) }
    ensures as_of { result.as_of ≡ trail.as_of }
    ensures index { Reindexes index.old index.new file trail result 1 }
    ensures spare { chains.old.spare ≤ chains.new.spare + 1 }
    ensures counted { (more : ℕ) → more ≤ 1 → IsCounted chains.old trail more → IsCounted chains.new result (more + 1) }
    ensures left { LeavesFew chains.new trail result }
    ensures falls { FallsTo chains.old chains.new trail result }
{
    let ready = ready_for(chains, index, file, trail, one.until);
    let noted = note(index, file, one.id.copy(), one.until);
    let chain = chains.add(ready.chain, one);
    Trail {
        chain,
        as_of: ready.as_of,
        purged: ready.purged,
        told: ready.told && noted,
        count: ready.count.saturating_add(1),
        left: ready.left,
    }
}

/// The trail after a step at that moment, with an id at its front.
pub fn spend_now(
    chains: &mut SpentChains,
    index: &mut HashMap<SpentOn, u64>,
    file: u32,
    trail: Trail,
    spend: Option<Spent>,
    now: u64,
) -> Trail
    requires live { IsLive chains.old trail.chain }
    requires spare { 1 ≤ chains.old.spare }
    requires tells { Tells (refused_by index.old file) chains.old trail }
    requires only { HasOnly index.old file (spent_of chains.old trail.chain) }
    ensures goes { Goes chains.old chains.new trail result (with_spent spend (still_spent (shown_of chains.old trail) now)) }
    ensures tells { Tells (refused_by index.new file) chains.new result }
    ensures only { HasOnly index.new file (spent_of chains.new result.chain) }
    ensures as_of { result.as_of ≡ max trail.as_of now }
    ensures index { Reindexes index.old index.new file trail result (one_if spend) }
    ensures spare { chains.old.spare ≤ chains.new.spare + one_if spend }
    ensures counted { IsCounted chains.old trail 2 → IsCounted chains.new result 1 }
    ensures left { LeavesFew chains.new trail result }
    ensures falls { FallsTo chains.old chains.new trail result }
{
    let stepped = step_to(chains, index, file, trail, now);
    match spend {
        None => return stepped,
        Some(one) => return spend_on(chains, index, file, stepped, one),
    }
}

/// Whether an id of a chain is still refused at that moment, by the chain alone.
fn refuses_walked(chains: &SpentChains, trail: Trail, id: &LockId, now: u64) -> bool
    requires live { IsLive chains.now trail.chain }
    ensures { result ≡ is_spent (still_spent (shown_of chains.now trail) now) id.now }
{
    if trail.purged {
        return chains.refuses(trail.chain, id, now);
    }
    chains.refuses(trail.chain, id, trail.as_of.max(now))
}

/// How many of the shown ids are still refused at that moment.
pub fn count_shown(chains: &SpentChains, trail: Trail, now: u64) -> usize
    requires few { length (spent_of chains.now trail.chain) < 2 ^ 64 }
    ensures { result ≡ length (still_spent (shown_of chains.now trail) now) }
{
    if trail.purged {
        return chains.count_refused(trail.chain, now);
    }
    chains.count_refused(trail.chain, trail.as_of.max(now))
}

/// Whether an id of a chain is still refused at that moment. The chain itself is looked at only where the index doesn't
/// tell of it, or the moment is before the last step and the chain is purged.
fn refuses_chained(
    chains: &SpentChains,
    index: &HashMap<SpentOn, u64>,
    file: u32,
    trail: Trail,
    id: &LockId,
    now: u64,
) -> bool
    requires live { IsLive chains.now trail.chain }
    requires tells { Tells (refused_by index.now file) chains.now trail }
    ensures { result ≡ is_spent (still_spent (shown_of chains.now trail) now) id.now }
{
    if !trail.told {
        return refuses_walked(chains, trail, id, now);
    }
    if trail.as_of <= now {
        return is_refused(index, file, id, now);
    }
    if trail.purged {
        return chains.refuses(trail.chain, id, now);
    }
    is_refused(index, file, id, trail.as_of)
}

/// Whether an id is spent on the file, and still refused at that moment. Where the file has no chain, the index isn't
/// asked.
pub fn refuses_on(
    chains: &SpentChains,
    index: &HashMap<SpentOn, u64>,
    file: u32,
    trail: Trail,
    id: &LockId,
    now: u64,
) -> bool
    requires live { IsLive chains.now trail.chain }
    requires tells { Tells (refused_by index.now file) chains.now trail }
    ensures { result ≡ is_spent (still_spent (shown_of chains.now trail) now) id.now }
{
    match trail.chain {
        None => return false,
        Some(_) => return refuses_chained(chains, index, file, trail, id, now),
    }
}
