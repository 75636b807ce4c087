//! Spent ids that go out of a chain, and out of the index.
ghost use Rattle.std.specs.Prelude.{◌≡◌, ◌≤◌, ◌+◌, []};
ghost use Rattle.expiry_queue.specs.Chains.{IsLive, Becomes, spent_of};
ghost use Rattle.wopi_model.specs.Settle.{still_spent};
ghost use Rattle.kept_locks.specs.Refusals.{Counts, HasOnly, Sheds, count_of, onto};

use crate::index::{SpentOn, forget};
use expiry_queue::SpentChains;
use std::collections::HashMap;

/// Takes a chain apart, and makes one of the ids that are still refused, the last of them at the front. The places of
/// the others are free.
fn sift(
    chains: &mut SpentChains,
    index: &mut HashMap<SpentOn, u64>,
    file: u32,
    chain: Option<usize>,
    now: u64,
) -> Option<usize>
    requires live { IsLive chains.old chain }
    requires only { HasOnly index.old file (spent_of chains.old chain) }
    ensures becomes { Becomes chains.old.cells chains.new.cells chain result (spent_of chains.new result) }
    ensures ids { onto (spent_of chains.new result) [] ≡ still_spent (spent_of chains.old chain) now }
    ensures counts { Counts chains.old chains.new chain result }
    ensures sheds { Sheds index.old index.new file now }
    ensures only { HasOnly index.new file (spent_of chains.new result) }
{
    let mut rest = chain;
    let mut kept = None;
    'rest: while let Some(place) = rest {
        let (one, after) = chains.take(place);
        rest = after;
        if now < one.until {
            kept = chains.add(kept, one);
        } else {
            forget(index, file, one.id, now);
        }
    }
    kept
}

/// The ids of a chain from the last to the first, and how many.
fn turn_over(chains: &mut SpentChains, chain: Option<usize>) -> (Option<usize>, usize)
    requires live { IsLive chains.old chain }
    ensures becomes { Becomes chains.old.cells chains.new.cells chain result.0 (spent_of chains.new result.0) }
    ensures ids { spent_of chains.new result.0 ≡ onto (spent_of chains.old chain) [] }
    ensures counts { Counts chains.old chains.new chain result.0 }
    ensures count { result.1 ≡ count_of (spent_of chains.new result.0) }
{
    let mut rest = chain;
    let mut kept = None;
    let mut count: usize = 0;
    'rest: while let Some(place) = rest {
        let (one, after) = chains.take(place);
        rest = after;
        kept = chains.add(kept, one);
        count = count.saturating_add(1);
    }
    (kept, count)
}

/// Takes the ids out of a chain that are no longer refused, and gives the chain and how many are left. Their places are
/// free, and the index has them no longer.
pub fn purge(
    chains: &mut SpentChains,
    index: &mut HashMap<SpentOn, u64>,
    file: u32,
    chain: Option<usize>,
    now: u64,
) -> (Option<usize>, usize)
    requires live { IsLive chains.old chain }
    requires only { HasOnly index.old file (spent_of chains.old chain) }
    ensures chain { Becomes chains.old.cells chains.new.cells chain result.0 (still_spent (spent_of chains.old chain) now) }
    ensures counts { Counts chains.old chains.new chain result.0 }
    ensures count { result.1 ≡ count_of (spent_of chains.new result.0) }
    ensures sheds { Sheds index.old index.new file now }
    ensures only { HasOnly index.new file (spent_of chains.new result.0) }
    ensures spare { chains.old.spare ≤ chains.new.spare }
{
    let kept = sift(chains, index, file, chain, now);
    turn_over(chains, kept)
}
