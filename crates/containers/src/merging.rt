//! The files of all shards in one list.
ghost use Rattle.std.specs.Prelude.{◌≡◌, IfOk};
ghost use Rattle.std.specs.List.Sorted.{IsPermutation, IsSortedBy};
ghost use Rattle.containers.specs.Listed.{AreMerged, all_children};
ghost use Rattle.containers.specs.Names.{AreNamedApart, is_before};

use host_core::{Child, Listing};
use std::alloc::Global;
use wopi_text::Memory;

/// The files of all listings, in the order of their names' bytes.
pub(crate) fn merged(alloc: Global, listings: Vec<Listing>) -> Result<Vec<Child>, Memory>
    requires { AreNamedApart (all_children listings.items) }
    ensures { IfOk result (λ children. AreMerged listings.items children.items) }
{
    let mut children = gathered(alloc, listings)?;
    sort_by_name(&mut children);
    Ok(children)
}

/// The files of all listings, one listing behind the other.
fn gathered(alloc: Global, listings: Vec<Listing>) -> Result<Vec<Child>, Memory>
    ensures { IfOk result (λ children. children.items ≡ all_children listings.items) }
{
    let count = count_of(&listings);
    let mut children = Vec::with_capacity(alloc, count)?;
    for listing in listings {
        let mut more = listing.children.into_vec();
        children.append(&mut more)?;
    }
    Ok(children)
}

/// How many files the listings have.
fn count_of(listings: &[Listing]) -> usize {
    listings.iter().fold(0usize, |count, listing| {
        count.saturating_add(listing.children.len())
    })
}

fn sort_by_name(children: &mut [Child])
    ensures permutation { IsPermutation children.old children.new }
    ensures sorted { IsSortedBy is_before children.new }
{
    children.sort_unstable_by(|a, b| a.name.as_slice().cmp(b.name.as_slice()));
}
