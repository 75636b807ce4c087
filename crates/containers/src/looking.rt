//! The listings of all shards.
ghost use Rattle.std.specs.Prelude.{◌≡◌, IfOk};
ghost use Rattle.host_core.specs.Caller.{KeepsTelling};
ghost use Rattle.host_core.specs.Listing.{ListsAll, LooksOn};

use host_core::{Lister, Listing};
use std::alloc::Global;
use wopi_text::Memory;

/// A listing of each shard, in their order.
pub(crate) fn list_all<L: Lister>(alloc: Global, lister: &mut L) -> Result<Vec<Listing>, Memory>
    ensures listed { IfOk result (λ listings. ListsAll L.shard_count (L.sight lister.new) listings.items) }
    ensures looks { LooksOn (L.sight lister.old) (L.sight lister.new) }
    ensures telling { KeepsTelling (L.telling lister.old) (L.telling lister.new) L.loses }
    ensures basis { L.basis lister.new ≡ L.basis lister.old }
    ensures references { L.references lister.new ≡ L.references lister.old }
{
    let shards = lister.shards();
    let mut listings = Vec::with_capacity(alloc, usize::from(shards))?;
    for shard in 0..shards {
        listings.push(lister.list(shard)?)?;
    }
    Ok(listings)
}
