//! What passes are shown of the shards of their host.
ghost use Rattle.std.specs.Prelude.{◌<◌};
ghost use Rattle.host_table.specs.Passes.{IsPassOf};

use super::*;
use host_core::{Lister, Listing};
use wopi_text::Memory;

/// The name, the version and the size of the first file of a listing.
fn first_child(listing: &Listing) -> Result<(&str, u64, u64), Fail> {
    let child = listing.children.get(0).ok_or("a child")?;
    Ok((child.name.as_str(), child.version, child.size))
}

/// Lists all shards of whatever lister.
fn list_all<L: Lister>(alloc: Global, lister: &mut L) -> Result<Vec<Listing>, Fail> {
    let mut listings = Vec::new(alloc);
    for shard in 0..lister.shards() {
        listings.push(lister.list(shard)?)?;
    }
    Ok(listings)
}

/// Looks at a shard by a pass of its host.
fn look_at<R: Wait>(
    rt: &R,
    host: &Host<Kept<MemFolder>>,
    pass: &mut Pass<Kept<MemFolder>>,
    shard: u8,
) -> Result<Listing, Memory>
    requires of_host { IsPassOf host.now pass.old }
    requires shard { shard < 16 }
    ensures { IsPassOf host.now pass.new }
{
    let (listing, _is_told) = host.look(rt, pass, shard);
    listing
}

#[test]
fn a_host_is_listed_shard_by_shard(rt: HostRuntime) -> Result<(), Fail> {
    let alloc = rt.alloc();
    let (host, mut first) = open(alloc)?;
    let mut seated = Seated::new(&rt, &host, &mut first);
    let listings = list_all(alloc, &mut seated)?;
    assert!(rt; listings.len() == 16);
    let empty = listings.get(0).ok_or("a listing")?;
    assert!(rt; empty.shard == 0 && empty.place == 0 && empty.children.len() == 0);
    let listing = listings.get(11).ok_or("a listing")?;
    assert!(rt; listing.shard == 11 && listing.place == 0 && listing.children.len() == 1);
    assert!(rt; first_child(listing)? == ("a.csv", 7, 4));
    let other = listings.get(12).ok_or("a listing")?;
    assert!(rt; first_child(other)? == ("b.csv", 7, 4));
    Ok(())
}

#[test]
fn a_look_shows_what_was_saved_before_by_any_pass(rt: HostRuntime) -> Result<(), Fail> {
    let alloc = rt.alloc();
    let (mut host, mut first) = open(alloc)?;
    let Ok(mut second) = host.split(&rt, &mut first) else {
        panic!(rt; "no memory")
    };
    let before = look_at(&rt, &host, &mut first, 11)?;
    assert!(rt; before.place == 0 && first_child(&before)? == ("a.csv", 7, 4));
    let lock = make_one(&rt, &host, &mut second, lock_call(&rt, b"a.csv"));
    assert!(rt; lock == Some((1, 11)));
    let save = save_call(&rt, alloc, b"5,6,7\n")?;
    assert!(rt; make_one(&rt, &host, &mut second, save) == Some((2, 11)));
    let own = look_at(&rt, &host, &mut second, 11)?;
    assert!(rt; own.place == 2 && first_child(&own)? == ("a.csv", 8, 6));
    let after = look_at(&rt, &host, &mut first, 11)?;
    assert!(rt; after.place == 2 && first_child(&after)? == ("a.csv", 8, 6));
    let next = make_one(&rt, &host, &mut first, lock_call(&rt, b"b.csv"));
    assert!(rt; next == Some((3, 12)));
    Ok(())
}
