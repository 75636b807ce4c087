//! What listings of a shard have.
use super::*;
use host_core::{Child, Children, Lister, Listing, NameList};
use wopi_text::Memory;

/// The name, the version and the size of the file at a place.
fn child(listing: &Listing, place: usize) -> Result<(&str, u64, u64), Fail> {
    let child = listing.children.get(place).ok_or("a child")?;
    Ok((child.name.as_str(), child.version, child.size))
}

/// Makes a file beside `e.csv`, as a copy does.
fn make_file(
    rt: &impl Abort,
    alloc: Global,
    single: &mut Single<Kept<MemFolder>>,
    file: &[u8],
    text: &[u8],
) -> Result<u16, Fail> {
    let made = call_for(rt, file, b"e.csv", create(alloc, false, text)?);
    Ok(step(rt, single, made, 0).status)
}

#[test]
fn a_listing_has_the_files_that_exist_by_their_names(rt: HostRuntime) -> Result<(), Fail> {
    let alloc = rt.alloc();
    let mut single = open(alloc, 4096, &[])?;
    assert!(rt; make_file(&rt, alloc, &mut single, b"d.csv", b"12")? == 200);
    assert!(rt; make_file(&rt, alloc, &mut single, b"b.csv", b"123")? == 200);
    assert!(rt; make_file(&rt, alloc, &mut single, b"c.csv", b"1")? == 200);
    let deleted = step(&rt, &mut single, call(&rt, b"c.csv", Act::Delete), 0);
    assert!(rt; deleted.status == 200);
    let listing = single.list(0)?;
    assert!(rt; listing.shard == 0);
    assert!(rt; listing.place == 4);
    assert!(rt; listing.children.len() == 4);
    assert!(rt; child(&listing, 0)? == ("a.csv", 1, 4));
    assert!(rt; child(&listing, 1)? == ("b.csv", 1, 3));
    assert!(rt; child(&listing, 2)? == ("d.csv", 1, 2));
    assert!(rt; child(&listing, 3)? == ("e.csv", 1, 0));
    Ok(())
}

/// The files of all shards of whatever lister.
fn count_files<L: Lister>(lister: &mut L) -> Result<usize, Memory> {
    let mut count = 0usize;
    for shard in 0..lister.shards() {
        let listing = lister.list(shard)?;
        count = count.saturating_add(listing.children.len());
    }
    Ok(count)
}

#[test]
fn whatever_lists_shards_lists_each(rt: HostRuntime) -> Result<(), Fail> {
    let mut single = open(rt.alloc(), 4096, &[])?;
    assert!(rt; single.shards() == 1);
    assert!(rt; count_files(&mut single)? == 2);
    Ok(())
}

#[test]
fn lists_of_names_and_of_files_grow_at_their_ends(rt: HostRuntime) -> Result<(), Fail> {
    let mut names = NameList::new(rt.alloc());
    names.push(name(&rt, b"a.csv"))?;
    assert!(rt; names.len() == 1);
    assert!(rt; names.get(0).ok_or("a name")?.as_str() == "a.csv");
    let mut children = Children::new(rt.alloc());
    children.push(Child {
        name: name(&rt, b"a.csv"),
        version: 7,
        size: 3,
    })?;
    assert!(rt; children.len() == 1);
    assert!(rt; children.get(0).ok_or("a child")?.version == 7);
    Ok(())
}
