//! Names that get numbers, and lose them.
use name_index::NameIndex;
use std::process::Abort;
use std::test::Fail;
use wopi_text::FileName;

fn name(rt: &impl Abort, text: &[u8]) -> FileName {
    FileName::read(text).expect(rt, "a file name")
}

#[test]
fn names_come_with_their_numbers_in_the_order_of_their_bytes(rt: HostRuntime) -> Result<(), Fail> {
    let mut index = NameIndex::new(rt.alloc());
    for (text, number) in [("b.csv", 0), ("a.csv", 1), ("B.csv", 2)] {
        let name = name(&rt, text.as_bytes());
        assert!(rt; index.find(&name) == None);
        index.add(name, number).map_err(|_| "memory")?;
    }
    let mut order = Vec::new(rt.alloc());
    for (one, number) in index.iter() {
        order.push((one.name.as_str(), *number))?;
    }
    let expected = [("B.csv", 2), ("a.csv", 1), ("b.csv", 0)];
    assert!(rt; order.as_slice() == expected.as_slice());
    Ok(())
}
