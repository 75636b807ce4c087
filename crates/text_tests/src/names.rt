use put_relative::{TidyFault, candidate, tidy};
use std::test::Fail;
use wopi_text::FileName;

#[test]
fn an_ending_goes_to_the_stem_of_the_source(rt: HostRuntime) -> Result<(), Fail> {
    let source = FileName::read(b"a.csv")?;
    let name = tidy(rt.alloc(), &source, ".txt")?;
    assert!(rt; name.as_str() == "a.txt");
    let whole = tidy(rt.alloc(), &source, "b/c\u{85}.d. .")?;
    assert!(rt; whole.as_str() == "b_c_.d");
    Ok(())
}

#[test]
fn copies_are_numbered_before_the_ending(rt: HostRuntime) -> Result<(), Fail> {
    let name = FileName::read(b"a.csv")?;
    for (n, copy) in [(0, "a.csv"), (1, "a (1).csv"), (99, "a (99).csv")] {
        assert!(rt;
            candidate(&name, n).is_some_and(|c| c.as_str() == copy),
            "{n}"
        );
    }
    assert!(rt; candidate(&name, 100).is_none());
    let plain = FileName::read(b"b")?;
    assert!(rt; candidate(&plain, 7).is_some_and(|c| c.as_str() == "b (7)"));
    Ok(())
}
