//! The lines that an operator is told.
use adapters::ready_line;
use std::test::Fail;

#[test]
fn an_address_that_is_listened_at_is_told(rt: HostRuntime) -> Result<(), Fail> {
    let line = ready_line(rt.alloc(), "127.0.0.1:8880")?;
    assert!(rt; line.as_str() == "ready at 127.0.0.1:8880\n");
    Ok(())
}
