//! Edits undone.
use super::{ACCEPTED, CONTENTS, INFO, run};
use std::test::Fail;

#[test]
fn each_edit_is_undone(rt: HostRuntime) -> Result<(), Fail> {
    let sheet = b"HTTP/1.1 200 OK\r\nContent-Length: 10\r\n\r\n1,2,3\n4\n5\n".as_slice();
    let text =
        b"open\ndelcol 4\ndelcol 1\nshow\ninscol 2\nshow\nset 3 3 x\nshow\ninsrow 2\ndelrow 1\nshow\n\
undo\nundo\nshow\nundo\nshow\nundo\nshow\nundo\nshow\nundo\n";
    let left = run(rt.alloc(), text, &[INFO, ACCEPTED, sheet])?;
    assert!(rt;
        left.output.as_slice()
            == b"opened - 3\nout of grid\n2,3\n\"\"\n\"\"\n2,,3\n,\n,\n2,,3\n,\n,,x\n\"\"\n,\n,,x\n\
2,,3\n,\n,,x\n2,,3\n,\n,\n2,3\n\"\"\n\"\"\n1,2,3\n4\n5\nnothing to undo\n"
                .as_slice()
    );
    Ok(())
}

#[test]
fn of_65_edits_64_are_undone(rt: HostRuntime) -> Result<(), Fail> {
    let mut text = b"open\n".to_vec(rt.alloc())?;
    for _ in 0..65 {
        text.extend_from_slice(b"insrow 1\n")?;
    }
    for _ in 0..65 {
        text.extend_from_slice(b"undo\n")?;
    }
    text.extend_from_slice(b"show\n")?;
    let left = run(rt.alloc(), &text, &[INFO, ACCEPTED, CONTENTS])?;
    assert!(rt; left.output.as_slice() == b"opened v1 1\nnothing to undo\n\"\"\n1,2\n".as_slice());
    Ok(())
}
