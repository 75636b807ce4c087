//! What `values` writes.
use super::{ACCEPTED, INFO, run};
use grid_editor::Went;
use std::alloc::Global;
use std::process::Abort;
use std::test::Fail;

/// A sheet's text as the answer to its opening.
fn contents(alloc: Global, text: &[u8]) -> Result<Vec<u8>, Fail> {
    let mut reply = b"HTTP/1.1 200 OK\r\nContent-Length: ".to_vec(alloc)?;
    reply.extend_from_slice(format!(in alloc; "{}", text.len())?.as_bytes())?;
    reply.extend_from_slice(b"\r\n\r\n")?;
    reply.extend_from_slice(text)?;
    Ok(reply)
}

/// Runs a script over this sheet, which has to write these lines.
fn expect(
    rt: &impl Abort,
    alloc: Global,
    sheet: &[u8],
    script: &[u8],
    written: &[u8],
) -> Result<(), Fail> {
    let contents = contents(alloc, sheet)?;
    let left = run(alloc, script, &[INFO, ACCEPTED, &contents, ACCEPTED])?;
    assert!(rt; matches!(left.end, Ok(Went::On)));
    assert!(rt; left.output.as_slice() == written);
    Ok(())
}

const SUMS: &[u8] = b"1,2,=A1+B1\n=SUM(A1:C1),=A2*2,x\n";

#[test]
fn values_follow_a_set(rt: HostRuntime) -> Result<(), Fail> {
    expect(
        &rt,
        rt.alloc(),
        SUMS,
        b"open\nvalues\nset 1 1 5\nvalues\nshow\nclose\n",
        b"opened - 2\n1,2,3\n6,12,x\n5,2,7\n14,28,x\n5,2,=A1+B1\n=SUM(A1:C1),=A2*2,x\nclosed\n",
    )
}

#[test]
fn formulas_that_name_more_than_a_million_cells_have_no_values(
    rt: HostRuntime,
) -> Result<(), Fail> {
    let alloc = rt.alloc();
    let mut sheet = b"7".to_vec(alloc)?;
    let mut written = b"opened - 1\ntoo many\n7".to_vec(alloc)?;
    for _ in 0..10 {
        sheet.extend_from_slice(b",=SUM(A1:A100000)")?;
        written.extend_from_slice(b",7")?;
    }
    sheet.extend_from_slice(b",=A1\n")?;
    written.extend_from_slice(b",8\ntoo many\n")?;
    expect(
        &rt,
        alloc,
        &sheet,
        b"open\nvalues\nset 1 12 8\nvalues\nset 1 12 =A1\nvalues\n",
        &written,
    )
}
