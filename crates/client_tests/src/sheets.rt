use grid_sheet::{Grid, GridFault, MOST_ROWS};
use std::alloc::Global;
use std::process::Abort;
use std::test::Fail;
use wopi_text::Bytes;

fn text(alloc: Global, cell: &str) -> Result<Bytes, Fail> {
    Ok(Bytes::from_slice(alloc, cell.as_bytes())?)
}

fn expect_written(rt: &impl Abort, grid: &Grid, expected: &str) -> Result<(), Fail> {
    let written = grid.write()?;
    assert!(rt; written.as_slice() == expected.as_bytes());
    Ok(())
}

#[test]
fn edits_of_a_small_grid_in_turn(rt: HostRuntime) -> Result<(), Fail> {
    let alloc = rt.alloc();
    let mut grid = Grid::read(alloc, b"1,2\n3\n")?;
    grid.insert_column(2)?;
    expect_written(&rt, &grid, "1,,2\n3,\n")?;
    grid.delete_column(1)?;
    expect_written(&rt, &grid, ",2\n\"\"\n")?;
    grid.set(2, 3, text(alloc, "a,b")?)?;
    expect_written(&rt, &grid, ",2\n,,\"a,b\"\n")?;
    grid.delete_cell(2, 1)?;
    expect_written(&rt, &grid, ",2\n,\"a,b\"\n")?;
    grid.insert_cell(2, 1, text(alloc, "")?)?;
    expect_written(&rt, &grid, ",2\n,,\"a,b\"\n")?;
    let refused = grid.set(3, 1, text(alloc, "x")?);
    assert!(rt; refused == Err(GridFault::OutOfGrid));
    Ok(())
}

// Cells that need quotes, or look as if they did.
const AWKWARD: [&str; 9] = [
    "say \"hi\"",
    "a,b",
    "line 1\nline 2",
    "\r\n",
    "\r",
    "",
    " x ",
    "\"",
    "é;ü",
];

#[test]
fn a_written_grid_reads_back(rt: HostRuntime) -> Result<(), Fail> {
    let alloc = rt.alloc();
    let mut grid = Grid::read(alloc, b"")?;
    for (place, cell) in AWKWARD.iter().enumerate() {
        grid.insert_row(place + 1)?;
        grid.set(place + 1, place + 1, text(alloc, cell)?)?;
    }
    let back = Grid::read(alloc, grid.write()?.as_slice())?;
    assert!(rt; back.rows() == AWKWARD.len());
    for (place, cell) in AWKWARD.iter().enumerate() {
        assert!(rt;
            back.cell(place + 1, place + 1) == Some(cell.as_bytes()),
            "{place}"
        );
        assert!(rt; back.cell(place + 1, place + 2).is_none(), "{place}");
    }
    Ok(())
}

// Texts, and what Python 3.11's csv module writes of what it reads there, with `\n` at the end of
// a row: another program, at texts of which it reads the same rows.
const READ_ELSEWHERE: [(&str, &str); 19] = [
    ("", ""),
    ("1,2\n3\n", "1,2\n3\n"),
    ("a,b\nc\n", "a,b\nc\n"),
    ("\"say \"\"hi\"\"\",b\n", "\"say \"\"hi\"\"\",b\n"),
    ("\"a,b\",c\n", "\"a,b\",c\n"),
    ("\"line 1\nline 2\",x\n", "\"line 1\nline 2\",x\n"),
    ("\"line 1\r\nline 2\",x\n", "\"line 1\r\nline 2\",x\n"),
    ("a,,c\n,,\n", "a,,c\n,,\n"),
    ("\"\"\n\"\"\n", "\"\"\n\"\"\n"),
    ("\"\",\"\"\n", ",\n"),
    ("a,b\nc,d", "a,b\nc,d\n"),
    ("a,b\r\nc,d\r\n", "a,b\nc,d\n"),
    ("a,b\rc,d\r", "a,b\nc,d\n"),
    ("a,b\r\n\"\",d\r\n\"\"\r\n", "a,b\n,d\n\"\"\n"),
    ("a \"b\" c,d\n", "\"a \"\"b\"\" c\",d\n"),
    (" a , b \n", " a , b \n"),
    ("\"a\"b,c\n", "ab,c\n"),
    ("\"\",x\n\"x\"\n", ",x\nx\n"),
    ("é,\"ü,ö\"\n", "é,\"ü,ö\"\n"),
];

#[test]
fn texts_read_as_another_program_reads_them(rt: HostRuntime) -> Result<(), Fail> {
    for (contents, written) in READ_ELSEWHERE {
        let grid = Grid::read(rt.alloc(), contents.as_bytes())?;
        expect_written(&rt, &grid, written)?;
    }
    Ok(())
}

// The text of so many rows of one cell.
fn tall(alloc: Global, rows: usize) -> Result<Vec<u8>, Fail> {
    let mut contents = Vec::new(alloc);
    for _ in 0..rows {
        contents.extend_from_slice(b"x\n")?;
    }
    Ok(contents)
}

#[test]
fn a_grid_ends_at_100_000_rows(rt: HostRuntime) -> Result<(), Fail> {
    let alloc = rt.alloc();
    let mut grid = Grid::read(alloc, tall(alloc, MOST_ROWS)?.as_slice())?;
    assert!(rt; grid.rows() == MOST_ROWS);
    assert!(rt; grid.insert_row(MOST_ROWS + 2) == Err(GridFault::OutOfGrid));
    assert!(rt; grid.insert_row(MOST_ROWS + 1) == Err(GridFault::TooMany));
    grid.delete_row(1)?;
    grid.insert_row(MOST_ROWS)?;
    let more = Grid::read(alloc, tall(alloc, MOST_ROWS + 1)?.as_slice());
    assert!(rt; matches!(more, Err(GridFault::TooMany)));
    Ok(())
}
