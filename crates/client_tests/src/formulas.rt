ghost use Rattle.std.specs.Prelude.{◌≡◌, OnOk};

use grid_formulas::{Changed, Sheet, SheetFault, Value};
use grid_sheet::Grid;
use std::alloc::Global;
use std::process::Abort;
use std::test::Fail;
use wopi_text::Bytes;

fn set(alloc: Global, grid: &mut Grid, row: usize, column: usize, cell: &str) -> Result<(), Fail> {
    grid.set(row, column, Bytes::from_slice(alloc, cell.as_bytes())?)?;
    Ok(())
}

fn sheet_of(alloc: Global, text: &str) -> Result<Sheet, Fail> {
    let grid = Grid::read(alloc, text.as_bytes())?;
    Ok(Sheet::new(alloc, &grid)?)
}

fn expect_text(rt: &impl Abort, sheet: &Sheet, expected: &str) -> Result<(), Fail> {
    let written = sheet.values_text()?;
    assert!(rt; written.as_slice() == expected.as_bytes());
    Ok(())
}

#[test]
fn sums_and_products_follow_a_set(rt: HostRuntime) -> Result<(), Fail> {
    let alloc = rt.alloc();
    let mut grid = Grid::read(alloc, b"1,2,=A1+B1\n=SUM(A1:C1),=A2*2,x\n")?;
    let mut sheet = Sheet::new(alloc, &grid)?;
    assert!(rt; sheet.value(1, 3) == Value::Number(3));
    assert!(rt; sheet.value(2, 1) == Value::Number(6));
    assert!(rt; sheet.value(2, 2) == Value::Number(12));
    assert!(rt; sheet.value(2, 3) == Value::Text);
    grid.set(1, 1, Bytes::from_slice(alloc, b"5")?)?;
    let changed = sheet.set(&grid, 1, 1)?;
    assert!(rt; changed.as_slice() == [(1, 1), (1, 3), (2, 1), (2, 2)].as_slice());
    assert!(rt; sheet.value(1, 3) == Value::Number(7));
    assert!(rt; sheet.value(2, 1) == Value::Number(14));
    assert!(rt; sheet.value(2, 2) == Value::Number(28));
    Ok(())
}

#[test]
fn the_text_of_a_sheet_has_its_values(rt: HostRuntime) -> Result<(), Fail> {
    let alloc = rt.alloc();
    let numbers = sheet_of(alloc, "1,2,=A1+B1\n=SUM(A1:C1),=A2*2,x\n")?;
    expect_text(&rt, &numbers, "1,2,3\n6,12,x\n")?;
    let faults = sheet_of(alloc, "=B1,=A1,=A1,=1+\n")?;
    expect_text(&rt, &faults, "#CYCLE,#CYCLE,#CYCLE,#NAME\n")
}

#[test]
fn a_chain_of_100_000_cells(rt: HostRuntime) -> Result<(), Fail> {
    let alloc = rt.alloc();
    let mut text = String::new(alloc);
    for row in 2..100_001u32 {
        text.push_str(&format!(in alloc; "=A{row}+1\n")?)?;
    }
    text.push_str("1\n")?;
    let mut grid = Grid::read(alloc, text.as_bytes())?;
    let mut sheet = Sheet::new(alloc, &grid)?;
    assert!(rt; sheet.value(1, 1) == Value::Number(100_000));
    let changed = change(alloc, &mut grid, &mut sheet, 100_000, 1, "5")?;
    assert!(rt; changed.as_slice().len() == 100_000);
    assert!(rt; sheet.value(1, 1) == Value::Number(100_004));
    Ok(())
}

#[test]
fn a_range_of_100_000_cells(rt: HostRuntime) -> Result<(), Fail> {
    let alloc = rt.alloc();
    let mut text = String::new(alloc);
    text.push_str("1,=SUM(A1:A100000)\n")?;
    for _ in 1..100_000u32 {
        text.push_str("1\n")?;
    }
    let sheet = sheet_of(alloc, &text)?;
    assert!(rt; sheet.value(1, 2) == Value::Number(100_000));
    Ok(())
}

#[test]
fn a_million_links_are_the_most(rt: HostRuntime) -> Result<(), Fail> {
    let alloc = rt.alloc();
    let range = "=SUM(A1:A100000)";
    let mut grid = Grid::read(alloc, b"x")?;
    for column in 2..12 {
        set(alloc, &mut grid, 1, column, range)?;
    }
    assert!(rt; Sheet::new(alloc, &grid).is_ok());
    set(alloc, &mut grid, 1, 12, "=A1")?;
    match Sheet::new(alloc, &grid) {
        Ok(_) => assert!(rt; false),
        Err(fault) => assert!(rt; fault == SheetFault::TooManyLinks),
    }
    Ok(())
}

// Sets the cell in both, and gives the cells whose value is another.
fn change(
    alloc: Global,
    grid: &mut Grid,
    sheet: &mut Sheet,
    row: usize,
    column: usize,
    cell: &str,
) -> Result<Changed, Fail>
    requires { sheet.old ≡ grid.old }
    ensures { OnOk result (sheet.new ≡ grid.new) }
{
    grid.set(row, column, Bytes::from_slice(alloc, cell.as_bytes())?)?;
    Ok(sheet.set(grid, row, column)?)
}

#[test]
fn a_set_under_100_000_formulas(rt: HostRuntime) -> Result<(), Fail> {
    let alloc = rt.alloc();
    let mut text = String::new(alloc);
    text.push_str("1,=A1,=B1,=C1,=D1,=E1,=F1,=G1,=H1,=I1,=SUM(A1:J1)\n")?;
    for row in 2..99_992u32 {
        text.push_str(&format!(in alloc; "=B{row}+1\n")?)?;
    }
    let mut grid = Grid::read(alloc, text.as_bytes())?;
    let mut sheet = Sheet::new(alloc, &grid)?;
    let changed = change(alloc, &mut grid, &mut sheet, 1, 1, "5")?;
    assert!(rt; changed.as_slice().len() == 11);
    assert!(rt; sheet.value(1, 11) == Value::Number(50));
    assert!(rt; sheet.value(99_991, 1) == Value::Number(1));
    Ok(())
}

#[test]
fn a_list_of_cells_grows_at_its_end(rt: HostRuntime) -> Result<(), Fail> {
    let mut changed = Changed::new(rt.alloc());
    changed.push((1, 2))?;
    changed.push((3, 4))?;
    assert!(rt; changed.as_slice() == [(1, 2), (3, 4)].as_slice());
    Ok(())
}
