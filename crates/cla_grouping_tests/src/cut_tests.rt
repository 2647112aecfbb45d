//! Cuts of matrices with the bytes of their packed files, and the budget.

use crate::made::{Entry, Seen, matrix, seen};
use cla_cocode::{Cut, layout, size, within};
use cla_layout::Kind;
use cla_num::Dense;
use std::alloc::Global;
use std::test::Fail;

// The cut of a matrix, and the bytes of its packed file.
fn packed(alloc: Global, m: &Dense<Entry>) -> Result<(Cut, u64), Fail> {
    let cut = layout(alloc, m)?;
    if cut.rows as u64 * m.cols() as u64 != m.cells().len() as u64 {
        return Err(Fail::new("a cut of another matrix"));
    }
    let bytes = size(&cut);
    Ok((cut, bytes))
}

// What is seen of the cut of the matrix with these entries, and the bytes of its packed file.
fn packed_of(
    alloc: Global,
    rows: u32,
    cols: u32,
    cells: &[i64],
) -> Result<(Option<Seen>, u64), Fail> {
    let m = matrix(alloc, rows, cols, cells)?;
    let (cut, bytes) = packed(alloc, &m)?;
    Ok((seen(&cut), bytes))
}

// One row of so many zeros.
fn packed_of_zeros(alloc: Global, cols: u32) -> Result<(Option<Seen>, u64), Fail> {
    let cells = vec![in alloc; 0; cols as usize]?;
    packed_of(alloc, 1, cols, &cells)
}

#[test]
fn three_equal_rows(rt: HostRuntime) -> Result<(), Fail> {
    let found = packed_of(rt.alloc(), 3, 1, &[5, 5, 5])?;
    assert_eq!(rt; found, (Some((1, Kind::Codes, 0, 1, 24)), 44));
    Ok(())
}

// Sevens, and then as many nines.
#[test]
fn two_runs(rt: HostRuntime) -> Result<(), Fail> {
    let mut cells = [7; 1000];
    cells[500..].fill(9);
    let found = packed_of(rt.alloc(), 1000, 1, &cells)?;
    assert_eq!(rt; found, (Some((1, Kind::Runs, 0, 1, 54)), 74));
    Ok(())
}

// Two columns of 1, 2, 1, 2 and so on.
#[test]
fn equal_columns_are_one_group(rt: HostRuntime) -> Result<(), Fail> {
    let mut cells = [1; 2000];
    for (i, cell) in cells.iter_mut().enumerate() {
        if i / 2 % 2 == 1 {
            *cell = 2;
        }
    }
    let found = packed_of(rt.alloc(), 1000, 2, &cells)?;
    assert_eq!(rt; found, (Some((1, Kind::Codes, 1, 2, 1049)), 1069));
    Ok(())
}

// Sevens in ten rows of a thousand, and else zeros: a column takes 14 bytes, 10 for its tuple and 20 for its
// rows. Two columns with the same rows take 18, 18 and 20 together. Where the second column has its sevens
// a row lower, there are two tuples and twenty rows, and 18, 36 and 40 are more than twice 44.
#[test]
fn sparse_columns(rt: HostRuntime) -> Result<(), Fail> {
    let mut cells = [0; 2000];
    for (place, cell) in cells.iter_mut().enumerate() {
        if place / 2 % 100 == 50 {
            *cell = 7;
        }
    }
    let found = packed_of(rt.alloc(), 1000, 2, &cells)?;
    assert_eq!(rt; found, (Some((1, Kind::Offsets, 1, 2, 56)), 76));
    let mut cells = [0; 2000];
    for (place, cell) in cells.iter_mut().enumerate() {
        if place / 2 % 100 == 50 + place % 2 {
            *cell = 7;
        }
    }
    let found = packed_of(rt.alloc(), 1000, 2, &cells)?;
    assert_eq!(rt; found, (Some((2, Kind::Offsets, 0, 1, 44)), 108));
    Ok(())
}

// The same with the ten rows in a run: a column takes 14 bytes and 20 for its tuple and the run, and two with
// the same run take 18 and 28. A row lower there are three tuples, and as offsets 18, 54 and 22 bytes.
#[test]
fn sparse_runs(rt: HostRuntime) -> Result<(), Fail> {
    let mut cells = [0; 2000];
    for (place, cell) in cells.iter_mut().enumerate() {
        if place / 2 / 10 == 50 {
            *cell = 7;
        }
    }
    let found = packed_of(rt.alloc(), 1000, 2, &cells)?;
    assert_eq!(rt; found, (Some((1, Kind::Runs, 1, 2, 46)), 66));
    let mut cells = [0; 2000];
    for (place, cell) in cells.iter_mut().enumerate() {
        if (place / 2 + 1 - place % 2) / 10 == 50 {
            *cell = 7;
        }
    }
    let found = packed_of(rt.alloc(), 1000, 2, &cells)?;
    assert_eq!(rt; found, (Some((2, Kind::Runs, 0, 1, 34)), 88));
    Ok(())
}

// As offsets, a head of 5 bytes, 4 for each column, and 5 before the lists, of which zeros have none. One
// column more is too many to be grouped, and then each cell takes 8 bytes.
#[test]
fn many_columns(rt: HostRuntime) -> Result<(), Fail> {
    let most = packed_of_zeros(rt.alloc(), 65536)?;
    assert_eq!(rt;
        most,
        (Some((1, Kind::Offsets, 65535, 65536, 262154)), 262174)
    );
    let more = packed_of_zeros(rt.alloc(), 65537)?;
    assert_eq!(rt;
        more,
        (Some((1, Kind::Plain, 65536, 65537, 786449)), 786469)
    );
    Ok(())
}

#[test]
fn budgets(rt: HostRuntime) -> Result<(), Fail> {
    assert!(rt; within(44, 44).is_ok());
    assert!(rt; within(45, 44).is_err());
    Ok(())
}
