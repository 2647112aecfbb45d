//! Products of small tables in groups of each kind, plain and flipped, and of a table of many rows: the
//! values and the counts were found by hand.

use crate::products::{Due, left_is, product_is, right_is, self_product_is};
use crate::tables::{GREATEST, KINDS, matrix, table};
use cla_checked_tables::Entry;
use cla_coded::Coded;
use cla_group::Kind;
use std::alloc::Global;
use std::test::Fail;

// These two, 500 times.
fn repeated<T: Copy + Drop>(alloc: Global, pair: [T; 2]) -> Result<Vec<T>, Fail> {
    let mut made = Vec::new(alloc);
    for _ in 0..500u32 {
        made.extend_from_slice(&pair)?;
    }
    Ok(made)
}

// Two columns of 1000 rows, both 1, 2, 1, 2 and so on, in one group or in two.
fn alternating(alloc: Global, groups: usize) -> Result<Coded<Entry>, Fail> {
    let codes = repeated(alloc, [0, 1])?;
    let parts: &[(&[u32], &[i64])] = if groups == 1 {
        &[(&[0, 1], &[1, 1, 2, 2])]
    } else {
        &[(&[0], &[1, 2]), (&[1], &[1, 2])]
    };
    table(alloc, Kind::Codes, 2, false, &codes, parts)
}

// The sums of the rows, and those of the columns.
fn sums_of_alternating(alloc: Global, groups: usize, of_rows: &[i64]) -> Result<(), Fail> {
    let v = matrix(alloc, 2, 1, &[1, 1])?;
    right_is(
        alloc,
        alternating(alloc, groups)?,
        v,
        Due::Counted(of_rows, 4),
    )?;
    let ones = matrix(alloc, 1, 1000, &repeated(alloc, [1, 1])?)?;
    left_is(
        alloc,
        ones,
        alternating(alloc, groups)?,
        Due::Counted(&[1500, 1500], 4),
    )
}

#[test]
fn many_rows_and_few_multiplications(rt: HostRuntime) -> Result<(), Fail> {
    let of_rows = repeated(rt.alloc(), [2, 4])?;
    sums_of_alternating(rt.alloc(), 1, &of_rows)?;
    sums_of_alternating(rt.alloc(), 2, &of_rows)
}

// The rows (1, 2) and (3, 4) in groups of this kind.
fn two_by_two(alloc: Global, kind: Kind, flipped: bool) -> Result<Coded<Entry>, Fail> {
    table(
        alloc,
        kind,
        2,
        flipped,
        &[0, 1],
        &[(&[0], &[1, 3]), (&[1], &[2, 4])],
    )
}

// Two rows of three.
fn by_a_matrix(alloc: Global, kind: Kind, flipped: bool, cells: &[i64]) -> Result<(), Fail> {
    let b = matrix(alloc, 2, 3, &[1, 0, -1, 2, 5, 0])?;
    right_is(
        alloc,
        two_by_two(alloc, kind, flipped)?,
        b,
        Due::Counted(cells, 12),
    )
}

fn of_a_matrix(alloc: Global, kind: Kind, flipped: bool, cells: &[i64]) -> Result<(), Fail> {
    let a = matrix(alloc, 3, 2, &[1, 2, 0, 5, -1, 0])?;
    left_is(
        alloc,
        a,
        two_by_two(alloc, kind, flipped)?,
        Due::Counted(cells, 12),
    )
}

fn of_tables(alloc: Global, kind: Kind, flips: (bool, bool), cells: &[i64]) -> Result<(), Fail> {
    let a = two_by_two(alloc, kind, flips.0)?;
    product_is(
        alloc,
        a,
        two_by_two(alloc, kind, flips.1)?,
        Due::Counted(cells, 8),
    )
}

#[test]
fn each_kind_plain_and_flipped(rt: HostRuntime) -> Result<(), Fail> {
    let alloc = rt.alloc();
    for kind in KINDS {
        by_a_matrix(alloc, kind, false, &[5, 10, -1, 11, 20, -3])?;
        by_a_matrix(alloc, kind, true, &[7, 15, -1, 10, 20, -2])?;
        of_a_matrix(alloc, kind, false, &[7, 10, 15, 20, -1, -2])?;
        of_a_matrix(alloc, kind, true, &[5, 11, 10, 20, -1, -3])?;
        of_tables(alloc, kind, (false, false), &[7, 10, 15, 22])?;
        of_tables(alloc, kind, (false, true), &[5, 11, 11, 25])?;
        of_tables(alloc, kind, (true, false), &[10, 14, 14, 20])?;
        let square = Due::Counted(&[10, 14, 14, 20], 6);
        self_product_is(alloc, two_by_two(alloc, kind, false)?, square)?;
    }
    Ok(())
}

#[test]
fn the_cheaper_side(rt: HostRuntime) -> Result<(), Fail> {
    let alloc = rt.alloc();
    let cells = &[2500, 2500, 2500, 2500];
    let t = alternating(alloc, 2)?.flip();
    product_is(alloc, t, alternating(alloc, 1)?, Due::Counted(cells, 8))?;
    self_product_is(alloc, alternating(alloc, 1)?, Due::Counted(cells, 6))
}

// The rows (0, 2) and (2, 0) by the matrix of the greatest number, 1, 1 and the greatest: the first entry
// row by row that isn't in range is in row 1 and column 2, and that column by column in row 2 and column 1.
#[test]
fn first_entry_out_of_range(rt: HostRuntime) -> Result<(), Fail> {
    let alloc = rt.alloc();
    let x = table(
        alloc,
        Kind::Codes,
        2,
        false,
        &[0, 1],
        &[(&[0, 1], &[0, 2, 2, 0])],
    )?;
    let b = matrix(alloc, 2, 2, &[GREATEST, 1, 1, GREATEST])?;
    right_is(alloc, x, b, Due::Fault(1, 2))
}

// The greatest number twice, and then less it: the sum is in range, and no partial sum is tested.
#[test]
fn partial_sums_out_of_range(rt: HostRuntime) -> Result<(), Fail> {
    let alloc = rt.alloc();
    let ones = matrix(alloc, 1, 3, &[1, 1, -1])?;
    let x = table(
        alloc,
        Kind::Plain,
        1,
        false,
        &[0, 0, 0],
        &[(&[0], &[GREATEST])],
    )?;
    left_is(alloc, ones, x, Due::Counted(&[GREATEST], 3))
}
