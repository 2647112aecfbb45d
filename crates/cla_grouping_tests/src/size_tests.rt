//! The four sizes, beside a slow count over the rows.

use crate::made::matrix;
use cla_cocode::sizes;
use cla_stats::Tuples;
use std::alloc::Global;
use std::test::Fail;

// Rows as numbers, 0 is the row of zeros, and what their tuples are. `seen` has a 1 for each number that
// was a row, and `last` is 8 before the first.
#[derive(Clone, Copy)]
struct Counted {
    seen: [bool; 8],
    last: u32,
    distinct: u8,
    listed: u8,
    listed_rows: u8,
    listed_runs: u8,
}

const NO_ROWS: Counted = Counted {
    seen: [false; 8],
    last: 8,
    distinct: 0,
    listed: 0,
    listed_rows: 0,
    listed_runs: 0,
};

// One more row.
fn with_row(before: Counted, row: u32) -> Counted {
    let mut counted = before;
    let listed = row != 0;
    if let Some(seen) = counted.seen.get_mut(row as usize)
        && !*seen
    {
        *seen = true;
        counted.distinct = before.distinct.saturating_add(1);
        counted.listed = before.listed.saturating_add(listed as u8);
    }
    counted.last = row;
    counted.listed_rows = before.listed_rows.saturating_add(listed as u8);
    counted.listed_runs = before
        .listed_runs
        .saturating_add((listed && row != before.last) as u8);
    counted
}

// So many rows, which are the digits of a number in a base.
fn counted_rows(rows: u8, base: u32, number: u32) -> Counted {
    let mut counted = NO_ROWS;
    let mut left = number;
    for _ in 0..rows {
        counted = with_row(counted, left.checked_rem(base).unwrap_or(0));
        left = left.checked_div(base).unwrap_or(0);
    }
    counted
}

// The sizes of so few rows: there are fewer than 257 tuples, and one segment.
fn slow_sizes(rows: u8, cols: u8, counted: Counted) -> [u64; 4] {
    let (n, width) = (rows as u64, cols as u64);
    let distinct = counted.distinct as u64;
    let listed = counted.listed as u64;
    let head = 5 + 4 * width;
    [
        head + 8 * (n * width),
        head + 4 + 8 * (distinct * width) + n,
        head + 5 + 8 * (listed * width) + 2 * listed + 2 * counted.listed_rows as u64,
        head + 5 + 8 * (listed * width) + 4 * listed + 8 * counted.listed_runs as u64,
    ]
}

// The digits of a number in base 2, the lowest first.
fn bits(number: u32) -> [i64; 9] {
    let mut bits = [0; 9];
    let mut left = number;
    for bit in &mut bits {
        *bit = i64::from(left % 2);
        left /= 2;
    }
    bits
}

// The sizes of all columns of a table with these entries.
fn sizes_of(alloc: Global, rows: u8, cols: u8, entries: &[i64]) -> Result<[u64; 4], Fail> {
    let m = matrix(alloc, rows as u32, cols as u32, entries)?;
    let tuples = match cols {
        1 => Tuples::count(alloc, &m, &[0])?,
        2 => Tuples::count(alloc, &m, &[0, 1])?,
        3 => Tuples::count(alloc, &m, &[0, 1, 2])?,
        _ => return Err(Fail::new("more columns")),
    };
    Ok(sizes(&tuples))
}

// The table of so many rows and columns, a row's entries make a number below `base`, whose sizes are others.
fn differing(
    alloc: Global,
    rows: u8,
    cols: u8,
    base: u32,
    tables: u32,
) -> Result<Option<u32>, Fail> {
    for number in 0..tables {
        let entries = bits(number);
        let cells = entries.get(..rows as usize * cols as usize).ok_or("cells")?;
        let expected = slow_sizes(rows, cols, counted_rows(rows, base, number));
        if sizes_of(alloc, rows, cols, cells)? != expected {
            return Ok(Some(number));
        }
    }
    Ok(None)
}

// Rows, columns, the base of a row's number, and how many tables there are.
const SHAPES: [(u8, u8, u32, u32); 9] = [
    (1, 1, 2, 2),
    (2, 1, 2, 4),
    (3, 1, 2, 8),
    (1, 2, 4, 4),
    (2, 2, 4, 16),
    (3, 2, 4, 64),
    (1, 3, 8, 8),
    (2, 3, 8, 64),
    (3, 3, 8, 512),
];

#[test]
fn all_small_tables(rt: HostRuntime) -> Result<(), Fail> {
    for (rows, cols, base, tables) in SHAPES {
        let found = differing(rt.alloc(), rows, cols, base, tables)?;
        assert_eq!(rt; found, None, "{rows} by {cols}");
    }
    Ok(())
}
