//! Generated matrices that are packed, read, and packed again.

use crate::matrices::{Entry, are_same, matrix};
use crate::packed_files::{packed, read_bytes};
use cla_num::Dense;
use std::alloc::Global;
use std::test::Fail;

const MOST_BYTES: u64 = 1 << 32;

// Rows, columns, and how many rows in turn are the same: each shape up to four rows and columns, and longer
// ones, one of them over the end of a segment of rows.
const SHAPES: [(u32, u32, u32); 22] = [
    (1, 1, 1),
    (1, 2, 1),
    (1, 3, 1),
    (1, 4, 1),
    (2, 1, 1),
    (2, 2, 1),
    (2, 3, 1),
    (2, 4, 1),
    (3, 1, 1),
    (3, 2, 1),
    (3, 3, 1),
    (3, 4, 1),
    (4, 1, 1),
    (4, 2, 1),
    (4, 3, 1),
    (4, 4, 1),
    (40, 1, 10),
    (50, 3, 5),
    (300, 1, 1),
    (600, 2, 150),
    (1000, 1, 250),
    (33_000, 1, 3_000),
];

// How many matrices are generated of each shape.
const SEEDS: u32 = 5;

const VALUES: [i64; 4] = [0, -1, 140_737_488_355_327, -140_737_488_355_327];

// A value that depends on its seed and place without order.
fn value_at(seed: u32, place: u32) -> i64 {
    let mixed = place.wrapping_add(seed).wrapping_mul(2_654_435_769);
    VALUES[(mixed / 65_537 % 4) as usize]
}

fn generated(alloc: Global, shape: (u32, u32, u32), seed: u32) -> Result<Dense<Entry>, Fail> {
    let (rows, cols, run) = shape;
    if cols == 0 || run == 0 {
        return Err(Fail::new("no cells"));
    }
    let mut values = Vec::new(alloc);
    for k in 0..rows.saturating_mul(cols) {
        let block = k / cols / run;
        let place = block.wrapping_mul(cols).wrapping_add(k % cols);
        values.push(value_at(seed.wrapping_mul(1000), place))?;
    }
    matrix(alloc, rows, cols, &values)
}

// The matrix that a packed file holds.
fn unpacked(alloc: Global, file: &[u8]) -> Result<Dense<Entry>, Fail> {
    let read = read_bytes(alloc, file, MOST_BYTES)??;
    Ok(read.table.to_dense(alloc)?)
}

// Whether a matrix's packed file holds the matrix, and is that of what it holds.
fn comes_back(alloc: Global, m: &Dense<Entry>) -> Result<bool, Fail> {
    let file = packed(alloc, m)?;
    let back = unpacked(alloc, &file)?;
    Ok(are_same(m, &back) && packed(alloc, &back)? == file)
}

// The first seed by which a matrix of this shape does not come back.
fn wrong_seed(alloc: Global, shape: (u32, u32, u32)) -> Result<Option<u32>, Fail> {
    for seed in 0..SEEDS {
        let m = generated(alloc, shape, seed)?;
        if !comes_back(alloc, &m)? {
            return Ok(Some(seed));
        }
    }
    Ok(None)
}

#[test]
fn matrices_come_back(rt: HostRuntime) -> Result<(), Fail> {
    for shape in SHAPES {
        assert_eq!(rt; wrong_seed(rt.alloc(), shape)?, None);
    }
    Ok(())
}

// A column of 70,000 rows of which one in 613 has a number from 1 to 3, and the others 0.
fn sparse_column(alloc: Global) -> Result<Dense<Entry>, Fail> {
    let mut values = Vec::new(alloc);
    for row in 0..70_000u32 {
        let value = if row % 613 == 5 { 1 + row % 3 } else { 0 };
        values.push(value as i64)?;
    }
    matrix(alloc, 70_000, 1, &values)
}

#[test]
fn lists_over_segments_come_back(rt: HostRuntime) -> Result<(), Fail> {
    let m = sparse_column(rt.alloc())?;
    // (behind the magic, the rows, the columns and the groups stands the kind of the first group: lists)
    assert_eq!(rt; packed(rt.alloc(), &m)?.get(20).copied(), Some(3));
    assert_eq!(rt; comes_back(rt.alloc(), &m)?, true);
    Ok(())
}

// A column of so many rows, which go over the numbers from 1 to `values` in turn.
fn column_in_turn(alloc: Global, rows: u32, values: u32) -> Result<Dense<Entry>, Fail> {
    if values == 0 {
        return Err(Fail::new("no values"));
    }
    let mut column = Vec::new(alloc);
    for row in 0..rows {
        column.push(1 + (row % values) as i64)?;
    }
    matrix(alloc, rows, 1, &column)
}

#[test]
fn codes_of_more_bytes_come_back(rt: HostRuntime) -> Result<(), Fail> {
    for (rows, values) in [(3_000, 1_000), (210_000, 70_000)] {
        let m = column_in_turn(rt.alloc(), rows, values)?;
        // (the kind of the first group: codes)
        assert_eq!(rt; packed(rt.alloc(), &m)?.get(20).copied(), Some(2));
        assert_eq!(rt; comes_back(rt.alloc(), &m)?, true);
    }
    Ok(())
}
