//! Matrices whose shape is tested when the tests run.

use cla_num::{Dense, Int, Number};
use std::alloc::Global;
use std::test::Fail;

pub(crate) type Entry = Int<47>;

// At most so many cells may a matrix have.
const MOST_CELLS: u64 = 1 << 26;

/// The matrix of these integers, which stand row by row.
pub(crate) fn matrix(
    alloc: Global,
    rows: u32,
    cols: u32,
    of: &[i64],
) -> Result<Dense<Entry>, Fail> {
    let mut cells = Vec::with_capacity(alloc, of.len())?;
    for v in of {
        cells.push(Entry::of(*v).ok_or("in range")?)?;
    }
    let count = cells.len() as u64;
    if rows == 0 || cols == 0 || count > MOST_CELLS || count != rows as u64 * cols as u64 {
        return Err(Fail::new("a matrix of another shape"));
    }
    Ok(Dense::new(rows, cols, cells))
}

/// Whether two matrices have the same rows, columns and cells.
pub(crate) fn are_same(one: &Dense<Entry>, other: &Dense<Entry>) -> bool {
    one.rows() == other.rows() && one.cols() == other.cols() && one.cells() == other.cells()
}
