//! Matrices and tables of given cells.

use cla_checked_tables::{Entry, group_of, numbers, table_of};
use cla_coded::{AnyGroup, Coded, Part};
use cla_group::Kind;
use cla_num::Dense;
use std::alloc::Global;
use std::test::Fail;

pub(crate) const KINDS: [Kind; 4] = [Kind::Plain, Kind::Codes, Kind::Offsets, Kind::Runs];

/// The greatest number; no number is less than its negation.
pub(crate) const GREATEST: i64 = 140737488355327;

/// At most so many cells may a matrix have.
pub(crate) const MOST_CELLS: u64 = 1 << 26;

/// The matrix of these cells.
pub(crate) fn matrix(
    alloc: Global,
    rows: u32,
    cols: u32,
    cells: &[i64],
) -> Result<Dense<Entry>, Fail> {
    if rows == 0 || cols == 0 || cells.len() as u64 != u64::from(rows) * u64::from(cols) {
        return Err(Fail::new("no matrix"));
    }
    if cells.len() as u64 > MOST_CELLS {
        return Err(Fail::new("too many cells"));
    }
    Ok(Dense::new(rows, cols, numbers(alloc, cells)?))
}

/// The part of these columns.
pub(crate) fn part_of(
    alloc: Global,
    kind: Kind,
    columns: &[u32],
    codes: &[u32],
    values: &[i64],
) -> Result<Part<AnyGroup<Entry>>, Fail> {
    let width = u32::try_from(columns.len())?;
    Ok(Part {
        columns: Vec::from_slice(alloc, columns)?,
        group: group_of(alloc, kind, width, codes, values)?,
    })
}

/// The table of groups of this kind, whose rows have these codes. Each part is given by its columns and the
/// values of its tuples.
pub(crate) fn table(
    alloc: Global,
    kind: Kind,
    cols: u32,
    flipped: bool,
    codes: &[u32],
    parts: &[(&[u32], &[i64])],
) -> Result<Coded<Entry>, Fail> {
    let mut made = Vec::new(alloc);
    for (columns, values) in parts {
        made.push(part_of(alloc, kind, columns, codes, values)?)?;
    }
    table_of(alloc, u32::try_from(codes.len())?, cols, flipped, made)
}
