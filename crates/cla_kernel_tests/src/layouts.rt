//! Tables of the same cells, in groups of several kinds.

use crate::slow::Cells;
use cla_checked_tables::{Entry, group_of, table_of};
use cla_coded::{AnyGroup, Coded, Part};
use cla_group::Kind;
use std::alloc::Global;
use std::test::Fail;

const KINDS: [Kind; 4] = [Kind::Plain, Kind::Codes, Kind::Offsets, Kind::Runs];

/// How the columns of a table are grouped.
#[derive(Clone, Copy)]
pub(crate) enum Grouping {
    /// All columns in one group.
    One,

    /// Each column by itself.
    Each,

    /// The even columns, and the odd ones.
    EvenAndOdd,
}

impl Grouping {
    // The columns of each group.
    fn columns(self, alloc: Global, cols: u32) -> Result<Vec<Vec<u32>>, Fail> {
        let (groups, step) = match self {
            Grouping::One => (1, 1),
            Grouping::Each => (cols, cols),
            Grouping::EvenAndOdd => (cols.min(2), 2),
        };
        let mut listed = Vec::new(alloc);
        for first in 0..groups {
            listed.push(every(alloc, first, step, cols)?)?;
        }
        Ok(listed)
    }
}

// The columns from `first` on of which the remainder by `step` is that of `first`.
fn every(alloc: Global, first: u32, step: u32, cols: u32) -> Result<Vec<u32>, Fail> {
    let mut columns = Vec::new(alloc);
    for j in first..cols {
        if j.checked_rem(step) == first.checked_rem(step) {
            columns.push(j)?;
        }
    }
    Ok(columns)
}

// The first row that has the cells of row i in these columns.
fn first_alike(cells: &Cells, columns: &[u32], i: u32) -> Result<u32, Fail> {
    for r in 0..i {
        if cells.are_alike(r, i, columns)? {
            return Ok(r);
        }
    }
    Ok(i)
}

// The code of each row. Tuples are numbered by the first rows that have them, which `firsts` gets.
fn numbered(
    alloc: Global,
    cells: &Cells,
    columns: &[u32],
    firsts: &mut Vec<u32>,
) -> Result<Vec<u32>, Fail> {
    let mut codes = Vec::new(alloc);
    for i in 0..cells.rows {
        let r = first_alike(cells, columns, i)?;
        if r < i {
            let code = *codes.get(r as usize).ok_or("a code")?;
            codes.push(code)?;
        } else {
            codes.push(u32::try_from(firsts.len())?)?;
            firsts.push(i)?;
        }
    }
    Ok(codes)
}

// The part of these columns.
fn part_of(
    alloc: Global,
    cells: &Cells,
    columns: Vec<u32>,
    kind: Kind,
) -> Result<Part<AnyGroup<Entry>>, Fail> {
    let mut firsts = Vec::new(alloc);
    let codes = numbered(alloc, cells, &columns, &mut firsts)?;
    let values = cells.in_rows(alloc, &firsts, &columns)?;
    let width = u32::try_from(columns.len())?;
    let group = group_of(alloc, kind, width, &codes, &values)?;
    Ok(Part { columns, group })
}

/// The parts of these cells, of groups whose kinds take turns from this one on.
pub(crate) fn parts_of(
    alloc: Global,
    cells: &Cells,
    grouping: Grouping,
    first: usize,
) -> Result<Vec<Part<AnyGroup<Entry>>>, Fail> {
    let mut parts = Vec::new(alloc);
    for columns in grouping.columns(alloc, cells.cols)? {
        let kind = KINDS[(first % 4 + parts.len() % 4) % 4];
        parts.push(part_of(alloc, cells, columns, kind)?)?;
    }
    Ok(parts)
}

/// The table of these parts of the cells, or its transpose.
pub(crate) fn grouped(
    alloc: Global,
    cells: &Cells,
    grouping: Grouping,
    first: usize,
    flipped: bool,
) -> Result<Coded<Entry>, Fail> {
    let parts = parts_of(alloc, cells, grouping, first)?;
    table_of(alloc, cells.rows, cells.cols, flipped, parts)
}
