//! What the products are of.

use crate::task::{COLUMNS, Task};
use cla_checked_tables::{Entry, group_of, numbers, table_of};
use cla_coded::{AnyGroup, Coded, Part};
use cla_measuring::{Draw, Stop};
use cla_num::Dense;
use std::alloc::Global;
use std::test::Fail;

const MOST_CELLS: u64 = 1 << 26;

/// What the products are of.
#[derive(Drop)]
pub struct Operands {
    pub table: Coded<Entry>,

    /// The transpose of another table of this shape.
    pub turned: Coded<Entry>,

    /// A matrix of one column, with a number for each column of the table.
    pub column: Dense<Entry>,

    /// A matrix of one row, with a number for each row of the table.
    pub row: Dense<Entry>,
}

impl Operands {
    /// What this task's products are of.
    pub fn of(alloc: Global, task: &Task) -> Result<Operands, Fail> {
        Ok(Operands {
            table: table(alloc, task, 0, false)?,
            turned: table(alloc, task, 1 << 30, true)?,
            column: small_numbers(alloc, COLUMNS, 1)?,
            row: small_numbers(alloc, 1, task.rows)?,
        })
    }
}

// A matrix of small numbers, some of them below 0.
fn small_numbers(alloc: Global, rows: u32, cols: u32) -> Result<Dense<Entry>, Fail> {
    let count = u64::from(rows) * u64::from(cols);
    if rows == 0 || cols == 0 || count > MOST_CELLS {
        return Err(Fail::new("no matrix"));
    }
    let mut small = Vec::with_capacity(alloc, count as usize)?;
    for n in 0..count {
        small.push((n % 19) as i64 - 9)?;
    }
    let cells = numbers(alloc, &small)?;
    if cells.len() as u64 != count {
        return Err(Fail::new("no matrix"));
    }
    Ok(Dense::new(rows, cols, cells))
}

// The values of the tuple of zeros and of so many others, which differ.
fn values(alloc: Global, tuples: u32, width: u32) -> Result<Vec<i64>, Fail> {
    let mut values = Vec::from_elem(alloc, 0, width as usize)?;
    for k in 0..tuples {
        for c in 0..width {
            let size = i64::from(k) + 1;
            values.push(if c % 2 == 1 { -size } else { size })?;
        }
    }
    Ok(values)
}

// The part of so many columns from this one on.
fn part(
    alloc: Global,
    task: &Task,
    first: u32,
    width: u32,
    salt: u32,
) -> Result<Part<AnyGroup<Entry>>, Fail> {
    let draw = Draw {
        kind: task.kind,
        rows: task.rows,
        tuples: task.tuples,
        listed: task.listed,
        salt,
    };
    let codes = draw.codes_of_rows(alloc)?;
    let values = values(alloc, task.tuples, width)?;
    let group = group_of(alloc, task.kind, width, &codes, &values)?;
    let columns = (first..first.saturating_add(width)).collect(alloc)?;
    Ok(Part { columns, group })
}

// The table, or its transpose where it is flipped.
fn table(alloc: Global, task: &Task, salt: u32, flipped: bool) -> Result<Coded<Entry>, Fail> {
    let width = COLUMNS.checked_div(task.groups).ok_or(Stop::Words)?;
    let mut parts = Vec::new(alloc);
    for q in 0..task.groups {
        let salt = q.wrapping_mul(1 << 22).wrapping_add(salt);
        parts.push(part(alloc, task, q.wrapping_mul(width), width, salt)?)?;
    }
    table_of(alloc, task.rows, COLUMNS, flipped, parts)
}
