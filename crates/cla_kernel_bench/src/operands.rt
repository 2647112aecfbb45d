//! What the calls are given.

use crate::task::{COLUMNS, Task};
use cla_checked_tables::{Entry, group_of, numbers, table_of};
use cla_coded::{AnyGroup, Coded, Part};
use cla_map::Step;
use cla_measuring::{Draw, Stop};
use cla_num::{CellOp, Number};
use std::alloc::Global;
use std::test::Fail;

/// What the calls are given.
#[derive(Drop)]
pub struct Operands {
    pub table: Coded<Entry>,

    /// One number for each column.
    pub row: Vec<Entry>,

    /// The steps of a chain.
    pub steps: Vec<Step<Entry>>,
}

impl Operands {
    /// What this task's calls are given.
    pub fn of(alloc: Global, task: &Task) -> Result<Operands, Fail> {
        let three = Entry::of(3).ok_or(Stop::Codes)?;
        let mut steps = Vec::new(alloc);
        for op in [CellOp::Mul, CellOp::Add] {
            steps.push(Step::Right { op, scalar: three })?;
        }
        Ok(Operands {
            table: table(alloc, task)?,
            row: small_numbers(alloc, COLUMNS)?,
            steps,
        })
    }
}

// So many small numbers, some of them below 0.
fn small_numbers(alloc: Global, count: u32) -> Result<Vec<Entry>, Fail> {
    let mut small = Vec::with_capacity(alloc, count as usize)?;
    for n in 0..count {
        small.push(i64::from(n % 19) - 9)?;
    }
    numbers(alloc, &small)
}

// The values of the tuple of zeros and of so many others, which differ.
fn values(alloc: Global, tuples: u32, width: u32) -> Result<Vec<i64>, Fail> {
    let mut values = Vec::from_elem(alloc, 0, width as usize)?;
    for k in 0..tuples {
        for c in 0..width {
            let size = i64::from(k) + 1;
            values.push(if c % 2 == 1 { -size } else { size })?;
        }
    }
    Ok(values)
}

// The part of so many columns from this one on.
fn part(
    alloc: Global,
    task: &Task,
    first: u32,
    width: u32,
    salt: u32,
) -> Result<Part<AnyGroup<Entry>>, Fail> {
    let draw = Draw {
        kind: task.kind,
        rows: task.rows,
        tuples: task.tuples,
        listed: task.listed,
        salt,
    };
    let codes = draw.codes_of_rows(alloc)?;
    let values = values(alloc, task.tuples, width)?;
    let group = group_of(alloc, task.kind, width, &codes, &values)?;
    let columns = (first..first.saturating_add(width)).collect(alloc)?;
    Ok(Part { columns, group })
}

// The table of groups of equally many columns.
fn table(alloc: Global, task: &Task) -> Result<Coded<Entry>, Fail> {
    let width = COLUMNS.checked_div(task.groups).ok_or(Stop::Words)?;
    let mut parts = Vec::new(alloc);
    for q in 0..task.groups {
        let salt = q.wrapping_mul(1 << 22);
        parts.push(part(alloc, task, q.wrapping_mul(width), width, salt)?)?;
    }
    table_of(alloc, task.rows, COLUMNS, false, parts)
}
