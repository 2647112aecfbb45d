//! Each call on small tables of every shape, in every grouping and kind, plain and flipped, beside a slow
//! evaluation.

use crate::calls::answers;
use crate::layouts::{Grouping, grouped};
use crate::slow::{Call, Cells, Fold, Lines, SlowStep, expected};
use cla_checked_tables::Entry;
use cla_coded::Coded;
use cla_num::CellOp;
use std::alloc::Global;
use std::process::Abort;
use std::test::Fail;

const OPS: [CellOp; 11] = [
    CellOp::Add,
    CellOp::Sub,
    CellOp::Mul,
    CellOp::Div,
    CellOp::Mod,
    CellOp::Lt,
    CellOp::Le,
    CellOp::Gt,
    CellOp::Ge,
    CellOp::Eq,
    CellOp::Ne,
];

const LINES: [Lines; 3] = [Lines::All, Lines::Rows, Lines::Columns];

const FOLDS: [Fold; 3] = [Fold::Sum, Fold::Least, Fold::Greatest];

const GROUPINGS: [Grouping; 3] = [Grouping::One, Grouping::Each, Grouping::EvenAndOdd];

// With 2^46 a product by 2 is out of range, with 0 a quotient.
const SCALARS: [i64; 3] = [0, -2, 1 << 46];

// The table answers what the cells have to answer.
fn check(
    rt: &impl Abort,
    alloc: Global,
    table: &Coded<Entry>,
    cells: &Cells,
    call: Call,
) -> Result<(), Fail> {
    answers(rt, alloc, table, call, &expected(alloc, cells, call)?)
}

// Sums, least and greatest of all cells, of the rows, and of the columns.
fn aggregates(
    rt: &impl Abort,
    alloc: Global,
    table: &Coded<Entry>,
    cells: &Cells,
) -> Result<(), Fail> {
    for lines in LINES.as_slice() {
        for fold in FOLDS.as_slice() {
            check(rt, alloc, table, cells, Call::Of(*fold, *lines))?;
        }
    }
    Ok(())
}

// Each operator with a scalar on either side, after another step and before one.
fn chains(rt: &impl Abort, alloc: Global, table: &Coded<Entry>, cells: &Cells) -> Result<(), Fail> {
    for op in OPS.as_slice() {
        for scalar in SCALARS.as_slice() {
            let right = SlowStep::Right(*op, *scalar);
            let left = SlowStep::Left(*op, *scalar);
            let before = [SlowStep::Neg, left, right];
            let after = [right, SlowStep::Square, left];
            check(rt, alloc, table, cells, Call::Chain(&before))?;
            check(rt, alloc, table, cells, Call::Chain(&after))?;
        }
    }
    Ok(())
}

// Each operator with a row.
fn rows(rt: &impl Abort, alloc: Global, table: &Coded<Entry>, cells: &Cells) -> Result<(), Fail> {
    let mut row = Vec::new(alloc);
    for j in 0..cells.cols {
        row.push(SCALARS[j as usize % 3])?;
    }
    for op in OPS.as_slice() {
        check(rt, alloc, table, cells, Call::Row(*op, &row))?;
    }
    Ok(())
}

// All calls on this table of these cells.
fn all_calls(
    rt: &impl Abort,
    alloc: Global,
    table: &Coded<Entry>,
    cells: &Cells,
) -> Result<(), Fail> {
    aggregates(rt, alloc, table, cells)?;
    chains(rt, alloc, table, cells)?;
    if table.flipped() {
        Ok(())
    } else {
        rows(rt, alloc, table, cells)
    }
}

// All calls on the table of this grouping, plain and flipped.
fn in_grouping(
    rt: &impl Abort,
    alloc: Global,
    cells: &Cells,
    grouping: Grouping,
    kind: usize,
) -> Result<(), Fail> {
    let table = grouped(alloc, cells, grouping, kind, false)?;
    all_calls(rt, alloc, &table, cells)?;
    all_calls(rt, alloc, &table.flip(), &cells.turned(alloc)?)
}

// All calls on tables of this shape.
fn of_shape(rt: &impl Abort, alloc: Global, rows: u32, cols: u32) -> Result<(), Fail> {
    let cells = Cells::few_values(alloc, rows, cols)?;
    for kind in 0..4usize {
        for grouping in GROUPINGS.as_slice() {
            in_grouping(rt, alloc, &cells, *grouping, kind)?;
        }
    }
    Ok(())
}

#[test]
fn small_tables(rt: HostRuntime) -> Result<(), Fail> {
    let alloc = rt.alloc();
    for rows in 1..5u32 {
        for cols in 1..5u32 {
            of_shape(&rt, alloc, rows, cols)?;
        }
    }
    Ok(())
}
