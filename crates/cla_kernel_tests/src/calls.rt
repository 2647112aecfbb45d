//! The calls on tables, each with counts of its own, and what they answer.

ghost use Rattle.std.specs.Prelude.{◌≡◌};
ghost use Rattle.cla_num.specs.Counts.{AreBelow, kernel_bound};

use crate::slow::{Call, Fold, Lines, Outcome, SlowStep};
use cla_agg::{
    col_greatest, col_least, col_sums, greatest, least, row_greatest, row_least, row_sums, sum,
};
use cla_checked_tables::{Entry, numbers};
use cla_coded::{Coded, Table};
use cla_group::Group;
use cla_map::{Step, broadcast_row, map_chain};
use cla_num::{CellOp, Dense, Meter, Number, Refused};
use std::alloc::Global;
use std::process::Abort;
use std::test::Fail;

// The place of a fault.
fn place_of(refused: Refused) -> Result<Outcome, Fail> {
    match refused {
        Refused::Op(fault) => Ok(Outcome::Fault(fault.op, fault.row, fault.col)),
        Refused::Memory => Err(Fail::new("no memory")),
    }
}

fn cells_of(m: Dense<Entry>) -> Outcome {
    Outcome::Cells(m.rows(), m.cols(), Vec::from(m))
}

// What an answer is.
fn of_table(alloc: Global, answer: Result<Coded<Entry>, Refused>) -> Result<Outcome, Fail> {
    match answer {
        Ok(table) => Ok(cells_of(table.to_dense(alloc)?)),
        Err(refused) => place_of(refused),
    }
}

fn of_sums(answer: Result<Dense<Entry>, Refused>) -> Result<Outcome, Fail> {
    match answer {
        Ok(m) => Ok(cells_of(m)),
        Err(refused) => place_of(refused),
    }
}

fn of_number(alloc: Global, number: Entry) -> Result<Outcome, Fail> {
    Ok(Outcome::Cells(1, 1, Vec::from_elem(alloc, number, 1)?))
}

// The step with a number.
fn step_of(step: SlowStep) -> Result<Step<Entry>, Fail> {
    match step {
        SlowStep::Right(op, b) => Ok(Step::Right {
            op,
            scalar: Entry::of(b).ok_or("in range")?,
        }),
        SlowStep::Left(op, a) => Ok(Step::Left {
            op,
            scalar: Entry::of(a).ok_or("in range")?,
        }),
        SlowStep::Neg => Ok(Step::Neg),
        SlowStep::Square => Ok(Step::Square),
    }
}

fn chain(alloc: Global, table: &Coded<Entry>, steps: &[SlowStep]) -> Result<Outcome, Fail> {
    let mut made = Vec::new(alloc);
    for step in steps {
        made.push(step_of(*step)?)?;
    }
    if made.len() > 8 {
        return Err(Fail::new("too many steps"));
    }
    of_table(alloc, map_chain(alloc, table, &made, &mut Meter::new()))
}

fn with_row(alloc: Global, table: &Coded<Entry>, op: CellOp, row: &[i64]) -> Result<Outcome, Fail> {
    let row = numbers(alloc, row)?;
    if table.flipped() || row.len() != table.cols() as usize {
        return Err(Fail::new("no row for the table"));
    }
    let answer = broadcast_row(alloc, table, op, &row, &mut Meter::new());
    of_table(alloc, answer)
}

fn sums<G: Group<Entry>>(
    alloc: Global,
    table: &Table<Entry, G>,
    lines: Lines,
    meter: &mut Meter,
) -> Result<Outcome, Fail>
    requires room { AreBelow kernel_bound meter.old }
{
    match lines {
        Lines::All => match sum(table, meter) {
            Ok(total) => of_number(alloc, total),
            Err(fault) => place_of(Refused::Op(fault)),
        },
        Lines::Rows => of_sums(row_sums(alloc, table, meter)),
        Lines::Columns => of_sums(col_sums(alloc, table, meter)),
    }
}

fn lows<G: Group<Entry>>(
    alloc: Global,
    table: &Table<Entry, G>,
    lines: Lines,
) -> Result<Outcome, Fail> {
    match lines {
        Lines::All => of_number(alloc, least(table)),
        Lines::Rows => Ok(cells_of(row_least(alloc, table)?)),
        Lines::Columns => Ok(cells_of(col_least(alloc, table)?)),
    }
}

fn highs<G: Group<Entry>>(
    alloc: Global,
    table: &Table<Entry, G>,
    lines: Lines,
) -> Result<Outcome, Fail> {
    match lines {
        Lines::All => of_number(alloc, greatest(table)),
        Lines::Rows => Ok(cells_of(row_greatest(alloc, table)?)),
        Lines::Columns => Ok(cells_of(col_greatest(alloc, table)?)),
    }
}

/// What a sum or an extreme of these lines of the table is.
pub(crate) fn aggregate<G: Group<Entry>>(
    alloc: Global,
    table: &Table<Entry, G>,
    fold: Fold,
    lines: Lines,
    meter: &mut Meter,
) -> Result<Outcome, Fail>
    requires room { AreBelow kernel_bound meter.old }
{
    match fold {
        Fold::Sum => sums(alloc, table, lines, meter),
        Fold::Least => lows(alloc, table, lines),
        Fold::Greatest => highs(alloc, table, lines),
    }
}

// What a call on this table answers.
fn answered(alloc: Global, table: &Coded<Entry>, call: Call) -> Result<Outcome, Fail> {
    match call {
        Call::Chain(steps) => chain(alloc, table, steps),
        Call::Row(op, row) => with_row(alloc, table, op, row),
        Call::Of(fold, lines) => aggregate(alloc, table, fold, lines, &mut Meter::new()),
    }
}

/// The call on this table answers this.
pub(crate) fn answers(
    rt: &impl Abort,
    alloc: Global,
    table: &Coded<Entry>,
    call: Call,
    expected: &Outcome,
) -> Result<(), Fail> {
    let answer = answered(alloc, table, call)?;
    assert!(rt; answer.is(expected), "another answer was expected");
    Ok(())
}

/// The call on this table answers a matrix of so many rows and these cells.
pub(crate) fn gives(
    rt: &impl Abort,
    alloc: Global,
    table: &Coded<Entry>,
    call: Call,
    rows: u32,
    cells: &[i64],
) -> Result<(), Fail> {
    answers(rt, alloc, table, call, &Outcome::of(alloc, rows, cells)?)
}
