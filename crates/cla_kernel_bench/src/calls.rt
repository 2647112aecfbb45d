//! The calls, and how long they take.

ghost use Rattle.std.specs.Prelude.{◌≡◌};

use crate::operands::Operands;
use crate::task::Task;
use cla_agg::{
    col_greatest, col_least, col_sums, greatest, least, row_greatest, row_least, row_sums, sum,
};
use cla_checked_tables::Entry;
use cla_coded::Coded;
use cla_group::Group;
use cla_map::{broadcast_row, map_chain};
use cla_measuring::{CheckSum, Measured, sum_of_numbers};
use cla_num::{CellOp, Dense, Meter};
use std::alloc::Global;
use std::rt::Runtime;
use std::test::Fail;
use std::time::Instant;

/// A call that is measured.
#[derive(Clone, Copy)]
pub enum Call {
    Sum,
    RowSums,
    ColSums,
    Least,
    Greatest,
    RowLeast,
    RowGreatest,
    ColLeast,
    ColGreatest,
    MapChain,
    BroadcastRow,
}

/// The calls, and what they are named.
pub const CALLS: [(Call, &str); 11] = [
    (Call::Sum, "sum"),
    (Call::RowSums, "row_sums"),
    (Call::ColSums, "col_sums"),
    (Call::Least, "least"),
    (Call::Greatest, "greatest"),
    (Call::RowLeast, "row_least"),
    (Call::RowGreatest, "row_greatest"),
    (Call::ColLeast, "col_least"),
    (Call::ColGreatest, "col_greatest"),
    (Call::MapChain, "map_chain"),
    (Call::BroadcastRow, "broadcast_row"),
];

// What a call made.
#[derive(Drop)]
enum Made {
    Number(Entry),
    Matrix(Dense<Entry>),
    Table(Coded<Entry>),
}

impl Made {
    fn check_sum(&self) -> u64 {
        match self {
            Made::Number(number) => sum_of_numbers([*number].as_slice()),
            Made::Matrix(matrix) => sum_of_numbers(matrix.cells()),
            Made::Table(table) => sum_of_table(table),
        }
    }
}

// The check sum of the values of all groups.
fn sum_of_table(table: &Coded<Entry>) -> u64 {
    let mut sum = CheckSum::new();
    for part in table.parts() {
        sum.add_values(&part.group);
    }
    sum.value
}

// The sums and the extremes of a table.
fn aggregate(alloc: Global, call: Call, m: &Coded<Entry>) -> Result<Made, Fail> {
    let meter = &mut Meter::new();
    Ok(match call {
        Call::RowSums => Made::Matrix(row_sums(alloc, m, meter)?),
        Call::ColSums => Made::Matrix(col_sums(alloc, m, meter)?),
        Call::Least => Made::Number(least(m)),
        Call::Greatest => Made::Number(greatest(m)),
        Call::RowLeast => Made::Matrix(row_least(alloc, m)?),
        Call::RowGreatest => Made::Matrix(row_greatest(alloc, m)?),
        Call::ColLeast => Made::Matrix(col_least(alloc, m)?),
        Call::ColGreatest => Made::Matrix(col_greatest(alloc, m)?),
        _ => Made::Number(sum(m, meter)?),
    })
}

fn chain(alloc: Global, operands: &Operands) -> Result<Made, Fail> {
    if operands.steps.len() > 8 {
        return Err(Fail::new("too many steps"));
    }
    let table = map_chain(alloc, &operands.table, &operands.steps, &mut Meter::new())?;
    Ok(Made::Table(table))
}

fn broadcast(alloc: Global, operands: &Operands) -> Result<Made, Fail> {
    let (table, row) = (&operands.table, &operands.row);
    if table.flipped() || row.len() != table.cols() as usize {
        return Err(Fail::new("no row for the table"));
    }
    let made = broadcast_row(alloc, table, CellOp::Add, row, &mut Meter::new())?;
    Ok(Made::Table(made))
}

fn make(alloc: Global, call: Call, operands: &Operands) -> Result<Made, Fail> {
    match call {
        Call::MapChain => chain(alloc, operands),
        Call::BroadcastRow => broadcast(alloc, operands),
        _ => aggregate(alloc, call, &operands.table),
    }
}

/// Measures a call, in at most the task's rounds, and what it made.
pub fn measure(
    rt: &(impl Runtime + AllocGlobal),
    task: &Task,
    call: Call,
    operands: &Operands,
) -> Result<Measured, Fail> {
    let mut best = Measured::new();
    for round in 0..task.rounds {
        let start = Instant::now(rt)?;
        let made = make(rt.alloc(), call, operands)?;
        best.end_round(rt, start)?;
        if round == 0 {
            best.sum = made.check_sum();
        }
        if best.is_enough() {
            break;
        }
    }
    Ok(best)
}
