//! The products, and how long they take.

ghost use Rattle.std.specs.Prelude.{◌≡◌};

use crate::operands::Operands;
use crate::task::Task;
use cla_checked_tables::Entry;
use cla_coded::Coded;
use cla_measuring::{Measured, sum_of_numbers};
use cla_num::{Dense, Meter};
use cla_prod::{left, product, right, self_product};
use std::alloc::Global;
use std::rt::Runtime;
use std::test::Fail;
use std::time::Instant;

const MOST_CELLS: u64 = 1 << 26;

/// A call that is measured.
#[derive(Clone, Copy)]
pub enum Call {
    Right,
    Left,
    Product,
    SelfProduct,
}

/// The calls, and what they are named.
pub const CALLS: [(Call, &str); 4] = [
    (Call::Right, "right"),
    (Call::Left, "left"),
    (Call::Product, "product"),
    (Call::SelfProduct, "self_product"),
];

fn right_of(alloc: Global, a: &Coded<Entry>, b: &Dense<Entry>) -> Result<Dense<Entry>, Fail> {
    if a.cols() != b.rows() || u64::from(a.rows()) * u64::from(b.cols()) > MOST_CELLS {
        return Err(Fail::new("no product"));
    }
    Ok(right(alloc, a, b, &mut Meter::new())?)
}

fn left_of(alloc: Global, a: &Dense<Entry>, b: &Coded<Entry>) -> Result<Dense<Entry>, Fail> {
    if a.cols() != b.rows() || u64::from(a.rows()) * u64::from(b.cols()) > MOST_CELLS {
        return Err(Fail::new("no product"));
    }
    Ok(left(alloc, a, b, &mut Meter::new())?)
}

fn product_of(alloc: Global, a: &Coded<Entry>, b: &Coded<Entry>) -> Result<Dense<Entry>, Fail> {
    if a.cols() != b.rows() || u64::from(a.rows()) * u64::from(b.cols()) > MOST_CELLS {
        return Err(Fail::new("no product"));
    }
    Ok(product(alloc, a, b, &mut Meter::new())?)
}

fn square_of(alloc: Global, x: &Coded<Entry>) -> Result<Dense<Entry>, Fail> {
    if x.flipped() || u64::from(x.cols()) * u64::from(x.cols()) > MOST_CELLS {
        return Err(Fail::new("no product"));
    }
    Ok(self_product(alloc, x, &mut Meter::new())?)
}

fn make(alloc: Global, call: Call, operands: &Operands) -> Result<Dense<Entry>, Fail> {
    match call {
        Call::Right => right_of(alloc, &operands.table, &operands.column),
        Call::Left => left_of(alloc, &operands.row, &operands.table),
        Call::Product => product_of(alloc, &operands.turned, &operands.table),
        Call::SelfProduct => square_of(alloc, &operands.table),
    }
}

/// Measures a call, in at most the task's rounds, and what it made.
pub fn measure(
    rt: &(impl Runtime + AllocGlobal),
    task: &Task,
    call: Call,
    operands: &Operands,
) -> Result<Measured, Fail> {
    let mut best = Measured::new();
    for round in 0..task.rounds {
        let start = Instant::now(rt)?;
        let made = make(rt.alloc(), call, operands)?;
        best.end_round(rt, start)?;
        if round == 0 {
            best.sum = sum_of_numbers(made.cells());
        }
        if best.is_enough() {
            break;
        }
    }
    Ok(best)
}
