//! The products, where their conditions hold, beside what they have to answer.

ghost use Rattle.std.specs.Prelude.{◌≡◌};

use crate::tables::MOST_CELLS;
use cla_checked_tables::{Entry, numbers};
use cla_coded::Table;
use cla_group::Group;
use cla_num::{Dense, Meter, OpFault, Refused};
use cla_prod::{left, product, right, self_product};
use std::alloc::Global;
use std::test::Fail;

/// What a product has to answer.
#[derive(Clone, Copy)]
pub(crate) enum Due<'a> {
    /// The matrix of these cells.
    Cells(&'a [i64]),

    /// The matrix of these cells, after so many multiplications.
    Counted(&'a [i64], u128),

    /// A fault in this row and this column, from 1.
    Fault(u32, u32),
}

fn expect_cells(alloc: Global, made: &[Entry], cells: &[i64]) -> Result<(), Fail> {
    if made != numbers(alloc, cells)?.as_slice() {
        return Err(Fail::new("other cells"));
    }
    Ok(())
}

fn expect_matrix(alloc: Global, made: &[Entry], mults: u128, due: Due) -> Result<(), Fail> {
    match due {
        Due::Cells(cells) => expect_cells(alloc, made, cells),
        Due::Counted(cells, due_mults) if mults == due_mults => expect_cells(alloc, made, cells),
        Due::Counted(..) => Err(Fail::new("another count of multiplications")),
        Due::Fault(..) => Err(Fail::new("a matrix where a fault is due")),
    }
}

fn expect_fault(fault: OpFault, due: Due) -> Result<(), Fail> {
    match due {
        Due::Fault(row, col) if (fault.op, fault.row, fault.col) == (0, row, col) => Ok(()),
        _ => Err(Fail::new("another fault, or one where a matrix is due")),
    }
}

fn expect(
    alloc: Global,
    answer: Result<Dense<Entry>, Refused>,
    mults: u128,
    due: Due,
) -> Result<(), Fail> {
    match answer {
        Ok(m) => expect_matrix(alloc, m.cells(), mults, due),
        Err(Refused::Op(fault)) => expect_fault(fault, due),
        Err(Refused::Memory) => Err(Fail::new("no memory")),
    }
}

/// The product of a table and a matrix is due.
pub(crate) fn right_is<G: Group<Entry> + Drop>(
    alloc: Global,
    a: Table<Entry, G>,
    b: Dense<Entry>,
    due: Due,
) -> Result<(), Fail> {
    if a.cols() != b.rows() || u64::from(a.rows()) * u64::from(b.cols()) > MOST_CELLS {
        return Err(Fail::new("no product"));
    }
    let mut meter = Meter::new();
    let answer = right(alloc, &a, &b, &mut meter);
    expect(alloc, answer, meter.mults(), due)
}

/// The product of a matrix and a table is due.
pub(crate) fn left_is<G: Group<Entry> + Drop>(
    alloc: Global,
    a: Dense<Entry>,
    b: Table<Entry, G>,
    due: Due,
) -> Result<(), Fail> {
    if a.cols() != b.rows() || u64::from(a.rows()) * u64::from(b.cols()) > MOST_CELLS {
        return Err(Fail::new("no product"));
    }
    let mut meter = Meter::new();
    let answer = left(alloc, &a, &b, &mut meter);
    expect(alloc, answer, meter.mults(), due)
}

/// The product of two tables is due.
pub(crate) fn product_is<G: Group<Entry> + Drop>(
    alloc: Global,
    a: Table<Entry, G>,
    b: Table<Entry, G>,
    due: Due,
) -> Result<(), Fail> {
    if a.cols() != b.rows() || u64::from(a.rows()) * u64::from(b.cols()) > MOST_CELLS {
        return Err(Fail::new("no product"));
    }
    let mut meter = Meter::new();
    let answer = product(alloc, &a, &b, &mut meter);
    expect(alloc, answer, meter.mults(), due)
}

/// The product of a table's transpose and the table is due.
pub(crate) fn self_product_is<G: Group<Entry> + Drop>(
    alloc: Global,
    x: Table<Entry, G>,
    due: Due,
) -> Result<(), Fail> {
    if x.flipped() || u64::from(x.cols()) * u64::from(x.cols()) > MOST_CELLS {
        return Err(Fail::new("no product"));
    }
    let mut meter = Meter::new();
    let answer = self_product(alloc, &x, &mut meter);
    expect(alloc, answer, meter.mults(), due)
}
