//! Values that were worked by hand.

use crate::calls::{answers, gives};
use crate::layouts::{Grouping, grouped};
use crate::slow::{Call, Cells, Fold, Lines, Outcome, SlowStep};
use cla_agg::col_sums;
use cla_checked_tables::Entry;
use cla_coded::Coded;
use cla_num::{CellOp, Meter, OpFault, Refused, What};
use std::alloc::Global;
use std::process::Abort;
use std::test::Fail;

const GREATEST: i64 = 140737488355327;

// The greatest entry twice, and less it once: the sum is in range, and no partial sum is tested.
const LARGE: [i64; 3] = [GREATEST, GREATEST, -GREATEST];

// Signs of a quotient and of a remainder.
const SEVENS: [i64; 2] = [7, -7];

const ONE_TO_FOUR: [i64; 4] = [1, 2, 3, 4];

// A table's columns, the call on it, and the rows and cells of what it answers.
type Worked<'a> = (u32, &'a [i64], Call<'a>, u32, &'a [i64]);

// The rows of what was worked: sums, quotients and remainders by floor, maps, and aggregates.
const WORKED: [Worked; 17] = [
    (1, &LARGE, Call::Of(Fold::Sum, Lines::All), 1, &[GREATEST]),
    (
        1,
        &LARGE,
        Call::Of(Fold::Sum, Lines::Columns),
        1,
        &[GREATEST],
    ),
    (3, &LARGE, Call::Of(Fold::Sum, Lines::Rows), 1, &[GREATEST]),
    (
        1,
        &SEVENS,
        Call::Chain(&[SlowStep::Right(CellOp::Div, 2)]),
        2,
        &[3, -4],
    ),
    (
        1,
        &SEVENS,
        Call::Chain(&[SlowStep::Right(CellOp::Mod, 2)]),
        2,
        &[1, 1],
    ),
    (
        1,
        &SEVENS,
        Call::Chain(&[SlowStep::Right(CellOp::Mod, -2)]),
        2,
        &[-1, -1],
    ),
    (
        2,
        &ONE_TO_FOUR,
        Call::Row(CellOp::Sub, &[1, 2]),
        2,
        &[0, 0, 2, 2],
    ),
    (
        2,
        &ONE_TO_FOUR,
        Call::Chain(&[SlowStep::Square]),
        2,
        &[1, 4, 9, 16],
    ),
    (
        2,
        &ONE_TO_FOUR,
        Call::Chain(&[SlowStep::Right(CellOp::Eq, 4)]),
        2,
        &[0, 0, 0, 1],
    ),
    (2, &ONE_TO_FOUR, Call::Of(Fold::Sum, Lines::All), 1, &[10]),
    (
        2,
        &ONE_TO_FOUR,
        Call::Of(Fold::Sum, Lines::Rows),
        2,
        &[3, 7],
    ),
    (
        2,
        &ONE_TO_FOUR,
        Call::Of(Fold::Sum, Lines::Columns),
        1,
        &[4, 6],
    ),
    (2, &ONE_TO_FOUR, Call::Of(Fold::Least, Lines::All), 1, &[1]),
    (
        2,
        &ONE_TO_FOUR,
        Call::Of(Fold::Least, Lines::Rows),
        2,
        &[1, 3],
    ),
    (
        2,
        &ONE_TO_FOUR,
        Call::Of(Fold::Least, Lines::Columns),
        1,
        &[1, 2],
    ),
    (
        2,
        &ONE_TO_FOUR,
        Call::Of(Fold::Greatest, Lines::Rows),
        2,
        &[2, 4],
    ),
    (
        2,
        &ONE_TO_FOUR,
        Call::Of(Fold::Greatest, Lines::Columns),
        1,
        &[3, 4],
    ),
];

// The table of these cells, or the transpose of that of the transpose, in groups of kinds from this one on.
fn in_kind(alloc: Global, cells: &Cells, kind: usize, flipped: bool) -> Result<Coded<Entry>, Fail> {
    if flipped {
        grouped(
            alloc,
            &cells.turned(alloc)?,
            Grouping::EvenAndOdd,
            kind,
            true,
        )
    } else {
        grouped(alloc, cells, Grouping::EvenAndOdd, kind, false)
    }
}

#[test]
fn worked_by_hand(rt: HostRuntime) -> Result<(), Fail> {
    let alloc = rt.alloc();
    for (cols, cells, call, height, result) in WORKED.as_slice() {
        let cells = Cells::of(alloc, *cols, cells)?;
        for kind in 0..8usize {
            let flipped = kind >= 4 && !matches!(call, Call::Row(..));
            let table = in_kind(alloc, &cells, kind, flipped)?;
            gives(&rt, alloc, &table, *call, *height, result)?;
        }
    }
    Ok(())
}

// Columns and cells of a table, whether it's the transpose of their table, the call on it, and the step, row
// and column of its fault.
type Faulty<'a> = (u32, &'a [i64], bool, Call<'a>, (u32, u32, u32));

// The first cell of a transpose is not that of its base, and the step that fails first decides, though a later one
// fails at an earlier cell.
const FAULTY: [Faulty; 3] = [
    (
        2,
        &[1, 2, GREATEST, GREATEST],
        true,
        Call::Chain(&[SlowStep::Right(CellOp::Add, 1)]),
        (0, 1, 2),
    ),
    (
        2,
        &[1, 2, GREATEST, GREATEST],
        true,
        Call::Of(Fold::Sum, Lines::Rows),
        (0, 1, 1),
    ),
    (
        1,
        &[GREATEST, -GREATEST],
        false,
        Call::Chain(&[
            SlowStep::Right(CellOp::Sub, 1),
            SlowStep::Right(CellOp::Mul, 2),
        ]),
        (0, 2, 1),
    ),
];

#[test]
fn first_faults(rt: HostRuntime) -> Result<(), Fail> {
    let alloc = rt.alloc();
    for (cols, cells, flipped, call, (op, row, col)) in FAULTY.as_slice() {
        let cells = Cells::of(alloc, *cols, cells)?;
        for kind in 0..4usize {
            let table = grouped(alloc, &cells, Grouping::Each, kind, *flipped)?;
            answers(&rt, alloc, &table, *call, &Outcome::Fault(*op, *row, *col))?;
        }
    }
    Ok(())
}

// The fault is that of the value one past the greatest entry.
fn is_past(rt: &impl Abort, refused: Refused) -> Result<(), Fail> {
    let Refused::Op(OpFault { what, .. }) = refused else {
        return Err(Fail::new("no memory"));
    };
    let What::Range { value } = what else {
        return Err(Fail::new("a division by zero"));
    };
    let mut text = [0; 40];
    let length = value.put(&mut text);
    assert!(rt; &text[..length] == b"140737488355328".as_slice());
    Ok(())
}

#[test]
fn the_value_out_of_range(rt: HostRuntime) -> Result<(), Fail> {
    let alloc = rt.alloc();
    let cells = Cells::of(alloc, 1, &[GREATEST, 1])?;
    let table = grouped(alloc, &cells, Grouping::One, 1, false)?;
    let summed = col_sums(alloc, &table, &mut Meter::new());
    is_past(&rt, summed.err().ok_or("a sum")?)
}
