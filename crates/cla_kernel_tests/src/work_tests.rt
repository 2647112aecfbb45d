//! What the calls do, counted: each value of a dictionary is read once, and rows only where they must be.

ghost use Rattle.std.specs.Prelude.{◌≡◌};
ghost use Rattle.cla_num.specs.Counts.{AreBelow, kernel_bound};

use crate::calls::aggregate;
use crate::layouts::{Grouping, grouped, parts_of};
use crate::slow::{Cells, Fold, Lines, Outcome};
use cla_agg::sum;
use cla_checked_tables::{Calls, Entry, Watched, numbers, table_of};
use cla_coded::{AnyGroup, Coded, Part, Table};
use cla_map::{Step, broadcast_row, map_chain};
use cla_num::{CellOp, Meter, Number, Refused};
use std::alloc::Global;
use std::process::Abort;
use std::test::Fail;

type Counted<'a> = Table<Entry, Watched<'a, AnyGroup<Entry>>>;

// A table of 100 rows in two groups, one of two columns and two tuples, and one of a column and a tuple: five
// values in all. The calls of its groups are counted.
fn watched_table<'a>(alloc: Global, calls: &'a Calls, flipped: bool) -> Result<Counted<'a>, Fail> {
    let mut cells = Vec::new(alloc);
    for i in 0..100u32 {
        let odd = i64::from(i % 2);
        cells.extend_from_slice(&[odd, 3, 1 - odd])?;
    }
    let cells = Cells::of(alloc, 3, &cells)?;
    let mut parts = Vec::new(alloc);
    for part in parts_of(alloc, &cells, Grouping::EvenAndOdd, 1)? {
        let Part { columns, group } = part;
        let group = Watched { group, calls };
        parts.push(Part { columns, group })?;
    }
    table_of(alloc, 100, 3, flipped, parts)
}

// An aggregate of the table or of its transpose, the rows and cells of what it answers, and how often it
// multiplies, reads the codes of all rows, and scatters.
type Work<'a> = (bool, Fold, Lines, u32, &'a [i64], u128, u32, u32);

const SUMS: [i64; 3] = [50, 300, 50];

const LOWS: [i64; 3] = [0, 3, 0];

const HIGHS: [i64; 3] = [1, 3, 1];

const WORK: [Work; 15] = [
    (false, Fold::Sum, Lines::All, 1, &[400], 5, 0, 0),
    (false, Fold::Least, Lines::All, 1, &[0], 0, 0, 0),
    (true, Fold::Greatest, Lines::All, 1, &[3], 0, 0, 0),
    (false, Fold::Sum, Lines::Columns, 1, &SUMS, 5, 0, 0),
    (true, Fold::Sum, Lines::Rows, 3, &SUMS, 5, 0, 0),
    (false, Fold::Least, Lines::Columns, 1, &LOWS, 0, 0, 0),
    (true, Fold::Least, Lines::Rows, 3, &LOWS, 0, 0, 0),
    (false, Fold::Greatest, Lines::Columns, 1, &HIGHS, 0, 0, 0),
    (true, Fold::Greatest, Lines::Rows, 3, &HIGHS, 0, 0, 0),
    (false, Fold::Sum, Lines::Rows, 100, &[4; 100], 0, 0, 2),
    (true, Fold::Sum, Lines::Columns, 1, &[4; 100], 0, 0, 2),
    (false, Fold::Least, Lines::Rows, 100, &[0; 100], 0, 2, 0),
    (true, Fold::Least, Lines::Columns, 1, &[0; 100], 0, 2, 0),
    (false, Fold::Greatest, Lines::Rows, 100, &[3; 100], 0, 2, 0),
    (true, Fold::Greatest, Lines::Columns, 1, &[3; 100], 0, 2, 0),
];

// Since the last time each of the five values was read once, nothing was gathered, and so many
// multiplications, map evaluations, readings of rows' codes and scatters were made.
fn costs(rt: &impl Abort, calls: &Calls, meter: &Meter, expected: (u128, u128, u32, u32)) {
    let taken = calls.taken();
    assert_eq!(rt; (taken.values, taken.gathers), (5, 0));
    assert_eq!(rt;
        (meter.mults(), meter.maps(), taken.codes, taken.scatters),
        expected
    );
}

// The aggregate of the table, which is let go.
fn made(alloc: Global, calls: &Calls, work: Work, meter: &mut Meter) -> Result<Outcome, Fail>
    requires room { AreBelow kernel_bound meter.old }
{
    let table = watched_table(alloc, calls, work.0)?;
    aggregate(alloc, &table, work.1, work.2, meter)
}

#[test]
fn aggregates_by_tuples(rt: HostRuntime) -> Result<(), Fail> {
    let alloc = rt.alloc();
    let calls = Calls::none();
    for work in WORK.as_slice() {
        let (_, _, _, rows, cells, mults, reads, scatters) = *work;
        let mut meter = Meter::new();
        let answer = made(alloc, &calls, *work, &mut meter)?;
        assert!(rt;
            answer.is(&Outcome::of(alloc, rows, cells)?),
            "another answer was expected"
        );
        costs(&rt, &calls, &meter, (mults, 0, reads, scatters));
    }
    Ok(())
}

// The rows and columns of a table, which is let go.
fn shape_of(answer: Result<Counted, Refused>) -> Option<(u32, u32)> {
    let table = answer.ok()?;
    Some((table.rows(), table.cols()))
}

#[test]
fn maps_scan_no_rows(rt: HostRuntime) -> Result<(), Fail> {
    let alloc = rt.alloc();
    let calls = Calls::none();
    let row = numbers(alloc, &[1, 2, 3])?;
    let table = watched_table(alloc, &calls, false)?;
    if table.flipped() || row.len() != table.cols() as usize {
        return Err(Fail::new("no row for the table"));
    }
    let mut meter = Meter::new();
    let mapped = map_chain(alloc, &table, &[Step::Neg, Step::Square], &mut meter);
    assert_eq!(rt; shape_of(mapped), Some((100, 3)));
    costs(&rt, &calls, &meter, (0, 10, 0, 0));
    let mut meter = Meter::new();
    let added = broadcast_row(alloc, &table, CellOp::Add, &row, &mut meter);
    assert_eq!(rt; shape_of(added), Some((100, 3)));
    costs(&rt, &calls, &meter, (0, 5, 0, 0));
    Ok(())
}

// A table of a thousand zeros, which are one tuple without a list.
fn zeros(alloc: Global) -> Result<Coded<Entry>, Fail> {
    let cells = Cells::of(alloc, 1, &[0; 1000])?;
    grouped(alloc, &cells, Grouping::One, 2, false)
}

// The tuple without a list is mapped once, and stands for all rows.
#[test]
fn a_tuple_without_a_list(rt: HostRuntime) -> Result<(), Fail> {
    let alloc = rt.alloc();
    let one = Entry::of(1).ok_or("in range")?;
    let step = Step::Right {
        op: CellOp::Add,
        scalar: one,
    };
    let mut meter = Meter::new();
    let more = map_chain(alloc, &zeros(alloc)?, &[step], &mut meter)?;
    let total = sum(&more, &mut Meter::new()).ok();
    assert!(rt; total == Entry::of(1000));
    assert_eq!(rt; meter.maps(), 1);
    Ok(())
}
