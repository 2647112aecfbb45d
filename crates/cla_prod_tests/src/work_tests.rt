//! How often the calls go over the rows of a group: once for each line, to scatter or to gather.

ghost use Rattle.std.specs.Prelude.{◌≡◌};

use crate::products::{Due, left_is, product_is, right_is, self_product_is};
use crate::tables::{matrix, part_of};
use cla_checked_tables::{Calls, Entry, Watched, table_of};
use cla_coded::{AnyGroup, Part, Table};
use cla_group::Kind;
use std::alloc::Global;
use std::test::Fail;

type Counted<'a> = Watched<'a, AnyGroup<Entry>>;

// The part of these columns of rows with the codes 0, 1, 1 and 0. Its calls are counted.
fn part<'a>(
    alloc: Global,
    calls: &'a Calls,
    kind: Kind,
    columns: &[u32],
    values: &[i64],
) -> Result<Part<Counted<'a>>, Fail> {
    let Part { columns, group } = part_of(alloc, kind, columns, &[0, 1, 1, 0], values)?;
    let group = Watched { group, calls };
    Ok(Part { columns, group })
}

// The rows (1, 0, 2), (3, 5, 4), (3, 5, 4) and (1, 0, 2), in a group of the first and the last column and
// one of the other.
fn table<'a>(
    alloc: Global,
    calls: &'a Calls,
    flipped: bool,
) -> Result<Table<Entry, Counted<'a>>, Fail> {
    let mut parts = Vec::new(alloc);
    parts.push(part(alloc, calls, Kind::Codes, &[0, 2], &[1, 2, 3, 4])?)?;
    parts.push(part(alloc, calls, Kind::Runs, &[1], &[0, 5])?)?;
    table_of(alloc, 4, 3, flipped, parts)
}

// There were so many scatters, gathers, and reads of codes, of all rows or of one.
fn expect(calls: &Calls, expected: (u32, u32, u32)) -> Result<(), Fail> {
    let taken = calls.taken();
    if (taken.scatters, taken.gathers, taken.codes) != expected {
        return Err(Fail::new("other calls"));
    }
    Ok(())
}

// The table times two columns of ones makes these sums and these calls.
fn right_by_ones(
    alloc: Global,
    flipped: bool,
    sums: &[i64],
    taken: (u32, u32, u32),
) -> Result<(), Fail> {
    let ones = if flipped {
        matrix(alloc, 4, 2, &[1; 8])?
    } else {
        matrix(alloc, 3, 2, &[1; 6])?
    };
    let calls = Calls::none();
    right_is(
        alloc,
        table(alloc, &calls, flipped)?,
        ones,
        Due::Counted(sums, 12),
    )?;
    expect(&calls, taken)
}

// Two rows of ones times the table make these sums and these calls.
fn left_of_ones(
    alloc: Global,
    flipped: bool,
    sums: &[i64],
    taken: (u32, u32, u32),
) -> Result<(), Fail> {
    let ones = if flipped {
        matrix(alloc, 2, 3, &[1; 6])?
    } else {
        matrix(alloc, 2, 4, &[1; 8])?
    };
    let calls = Calls::none();
    left_is(
        alloc,
        ones,
        table(alloc, &calls, flipped)?,
        Due::Counted(sums, 12),
    )?;
    expect(&calls, taken)
}

const SQUARE: [i64; 9] = [20, 30, 28, 30, 50, 40, 28, 40, 40];

// The transpose times the table. The codes of both groups are read, and that of the first entry, which the room for
// numbers is filled with.
fn turned(alloc: Global) -> Result<(), Fail> {
    let calls = Calls::none();
    let t = table(alloc, &calls, true)?;
    product_is(
        alloc,
        t,
        table(alloc, &calls, false)?,
        Due::Counted(&SQUARE, 18),
    )?;
    expect(&calls, (0, 6, 3))
}

// The last column of the base meets the group of two columns alone, the others meet both groups.
fn square(alloc: Global) -> Result<(), Fail> {
    let calls = Calls::none();
    self_product_is(
        alloc,
        table(alloc, &calls, false)?,
        Due::Counted(&SQUARE, 12),
    )?;
    expect(&calls, (0, 5, 3))
}

#[test]
fn one_pass_for_each_line_and_group(rt: HostRuntime) -> Result<(), Fail> {
    let alloc = rt.alloc();
    right_by_ones(alloc, false, &[3, 3, 12, 12, 12, 12, 3, 3], (4, 0, 0))?;
    right_by_ones(alloc, true, &[8, 8, 10, 10, 12, 12], (0, 4, 0))?;
    left_of_ones(alloc, false, &[8, 10, 12, 8, 10, 12], (0, 4, 0))?;
    left_of_ones(alloc, true, &[3, 12, 12, 3, 3, 12, 12, 3], (4, 0, 0))?;
    turned(alloc)?;
    square(alloc)
}
