//! The tuples of one column and of two.

use crate::made::{MOST_CELLS, matrix};
use cla_cocode::{best, sizes};
use cla_layout::Kind;
use cla_stats::Tuples;
use std::alloc::Global;
use std::test::Fail;

// The rows, the columns, how many tuples there are, and which of them is all zeros.
type Shape = (u32, u32, u32, Option<u32>);

// How many rows a tuple has, and in how many runs.
type Tally = (u32, u32);

fn shape(tuples: &Tuples) -> Shape {
    (
        tuples.rows(),
        tuples.width(),
        tuples.distinct(),
        tuples.zero(),
    )
}

fn tally(tuples: &Tuples, k: u32) -> Option<Tally> {
    if k < tuples.distinct() {
        Some((tuples.occurrences(k), tuples.runs(k)))
    } else {
        None
    }
}

#[test]
fn three_equal_rows(rt: HostRuntime) -> Result<(), Fail> {
    let m = matrix(rt.alloc(), 3, 1, &[5, 5, 5])?;
    let tuples = Tuples::count(rt.alloc(), &m, &[0])?;
    assert_eq!(rt; shape(&tuples), (3, 1, 1, None));
    assert_eq!(rt; tally(&tuples, 0), Some((3, 1)));
    assert_eq!(rt; sizes(&tuples), [33, 24, 30, 34]);
    assert_eq!(rt; best(&tuples), (Kind::Codes, 24));
    Ok(())
}

// The tuples of each of two columns.
fn columns(alloc: Global) -> Result<Vec<Tuples>, Fail> {
    let m = matrix(alloc, 4, 2, &[0, 0, 1, 2, 0, 2, 0, 0])?;
    Ok(Tuples::count_each(alloc, &m, 0, 2)?)
}

// The tuples of both together.
fn joined(alloc: Global, first: &Tuples, second: &Tuples) -> Result<Tuples, Fail> {
    let width = first
        .width()
        .checked_add(second.width())
        .ok_or("too many columns")?;
    if first.rows() != second.rows() || first.rows() as u64 * width as u64 > MOST_CELLS {
        return Err(Fail::new("columns of other rows"));
    }
    Ok(Tuples::join(alloc, first, second)?)
}

// The tuples of two columns together, and whether those of each have these codes.
fn joined_each(
    alloc: Global,
    each: &[Tuples],
    first: &[u32],
    second: &[u32],
) -> Result<(Tuples, bool), Fail> {
    match each {
        [a, b] => Ok((
            joined(alloc, a, b)?,
            a.codes() == first && b.codes() == second,
        )),
        _ => Err(Fail::new("other columns")),
    }
}

#[test]
fn two_columns(rt: HostRuntime) -> Result<(), Fail> {
    let each = columns(rt.alloc())?;
    let (both, coded) = joined_each(rt.alloc(), &each, &[0, 1, 0, 0], &[0, 1, 1, 0])?;
    assert!(rt; coded);
    assert_eq!(rt; both.codes(), [0, 1, 2, 0].as_slice());
    assert_eq!(rt; shape(&both), (4, 2, 3, Some(0)));
    assert_eq!(rt; tally(&both, 0), Some((2, 2)));
    assert_eq!(rt; tally(&both, 1), Some((1, 1)));
    assert_eq!(rt; tally(&both, 2), Some((1, 1)));
    Ok(())
}
