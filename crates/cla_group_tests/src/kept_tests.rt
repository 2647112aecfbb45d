//! How groups are kept: the rest, the lists of offsets and the runs.

ghost use Rattle.std.specs.Prelude.{◌<◌, length};

use crate::expected::Expected;
use cla_checked_tables::{Entry, group_of, numbers};
use cla_coded::AnyGroup;
use cla_group::{Group, Kind, Owned};
use cla_offsets::{Offsets, SEGMENT_ROWS};
use cla_runs::{Run, Runs};
use std::alloc::Global;
use std::process::Abort;
use std::test::Fail;

// The group of offset lists in this one.
fn offsets_in(g: &AnyGroup<Entry>) -> Result<&Offsets<Entry>, Fail> {
    match g {
        AnyGroup::Offsets(offsets) => Ok(offsets),
        _ => Err(Fail::new("another kind")),
    }
}

// The group of runs in this one.
fn runs_in(g: &AnyGroup<Entry>) -> Result<&Runs<Entry>, Fail> {
    match g {
        AnyGroup::Runs(runs) => Ok(runs),
        _ => Err(Fail::new("another kind")),
    }
}

// The tuple that no list or run names.
fn rest_in(g: &AnyGroup<Entry>) -> Option<u32> {
    match g {
        AnyGroup::Offsets(offsets) => offsets.rest(),
        AnyGroup::Runs(runs) => runs.rest(),
        _ => None,
    }
}

// The offsets of tuple k in segment s, by the list and one by one.
fn list_of(g: &Offsets<Entry>, k: u32, s: u32) -> Result<&[u16], Fail> {
    let inside = u64::from(s) * u64::from(SEGMENT_ROWS) < u64::from(g.rows());
    if !inside || k >= g.tuples() || g.rest() == Some(k) {
        return Err(Fail::new("no list or segment"));
    }
    Ok(g.list(k, s))
}

// The same, one by one.
fn offsets_of(alloc: Global, g: &Offsets<Entry>, k: u32, s: u32) -> Result<Vec<u16>, Fail> {
    let inside = u64::from(s) * u64::from(SEGMENT_ROWS) < u64::from(g.rows());
    if !inside || k >= g.tuples() || g.rest() == Some(k) {
        return Err(Fail::new("no list or segment"));
    }
    let mut offsets = Vec::new(alloc);
    for n in 0..g.count(k, s) {
        offsets.push(u16::try_from(g.offset(k, s, n))?)?;
    }
    Ok(offsets)
}

// The gaps and lengths of the runs of tuple k.
fn runs_of(alloc: Global, g: &Runs<Entry>, k: u32) -> Result<Vec<(u32, u32)>, Fail> {
    if k >= g.tuples() || g.rest() == Some(k) {
        return Err(Fail::new("no runs"));
    }
    let mut runs = Vec::new(alloc);
    for n in 0..g.run_count(k) {
        let Run { gap, length } = g.run(k, n);
        runs.push((gap, length))?;
    }
    Ok(runs)
}

#[test]
fn rest_of_four_rows(rt: HostRuntime) -> Result<(), Fail> {
    let alloc = rt.alloc();
    let g = group_of(alloc, Kind::Offsets, 1, &[0, 1, 1, 0], &[0, 5])?;
    assert_eq!(rt; rest_in(&g), Some(0));
    let listed = offsets_of(alloc, offsets_in(&g)?, 1, 0)?;
    assert_eq!(rt; listed.as_slice(), [1, 2].as_slice());
    assert_eq!(rt; list_of(offsets_in(&g)?, 1, 0)?, [1, 2].as_slice());

    let g = group_of(alloc, Kind::Runs, 1, &[0, 1, 1, 0], &[0, 5])?;
    assert_eq!(rt; rest_in(&g), Some(0));
    let runs = runs_of(alloc, runs_in(&g)?, 1)?;
    assert_eq!(rt; runs.as_slice(), [(1, 2)].as_slice());
    Ok(())
}

#[test]
fn lists_of_two_segments(rt: HostRuntime) -> Result<(), Fail> {
    let alloc = rt.alloc();
    let g = Expected::last_alone(alloc, 40_000)?.group(alloc, Kind::Offsets)?;
    assert_eq!(rt; list_of(offsets_in(&g)?, 1, 0)?, [].as_slice());
    assert_eq!(rt; list_of(offsets_in(&g)?, 1, 1)?, [7231].as_slice());
    let listed = offsets_of(alloc, offsets_in(&g)?, 1, 1)?;
    assert_eq!(rt; listed.as_slice(), [7231].as_slice());

    let g = Expected::last_alone(alloc, 40_000)?.group(alloc, Kind::Runs)?;
    let runs = runs_of(alloc, runs_in(&g)?, 1)?;
    assert_eq!(rt; runs.as_slice(), [(39_999, 1)].as_slice());
    Ok(())
}

#[test]
fn runs_of_three_tuples(rt: HostRuntime) -> Result<(), Fail> {
    let alloc = rt.alloc();
    let codes = [0, 1, 1, 0, 0, 2, 1, 2, 2, 0];
    let g = group_of(alloc, Kind::Runs, 1, &codes, &[5, 0, 8])?;
    let first = runs_of(alloc, runs_in(&g)?, 0)?;
    assert_eq!(rt; first.as_slice(), [(0, 1), (2, 2), (4, 1)].as_slice());
    let third = runs_of(alloc, runs_in(&g)?, 2)?;
    assert_eq!(rt; third.as_slice(), [(5, 1), (1, 2)].as_slice());
    Ok(())
}

// A group of this kind of five rows and the tuples (3, -1), (a, b) and (7, 7).
fn five_rows(alloc: Global, kind: Kind, a: i64, b: i64) -> Result<AnyGroup<Entry>, Fail> {
    group_of(alloc, kind, 2, &[0, 1, 1, 0, 2], &[3, -1, a, b, 7, 7])
}

// The rest of rows a to before b.
fn rest_within(alloc: Global, g: &AnyGroup<Entry>, a: u32, b: u32) -> Result<Option<u32>, Fail> {
    if a >= b || b > g.rows() {
        return Err(Fail::new("no such rows"));
    }
    Ok(rest_in(&g.slice_rows(alloc, a, b)?))
}

// The rest of column 0.
fn rest_of_column(alloc: Global, g: &AnyGroup<Entry>) -> Result<Option<u32>, Fail> {
    if g.width() == 0 {
        return Err(Fail::new("no column"));
    }
    Ok(rest_in(&g.project(alloc, &[0])?))
}

// The same group with the tuples (0, 0), (5, 5) and (0, 0).
fn with_zeros(alloc: Global, g: &AnyGroup<Entry>) -> Result<AnyGroup<Entry>, Fail> {
    if g.width() != 2 || g.tuples() != 3 {
        return Err(Fail::new("another shape"));
    }
    Ok(g.with_values(alloc, numbers(alloc, &[0, 0, 5, 5, 0, 0])?)?)
}

#[test]
fn rests_that_are_kept_and_found(rt: HostRuntime) -> Result<(), Fail> {
    let alloc = rt.alloc();
    for kind in [Kind::Offsets, Kind::Runs] {
        for (b, rest, within) in [(0, Some(1), Some(0)), (5, None, None)] {
            let g = five_rows(alloc, kind, 0, b)?;
            assert_eq!(rt; rest_in(&g), rest, "{kind:?}");
            assert_eq!(rt; rest_within(alloc, &g, 1, 3)?, within, "{kind:?}");
            assert_eq!(rt; rest_within(alloc, &g, 3, 5)?, None, "{kind:?}");
            assert_eq!(rt; rest_of_column(alloc, &g)?, rest, "{kind:?}");
            let other = with_zeros(alloc, &g)?;
            assert_eq!(rt; rest_in(&other), rest, "{kind:?}");
            assert_eq!(rt; rest_within(alloc, &other, 0, 5)?, Some(0), "{kind:?}");
        }
    }
    Ok(())
}
