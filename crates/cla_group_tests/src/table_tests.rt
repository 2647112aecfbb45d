//! Tables of one part, two and three, and their transposes.

ghost use Rattle.std.specs.Prelude.{◌≡◌};

use crate::borrowed::borrowed_table;
use crate::expected::Expected;
use cla_checked_tables::{Entry, numbers, table_of};
use cla_coded::{Coded, Part, Skeleton, Table, codes_of, copy, loose};
use cla_group::{Group, Kind};
use cla_num::Dense;
use std::alloc::Global;
use std::process::Abort;
use std::test::Fail;

const KINDS: [Kind; 4] = [Kind::Plain, Kind::Codes, Kind::Offsets, Kind::Runs];

/// A part that a table is expected to have.
#[derive(Drop)]
struct ExpectedPart {
    columns: Vec<u32>,
    kind: Kind,
    group: Expected,
}

impl ExpectedPart {
    // The part of these columns, of a group of this kind.
    fn of(
        alloc: Global,
        columns: &[u32],
        kind: Kind,
        group: Expected,
    ) -> Result<ExpectedPart, Fail> {
        Ok(ExpectedPart {
            columns: Vec::from_slice(alloc, columns)?,
            kind,
            group: group.kept_as(alloc, kind)?,
        })
    }

    // The entry in row i and column j, if the part has the column.
    fn entry(&self, i: u32, j: u32) -> Result<Option<i64>, Fail> {
        let mut place = 0u32;
        for column in &self.columns {
            if *column == j {
                return Ok(Some(self.group.value(self.group.code(i)?, place)?));
            }
            place = place.saturating_add(1);
        }
        Ok(None)
    }
}

// The entry in row i and column j of these parts.
fn expected_entry(parts: &[ExpectedPart], i: u32, j: u32) -> Result<i64, Fail> {
    for part in parts {
        if let Some(entry) = part.entry(i, j)? {
            return Ok(entry);
        }
    }
    Err(Fail::new("a column in no part"))
}

// The cells of these parts, row by row, or those of the transpose.
fn expected_cells(
    alloc: Global,
    parts: &[ExpectedPart],
    shape: (u32, u32),
    flipped: bool,
) -> Result<Vec<i64>, Fail> {
    let mut cells = Vec::new(alloc);
    for i in 0..shape.0 {
        for j in 0..shape.1 {
            let (row, col) = if flipped { (j, i) } else { (i, j) };
            cells.push(expected_entry(parts, row, col)?)?;
        }
    }
    Ok(cells)
}

// The table of these parts, not flipped.
fn table_from(
    alloc: Global,
    shape: (u32, u32),
    parts: &[ExpectedPart],
) -> Result<Coded<Entry>, Fail> {
    let mut made = Vec::new(alloc);
    for part in parts {
        made.push(Part {
            columns: Vec::from_slice(alloc, &part.columns)?,
            group: part.group.group(alloc, part.kind)?,
        })?;
    }
    table_of(alloc, shape.0, shape.1, false, made)
}

// The entries of a table, row by row.
fn entries_of<G: Group<Entry>>(alloc: Global, t: &Table<Entry, G>) -> Result<Vec<Entry>, Fail> {
    let mut entries = Vec::new(alloc);
    for i in 0..t.rows() {
        for j in 0..t.cols() {
            entries.push(t.entry(i, j))?;
        }
    }
    Ok(entries)
}

// The table has these cells, row by row, both as entries and as a dense matrix.
fn holds<G: Group<Entry>>(
    rt: &impl Abort,
    alloc: Global,
    t: &Table<Entry, G>,
    shape: (u32, u32),
    cells: &[i64],
) -> Result<(), Fail> {
    assert_eq!(rt; (t.rows(), t.cols()), shape);
    assert_eq!(rt; entries_of(alloc, t)?, numbers(alloc, cells)?);
    let m = t.to_dense(alloc)?;
    assert_eq!(rt; (m.rows(), m.cols()), shape);
    assert_eq!(rt; m.cells(), numbers(alloc, cells)?.as_slice());
    Ok(())
}

// The parts of the table have these columns, kinds and codes.
fn has_parts(
    rt: &impl Abort,
    alloc: Global,
    t: &Coded<Entry>,
    parts: &[ExpectedPart],
) -> Result<(), Fail> {
    assert_eq!(rt; t.parts().len(), parts.len());
    for (part, expected) in t.parts().iter().zip(parts) {
        assert_eq!(rt; part.columns, expected.columns);
        assert_eq!(rt; part.group.kind(), expected.kind);
        assert_eq!(rt; codes_of(alloc, &part.group)?, expected.group.codes);
    }
    Ok(())
}

// The parts of the skeleton have these columns and codes.
fn outlines(rt: &impl Abort, skeleton: &Skeleton, parts: &[ExpectedPart]) {
    assert_eq!(rt; skeleton.parts.len(), parts.len());
    for (part, expected) in skeleton.parts.iter().zip(parts) {
        assert_eq!(rt; part.columns, expected.columns);
        assert_eq!(rt; part.codes, expected.group.codes);
    }
}

// A table of these parts, or its transpose, is what it is expected to be.
fn is_table(
    rt: &impl Abort,
    alloc: Global,
    t: &Coded<Entry>,
    flipped: bool,
    base: (u32, u32),
    parts: &[ExpectedPart],
) -> Result<(), Fail> {
    let (rows, cols) = base;
    let shape = if flipped { (cols, rows) } else { (rows, cols) };
    holds(
        rt,
        alloc,
        t,
        shape,
        &expected_cells(alloc, parts, shape, flipped)?,
    )?;
    assert_eq!(rt; t.flipped(), flipped);
    has_parts(rt, alloc, t, parts)?;
    let skeleton = t.skeleton(alloc)?;
    assert_eq!(rt; (skeleton.rows, skeleton.cols), base);
    assert_eq!(rt; skeleton.flipped, flipped);
    outlines(rt, &skeleton, parts);
    Ok(())
}

// All calls on a table of these parts, its transpose, and copies of both.
fn table_calls(
    rt: &impl Abort,
    alloc: Global,
    t: Coded<Entry>,
    base: (u32, u32),
    parts: &[ExpectedPart],
) -> Result<(), Fail> {
    is_table(rt, alloc, &t, false, base, parts)?;
    is_table(rt, alloc, &copy(alloc, &t)?, false, base, parts)?;
    let t = t.flip();
    is_table(rt, alloc, &t, true, base, parts)?;
    is_table(rt, alloc, &copy(alloc, &t)?, true, base, parts)?;
    is_table(rt, alloc, &t.flip(), false, base, parts)
}

#[test]
fn one_part(rt: HostRuntime) -> Result<(), Fail> {
    let alloc = rt.alloc();
    let values = [1, 2, 3, 4, 5, 6];
    let t = loose(alloc, Dense::new(2, 3, numbers(alloc, &values)?))?;
    holds(&rt, alloc, &t, (2, 3), &values)?;
    let mut parts = Vec::new(alloc);
    let expected = Expected::of(alloc, 3, 2, &[0, 1], &values)?;
    parts.push(ExpectedPart::of(alloc, &[0, 1, 2], Kind::Plain, expected)?)?;
    table_calls(&rt, alloc, t, (2, 3), &parts)
}

// The rows (1, 7, 2), (0, 7, 0), (0, 0, 0) and (1, 0, 2) in groups of these kinds.
fn two_parts(alloc: Global, outer: Kind, inner: Kind) -> Result<Vec<ExpectedPart>, Fail> {
    let mut parts = Vec::new(alloc);
    let expected = Expected::of(alloc, 2, 2, &[0, 1, 1, 0], &[1, 2, 0, 0])?;
    parts.push(ExpectedPart::of(alloc, &[0, 2], outer, expected)?)?;
    let expected = Expected::of(alloc, 1, 2, &[0, 0, 1, 1], &[7, 0])?;
    parts.push(ExpectedPart::of(alloc, &[1], inner, expected)?)?;
    Ok(parts)
}

#[test]
fn two_parts_of_each_pair_of_kinds(rt: HostRuntime) -> Result<(), Fail> {
    let alloc = rt.alloc();
    for outer in KINDS {
        for inner in KINDS {
            let parts = two_parts(alloc, outer, inner)?;
            let t = table_from(alloc, (4, 3), &parts)?;
            holds(
                &rt,
                alloc,
                &t,
                (4, 3),
                &[1, 7, 2, 0, 7, 0, 0, 0, 0, 1, 0, 2],
            )?;
            table_calls(&rt, alloc, t, (4, 3), &parts)?;
        }
    }
    Ok(())
}

#[test]
fn three_parts_of_many_rows(rt: HostRuntime) -> Result<(), Fail> {
    let alloc = rt.alloc();
    let (rows, base) = (2000, (2000, 8));
    for [first, second, third] in [
        [Kind::Offsets, Kind::Codes, Kind::Runs],
        [Kind::Plain, Kind::Runs, Kind::Offsets],
        [Kind::Runs, Kind::Plain, Kind::Codes],
    ] {
        let mut parts = Vec::new(alloc);
        let expected = Expected::in_turn(alloc, 5, rows, 3, 6, -17)?;
        parts.push(ExpectedPart::of(alloc, &[0, 2, 3, 5, 7], first, expected)?)?;
        let expected = Expected::in_turn(alloc, 1, rows, 1, 300, -20)?;
        parts.push(ExpectedPart::of(alloc, &[1], second, expected)?)?;
        let expected = Expected::in_turn(alloc, 2, rows, 10, 4, 100)?;
        parts.push(ExpectedPart::of(alloc, &[4, 6], third, expected)?)?;
        let t = table_from(alloc, base, &parts)?;
        table_calls(&rt, alloc, t, base, &parts)?;
    }
    Ok(())
}

// Groups with the codes of others and the first of their values.
#[test]
fn tables_over_borrowed_groups(rt: HostRuntime) -> Result<(), Fail> {
    let alloc = rt.alloc();
    let parts = two_parts(alloc, Kind::Offsets, Kind::Runs)?;
    let t = table_from(alloc, (4, 3), &parts)?;
    let cells = [1, 7, 1, 1, 7, 1, 1, 7, 1, 1, 7, 1];
    holds(&rt, alloc, &borrowed_table(alloc, &t)?, (4, 3), &cells)?;
    let t = t.flip();
    let cells = [1, 1, 1, 1, 7, 7, 7, 7, 1, 1, 1, 1];
    holds(&rt, alloc, &borrowed_table(alloc, &t)?, (3, 4), &cells)
}
