//! Groups and tables of given columns, codes and values.

ghost use Rattle.std.specs.Prelude.{◌≡◌, ◌≤◌, ◌<◌, ◌/◌, ℕ, length, true, IfOk};
ghost use Rattle.cla_layout.specs.Groups.{code_of};
ghost use Rattle.cla_layout.specs.Tuples.{AreCodes};
ghost use Rattle.cla_layout.specs.Layouts.{IsPart, IsPartition, all_columns, part_at};
ghost use Rattle.cla_coded.specs.AnyGroups.{any_columns};
ghost use Rattle.cla_coded.specs.Parts.{part_of, parts_of};

use cla_coded::{AnyGroup, Part, Table};
use cla_group::{Group, Kind};
use cla_num::{Int, Number};
use cla_rows::{Occurrences, counted};
use std::alloc::Global;
use std::test::Fail;

/// The numbers of these tables.
pub type Entry = Int<47>;

/// At most so many cells may a matrix have.
const MOST_CELLS: usize = 1 << 26;

/// The numbers of these integers. Refused where one isn't in range.
pub fn numbers(alloc: Global, of: &[i64]) -> Result<Vec<Entry>, Fail>
    ensures { IfOk result (λ made. length made.items ≡ length of.now) }
{
    let mut made = Vec::with_capacity(alloc, of.len())?;
    for v in of {
        made.push(Entry::of(*v).ok_or("in range")?)?;
    }
    Ok(made)
}

// Whether each item is at least `least` and below `end`.
fn are_within(items: &[u32], least: u32, end: u32) -> bool
    ensures { result ≡ true → (i : ℕ) → i < length items.now
        → (least ≤ code_of items.now i) × (code_of items.now i < end) }
{
    for item in items {
        if *item < least || *item >= end {
            return false;
        }
    }
    true
}

/// These are codes of rows, with so many values of their tuples in all. Refused where they aren't.
pub fn expect_codes(alloc: Global, width: u32, codes: &[u32], values: usize) -> Result<(), Fail>
    ensures { IfOk result (λ _. AreCodes width (values / width) codes.now values) }
{
    let width = width as usize;
    if width == 0 || width > MOST_CELLS || codes.len() == 0 || codes.len() > MOST_CELLS {
        return Err(Fail::new("no rows or columns, or too many"));
    }
    if codes.len() * width > MOST_CELLS || values > MOST_CELLS || values % width != 0 {
        return Err(Fail::new("too many cells, or half a tuple"));
    }
    let tuples = (values / width) as u32;
    if !are_within(codes, 0, tuples) {
        return Err(Fail::new("a code names no tuple"));
    }
    let Occurrences { counts, .. } = counted(alloc, codes, tuples)?;
    if !are_within(&counts, 1, u32::MAX) {
        return Err(Fail::new("a tuple has no row"));
    }
    Ok(())
}

/// The group of this kind of rows with these codes, whose tuples have these values. Refused where a code
/// names no tuple, or a tuple has no row.
pub fn group_of(
    alloc: Global,
    kind: Kind,
    width: u32,
    codes: &[u32],
    values: &[i64],
) -> Result<AnyGroup<Entry>, Fail>
    ensures { IfOk result (λ g. any_columns g ≡ width) }
{
    let values = numbers(alloc, values)?;
    expect_codes(alloc, width, codes, values.len())?;
    Ok(AnyGroup::from_codes(alloc, kind, width, codes, values)?)
}

// Whether each column is greater than the one before.
fn are_rising(columns: &[u32]) -> bool
    ensures { result ≡ true → (c d : ℕ) → c < d → d < length columns.now
        → code_of columns.now c < code_of columns.now d }
{
    for c in 1..columns.len() {
        if columns[c - 1] >= columns[c] {
            return false;
        }
    }
    true
}

// Whether this is a part of a table of so many rows.
fn is_part<G: Group<Entry>>(part: &Part<G>, rows: u32) -> bool
    ensures { result ≡ true → IsPart 47 rows (part_of G.codes G.dictionary part.now) }
{
    part.group.rows() == rows
        && part.group.width() as usize == part.columns.len()
        && are_rising(&part.columns)
}

// Whether these are parts of a table of so many rows.
fn are_parts<G: Group<Entry>>(parts: &[Part<G>], rows: u32) -> bool
    ensures { let them = parts_of G.codes G.dictionary parts.now in
        result ≡ true → (q : ℕ) → q < length them → IsPart 47 rows (part_at them q) }
{
    for part in parts {
        if !is_part(part, rows) {
            return false;
        }
    }
    true
}

// The columns of all parts, one part after the other.
fn columns_of<G: Group<Entry>>(alloc: Global, parts: &[Part<G>]) -> Result<Vec<u32>, Fail>
    ensures { IfOk result (λ columns. columns.items ≡ all_columns (parts_of G.codes G.dictionary parts.now)) }
{
    let mut columns = Vec::new(alloc);
    for part in parts {
        columns.extend_from_slice(&part.columns)?;
    }
    Ok(columns)
}

// Each of the first `cols` columns is listed once, and no other is.
fn expect_partition(alloc: Global, cols: u32, columns: &[u32]) -> Result<(), Fail>
    ensures { IfOk result (λ _. IsPartition cols columns.now) }
{
    if columns.len() > MOST_CELLS || !are_within(columns, 0, cols) {
        return Err(Fail::new("columns of no table"));
    }
    let Occurrences { counts, .. } = counted(alloc, columns, cols)?;
    if !are_within(&counts, 1, 2) {
        return Err(Fail::new("a column is in no part, or in two"));
    }
    Ok(())
}

/// The table of these parts. Refused where they don't make one.
pub fn table_of<G: Group<Entry> + Drop>(
    alloc: Global,
    rows: u32,
    cols: u32,
    flipped: bool,
    parts: Vec<Part<G>>,
) -> Result<Table<Entry, G>, Fail>
    ensures { IfOk result (λ t. t ≡ record { rows = rows; cols = cols; flipped = flipped; parts = parts.items }) }
{
    if rows == 0 || cols == 0 || u64::from(rows) * u64::from(cols) > MOST_CELLS as u64 {
        return Err(Fail::new("no rows or columns, or too many cells"));
    }
    if !are_parts(&parts, rows) {
        return Err(Fail::new("not parts of a table"));
    }
    let columns = columns_of(alloc, &parts)?;
    expect_partition(alloc, cols, &columns)?;
    Ok(Table::new(rows, cols, flipped, parts))
}
