//! The rows that are listed: those of all codes but the rest, which are most rows of a sparse column.

ghost use Rattle.std.specs.Prelude.{◌≡◌, ◌≤◌, ◌<◌, ◌++◌, ℕ, length, map, IfOk};
ghost use Rattle.cla_spec.specs.Matrix.{most_cells};
ghost use Rattle.cla_layout.specs.Groups.{code_of};
ghost use Rattle.cla_rows.specs.Counted.{AreCounted};
ghost use Rattle.cla_offsets.specs.Segments.{segment_rows, AreListedRows};

use cla_num::Memory;
use cla_rows::{Occurrences, counted};
use std::alloc::Global;

// Rows that are listed, in rising order, and the code of each.
#[derive(Drop)]
pub(crate) struct ListedRows {
    pub(crate) rows: Vec<u32>,
    pub(crate) keys: Vec<u32>,
}

// The rows with another code than the rest, and their codes. Each row is written, and the place moves on
// behind one that is listed, so that no jump depends on the codes.
pub(crate) fn listed_rows(alloc: Global, codes: &[u32], rest: u32) -> Result<ListedRows, Memory>
    requires few { length codes.now ≤ most_cells }
    ensures { IfOk result (λ listed. AreListedRows codes.now rest listed.rows.items listed.keys.items) }
{
    let mut rows = vec![in alloc; 0; codes.len()]?;
    let mut keys = vec![in alloc; 0; codes.len()]?;
    let mut count = 0;
    for i in 0..codes.len() {
        rows[count] = i as u32;
        keys[count] = codes[i];
        if codes[i] != rest {
            count += 1;
        }
    }
    rows.truncate(count);
    keys.truncate(count);
    Ok(ListedRows { rows, keys })
}

// Appends the rows at these places, which are rows of a segment, counted from its first row.
pub(crate) fn push_offsets(
    rows: &[u32],
    places: &[u32],
    offsets: &mut Vec<u16>,
) -> Result<(), Memory>
    requires places { (n : ℕ) → n < length places.now → code_of places.now n < length rows.now }
    requires within { (n : ℕ) → n < length rows.now → code_of rows.now n < segment_rows }
    ensures { IfOk result (λ _. offsets.new.items ≡ offsets.old.items ++ map (code_of rows.now) places.now) }
{
    for place in places {
        offsets.push(rows[*place as usize] as u16)?;
    }
    Ok(())
}

// Whether at most an eighth of the rows is listed.
fn are_few_listed(codes: &[u32], rest: u32) -> bool {
    let mut unlisted = 0;
    for i in 0..codes.len() {
        if codes[i] == rest {
            unlisted += 1;
        }
    }
    unlisted >= codes.len() - codes.len() / 8
}

// Counts the rows of each code, and finds the first of them.
pub(crate) fn counted_by_code(
    alloc: Global,
    codes: &[u32],
    tuples: u32,
    rest: u32,
) -> Result<Occurrences, Memory>
    requires below { (i : ℕ) → i < length codes.now → code_of codes.now i < tuples }
    requires few { length codes.now ≤ most_cells }
    ensures { IfOk result (λ found. AreCounted codes.now tuples found.counts.items found.first_rows.items) }
{
    if are_few_listed(codes, rest) {
        counted_apart(alloc, codes, tuples, rest)
    } else {
        counted(alloc, codes, tuples)
    }
}

// The same for few rows that are listed. Those of the rest are counted apart from the table: a count in
// memory waits for the one before.
fn counted_apart(
    alloc: Global,
    codes: &[u32],
    tuples: u32,
    rest: u32,
) -> Result<Occurrences, Memory>
    requires below { (i : ℕ) → i < length codes.now → code_of codes.now i < tuples }
    requires few { length codes.now ≤ most_cells }
    ensures { IfOk result (λ found. AreCounted codes.now tuples found.counts.items found.first_rows.items) }
{
    let mut counts = vec![in alloc; 0; tuples as usize]?;
    let mut first_rows = vec![in alloc; codes.len() as u32; tuples as usize]?;
    let mut unlisted = 0;
    let mut first_unlisted = codes.len() as u32;
    for i in (0..codes.len()).rev() {
        if codes[i] == rest {
            unlisted += 1;
            first_unlisted = i as u32;
        } else {
            counts[codes[i] as usize] += 1;
            first_rows[codes[i] as usize] = i as u32;
        }
    }
    if rest < tuples {
        counts[rest as usize] = unlisted;
        first_rows[rest as usize] = first_unlisted;
    }
    Ok(Occurrences { counts, first_rows })
}
