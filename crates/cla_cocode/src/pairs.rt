//! How many pairs of tuples two groups of columns have, without the codes of the pairs.

ghost use Rattle.std.specs.Prelude.{◌≡◌, ◌*◌, ◌<◌, ◌≤◌, ◌^◌, false, true, length, IfOk};
ghost use Rattle.std.specs.Prelude.{slice_index_or, slice_set, if◌then◌else◌};
ghost use Rattle.cla_spec.specs.Matrix.{most_cells};
ghost use Rattle.cla_grouping.specs.Numbering.{same_pair, first_rows_by};
ghost use Rattle.cla_numbering.specs.Tables.{AreBelow};
ghost use Rattle.cla_cocode.specs.Weighing.{CountGives, pairs_in};

use crate::listing::codes_in;
use cla_num::Memory;
use indexmap::IndexSet;
use std::alloc::Global;

// A table has at most this many places for each row.
const PLACES_A_ROW: u64 = 16;

/// How many distinct pairs two lists of codes have, which are below `tall` and `wide`; `None` where there
/// are more than `most`, and then it stops at the row that shows it. The pairs that were met are kept in
/// a table with a place for each pair where it has at most sixteen places a row, and in a map where it
/// would have more.
pub(crate) fn count_pairs(
    alloc: Global,
    a: &[u32],
    tall: u32,
    b: &[u32],
    wide: u32,
    most: u32,
) -> Result<Option<u32>, Memory>
    requires rows { length b.now ≡ length a.now }
    requires few { length a.now ≤ most_cells }
    requires first { AreBelow tall a.now }
    requires second { AreBelow wide b.now }
    ensures { IfOk result (CountGives most (length (first_rows_by (same_pair a.now b.now) (length a.now)))) }
{
    if tall as u64 * wide as u64 <= PLACES_A_ROW * a.len() as u64 {
        count_by_table(alloc, a, tall, b, wide, most)
    } else {
        count_by_map(alloc, a, b, wide, most)
    }
}

// The same, through a table with a place for each of the `tall * wide` pairs.
fn count_by_table(
    alloc: Global,
    a: &[u32],
    tall: u32,
    b: &[u32],
    wide: u32,
    most: u32,
) -> Result<Option<u32>, Memory>
    requires rows { length b.now ≡ length a.now }
    requires few { length a.now ≤ most_cells }
    requires first { AreBelow tall a.now }
    requires second { AreBelow wide b.now }
    requires pairs { tall * wide < 2 ^ 32 }
    ensures { IfOk result (CountGives most (length (first_rows_by (same_pair a.now b.now) (length a.now)))) }
{
    let mut met = vec![in alloc; false; tall as usize * wide as usize]?;
    let mut distinct = 0;
    for (i, x) in a.iter().enumerate() {
        let place = *x as usize * wide as usize + b[i] as usize;
        distinct += meet(&mut met, place);
        if distinct > most {
            return Ok(None);
        }
    }
    Ok(Some(distinct))
}

/// How many distinct pairs these rows have, in the same two ways.
pub(crate) fn count_pairs_in(
    alloc: Global,
    rows: &[u32],
    a: &[u32],
    tall: u32,
    b: &[u32],
    wide: u32,
    most: u32,
) -> Result<Option<u32>, Memory>
    requires within { AreBelow (length a.now) rows.now }
    requires few { length rows.now ≤ most_cells }
    requires rows { length b.now ≡ length a.now }
    requires first { AreBelow tall a.now }
    requires second { AreBelow wide b.now }
    ensures { IfOk result (CountGives most (pairs_in a.now b.now wide rows.now)) }
{
    if tall as u64 * wide as u64 <= PLACES_A_ROW * rows.len() as u64 {
        count_in_by_table(alloc, rows, a, tall, b, wide, most)
    } else {
        let first = codes_in(alloc, a, rows)?;
        let second = codes_in(alloc, b, rows)?;
        count_by_map(alloc, &first, &second, wide, most)
    }
}

// The same, through a table with a place for each of the `tall * wide` pairs.
fn count_in_by_table(
    alloc: Global,
    rows: &[u32],
    a: &[u32],
    tall: u32,
    b: &[u32],
    wide: u32,
    most: u32,
) -> Result<Option<u32>, Memory>
    requires within { AreBelow (length a.now) rows.now }
    requires few { length rows.now ≤ most_cells }
    requires rows { length b.now ≡ length a.now }
    requires first { AreBelow tall a.now }
    requires second { AreBelow wide b.now }
    requires pairs { tall * wide < 2 ^ 32 }
    ensures { IfOk result (CountGives most (pairs_in a.now b.now wide rows.now)) }
{
    let mut met = vec![in alloc; false; tall as usize * wide as usize]?;
    let mut distinct = 0;
    for row in rows {
        let i = *row as usize;
        let place = a[i] as usize * wide as usize + b[i] as usize;
        distinct += meet(&mut met, place);
        if distinct > most {
            return Ok(None);
        }
    }
    Ok(Some(distinct))
}

// Marks a place as met: 1 where it wasn't, else 0.
fn meet(met: &mut Vec<bool>, place: usize) -> u32
    requires { place < length met.old.items }
    ensures fresh { result ≡ (if slice_index_or met.old.items place false then 0 else 1) }
    ensures small { result ≤ 1 }
    ensures marks { met.new.items ≡ slice_set met.old.items place true }
{
    let fresh = !met[place];
    met[place] = true;
    fresh as u32
}

// The same, through a map of the pairs that occur.
fn count_by_map(
    alloc: Global,
    a: &[u32],
    b: &[u32],
    wide: u32,
    most: u32,
) -> Result<Option<u32>, Memory>
    requires rows { length b.now ≡ length a.now }
    requires few { length a.now ≤ most_cells }
    requires second { AreBelow wide b.now }
    ensures { IfOk result (CountGives most (length (first_rows_by (same_pair a.now b.now) (length a.now)))) }
{
    let mut seen: IndexSet<u64> = IndexSet::new(alloc);
    for (i, x) in a.iter().enumerate() {
        let (_, _) = seen.insert_full(*x as u64 * wide as u64 + b[i] as u64)?;
        let met = seen.len();
        if met > most as usize {
            return Ok(None);
        }
    }
    let distinct = seen.len() as u32;
    Ok(Some(distinct))
}
