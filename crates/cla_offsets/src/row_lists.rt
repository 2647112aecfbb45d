//! Rows that are given as lists, code by code, and not by a code a row.

ghost use Rattle.std.specs.Prelude.{◌≡◌, ◌≤◌, ◌<◌, ◌+◌, ◌*◌, ℕ, List, length, drop, IfOk};
ghost use Rattle.cla_spec.specs.Matrix.{most_cells};
ghost use Rattle.cla_layout.specs.Groups.{code_of};
ghost use Rattle.cla_rows.specs.Counted.{AreCounted};
ghost use Rattle.cla_offsets.specs.Rows.{OffsetsOf};
ghost use Rattle.cla_offsets.specs.Segments.{segment_rows, segment_of, segments_of, AreAdded, AreLists};
ghost use Rattle.cla_offsets.specs.RowLists.{AreRowLists, AreChained, IsPlaceIn, ArePushed, AreAtSegment};

use crate::lists::{Lists, SEGMENT_ROWS, segment_count};
use cla_num::Memory;
use cla_rows::{Grouped, Occurrences};
use std::alloc::Global;

// The rest of the list of code k from this place on, which is a place of its list or where it ends.
fn list_from(lists: &Grouped, k: u32, place: u32) -> &[u32]
    requires { (list_of : ℕ → List ℕ) × (count : ℕ) × (j : ℕ)
        × AreChained list_of count lists.now.starts.items lists.now.places.items × IsPlaceIn list_of count k j place }
    ensures { (list_of : ℕ → List ℕ) (count j : ℕ)
        → AreChained list_of count lists.now.starts.items lists.now.places.items
        → IsPlaceIn list_of count k j place → result.now ≡ drop j (list_of k) }
{
    &lists.places[place as usize..lists.starts[k as usize + 1] as usize]
}

// The first row of a list, or `rows` where it has none.
fn first_in(list: &[u32], rows: u32) -> u32
    ensures some { 0 < length list.now → result ≡ code_of list.now 0 }
    ensures none { length list.now ≡ 0 → result ≡ rows }
{
    if list.is_empty() { rows } else { list[0] }
}

// Appends the rows before row `end` as they count from row `first`. The rows rise. Returns how many were
// appended.
fn push_before(rows: &[u32], first: u32, end: u32, offsets: &mut Vec<u16>) -> Result<u32, Memory>
    requires few { length rows.now ≤ most_cells }
    requires from { (n : ℕ) → n < length rows.now → first ≤ code_of rows.now n }
    requires size { end ≤ first + segment_rows }
    ensures { IfOk result (λ n. ArePushed rows.now first end n offsets.old.items offsets.new.items) }
{
    for (n, row) in rows.iter().enumerate() {
        if *row >= end {
            return Ok(n as u32);
        }
        offsets.push((*row - first) as u16)?;
    }
    Ok(rows.len() as u32)
}

// How many rows each code has, and the first of them, by their lists.
pub(crate) fn counted_by_lists(
    alloc: Global,
    rows: u32,
    tuples: u32,
    rest: u32,
    lists: &Grouped,
    first_unlisted: u32,
) -> Result<Occurrences, Memory>
    requires { (codes : List ℕ)
        × AreRowLists codes rows tuples rest first_unlisted lists.now.starts.items lists.now.places.items }
    ensures { (codes : List ℕ)
        → AreRowLists codes rows tuples rest first_unlisted lists.now.starts.items lists.now.places.items
        → IfOk result (λ found. AreCounted codes tuples found.counts.items found.first_rows.items) }
{
    let mut counts = Vec::with_capacity(alloc, tuples as usize)?;
    let mut first_rows = Vec::with_capacity(alloc, tuples as usize)?;
    for k in 0..tuples {
        let list = list_from(lists, k, lists.starts[k as usize]);
        counts.push(list.len() as u32)?;
        first_rows.push(first_in(list, rows))?;
    }
    if rest < tuples {
        counts[rest as usize] = rows - lists.places.len() as u32;
        first_rows[rest as usize] = first_unlisted;
    }
    Ok(Occurrences { counts, first_rows })
}

impl Lists {
    // The rows of these lists, segment by segment. No list names a row of the rest.
    pub(crate) fn from_lists(
        alloc: Global,
        rows: u32,
        tuples: u32,
        lists: &Grouped,
    ) -> Result<Lists, Memory>
        requires { (codes : List ℕ) × (rest : ℕ) × (first_unlisted : ℕ)
            × AreRowLists codes rows tuples rest first_unlisted lists.now.starts.items lists.now.places.items }
        ensures { (codes : List ℕ) (rest first_unlisted : ℕ)
            → AreRowLists codes rows tuples rest first_unlisted lists.now.starts.items lists.now.places.items
            → let v : OffsetsOf = record { codes = codes; tuples = tuples; rest = rest } in
            IfOk result (λ kept. AreLists (segments_of rows) v kept) }
    {
        let segments = segment_count(rows);
        let starts = segments as usize * (tuples as usize + 1);
        let mut kept = Lists::with_room(alloc, segments as usize, starts, lists.places.len())?;
        let mut cursors = Vec::from_slice(alloc, &lists.starts)?;
        for s in 0..segments {
            kept.add_listed(lists, s, tuples, &mut cursors)?;
        }
        Ok(kept)
    }

    // One more segment, which is segment s. The rows before it are passed in each list, and the cursors
    // move on past those in it.
    fn add_listed(
        &mut self,
        lists: &Grouped,
        s: u32,
        tuples: u32,
        cursors: &mut [u32],
    ) -> Result<(), Memory>
        requires at { (codes : List ℕ) × (rest : ℕ)
            × AreAtSegment s codes tuples rest lists.now.starts.items lists.now.places.items cursors.old
            × (s * segment_rows < length codes) }
        requires few { length self.old.offsets.items ≤ most_cells }
        ensures added { (codes : List ℕ) (rest : ℕ)
            → AreAtSegment s codes tuples rest lists.now.starts.items lists.now.places.items cursors.old
            → s * segment_rows < length codes
            → IfOk result (λ _. AreAdded (segment_of codes s) tuples rest self.old self.new) }
        ensures moved { (codes : List ℕ) (rest : ℕ)
            → AreAtSegment s codes tuples rest lists.now.starts.items lists.now.places.items cursors.old
            → s * segment_rows < length codes
            → IfOk result (λ _.
            AreAtSegment (s + 1) codes tuples rest lists.now.starts.items lists.now.places.items cursors.new) }
    {
        let first = s * SEGMENT_ROWS;
        let base = self.offsets.len();
        self.bases.push(base as u32)?;
        for k in 0..tuples {
            let start = self.next_start(base);
            self.starts.push(start)?;
            let rows = list_from(lists, k, cursors[k as usize]);
            cursors[k as usize] += push_before(
                rows,
                first,
                first + SEGMENT_ROWS,
                &mut self.offsets,
            )?;
        }
        let end = self.next_start(base);
        self.starts.push(end)?;
        Ok(())
    }
}
