//! The cut of a matrix.

ghost use Rattle.std.specs.Prelude.{◌≡◌, ◌≤◌, ◌<◌, ◌^◌, ◌*◌, ◌+◌, ◌-◌, [], ◌∷◌, length, map, All, IfOk, OnOk};
ghost use Rattle.std.specs.List.{range_with_len};
ghost use Rattle.cla_spec.specs.Matrix.{IsShaped, most_cells};
ghost use Rattle.cla_grouping.specs.Grouping.{GroupOf, groups_to, grouping_of, with_column};
ghost use Rattle.cla_grouping.specs.Grouping.{in_best_kind, bytes_in, one_plain, or_plain, most_grouped};
ghost use Rattle.cla_grouping.specs.Sizes.{plain_bytes};
ghost use Rattle.cla_cocode.specs.Cuts.{group_seen, cut_seen, AreLeast};
ghost use Rattle.cla_cocode.specs.Kept.{IsCounted, AreCounted, columns_of, kept_seen};

use crate::choice::choose;
use crate::cut::{Cut, LayoutGroup};
use crate::kept::{Kept, alone, take_in};
use cla_layout::Kind;
use cla_num::{Dense, Memory, Number};
use cla_stats::Tuples;
use std::alloc::Global;

// So many columns are counted together: their cells in a row are read at once.
const COLUMNS_AT_ONCE: u32 = 16;

// More columns than this are not grouped.
const MOST_GROUPED: u32 = 1 << 16;

/// The cut of a matrix by the rule that groups columns: they are taken from left to right, and each joins
/// the group, of the last 16, that saves the most bytes by it, or else stands alone; and one plain group
/// of all columns replaces the groups where it isn't larger than they are together.
pub fn layout<N: Number>(alloc: Global, m: &Dense<N>) -> Result<Cut, Memory>
    ensures rule { IfOk result (λ l. cut_seen l ≡ grouping_of m.now) }
    ensures least { IfOk result (λ l. AreLeast m.now (cut_seen l)) }
    ensures no_larger { IfOk result (λ l. bytes_in (cut_seen l).groups ≤ plain_bytes m.now.rows m.now.cols) }
{
    let (rows, cols) = (m.rows(), m.cols());
    let plain = 5 + 4 * cols as u64 + 8 * m.cells().len() as u64;
    if cols > MOST_GROUPED {
        let groups = all_plain(alloc, cols, plain)?;
        return Ok(Cut { rows, cols, groups });
    }
    let groups = cut_groups(kept_groups(alloc, m)?, alloc)?;
    if plain <= bytes_of(&groups) {
        let groups = all_plain(alloc, cols, plain)?;
        Ok(Cut { rows, cols, groups })
    } else {
        Ok(Cut { rows, cols, groups })
    }
}

// The groups of all columns, taken from left to right.
fn kept_groups<N: Number>(alloc: Global, m: &Dense<N>) -> Result<Vec<Kept>, Memory>
    requires { IsShaped m.now.rows m.now.cols m.now.cells }
    ensures columns { IfOk result (λ v. columns_of v.items ≡ groups_to m.now m.now.cols) }
    ensures counted { IfOk result (λ v. AreCounted m.now m.now.cols v.items) }
    ensures few { IfOk result (λ v. length v.items ≤ m.now.cols) }
{
    let cols = m.cols();
    let mut groups = Vec::new(alloc);
    let mut first = 0;
    while first < cols {
        let past = past_next(first, cols);
        add_columns(alloc, m, first, past, &mut groups)?;
        first = past;
    }
    Ok(groups)
}

// The columns that are counted next, from `first` on, end before this one.
fn past_next(first: u32, cols: u32) -> u32
    requires { first < cols }
    ensures more { first < result }
    ensures within { result ≤ cols }
{
    if cols - first > COLUMNS_AT_ONCE {
        first + COLUMNS_AT_ONCE
    } else {
        cols
    }
}

// Takes in the columns from `first` on and before `past`, which are counted together.
fn add_columns<N: Number>(
    alloc: Global,
    m: &Dense<N>,
    first: u32,
    past: u32,
    groups: &mut Vec<Kept>,
) -> Result<(), Memory>
    requires shape { IsShaped m.now.rows m.now.cols m.now.cells }
    requires order { first ≤ past }
    requires within { past ≤ m.now.cols }
    requires counted { AreCounted m.now first groups.old.items }
    requires columns { columns_of groups.old.items ≡ groups_to m.now first }
    ensures counted { OnOk result (AreCounted m.now past groups.new.items) }
    ensures columns { OnOk result (columns_of groups.new.items ≡ groups_to m.now past) }
    ensures few { OnOk result (length groups.new.items ≤ length groups.old.items + (past - first)) }
{
    let mut column = first;
    for tuples in Tuples::count_each(alloc, m, first, past)? {
        add_column(alloc, m, column, alone(alloc, column, tuples)?, groups)?;
        column += 1;
    }
    Ok(())
}

// Takes in the next column: it joins the group that saves most by it, or stands alone.
fn add_column<N: Number>(
    alloc: Global,
    m: &Dense<N>,
    column: u32,
    single: Kept,
    groups: &mut Vec<Kept>,
) -> Result<(), Memory>
    requires shape { IsShaped m.now.rows m.now.cols m.now.cells }
    requires within { column < m.now.cols }
    requires single { IsCounted m.now single }
    requires alone { single.columns.items ≡ column ∷ [] }
    requires counted { AreCounted m.now column groups.old.items }
    ensures counted { OnOk result (AreCounted m.now (column + 1) groups.new.items) }
    ensures columns { OnOk result
        (columns_of groups.new.items ≡ with_column m.now (columns_of groups.old.items) column) }
    ensures few { OnOk result (length groups.new.items ≤ length groups.old.items + 1) }
{
    let best = choose(alloc, groups, &single)?;
    if best.saving > 0 {
        take_in(alloc, &mut groups[best.place], &single, column)?;
    } else {
        groups.push(single)?;
    }
    Ok(())
}

// The groups, without their tuples.
fn cut_groups(kept: Vec<Kept>, alloc: Global) -> Result<Vec<LayoutGroup>, Memory>
    ensures { IfOk result (λ v. map group_seen v.items ≡ map kept_seen kept.items) }
{
    let mut groups = Vec::with_capacity(alloc, kept.len())?;
    for group in kept {
        groups.push(LayoutGroup {
            columns: group.columns,
            kind: group.best.kind,
            bytes: group.best.bytes,
        })?;
    }
    Ok(groups)
}

// The bytes of all groups.
fn bytes_of(groups: &[LayoutGroup]) -> u64
    requires few { length groups.now ≤ most_grouped }
    requires small { All (λ g. g.bytes < 2 ^ 30) groups.now }
    ensures { result ≡ bytes_in (map group_seen groups.now) }
{
    let mut total = 0;
    for group in groups {
        total += group.bytes;
    }
    total
}

// One plain group of all columns.
fn all_plain(alloc: Global, cols: u32, bytes: u64) -> Result<Vec<LayoutGroup>, Memory>
    ensures { IfOk result (λ v. map group_seen v.items
        ≡ record { columns = range_with_len 0 cols; kind = Kind.Plain; bytes = bytes } ∷ []) }
{
    let mut columns = Vec::with_capacity(alloc, cols as usize)?;
    for column in 0..cols {
        columns.push(column)?;
    }
    let mut groups = Vec::with_capacity(alloc, 1)?;
    groups.push(LayoutGroup {
        columns,
        kind: Kind::Plain,
        bytes,
    })?;
    Ok(groups)
}
