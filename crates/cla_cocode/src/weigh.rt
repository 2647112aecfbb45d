//! What the union of two groups of columns would take, weighed without its codes.

ghost use Rattle.std.specs.Prelude.{◌≡◌, ◌<◌, ◌≤◌, ◌&&◌, not, ℕ, length, if◌then◌else◌, IfOk};
ghost use Rattle.std.specs.List.{filter};
ghost use Rattle.cla_spec.specs.Matrix.{most_cells};
ghost use Rattle.cla_layout.specs.Listed.{is_rest, rows_where};
ghost use Rattle.cla_grouping.specs.Sizes.{AreSmall, figures_of};
ghost use Rattle.cla_grouping.specs.Tuples.{AreTuples};
ghost use Rattle.cla_stats.specs.Coded.{CanJoin};
ghost use Rattle.cla_numbering.specs.Tables.{AreBelow};
ghost use Rattle.cla_cocode.specs.Weighing.{CountGives, is_listed_pair, begins_pair, floor_of, least_of};
ghost use Rattle.cla_cocode.specs.Weighing.{with_distinct_of, pairs_of};
ghost use Rattle.cla_cocode.specs.Listing.{either_of};

use crate::pairs::{count_pairs, count_pairs_in};
use cla_grouping::Figures;
use cla_num::Memory;
use cla_stats::Tuples;
use std::alloc::Global;

// The rows and the maximal runs of pairs that are listed.
#[derive(Clone, Copy, Debug, PartialEq, Eq)]
pub struct Listed {
    pub rows: u32,
    pub runs: u32,
}

/// No more than the figures of a union, by those of its two parts.
pub(crate) fn least_union(a: &Tuples, first: Figures, b: &Tuples, second: Figures) -> Figures
    requires pair { CanJoin a.now b.now }
    requires first { first ≡ figures_of a.now }
    requires second { second ≡ figures_of b.now }
    ensures value { result ≡ least_of a.now b.now }
    ensures small { AreSmall result }
    ensures first { AreTuples a.now }
    ensures second { AreTuples b.now }
{
    // The codes tell that there are rows, and few cells.
    let _ = a.codes();
    let _ = b.codes();
    Figures {
        width: a.width() + b.width(),
        rows: a.rows(),
        distinct: 0,
        listed: 0,
        listed_rows: first.listed_rows.max(second.listed_rows),
        listed_runs: first.listed_runs.max(second.listed_runs),
    }
}

/// The figures of a union, but for its tuples, which are left at none. It goes over the rows once.
pub(crate) fn floor(a: &Tuples, b: &Tuples) -> Figures
    requires { CanJoin a.now b.now }
    ensures value { result ≡ floor_of a.now b.now }
    ensures small { AreSmall result }
    ensures first { AreTuples a.now }
    ensures second { AreTuples b.now }
{
    let Listed { rows, runs } = listed_pairs(a.codes(), a.zero(), b.codes(), b.zero());
    Figures {
        width: a.width() + b.width(),
        rows: a.rows(),
        distinct: 0,
        listed: 0,
        listed_rows: rows,
        listed_runs: runs,
    }
}

/// The same, of groups that list these rows alone. It goes over them once.
pub(crate) fn floor_in(a: &Tuples, b: &Tuples, rows: &[u32]) -> Figures
    requires pair { CanJoin a.now b.now }
    requires rows { rows.now ≡ either_of a.now b.now }
    ensures value { result ≡ floor_of a.now b.now }
    ensures small { AreSmall result }
    ensures first { AreTuples a.now }
    ensures second { AreTuples b.now }
{
    let listed_runs = runs_in(rows, a.codes(), a.zero(), b.codes(), b.zero());
    Figures {
        width: a.width() + b.width(),
        rows: a.rows(),
        distinct: 0,
        listed: 0,
        listed_rows: rows.len() as u32,
        listed_runs,
    }
}

/// The tuples of a union; `None` where there are more than `most`.
pub(crate) fn count(alloc: Global, a: &Tuples, b: &Tuples, most: u32) -> Result<Option<u32>, Memory>
    requires { CanJoin a.now b.now }
    ensures { IfOk result (CountGives most (pairs_of a.now b.now)) }
{
    count_pairs(
        alloc,
        a.codes(),
        a.distinct(),
        b.codes(),
        b.distinct(),
        most,
    )
}

/// The same, of groups that list these rows alone. The pair of zeros is one more, where a row has it.
pub(crate) fn count_in(
    alloc: Global,
    a: &Tuples,
    b: &Tuples,
    rows: &[u32],
    most: u32,
) -> Result<Option<u32>, Memory>
    requires pair { CanJoin a.now b.now }
    requires rows { rows.now ≡ either_of a.now b.now }
    ensures { IfOk result (CountGives most (pairs_of a.now b.now)) }
{
    let counted = count_pairs_in(
        alloc,
        rows,
        a.codes(),
        a.distinct(),
        b.codes(),
        b.distinct(),
        most,
    )?;
    let Some(listed) = counted else {
        return Ok(None);
    };
    Ok(Some(listed + (rows.len() < a.codes().len()) as u32))
}

/// The figures with so many tuples. All are listed where all rows are.
pub(crate) fn with_distinct(floor: Figures, distinct: u32) -> Figures
    ensures { result ≡ with_distinct_of floor distinct }
{
    let listed = if floor.listed_rows < floor.rows {
        distinct.saturating_sub(1)
    } else {
        distinct
    };
    Figures {
        distinct,
        listed,
        ..floor
    }
}

// The rows and the runs of pairs other than the pair of zeros.
fn listed_pairs(a: &[u32], first: Option<u32>, b: &[u32], second: Option<u32>) -> Listed
    requires rows { length b.now ≡ length a.now }
    requires few { length a.now ≤ most_cells }
    ensures rows { result.rows ≡ length (rows_where (is_listed_pair first a.now second b.now) (length a.now)) }
    ensures runs { result.runs ≡ length (rows_where (begins_pair first a.now second b.now) (length a.now)) }
{
    let mut rows = 0;
    let mut runs = 0;
    for i in 0..a.len() {
        rows += listed_row(first, a, second, b, i);
        runs += listed_run(first, a, second, b, i);
    }
    Listed { rows, runs }
}

// How many runs of listed pairs begin in these rows.
fn runs_in(rows: &[u32], a: &[u32], first: Option<u32>, b: &[u32], second: Option<u32>) -> u32
    requires below { AreBelow (length a.now) rows.now }
    requires rows { length b.now ≡ length a.now }
    requires few { length rows.now ≤ most_cells }
    ensures { result ≡ length (filter (begins_pair first a.now second b.now) rows.now) }
{
    let mut runs = 0;
    for row in rows {
        runs += listed_run(first, a, second, b, *row as usize);
    }
    runs
}

// 1 where the pair of row i is listed, else 0.
fn listed_row(first: Option<u32>, a: &[u32], second: Option<u32>, b: &[u32], i: usize) -> u32
    requires first { i < length a.now }
    requires second { i < length b.now }
    ensures value { result ≡ (if is_listed_pair first a.now second b.now i then 1 else 0) }
    ensures small { result ≤ 1 }
{
    match (first, second) {
        (Some(first), Some(second)) => (a[i] != first || b[i] != second) as u32,
        _ => 1,
    }
}

// 1 where a run of a listed pair begins at row i, else 0.
fn listed_run(first: Option<u32>, a: &[u32], second: Option<u32>, b: &[u32], i: usize) -> u32
    requires first { i < length a.now }
    requires second { i < length b.now }
    ensures value { result ≡ (if begins_pair first a.now second b.now i then 1 else 0) }
    ensures small { result ≤ 1 }
{
    if i == 0 || a[i - 1] != a[i] || b[i - 1] != b[i] {
        listed_row(first, a, second, b, i)
    } else {
        0
    }
}
