//! The sizes of columns.

ghost use Rattle.std.specs.Prelude.{◌≡◌, ◌∷◌, [], ◌<◌, ◌≤◌, ◌^◌, ◌==◌, not, List, length, Some, None, if◌then◌else◌};
ghost use Rattle.cla_spec.specs.Matrix.{most_cells};
ghost use Rattle.cla_grouping.specs.Tuples.{AreTuples};
ghost use Rattle.cla_grouping.specs.Sizes.{AreSmall, IsLeast, figures_of, sizes_of, best_of};
ghost use Rattle.cla_grouping.specs.Sizes.{listed_of, is_listed, begins_listed, listed_rows_of, listed_runs_of};

use cla_grouping::{Figures, KindBytes, codes_size, offsets_size, plain_size, runs_size};
use cla_layout::Kind;
use cla_stats::Tuples;

/// How many bytes columns with these tuples take as one group of each kind, in the order of the kinds.
pub fn sizes(t: &Tuples) -> [u64; 4]
    ensures { result ≡ sizes_of (figures_of t.now) }
{
    let f = figures(t);
    [plain_size(f), codes_size(f), offsets_size(f), runs_size(f)]
}

/// The kind that takes the fewest bytes, the lower one on a tie, and these bytes.
pub fn best(t: &Tuples) -> (Kind, u64)
    ensures value { let found = best_of (figures_of t.now) in result ≡ (found.kind, found.bytes) }
    ensures least { IsLeast (figures_of t.now) (record { kind = result.0; bytes = result.1 }) }
{
    let KindBytes { kind, bytes } = best_kind(figures(t));
    (kind, bytes)
}

/// The same of these figures, as one value.
pub(crate) fn best_kind(f: Figures) -> KindBytes
    requires { AreSmall f }
    ensures value { result ≡ best_of f }
    ensures least { IsLeast f result }
    ensures small { result.bytes < 2 ^ 30 }
{
    cla_grouping::best(f)
}

/// The figures of columns with these tuples. It goes over the rows once.
pub(crate) fn figures(t: &Tuples) -> Figures
    ensures value { result ≡ figures_of t.now }
    ensures small { AreSmall result }
{
    let codes = t.codes();
    let zero = t.zero();
    let mut listed_rows = 0;
    let mut listed_runs = 0;
    for i in 0..codes.len() {
        listed_rows += listed_row(zero, codes, i);
        listed_runs += listed_run(zero, codes, i);
    }
    Figures {
        width: t.width(),
        rows: t.rows(),
        distinct: t.distinct(),
        listed: listed(zero, t.distinct()),
        listed_rows,
        listed_runs,
    }
}

// How many tuples are listed.
fn listed(zero: Option<u32>, distinct: u32) -> u32
    ensures value { result ≡ listed_of zero distinct }
    ensures small { result ≤ distinct }
{
    match zero {
        None => distinct,
        Some(_) => distinct.saturating_sub(1),
    }
}

// 1 where the tuple of row i is listed, else 0.
fn listed_row(zero: Option<u32>, codes: &[u32], i: usize) -> u32
    requires { i < length codes.now }
    ensures value { result ≡ (if is_listed zero codes.now i then 1 else 0) }
    ensures small { result ≤ 1 }
{
    match zero {
        None => 1,
        Some(zero) => (codes[i] != zero) as u32,
    }
}

// 1 where a run of a listed tuple begins at row i, else 0.
fn listed_run(zero: Option<u32>, codes: &[u32], i: usize) -> u32
    requires { i < length codes.now }
    ensures value { result ≡ (if begins_listed zero codes.now i then 1 else 0) }
    ensures small { result ≤ 1 }
{
    if i == 0 || codes[i - 1] != codes[i] {
        listed_row(zero, codes, i)
    } else {
        0
    }
}
