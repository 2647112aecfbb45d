//! The rows in which groups of columns have other tuples than that of zeros, where they are few.

ghost use Rattle.std.specs.Prelude.{◌≡◌, ◌≤◌, ◌++◌, length, map, IfOk};
ghost use Rattle.std.specs.List.{filter};
ghost use Rattle.cla_spec.specs.Matrix.{most_cells};
ghost use Rattle.cla_layout.specs.Groups.{code_of};
ghost use Rattle.cla_layout.specs.Listed.{is_rest, rows_where};
ghost use Rattle.cla_numbering.specs.Tables.{AreBelow};
ghost use Rattle.cla_grouping.specs.Sizes.{is_listed, figures_of};
ghost use Rattle.cla_cocode.specs.Listing.{IsListing};

use cla_grouping::Figures;
use cla_num::Memory;
use cla_stats::Tuples;
use std::alloc::Global;

// Listed rows are few where they are at most one in so many.
const ROWS_TO_A_LISTED: u32 = 8;

/// The listed rows of tuples with these figures, where they are few.
pub(crate) fn few_listed(alloc: Global, t: &Tuples, f: Figures) -> Result<Option<Vec<u32>>, Memory>
    requires { f ≡ figures_of t.now }
    ensures { IfOk result (IsListing t.now) }
{
    if f.listed_rows > f.rows / ROWS_TO_A_LISTED {
        return Ok(None);
    }
    let rows = listed_rows(alloc, t.zero(), t.codes())?;
    Ok(Some(rows))
}

// The rows whose tuples are listed, in rising order.
fn listed_rows(alloc: Global, zero: Option<u32>, codes: &[u32]) -> Result<Vec<u32>, Memory>
    requires { length codes.now ≤ most_cells }
    ensures { IfOk result (λ v. v.items ≡ rows_where (is_listed zero codes.now) (length codes.now)) }
{
    let mut rows = Vec::new(alloc);
    for i in 0..codes.len() {
        if !is_zero(zero, codes[i]) {
            rows.push(i as u32)?;
        }
    }
    Ok(rows)
}

/// Rows in which one or the other of two groups has a tuple that is listed: these of the first, and those
/// of the second in which the first has zeros.
pub(crate) fn either_listed(
    alloc: Global,
    first: &[u32],
    zero: Option<u32>,
    codes: &[u32],
    second: &[u32],
) -> Result<Vec<u32>, Memory>
    requires { AreBelow (length codes.now) second.now }
    ensures { IfOk result
        (λ v. v.items ≡ first.now ++ filter (λ i. is_rest zero (code_of codes.now i)) second.now) }
{
    let mut rows = Vec::from_slice(alloc, first)?;
    for row in second {
        if is_zero(zero, codes[*row as usize]) {
            rows.push(*row)?;
        }
    }
    Ok(rows)
}

/// The codes of these rows.
pub(crate) fn codes_in(alloc: Global, codes: &[u32], rows: &[u32]) -> Result<Vec<u32>, Memory>
    requires { AreBelow (length codes.now) rows.now }
    ensures { IfOk result (λ v. v.items ≡ map (code_of codes.now) rows.now) }
{
    let mut found = Vec::with_capacity(alloc, rows.len())?;
    for row in rows {
        found.push(codes[*row as usize])?;
    }
    Ok(found)
}

// Whether this is the code of the tuple of zeros.
fn is_zero(zero: Option<u32>, code: u32) -> bool
    ensures { result ≡ is_rest zero code }
{
    match zero {
        None => false,
        Some(zero) => code == zero,
    }
}
