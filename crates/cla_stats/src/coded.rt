//! The tuples of columns, numbered and not yet counted.

ghost use Rattle.std.specs.Prelude.{◌≡◌, ◌∷◌, [], ◌<◌, ◌≤◌, ◌++◌, ◌&&◌, ◌==◌, ◌*◌, ◌+◌, ℤ, length, map, IfOk, pos};
ghost use Rattle.std.specs.Ordering.{int_eq};
ghost use Rattle.cla_spec.specs.Matrix.{IsShaped, most_cells};
ghost use Rattle.cla_layout.specs.Groups.{code_of};
ghost use Rattle.cla_layout.specs.Listed.{is_rest};
ghost use Rattle.cla_grouping.specs.Tuples.{AreColumns, AreTuples, code_where, tuples_in, joined};
ghost use Rattle.cla_stats.specs.Coded.{tuples_seen, tuples_numbered, zero_numbered, AreTuplesOf, is_zero_at, CanJoin};

use cla_num::{Dense, Memory, Number, Wide};
use cla_numbering::{
    NO_NUMBER, Numbered, NumberedColumn, entries_of, number_entries, number_pairs,
};
use std::alloc::Global;

/// Columns, how many distinct tuples they have, the code of each row's tuple, and the code of the tuple
/// of zeros.
#[derive(Drop)]
pub struct Coded {
    pub width: u32,
    pub distinct: u32,
    pub codes: Vec<u32>,
    pub zero: Option<u32>,
}

/// The tuples of these columns: those of the first, joined with those of each other.
pub fn code_columns<N: Number>(
    alloc: Global,
    m: &Dense<N>,
    columns: &[u32],
) -> Result<Coded, Memory>
    requires { AreColumns m.now.cols columns.now }
    ensures tuples { IfOk result (λ c. tuples_seen c ≡ tuples_in m.now columns.now) }
    ensures are { IfOk result (λ c. AreTuples (tuples_seen c)) }
{
    let mut coded = code_column(alloc, m, columns[0])?;
    for k in 1..columns.len() {
        let next = code_column(alloc, m, columns[k])?;
        coded = join_codes(alloc, &coded, &next)?;
    }
    Ok(coded)
}

/// The entries of a column.
pub fn code_column<N: Number>(alloc: Global, m: &Dense<N>, column: u32) -> Result<Coded, Memory>
    requires { column < m.now.cols }
    ensures tuples { IfOk result (λ c. tuples_seen c ≡ tuples_in m.now (column ∷ [])) }
    ensures shape { IfOk result (λ _. IsShaped m.now.rows m.now.cols m.now.cells) }
{
    // The cells tell that there are few rows.
    let _ = m.cells();
    let items = entries_of(alloc, m, column)?;
    let coded = code_entries(alloc, &items)?;
    Ok(coded)
}

/// The tuples of a column with these entries.
pub fn code_entries<N: Number>(alloc: Global, items: &[N]) -> Result<Coded, Memory>
    requires few { length items.now ≤ most_cells }
    ensures { IfOk result (λ c. AreTuplesOf (map N.value items.now) (tuples_seen c)) }
{
    let Numbered { codes, distinct } = number_entries(alloc, items)?;
    let zero = first_zero(items, &codes);
    Ok(Coded {
        width: 1,
        distinct,
        codes,
        zero,
    })
}

/// The tuples of a column that is numbered.
pub fn code_numbered(column: NumberedColumn) -> Coded
    ensures { tuples_seen result ≡ tuples_numbered column }
{
    let zero = number_of_zero(&column.table);
    let NumberedColumn {
        codes,
        distinct,
        ..
    } = column;
    Coded {
        width: 1,
        distinct,
        codes,
        zero,
    }
}

// The number of the place 0, if it has one.
fn number_of_zero(table: &[u32]) -> Option<u32>
    ensures { result ≡ zero_numbered table.now }
{
    if table.is_empty() || table[0] == NO_NUMBER {
        None
    } else {
        Some(table[0])
    }
}

// The code of the first zero of these entries, if there is one.
fn first_zero<N: Number>(items: &[N], codes: &[u32]) -> Option<u32>
    requires { length items.now ≡ length codes.now }
    ensures { result ≡ code_where (is_zero_at (map N.value items.now)) codes.now }
{
    for i in 0..codes.len() {
        if is_zero(&items[i]) {
            return Some(codes[i]);
        }
    }
    None
}

// Whether a value is 0.
fn is_zero<N: Number>(value: &N) -> bool
    ensures { result ≡ int_eq (N.value value.now) (pos 0) }
{
    value.wide() == Wide::zero()
}

/// The pairs of the tuples of two groups of columns.
pub fn join_codes(alloc: Global, a: &Coded, b: &Coded) -> Result<Coded, Memory>
    requires first { AreTuples (tuples_seen a.now) }
    requires second { AreTuples (tuples_seen b.now) }
    requires pair { CanJoin (tuples_seen a.now) (tuples_seen b.now) }
    ensures tuples { IfOk result (λ c. tuples_seen c ≡ joined (tuples_seen a.now) (tuples_seen b.now)) }
    ensures are { IfOk result (λ c. AreTuples (tuples_seen c)) }
{
    let Numbered { codes, distinct } = number_pairs(
        alloc, &a.codes, a.distinct, &b.codes, b.distinct,
    )?;
    let zero = joined_zero(a, b, &codes);
    Ok(Coded {
        width: a.width + b.width,
        distinct,
        codes,
        zero,
    })
}

// The code of the first row in which both tuples are zeros, if there is one.
fn joined_zero(a: &Coded, b: &Coded, codes: &[u32]) -> Option<u32>
    requires rows { length b.now.codes.items ≡ length a.now.codes.items }
    requires codes { length codes.now ≡ length a.now.codes.items }
    ensures { result ≡ code_where
        (λ i. is_rest a.now.zero (code_of a.now.codes.items i) && is_rest b.now.zero (code_of b.now.codes.items i))
        codes.now }
{
    match (a.zero, b.zero) {
        (Some(first), Some(second)) => first_pair(&a.codes, first, &b.codes, second, codes),
        _ => None,
    }
}

// The code of the first row that has these two, if there is one.
fn first_pair(a: &[u32], first: u32, b: &[u32], second: u32, codes: &[u32]) -> Option<u32>
    requires rows { length b.now ≡ length a.now }
    requires codes { length codes.now ≡ length a.now }
    ensures { result ≡ code_where (λ i. code_of a.now i == first && code_of b.now i == second) codes.now }
{
    for i in 0..codes.len() {
        if a[i] == first && b[i] == second {
            return Some(codes[i]);
        }
    }
    None
}
