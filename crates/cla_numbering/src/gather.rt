//! The entries of columns that stand side by side.

ghost use Rattle.std.specs.Prelude.{◌≡◌, ◌+◌, ◌-◌, ◌<◌, ◌≤◌, [], length, All, IfOk, OnOk};
ghost use Rattle.cla_numbering.specs.Columns.{AreGathered};

use cla_num::{Dense, Memory, Number};
use std::alloc::Global;

/// The entries of the columns from `first` on and before `past`, column by column. The rows are gone over
/// once, and what stands side by side in a row is read together.
pub fn gathered<N: Number>(
    alloc: Global,
    m: &Dense<N>,
    first: u32,
    past: u32,
) -> Result<Vec<Vec<N>>, Memory>
    requires order { first ≤ past }
    requires within { past ≤ m.now.cols }
    ensures count { IfOk result (λ v. length v.items ≡ past - first) }
    ensures entries { IfOk result (λ v. AreGathered N.value m.now first (λ _. m.now.rows) v.items) }
{
    let mut columns = empty(alloc, m.rows(), past - first)?;
    for i in 0..m.rows() {
        push_row(m, first, past, i, &mut columns)?;
    }
    Ok(columns)
}

// So many columns with no entries, and with room for those of so many rows.
fn empty<N: Number>(alloc: Global, rows: u32, count: u32) -> Result<Vec<Vec<N>>, Memory>
    ensures count { IfOk result (λ v. length v.items ≡ count) }
    ensures none { IfOk result (λ v. All (λ column. column.items ≡ []) v.items) }
{
    let mut columns = Vec::with_capacity(alloc, count as usize)?;
    for _ in 0..count {
        let column = Vec::with_capacity(alloc, rows as usize)?;
        columns.push(column)?;
    }
    Ok(columns)
}

// Puts the entries of row i behind those of the rows before.
fn push_row<N: Number>(
    m: &Dense<N>,
    first: u32,
    past: u32,
    i: u32,
    columns: &mut Vec<Vec<N>>,
) -> Result<(), Memory>
    requires columns { length columns.old.items ≡ past - first }
    requires order { first ≤ past }
    requires within { past ≤ m.now.cols }
    requires row { i < m.now.rows }
    requires before { AreGathered N.value m.now first (λ _. i) columns.old.items }
    ensures count { OnOk result (length columns.new.items ≡ length columns.old.items) }
    ensures entries { OnOk result (AreGathered N.value m.now first (λ _. i + 1) columns.new.items) }
{
    for j in first..past {
        columns[(j - first) as usize].push(m.entry(i, j))?;
    }
    Ok(())
}
