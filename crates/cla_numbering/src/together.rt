//! Columns that stand side by side, numbered together.

ghost use Rattle.std.specs.Prelude.{◌≡◌, ◌+◌, ◌-◌, ◌<◌, ◌≤◌, [], ◌∷◌, ◌++◌, ℕ, true, List, length};
ghost use Rattle.std.specs.Prelude.{All, IfOk, IfSome, OnOk};
ghost use Rattle.cla_spec.specs.Matrix.{most_cells};
ghost use Rattle.cla_num.specs.declared.number.TheConstants.{GREATEST_BITS};
ghost use Rattle.cla_numbering.specs.Together.{IsNumberedTo, AreNumberedTo};

use crate::entries::place_of;
use crate::numbered::{NO_NUMBER, NumberedColumn, PLACES_A_ROW};
use crate::table::number_place;
use cla_num::{Dense, GREATEST_BITS, Memory, Number};
use std::alloc::Global;

// A table has at most this many places.
const MOST_PLACES: usize = 4096;

/// The columns from `first` on and before `past`, each numbered through a table with a place for each value below
/// 4,096. `None` where a value is below 0 or too great for that. The rows are gone over once, and what stands side by
/// side in a row is read together.
pub fn number_together<N: Number>(
    alloc: Global,
    m: &Dense<N>,
    first: u32,
    past: u32,
) -> Result<Option<Vec<NumberedColumn>>, Memory>
    requires order { first ≤ past }
    requires within { past ≤ m.now.cols }
    ensures bits { IfOk result (λ found. IfSome found (λ _. N.BITS ≤ GREATEST_BITS)) }
    ensures count { IfOk result (λ found. IfSome found (λ v. length v.items ≡ past - first)) }
    ensures columns { IfOk result
        (λ found. IfSome found (λ v. AreNumberedTo m.now first (λ _. m.now.rows) v.items)) }
{
    if N::BITS > GREATEST_BITS {
        return Ok(None);
    }
    // The cells tell that there are few rows.
    let _ = m.cells();
    let mut columns = unnumbered(alloc, m.rows(), past - first)?;
    for i in 0..m.rows() {
        if !number_row(m, first, past, i, &mut columns)? {
            return Ok(None);
        }
    }
    Ok(Some(columns))
}

// So many columns of which no row is numbered, with room for so many rows.
fn unnumbered(alloc: Global, rows: u32, count: u32) -> Result<Vec<NumberedColumn>, Memory>
    ensures count { IfOk result (λ v. length v.items ≡ count) }
    ensures none { IfOk result (λ v. All (IsNumberedTo []) v.items) }
{
    let places = MOST_PLACES.min(PLACES_A_ROW as usize * rows as usize);
    let mut columns = Vec::with_capacity(alloc, count as usize)?;
    for _ in 0..count {
        let table = vec![in alloc; NO_NUMBER; places]?;
        let codes = Vec::with_capacity(alloc, rows as usize)?;
        columns.push(NumberedColumn {
            table,
            codes,
            distinct: 0,
        })?;
    }
    Ok(columns)
}

// Numbers row i, after the rows before it. `false` where a value has no place.
fn number_row<N: Number>(
    m: &Dense<N>,
    first: u32,
    past: u32,
    i: u32,
    columns: &mut Vec<NumberedColumn>,
) -> Result<bool, Memory>
    requires columns { length columns.old.items ≡ past - first }
    requires order { first ≤ past }
    requires within { past ≤ m.now.cols }
    requires row { i < m.now.rows }
    requires few { m.now.rows ≤ most_cells }
    requires before { AreNumberedTo m.now first (λ _. i) columns.old.items }
    ensures count { OnOk result (length columns.new.items ≡ length columns.old.items) }
    ensures rows { IfOk result (λ done. done ≡ true → AreNumberedTo m.now first (λ _. i + 1) columns.new.items) }
{
    for j in first..past {
        let column = &mut columns[(j - first) as usize];
        if !number_entry(column, place_of(m.entry(i, j)))? {
            return Ok(false);
        }
    }
    Ok(true)
}

// Numbers the next row of a column, which has this place. `false` where the table doesn't have it.
#[inline(always)]
fn number_entry(column: &mut NumberedColumn, place: u64) -> Result<bool, Memory>
    requires few { column.old.distinct ≤ most_cells }
    ensures { (places : List ℕ) → IsNumberedTo places column.old
        → IfOk result (λ done. done ≡ true → IsNumberedTo (places ++ place ∷ []) column.new) }
{
    if place >= column.table.len() as u64 {
        return Ok(false);
    }
    let code = number_place(&mut column.table, &mut column.distinct, place as usize);
    column.codes.push(code)?;
    Ok(true)
}
