//! Entries, numbered by first place.

ghost use Rattle.std.specs.Prelude.{◌≡◌, ◌≤◌, ◌<◌, ℕ, [], length, map, IfOk};
ghost use Rattle.cla_spec.specs.Matrix.{most_cells};
ghost use Rattle.cla_num.specs.declared.number.TheConstants.{GREATEST_BITS};
ghost use Rattle.cla_grouping.specs.Numbering.{codes_from, firsts_from};
ghost use Rattle.cla_numbering.specs.Columns.{place_in, place_at_row};

use crate::numbered::{NO_NUMBER, Numbered, PLACES_A_ROW};
use crate::table::number_place;
use cla_num::{GREATEST_BITS, Memory, Number};
use indexmap::IndexSet;
use std::alloc::Global;

/// The codes of these entries, numbered by first place. A table with a place for each value numbers them where
/// none is below 0 and it has at most four places an entry, and a map where it would have more. It goes over
/// the entries twice.
pub fn number_entries<N: Number>(alloc: Global, items: &[N]) -> Result<Numbered, Memory>
    requires few { length items.now ≤ most_cells }
    ensures codes { IfOk result (λ found. found.codes.items ≡ codes_from N.eq [] items.now) }
    ensures distinct { IfOk result (λ found. found.distinct ≡ length (firsts_from N.eq [] items.now)) }
{
    let greatest = greatest_place(items);
    if N::BITS <= GREATEST_BITS && greatest < PLACES_A_ROW * items.len() as u64 {
        number_by_value(alloc, items, greatest as usize + 1)
    } else {
        number_by_map(alloc, items)
    }
}

/// The place of an entry in a table: its value, or a number past all tables where that is below 0.
#[tactic(auto, unfolding(crate::specs::Columns::place_in))]
pub(crate) fn place_of<N: Number>(item: N) -> u64
    ensures { result ≡ place_in (N.value item) }
{
    u64::from_le_bytes(item.to_le())
}

// No place of these entries is greater.
fn greatest_place<N: Number>(items: &[N]) -> u64
    ensures { (i : ℕ) → i < length items.now → place_at_row N.value items.now i ≤ result }
{
    let mut greatest = 0;
    for item in items {
        greatest = place_of(*item).max(greatest);
    }
    greatest
}

// The codes of these entries, through a table with a place for each value.
fn number_by_value<N: Number>(alloc: Global, items: &[N], places: usize) -> Result<Numbered, Memory>
    requires few { length items.now ≤ most_cells }
    requires bits { N.BITS ≤ GREATEST_BITS }
    requires within { (i : ℕ) → i < length items.now → place_at_row N.value items.now i < places }
    ensures codes { IfOk result (λ found. found.codes.items ≡ codes_from N.eq [] items.now) }
    ensures distinct { IfOk result (λ found. found.distinct ≡ length (firsts_from N.eq [] items.now)) }
{
    let mut table = vec![in alloc; NO_NUMBER; places]?;
    let mut codes = Vec::with_capacity(alloc, items.len())?;
    let mut distinct = 0;
    for item in items {
        codes.push(number_place(&mut table, &mut distinct, place_of(*item) as usize))?;
    }
    Ok(Numbered { codes, distinct })
}

// The codes of these entries, through a map of those that occur.
fn number_by_map<N: Number>(alloc: Global, items: &[N]) -> Result<Numbered, Memory>
    requires few { length items.now ≤ most_cells }
    ensures codes { IfOk result (λ found. found.codes.items ≡ codes_from N.eq [] items.now) }
    ensures distinct { IfOk result (λ found. found.distinct ≡ length (firsts_from N.eq [] items.now)) }
{
    let mut seen = IndexSet::new(alloc);
    let mut codes = Vec::with_capacity(alloc, items.len())?;
    for item in items {
        let (code, _) = seen.insert_full(*item)?;
        codes.push(code as u32)?;
    }
    let distinct = seen.len() as u32;
    Ok(Numbered { codes, distinct })
}
