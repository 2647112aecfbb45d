//! Pairs of codes, numbered through a table.

ghost use Rattle.std.specs.Prelude.{◌≡◌, ◌*◌, ◌<◌, ◌≤◌, ◌^◌, ◌-◌, length, IfOk};
ghost use Rattle.cla_spec.specs.Matrix.{most_cells};
ghost use Rattle.cla_grouping.specs.Numbering.{same_pair};
ghost use Rattle.cla_numbering.specs.Tables.{AreNumberedBy, AreBelow, number_put, table_put, next_put};

use crate::numbered::{NO_NUMBER, Numbered};
use cla_num::Memory;
use std::alloc::Global;

/// The codes of the pairs, through a table with a place for each of the `tall * wide` pairs.
pub(crate) fn number_by_table(
    alloc: Global,
    a: &[u32],
    tall: u32,
    b: &[u32],
    wide: u32,
) -> Result<Numbered, Memory>
    requires rows { length b.now ≡ length a.now }
    requires few { length a.now ≤ most_cells }
    requires first { AreBelow tall a.now }
    requires second { AreBelow wide b.now }
    requires pairs { tall * wide < 2 ^ 32 }
    ensures { IfOk result (AreNumberedBy (same_pair a.now b.now) (length a.now)) }
{
    let mut table = vec![in alloc; NO_NUMBER; tall as usize * wide as usize]?;
    let mut codes = Vec::with_capacity(alloc, a.len())?;
    let mut distinct = 0;
    for (i, x) in a.iter().enumerate() {
        let place = *x as usize * wide as usize + b[i] as usize;
        codes.push(number_place(&mut table, &mut distinct, place))?;
    }
    Ok(Numbered { codes, distinct })
}

/// The number that stands at a place of the table; where there is none, the next, which is put there.
pub fn number_place(table: &mut Vec<u32>, next: &mut u32, place: usize) -> u32
    requires within { place < length table.old.items }
    requires few { next.old < 2 ^ 32 - 1 }
    ensures code { result ≡ number_put table.old.items next.old place }
    ensures table { table.new.items ≡ table_put table.old.items next.old place }
    ensures next { next.new ≡ next_put table.old.items next.old place }
{
    let code = table[place];
    if code == NO_NUMBER {
        let code = *next;
        table[place] = code;
        *next += 1;
        code
    } else {
        code
    }
}
