//! Pairs of codes.

ghost use Rattle.std.specs.Prelude.{◌≡◌, ◌≤◌, length, IfOk};
ghost use Rattle.cla_spec.specs.Matrix.{most_cells};
ghost use Rattle.cla_grouping.specs.Numbering.{same_pair};
ghost use Rattle.cla_numbering.specs.Tables.{AreNumberedBy, AreBelow};

use crate::map::number_by_map;
use crate::numbered::{Numbered, PLACES_A_ROW};
use crate::table::number_by_table;
use cla_num::Memory;
use std::alloc::Global;

/// The codes of the pairs of two lists of codes, which are below `tall` and `wide`. A table with a place
/// for each pair numbers them where it has at most four places a row, and a map where it would have more.
/// It goes over the rows once.
pub fn number_pairs(
    alloc: Global,
    a: &[u32],
    tall: u32,
    b: &[u32],
    wide: u32,
) -> Result<Numbered, Memory>
    requires rows { length b.now ≡ length a.now }
    requires few { length a.now ≤ most_cells }
    requires first { AreBelow tall a.now }
    requires second { AreBelow wide b.now }
    ensures { IfOk result (AreNumberedBy (same_pair a.now b.now) (length a.now)) }
{
    if tall as u64 * wide as u64 <= PLACES_A_ROW * a.len() as u64 {
        number_by_table(alloc, a, tall, b, wide)
    } else {
        number_by_map(alloc, a, b, wide)
    }
}
