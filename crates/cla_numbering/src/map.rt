//! Pairs of codes, numbered through a map.

ghost use Rattle.std.specs.Prelude.{◌≡◌, ◌≤◌, length, IfOk};
ghost use Rattle.cla_spec.specs.Matrix.{most_cells};
ghost use Rattle.cla_grouping.specs.Numbering.{same_pair};
ghost use Rattle.cla_numbering.specs.Tables.{AreNumberedBy, AreBelow};

use crate::numbered::Numbered;
use cla_num::Memory;
use indexmap::IndexSet;
use std::alloc::Global;

/// The codes of the pairs, through a map of those that occur. The second codes are below `wide`.
pub(crate) fn number_by_map(
    alloc: Global,
    a: &[u32],
    b: &[u32],
    wide: u32,
) -> Result<Numbered, Memory>
    requires rows { length b.now ≡ length a.now }
    requires few { length a.now ≤ most_cells }
    requires second { AreBelow wide b.now }
    ensures { IfOk result (AreNumberedBy (same_pair a.now b.now) (length a.now)) }
{
    let mut seen: IndexSet<u64> = IndexSet::new(alloc);
    let mut codes = Vec::with_capacity(alloc, a.len())?;
    for (i, x) in a.iter().enumerate() {
        let (code, _) = seen.insert_full(*x as u64 * wide as u64 + b[i] as u64)?;
        codes.push(code as u32)?;
    }
    let distinct = seen.len() as u32;
    Ok(Numbered { codes, distinct })
}
