//! The entries of a column.

ghost use Rattle.std.specs.Prelude.{◌≡◌, ◌<◌, map, length, IfOk};
ghost use Rattle.cla_spec.specs.Matrix.{most_cells};
ghost use Rattle.cla_numbering.specs.Columns.{column_of};

use cla_num::{Dense, Memory, Number};
use std::alloc::Global;

/// The entries of a column. It goes over the rows once.
pub fn entries_of<N: Number>(alloc: Global, m: &Dense<N>, column: u32) -> Result<Vec<N>, Memory>
    requires { column < m.now.cols }
    ensures { IfOk result (λ items. map N.value items.items ≡ column_of m.now column) }
{
    let mut items = Vec::with_capacity(alloc, m.rows() as usize)?;
    for i in 0..m.rows() {
        items.push(m.entry(i, column))?;
    }
    Ok(items)
}
