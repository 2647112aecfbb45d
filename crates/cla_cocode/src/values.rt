//! The values of tuples, from rows that have them.

ghost use Rattle.std.specs.Prelude.{◌≡◌, ◌++◌, ◌<◌, map, IfOk, OnOk};
ghost use Rattle.cla_grouping.specs.Tuples.{AreColumns, tuple_in_row};
ghost use Rattle.cla_numbering.specs.Tables.{AreBelow};
ghost use Rattle.cla_cocode.specs.Built.{values_in_rows};

use cla_num::{Dense, Memory, Number};
use std::alloc::Global;

/// The values of these columns in these rows, row after row.
pub(crate) fn values_of<N: Number>(
    alloc: Global,
    m: &Dense<N>,
    columns: &[u32],
    rows: &[u32],
) -> Result<Vec<N>, Memory>
    requires columns { AreColumns m.now.cols columns.now }
    requires rows { AreBelow m.now.rows rows.now }
    ensures { IfOk result (λ values. map N.value values.items ≡ values_in_rows m.now columns.now rows.now) }
{
    let mut values = Vec::new(alloc);
    for row in rows {
        push_row(m, *row, columns, &mut values)?;
    }
    Ok(values)
}

// Puts the values of these columns in a row behind the others.
fn push_row<N: Number>(
    m: &Dense<N>,
    row: u32,
    columns: &[u32],
    values: &mut Vec<N>,
) -> Result<(), Memory>
    requires columns { AreColumns m.now.cols columns.now }
    requires row { row < m.now.rows }
    ensures { OnOk result
        (map N.value values.new.items ≡ map N.value values.old.items ++ tuple_in_row m.now columns.now row) }
{
    for column in columns {
        values.push(m.entry(row, *column))?;
    }
    Ok(())
}
