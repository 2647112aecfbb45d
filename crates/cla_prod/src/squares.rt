//! Products of a table's transpose and the table.

ghost use Rattle.std.specs.Prelude.{◌≡◌, ◌≤◌, ◌*◌, false};
ghost use Rattle.cla_spec.specs.Matrix.{most_cells};
ghost use Rattle.cla_num.specs.Bits.{IsSupported};
ghost use Rattle.cla_num.specs.Counts.{AreBelow, kernel_bound};
ghost use Rattle.cla_coded.specs.Parts.{parts_of};
ghost use Rattle.cla_coded.specs.Tables.{table_entry};
ghost use Rattle.cla_meaning.specs.Entries.{self_product_entry};
ghost use Rattle.cla_prod.specs.Answers.{AnswersEntries, CountsMults, self_values_of};

use crate::columns::product_by_columns;
use crate::lines::Lines;
use crate::numbers::Order;
use cla_coded::Table;
use cla_group::Group;
use cla_num::{Dense, Meter, Number, Refused};
use std::alloc::Global;

/// The transpose of a table, which isn't flipped, times the table. Refused exactly where an exact entry
/// isn't in range, at the first such entry row by row; no partial sum is tested for range.
///
/// Each column is read once, gathered over the rows of each tuple and multiplied with the columns from it
/// on; the entries below the diagonal are those above it. So each group makes as many multiplications as
/// it has tuples, times its columns' numbers from 1, added up.
///
/// All buffers are taken first: one column and its group's codes, the exact and the final entries, and one
/// item for each tuple of a group.
pub fn self_product<N: Number, G: Group<N>>(
    alloc: Global,
    x: &Table<N, G>,
    meter: &mut Meter,
) -> Result<Dense<N>, Refused>
    requires bits { IsSupported N.BITS }
    requires plain { x.now.flipped ≡ false }
    requires few { x.now.cols * x.now.cols ≤ most_cells }
    requires room { AreBelow kernel_bound meter.old }
    ensures product { let exact = self_product_entry x.now.rows (table_entry G.codes G.dictionary x.now) in
        AnswersEntries N.BITS x.now.cols x.now.cols exact result }
    ensures counts { let multiplied = self_values_of (parts_of G.codes G.dictionary x.now.parts) in
        CountsMults multiplied result meter.old meter.new }
{
    let lines = Lines {
        turned: true,
        order: Order::Mirrored,
        count: x.cols(),
        inner: x.rows(),
        outer: x.cols(),
    };
    product_by_columns(alloc, x.parts(), x.parts(), lines, x.entry(0, 0), meter)
}
