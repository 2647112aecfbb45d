//! Products of two tables.

ghost use Rattle.std.specs.Prelude.{◌≡◌, ◌≤◌, ◌*◌, min};
ghost use Rattle.cla_spec.specs.Matrix.{most_cells};
ghost use Rattle.cla_num.specs.Bits.{IsSupported};
ghost use Rattle.cla_num.specs.Counts.{AreBelow, kernel_bound};
ghost use Rattle.cla_layout.specs.Values.{values_of};
ghost use Rattle.cla_coded.specs.Parts.{parts_of};
ghost use Rattle.cla_coded.specs.Tables.{rows_of_table, cols_of_table, table_entry};
ghost use Rattle.cla_meaning.specs.Entries.{product_entry};
ghost use Rattle.cla_prod.specs.Answers.{AnswersEntries, CountsMults};

use crate::columns::product_by_columns;
use crate::lines::Lines;
use crate::numbers::Order;
use crate::sides::{left, right};
use cla_coded::Table;
use cla_group::Group;
use cla_num::{Dense, Meter, Number, Refused};
use std::alloc::Global;

/// The product of two tables. Refused exactly where an exact entry isn't in range, at the first such entry
/// row by row; no partial sum is tested for range.
///
/// One of the tables is read column by column, or made dense where its rows are wanted, and the other
/// multiplies its dictionaries: `a` with each column of `b`, or `b` with each row of `a`, whichever makes fewer
/// multiplications. So it makes one scatter, or one gather, for each of these and each group.
///
/// All buffers are taken first: those of [`right`] or [`left`], with one column and the codes of a group, or
/// with the cells of the table that is made dense.
pub fn product<N: Number, G: Group<N>, H: Group<N>>(
    alloc: Global,
    a: &Table<N, G>,
    b: &Table<N, H>,
    meter: &mut Meter,
) -> Result<Dense<N>, Refused>
    requires bits { IsSupported N.BITS }
    requires inner { cols_of_table a.now ≡ rows_of_table b.now }
    requires few { rows_of_table a.now * cols_of_table b.now ≤ most_cells }
    requires room { AreBelow kernel_bound meter.old }
    ensures product { let entry_a = table_entry G.codes G.dictionary a.now in
        let entry_b = table_entry H.codes H.dictionary b.now in
        let exact = product_entry (cols_of_table a.now) entry_a entry_b in
        AnswersEntries N.BITS (rows_of_table a.now) (cols_of_table b.now) exact result }
    ensures counts { let values_a = values_of (parts_of G.codes G.dictionary a.now.parts) in
        let values_b = values_of (parts_of H.codes H.dictionary b.now.parts) in
        let fewest = min (values_a * cols_of_table b.now) (values_b * rows_of_table a.now) in
        CountsMults fewest result meter.old meter.new }
{
    if values(a) * b.cols() as u64 <= values(b) * a.rows() as u64 {
        times_columns_of(alloc, a, b, meter)
    } else {
        rows_of_times(alloc, a, b, meter)
    }
}

// A table times each column of another.
fn times_columns_of<N: Number, G: Group<N>, H: Group<N>>(
    alloc: Global,
    a: &Table<N, G>,
    b: &Table<N, H>,
    meter: &mut Meter,
) -> Result<Dense<N>, Refused>
    requires bits { IsSupported N.BITS }
    requires inner { cols_of_table a.now ≡ rows_of_table b.now }
    requires few { rows_of_table a.now * cols_of_table b.now ≤ most_cells }
    requires room { AreBelow kernel_bound meter.old }
    ensures product { let entry_a = table_entry G.codes G.dictionary a.now in
        let entry_b = table_entry H.codes H.dictionary b.now in
        let exact = product_entry (cols_of_table a.now) entry_a entry_b in
        AnswersEntries N.BITS (rows_of_table a.now) (cols_of_table b.now) exact result }
    ensures counts { let values = values_of (parts_of G.codes G.dictionary a.now.parts) in
        CountsMults (values * cols_of_table b.now) result meter.old meter.new }
{
    let read = b.parts();
    let parts = a.parts();
    if b.flipped() {
        let Ok(b) = b.to_dense(alloc) else {
            return Err(Refused::Memory);
        };
        return right(alloc, a, &b, meter);
    }
    let lines = Lines {
        turned: a.flipped(),
        order: Order::Columns,
        count: b.cols(),
        inner: b.rows(),
        outer: a.rows(),
    };
    product_by_columns(alloc, read, parts, lines, b.entry(0, 0), meter)
}

// Each row of a table times another.
fn rows_of_times<N: Number, G: Group<N>, H: Group<N>>(
    alloc: Global,
    a: &Table<N, G>,
    b: &Table<N, H>,
    meter: &mut Meter,
) -> Result<Dense<N>, Refused>
    requires bits { IsSupported N.BITS }
    requires inner { cols_of_table a.now ≡ rows_of_table b.now }
    requires few { rows_of_table a.now * cols_of_table b.now ≤ most_cells }
    requires room { AreBelow kernel_bound meter.old }
    ensures product { let entry_a = table_entry G.codes G.dictionary a.now in
        let entry_b = table_entry H.codes H.dictionary b.now in
        let exact = product_entry (cols_of_table a.now) entry_a entry_b in
        AnswersEntries N.BITS (rows_of_table a.now) (cols_of_table b.now) exact result }
    ensures counts { let values = values_of (parts_of H.codes H.dictionary b.now.parts) in
        CountsMults (values * rows_of_table a.now) result meter.old meter.new }
{
    let read = a.parts();
    let parts = b.parts();
    if a.flipped() {
        let lines = Lines {
            turned: !b.flipped(),
            order: Order::Rows,
            count: a.rows(),
            inner: a.cols(),
            outer: b.cols(),
        };
        return product_by_columns(alloc, read, parts, lines, a.entry(0, 0), meter);
    }
    let Ok(a) = a.to_dense(alloc) else {
        return Err(Refused::Memory);
    };
    left(alloc, &a, b, meter)
}

// How many values the dictionaries of a table have.
fn values<N: Number, G: Group<N>>(m: &Table<N, G>) -> u64
    ensures values { result ≡ values_of (parts_of G.codes G.dictionary m.now.parts) }
    ensures few { result ≤ most_cells }
{
    let mut count = 0;
    for part in m.parts() {
        count += part.group.tuples() as u64 * part.group.width() as u64;
    }
    count
}
