//! Products of a table and a dense matrix, from either side.

ghost use Rattle.std.specs.Prelude.{◌≡◌, ◌≤◌, ◌*◌};
ghost use Rattle.cla_spec.specs.Matrix.{most_cells, entry};
ghost use Rattle.cla_num.specs.Bits.{IsSupported};
ghost use Rattle.cla_num.specs.Counts.{AreBelow, kernel_bound};
ghost use Rattle.cla_layout.specs.Values.{values_of};
ghost use Rattle.cla_coded.specs.Parts.{parts_of};
ghost use Rattle.cla_coded.specs.Tables.{rows_of_table, cols_of_table, table_entry};
ghost use Rattle.cla_meaning.specs.Entries.{product_entry};
ghost use Rattle.cla_prod.specs.Answers.{AnswersEntries, CountsMults};
ghost use Rattle.cla_prod.specs.Lines.{AreLines, rows_in, cols_in, entry_by_lines, line_times, IsSquare};

use crate::lines::{Lines, copied, most_tuples, shape, times_lines};
use crate::numbers::{Order, numbers_of};
use cla_coded::{Part, Table};
use cla_group::Group;
use cla_num::{Dense, Meter, Number, Refused, Wide};
use std::alloc::Global;

/// The product of a table and a dense matrix. Refused exactly where an exact entry isn't in range, at the
/// first such entry row by row; no partial sum is tested for range.
///
/// Each tuple is multiplied once with its part of each column of `b`, and what it gives is scattered over
/// the rows that have it (PVLDB 9(12), section 3). A flipped table gathers the column over the rows of each
/// tuple and multiplies after. So it makes as many multiplications as the dictionaries have values for each
/// column of `b`, and one scatter, or one gather, for each column and group.
///
/// All buffers are taken first: the exact and the final entries, one item for each tuple of a group, and one
/// column of `b` where it has several.
pub fn right<N: Number, G: Group<N>>(
    alloc: Global,
    a: &Table<N, G>,
    b: &Dense<N>,
    meter: &mut Meter,
) -> Result<Dense<N>, Refused>
    requires bits { IsSupported N.BITS }
    requires inner { cols_of_table a.now ≡ b.now.rows }
    requires few { rows_of_table a.now * b.now.cols ≤ most_cells }
    requires room { AreBelow kernel_bound meter.old }
    ensures product { let exact = product_entry b.now.rows (table_entry G.codes G.dictionary a.now) (entry b.now) in
        AnswersEntries N.BITS (rows_of_table a.now) b.now.cols exact result }
    ensures counts { let values = values_of (parts_of G.codes G.dictionary a.now.parts) in
        CountsMults (values * b.now.cols) result meter.old meter.new }
{
    let lines = Lines {
        turned: a.flipped(),
        order: Order::Columns,
        count: b.cols(),
        inner: b.rows(),
        outer: a.rows(),
    };
    product_by_lines(alloc, a.parts(), b, lines, meter)
}

/// The product of a dense matrix and a table. Refused exactly where an exact entry isn't in range, at the
/// first such entry row by row; no partial sum is tested for range.
///
/// Each row of `a` is gathered over the rows of each tuple, and the tuples are multiplied after (PVLDB
/// 9(12), section 3). A flipped table multiplies its tuples first and scatters what they give. So it makes
/// as many multiplications as the dictionaries have values for each row of `a`, and one gather, or one
/// scatter, for each row and group.
///
/// All buffers are taken first: the exact and the final entries, and one item for each tuple of a group.
pub fn left<N: Number, G: Group<N>>(
    alloc: Global,
    a: &Dense<N>,
    b: &Table<N, G>,
    meter: &mut Meter,
) -> Result<Dense<N>, Refused>
    requires bits { IsSupported N.BITS }
    requires inner { a.now.cols ≡ rows_of_table b.now }
    requires few { a.now.rows * cols_of_table b.now ≤ most_cells }
    requires room { AreBelow kernel_bound meter.old }
    ensures product { let exact = product_entry a.now.cols (entry a.now) (table_entry G.codes G.dictionary b.now) in
        AnswersEntries N.BITS a.now.rows (cols_of_table b.now) exact result }
    ensures counts { let values = values_of (parts_of G.codes G.dictionary b.now.parts) in
        CountsMults (values * a.now.rows) result meter.old meter.new }
{
    let lines = Lines {
        turned: !b.flipped(),
        order: Order::Rows,
        count: a.rows(),
        inner: a.cols(),
        outer: b.cols(),
    };
    product_by_lines(alloc, b.parts(), a, lines, meter)
}

// The matrix whose rows, or columns, are the products of a base, or of its transpose, and the rows, or
// columns, of `m`.
fn product_by_lines<N: Number, G: Group<N>>(
    alloc: Global,
    parts: &[Part<G>],
    m: &Dense<N>,
    lines: Lines,
    meter: &mut Meter,
) -> Result<Dense<N>, Refused>
    requires bits { IsSupported N.BITS }
    requires lines { let parts = parts_of G.codes G.dictionary parts.now in
        AreLines N.BITS parts lines m.now (lines.count * lines.outer) }
    requires square { IsSquare lines.order (rows_in lines.order lines) (cols_in lines.order lines) }
    requires room { AreBelow kernel_bound meter.old }
    ensures product { let parts = parts_of G.codes G.dictionary parts.now in
        let exact = entry_by_lines lines.order (line_times parts lines m.now) in
        AnswersEntries N.BITS (rows_in lines.order lines) (cols_in lines.order lines) exact result }
    ensures counts { let values = values_of (parts_of G.codes G.dictionary parts.now) in
        CountsMults (values * lines.count) result meter.old meter.new }
    ensures a_line { 1 ≤ lines.count }
{
    let first = m.cells()[0];
    let count = lines.count as usize * lines.outer as usize;
    let Ok(mut column) = Vec::from_elem(alloc, first, copied(m, lines.order) as usize) else {
        return Err(Refused::Memory);
    };
    let Ok(mut scratch) = Vec::from_elem(alloc, Wide::zero(), most_tuples(parts) as usize) else {
        return Err(Refused::Memory);
    };
    let Ok(mut exact) = Vec::from_elem(alloc, Wide::zero(), count) else {
        return Err(Refused::Memory);
    };
    let Ok(mut numbers) = Vec::from_elem(alloc, first, count) else {
        return Err(Refused::Memory);
    };
    times_lines(
        parts,
        m,
        lines,
        &mut column,
        &mut scratch,
        &mut exact,
        meter,
    );
    let (rows, cols) = shape(lines);
    match numbers_of(&exact, lines.order, rows, cols, &mut numbers) {
        Ok(()) => Ok(Dense::new(rows, cols, numbers)),
        Err(fault) => Err(Refused::Op(fault)),
    }
}
