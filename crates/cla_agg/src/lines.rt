//! Sums, least and greatest entries of each row and of each column.

ghost use Rattle.std.specs.Prelude.{◌≡◌, ◌<◌, ◌*◌, ◌+◌, ℕ, pos, [], length, IfOk, if◌then◌else◌};
ghost use Rattle.cla_num.specs.Bits.{IsSupported};
ghost use Rattle.cla_num.specs.Counts.{AreBelow, kernel_bound};
ghost use Rattle.cla_layout.specs.Groups.{at};
ghost use Rattle.cla_layout.specs.GroupLaws.{IsExtreme};
ghost use Rattle.cla_layout.specs.Layouts.{entry_in};
ghost use Rattle.cla_layout.specs.Values.{values_of};
ghost use Rattle.cla_coded.specs.Parts.{parts_of};
ghost use Rattle.cla_coded.specs.Tables.{rows_of_table, cols_of_table, table_entry};
ghost use Rattle.cla_meaning.specs.Answers.{AnswersMatrix};
ghost use Rattle.cla_meaning.specs.Counts.{HasMultsOf};
ghost use Rattle.cla_meaning.specs.Entries.{row_sum, col_sum, row_sums_entry, col_sums_entry};
ghost use Rattle.cla_meaning.specs.Orders.{IsLesser, IsGreater};
ghost use Rattle.cla_agg.specs.Lines.{IsLine, HasCells, AreRowExtremes, AreColExtremes};

use crate::columns::{add_columns, choose_in_columns};
use crate::numbers::matrix_of;
use crate::order::{Falling, Order, Rising};
use crate::rows::{add_rows, choose_in_rows, most_tuples};
use cla_coded::Table;
use cla_group::Group;
use cla_num::{Dense, Memory, Meter, Number, Refused, Wide};
use std::alloc::Global;

/// The sums of all columns, as one row. Refused at the first that isn't in range; no partial sum is
/// tested for range.
///
/// Each tuple's values count as often as it occurs (PVLDB 9(12), section 3): it makes as many
/// multiplications as the dictionaries have values, and scans no rows. Of a flipped table it makes none,
/// and scatters once for each group, as `row_sums` does. It takes two places for each sum, and for a
/// flipped table one for each tuple of the part that has most, before it begins.
pub fn col_sums<N: Number, G: Group<N>>(
    alloc: Global,
    m: &Table<N, G>,
    meter: &mut Meter,
) -> Result<Dense<N>, Refused>
    requires bits { IsSupported N.BITS }
    requires room { AreBelow kernel_bound meter.old }
    ensures sums { let entry = table_entry G.codes G.dictionary m.now in
        AnswersMatrix N.BITS 1 (cols_of_table m.now) (col_sums_entry (rows_of_table m.now) entry) result }
    ensures counts { let values = values_of (parts_of G.codes G.dictionary m.now.parts) in
        HasMultsOf (if m.now.flipped then 0 else values) result meter.old meter.new }
{
    if m.flipped() {
        sums_of_rows(alloc, m, 1, m.cols())
    } else {
        sums_of_columns(alloc, m, 1, m.cols(), meter)
    }
}

/// The sums of all rows, as one column. Refused at the first that isn't in range; no partial sum is
/// tested for range.
///
/// The sum of each tuple is scattered over the tuple's rows, once for each group, without a
/// multiplication. Of a flipped table it makes as many multiplications as the dictionaries have values,
/// and scans no rows, as `col_sums` does. It takes two places for each sum, and for an unflipped table
/// one for each tuple of the part that has most, before it begins.
pub fn row_sums<N: Number, G: Group<N>>(
    alloc: Global,
    m: &Table<N, G>,
    meter: &mut Meter,
) -> Result<Dense<N>, Refused>
    requires bits { IsSupported N.BITS }
    requires room { AreBelow kernel_bound meter.old }
    ensures sums { let entry = table_entry G.codes G.dictionary m.now in
        AnswersMatrix N.BITS (rows_of_table m.now) 1 (row_sums_entry (cols_of_table m.now) entry) result }
    ensures counts { let values = values_of (parts_of G.codes G.dictionary m.now.parts) in
        HasMultsOf (if m.now.flipped then values else 0) result meter.old meter.new }
{
    if m.flipped() {
        sums_of_columns(alloc, m, m.rows(), 1, meter)
    } else {
        sums_of_rows(alloc, m, m.rows(), 1)
    }
}

/// The least entry of each row, as one column. The least of each tuple goes to the tuple's rows, whose
/// codes are read once for each group; of a flipped table no rows are scanned. It takes a place and a code
/// for each row, and a place for each tuple of the part that has most.
pub fn row_least<N: Number, G: Group<N>>(alloc: Global, m: &Table<N, G>) -> Result<Dense<N>, Memory>
    requires { IsSupported N.BITS }
    ensures { let entry = table_entry G.codes G.dictionary m.now in
        IfOk result (λ d. AreRowExtremes IsLesser (rows_of_table m.now) (cols_of_table m.now) entry d) }
{
    firsts_of_table_rows::<N, G, Rising>(alloc, m)
}

/// The greatest entry of each row, as one column. It works as `row_least` does.
pub fn row_greatest<N: Number, G: Group<N>>(
    alloc: Global,
    m: &Table<N, G>,
) -> Result<Dense<N>, Memory>
    requires { IsSupported N.BITS }
    ensures { let entry = table_entry G.codes G.dictionary m.now in
        IfOk result (λ d. AreRowExtremes IsGreater (rows_of_table m.now) (cols_of_table m.now) entry d) }
{
    firsts_of_table_rows::<N, G, Falling>(alloc, m)
}

/// The least entry of each column, as one row. Each value of the dictionaries is read once, and no rows are
/// scanned; of a flipped table it works as `row_least` does. It takes a place for each column.
pub fn col_least<N: Number, G: Group<N>>(alloc: Global, m: &Table<N, G>) -> Result<Dense<N>, Memory>
    requires { IsSupported N.BITS }
    ensures { let entry = table_entry G.codes G.dictionary m.now in
        IfOk result (λ d. AreColExtremes IsLesser (rows_of_table m.now) (cols_of_table m.now) entry d) }
{
    firsts_of_table_columns::<N, G, Rising>(alloc, m)
}

/// The greatest entry of each column, as one row. It works as `col_least` does.
pub fn col_greatest<N: Number, G: Group<N>>(
    alloc: Global,
    m: &Table<N, G>,
) -> Result<Dense<N>, Memory>
    requires { IsSupported N.BITS }
    ensures { let entry = table_entry G.codes G.dictionary m.now in
        IfOk result (λ d. AreColExtremes IsGreater (rows_of_table m.now) (cols_of_table m.now) entry d) }
{
    firsts_of_table_columns::<N, G, Falling>(alloc, m)
}

// The extremes of a table's rows, as one column.
fn firsts_of_table_rows<N: Number, G: Group<N>, O: Order<N>>(
    alloc: Global,
    m: &Table<N, G>,
) -> Result<Dense<N>, Memory>
    requires { IsSupported N.BITS }
    ensures { let entry = table_entry G.codes G.dictionary m.now in
        IfOk result (λ d. AreRowExtremes O.before (rows_of_table m.now) (cols_of_table m.now) entry d) }
{
    if m.flipped() {
        firsts_of_columns::<N, G, O>(alloc, m, m.rows(), 1)
    } else {
        firsts_of_rows::<N, G, O>(alloc, m, m.rows(), 1)
    }
}

// The extremes of a table's columns, as one row.
fn firsts_of_table_columns<N: Number, G: Group<N>, O: Order<N>>(
    alloc: Global,
    m: &Table<N, G>,
) -> Result<Dense<N>, Memory>
    requires { IsSupported N.BITS }
    ensures { let entry = table_entry G.codes G.dictionary m.now in
        IfOk result (λ d. AreColExtremes O.before (rows_of_table m.now) (cols_of_table m.now) entry d) }
{
    if m.flipped() {
        firsts_of_rows::<N, G, O>(alloc, m, 1, m.cols())
    } else {
        firsts_of_columns::<N, G, O>(alloc, m, 1, m.cols())
    }
}

// Zeros, as many as a line has places.
fn zeros(alloc: Global, rows: u32, cols: u32) -> Result<Vec<Wide>, Memory>
    ensures count { IfOk result (λ zs. length zs.items ≡ rows * cols) }
    ensures zeros { IfOk result (λ zs. (p : ℕ) → at zs.items p ≡ pos 0) }
{
    Ok(Vec::from_elem(alloc, Wide::zero(), rows as usize * cols as usize)?)
}

// The sums of the base's columns, as a matrix of this shape.
fn sums_of_columns<N: Number, G: Group<N>>(
    alloc: Global,
    m: &Table<N, G>,
    rows: u32,
    cols: u32,
    meter: &mut Meter,
) -> Result<Dense<N>, Refused>
    requires bits { IsSupported N.BITS }
    requires room { AreBelow kernel_bound meter.old }
    requires line { IsLine m.now.cols rows cols }
    ensures sums { let entry = entry_in (parts_of G.codes G.dictionary m.now.parts) in
        AnswersMatrix N.BITS rows cols (λ i j. col_sum m.now.rows entry (i * cols + j)) result }
    ensures counts { HasMultsOf (values_of (parts_of G.codes G.dictionary m.now.parts)) result meter.old meter.new }
{
    let Ok(numbers) = Vec::with_capacity(alloc, rows as usize * cols as usize) else {
        return Err(Refused::Memory);
    };
    let Ok(mut sums) = zeros(alloc, rows, cols) else {
        return Err(Refused::Memory);
    };
    add_columns(m, &mut sums, meter);
    matrix_of(rows, cols, &sums, numbers)
}

// The sums of the base's rows, as a matrix of this shape.
fn sums_of_rows<N: Number, G: Group<N>>(
    alloc: Global,
    m: &Table<N, G>,
    rows: u32,
    cols: u32,
) -> Result<Dense<N>, Refused>
    requires bits { IsSupported N.BITS }
    requires line { IsLine m.now.rows rows cols }
    ensures { let entry = entry_in (parts_of G.codes G.dictionary m.now.parts) in
        AnswersMatrix N.BITS rows cols (λ i j. row_sum m.now.cols entry (i * cols + j)) result }
{
    let Ok(numbers) = Vec::with_capacity(alloc, rows as usize * cols as usize) else {
        return Err(Refused::Memory);
    };
    let Ok(mut scratch) = Vec::from_elem(alloc, Wide::zero(), most_tuples(m) as usize) else {
        return Err(Refused::Memory);
    };
    let Ok(mut sums) = zeros(alloc, rows, cols) else {
        return Err(Refused::Memory);
    };
    add_rows(m, &mut scratch, &mut sums);
    matrix_of(rows, cols, &sums, numbers)
}

// So many numbers, to be written over.
fn unwritten<N: Number>(alloc: Global, count: usize) -> Result<Vec<N>, Memory>
    requires { IsSupported N.BITS }
    ensures { IfOk result (λ numbers. length numbers.items ≡ count) }
{
    Ok(Vec::from_elem(alloc, N::of(0).unwrap(), count)?)
}

// The extremes of the base's columns, as a matrix of this shape.
fn firsts_of_columns<N: Number, G: Group<N>, O: Order<N>>(
    alloc: Global,
    m: &Table<N, G>,
    rows: u32,
    cols: u32,
) -> Result<Dense<N>, Memory>
    requires bits { IsSupported N.BITS }
    requires line { IsLine m.now.cols rows cols }
    ensures { let entry = entry_in (parts_of G.codes G.dictionary m.now.parts) in
        IfOk result (λ d. HasCells (λ p v. IsExtreme O.before (λ i. entry i p) m.now.rows v) rows cols d) }
{
    let mut firsts = unwritten(alloc, rows as usize * cols as usize)?;
    choose_in_columns::<N, G, O>(m, &mut firsts);
    Ok(Dense::new(rows, cols, firsts))
}

// The extremes of the base's rows, as a matrix of this shape.
fn firsts_of_rows<N: Number, G: Group<N>, O: Order<N>>(
    alloc: Global,
    m: &Table<N, G>,
    rows: u32,
    cols: u32,
) -> Result<Dense<N>, Memory>
    requires bits { IsSupported N.BITS }
    requires line { IsLine m.now.rows rows cols }
    ensures { let entry = entry_in (parts_of G.codes G.dictionary m.now.parts) in
        IfOk result (λ d. HasCells (λ p v. IsExtreme O.before (entry p) m.now.cols v) rows cols d) }
{
    let count = rows as usize * cols as usize;
    let mut codes = Vec::from_elem(alloc, 0, count)?;
    let mut tuples = unwritten(alloc, most_tuples(m) as usize)?;
    let mut firsts = unwritten(alloc, count)?;
    choose_in_rows::<N, G, O>(m, &mut codes, &mut tuples, &mut firsts);
    Ok(Dense::new(rows, cols, firsts))
}
