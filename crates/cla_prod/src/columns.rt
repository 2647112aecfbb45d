//! Products with the columns of a base, which are read one by one.

ghost use Rattle.std.specs.Prelude.{◌≡◌, ◌<◌, ◌≤◌, ◌+◌, ◌*◌, ℕ, pos, length, map};
ghost use Rattle.cla_num.specs.Bits.{IsSupported};
ghost use Rattle.cla_num.specs.Counts.{AreBelow, kernel_bound};
ghost use Rattle.cla_layout.specs.Groups.{at, cell_of};
ghost use Rattle.cla_layout.specs.Layouts.{IsPart, IsWhole, column_at};
ghost use Rattle.cla_coded.specs.Parts.{part_of, parts_of};
ghost use Rattle.cla_meaning.specs.Counts.{HasMults};
ghost use Rattle.cla_prod.specs.Answers.{AnswersEntries, CountsMults};
ghost use Rattle.cla_prod.specs.Columns.{AreColumns, AreLinesOf, IsLineOf, IsOneOf, IsTurned, column_product};
ghost use Rattle.cla_prod.specs.Columns.{column_values, first_item, listed_values, read_values, square_bound};
ghost use Rattle.cla_prod.specs.Lines.{IsSquare, base_for, cols_in, entry_by_lines, item_times, rows_in};
ghost use Rattle.cla_prod.specs.Sums.{HasTuplesUpTo, line_bound};

use crate::gathers::times_base;
use crate::lines::{Lines, most_tuples, shape, times_line};
use crate::numbers::{Order, numbers_of};
use cla_coded::Part;
use cla_group::Group;
use cla_num::{Dense, Meter, Number, Refused, Wide};
use std::alloc::Global;

/// The matrix whose lines are the products of a base, or of its transpose, and each column of the base that
/// has the parts `read`. Where lines are mirrored, each has the products of the columns from its own on
/// alone. `first` fills the buffers.
///
/// Each column is read by the codes of its group, which are read once. All buffers are taken first.
pub(crate) fn product_by_columns<N: Number, G: Group<N>, H: Group<N>>(
    alloc: Global,
    read: &[Part<H>],
    parts: &[Part<G>],
    lines: Lines,
    first: N,
    meter: &mut Meter,
) -> Result<Dense<N>, Refused>
    requires bits { IsSupported N.BITS }
    requires columns { let read = parts_of H.codes H.dictionary read.now in
        let parts = parts_of G.codes G.dictionary parts.now in
        AreColumns N.BITS read parts lines lines.inner (lines.count * lines.outer) }
    requires square { IsSquare lines.order (rows_in lines.order lines) (cols_in lines.order lines) }
    requires room { AreBelow kernel_bound meter.old }
    ensures product { let read = parts_of H.codes H.dictionary read.now in
        let exact = entry_by_lines lines.order (column_product (parts_of G.codes G.dictionary parts.now) lines read) in
        AnswersEntries N.BITS (rows_in lines.order lines) (cols_in lines.order lines) exact result }
    ensures counts { let read = parts_of H.codes H.dictionary read.now in
        let values = read_values lines.order (parts_of G.codes G.dictionary parts.now) read in
        CountsMults values result meter.old meter.new }
{
    let Ok(mut codes) = Vec::from_elem(alloc, 0, lines.inner as usize) else {
        return Err(Refused::Memory);
    };
    let Ok(mut column) = Vec::from_elem(alloc, first, lines.inner as usize) else {
        return Err(Refused::Memory);
    };
    products_of(alloc, read, parts, lines, &mut codes, &mut column, meter)
}

// The same, with an item for each row in `codes` and `column`.
fn products_of<N: Number, G: Group<N>, H: Group<N>>(
    alloc: Global,
    read: &[Part<H>],
    parts: &[Part<G>],
    lines: Lines,
    codes: &mut [u32],
    column: &mut [N],
    meter: &mut Meter,
) -> Result<Dense<N>, Refused>
    requires bits { IsSupported N.BITS }
    requires columns { let read = parts_of H.codes H.dictionary read.now in
        let parts = parts_of G.codes G.dictionary parts.now in
        AreColumns N.BITS read parts lines (length codes.old) (lines.count * lines.outer) }
    requires rows { length column.old ≡ lines.inner }
    requires square { IsSquare lines.order (rows_in lines.order lines) (cols_in lines.order lines) }
    requires room { AreBelow kernel_bound meter.old }
    ensures product { let read = parts_of H.codes H.dictionary read.now in
        let exact = entry_by_lines lines.order (column_product (parts_of G.codes G.dictionary parts.now) lines read) in
        AnswersEntries N.BITS (rows_in lines.order lines) (cols_in lines.order lines) exact result }
    ensures counts { let read = parts_of H.codes H.dictionary read.now in
        let values = read_values lines.order (parts_of G.codes G.dictionary parts.now) read in
        CountsMults values result meter.old meter.new }
{
    let count = lines.count as usize * lines.outer as usize;
    let Ok(mut scratch) = Vec::from_elem(alloc, Wide::zero(), most_tuples(parts) as usize) else {
        return Err(Refused::Memory);
    };
    let Ok(mut exact) = Vec::from_elem(alloc, Wide::zero(), count) else {
        return Err(Refused::Memory);
    };
    let Ok(mut numbers) = Vec::from_elem(alloc, column[0], count) else {
        return Err(Refused::Memory);
    };
    times_columns(
        read,
        parts,
        lines,
        codes,
        column,
        &mut scratch,
        &mut exact,
        meter,
    );
    let (rows, cols) = shape(lines);
    match numbers_of(&exact, lines.order, rows, cols, &mut numbers) {
        Ok(()) => Ok(Dense::new(rows, cols, numbers)),
        Err(fault) => Err(Refused::Op(fault)),
    }
}

// The base, or its transpose, times each column of the base that is read. `exact` begins with zeros.
fn times_columns<N: Number, G: Group<N>, H: Group<N>>(
    read: &[Part<H>],
    parts: &[Part<G>],
    lines: Lines,
    codes: &mut [u32],
    column: &mut [N],
    scratch: &mut [Wide],
    exact: &mut [Wide],
    meter: &mut Meter,
)
    requires bits { IsSupported N.BITS }
    requires columns { let read = parts_of H.codes H.dictionary read.now in
        let parts = parts_of G.codes G.dictionary parts.now in
        AreColumns N.BITS read parts lines (length codes.old) (length exact.old) }
    requires rows { length column.old ≡ lines.inner }
    requires scratch { HasTuplesUpTo (length scratch.old) (parts_of G.codes G.dictionary parts.now) }
    requires zeros { (p : ℕ) → p < length exact.old → at exact.old p ≡ pos 0 }
    requires room { AreBelow kernel_bound meter.old }
    ensures products { let read = parts_of H.codes H.dictionary read.now in
        let product = column_product (parts_of G.codes G.dictionary parts.now) lines read in
        (j : ℕ) → j < lines.count → IsLineOf lines product j exact.new }
    ensures counts { let read = parts_of H.codes H.dictionary read.now in
        let values = read_values lines.order (parts_of G.codes G.dictionary parts.now) read in
        HasMults values meter.old meter.new }
{
    for part in read {
        times_part(
            read, part, parts, lines, codes, column, scratch, exact, meter,
        );
    }
}

// The base, or its transpose, times each column of one part of the base that is read.
fn times_part<N: Number, G: Group<N>, H: Group<N>>(
    read: &[Part<H>],
    part: &Part<H>,
    parts: &[Part<G>],
    lines: Lines,
    codes: &mut [u32],
    column: &mut [N],
    scratch: &mut [Wide],
    exact: &mut [Wide],
    meter: &mut Meter,
)
    requires bits { IsSupported N.BITS }
    requires columns { let read = parts_of H.codes H.dictionary read.now in
        let parts = parts_of G.codes G.dictionary parts.now in
        AreColumns N.BITS read parts lines (length codes.old) (length exact.old) }
    requires one { IsOneOf (part_of H.codes H.dictionary part.now) (parts_of H.codes H.dictionary read.now) }
    requires part { IsPart N.BITS lines.inner (part_of H.codes H.dictionary part.now) }
    requires within { let columns = part.now.columns.items in
        (c : ℕ) → c < length columns → column_at columns c < lines.count }
    requires rows { length column.old ≡ lines.inner }
    requires scratch { HasTuplesUpTo (length scratch.old) (parts_of G.codes G.dictionary parts.now) }
    requires zeros { let columns = part.now.columns.items in
        (c i : ℕ) → c < length columns → i < lines.outer →
        at exact.old (column_at columns c * lines.outer + i) ≡ pos 0 }
    requires room { AreBelow square_bound meter.old }
    ensures products { let columns = part.now.columns.items in
        let read = parts_of H.codes H.dictionary read.now in
        let product = column_product (parts_of G.codes G.dictionary parts.now) lines read in
        AreLinesOf lines (length columns) product columns exact.old exact.new }
    ensures counts { let parts = parts_of G.codes G.dictionary parts.now in
        HasMults (listed_values lines.order parts part.now.columns.items) meter.old meter.new }
{
    let outer = lines.outer as usize;
    part.group.read_codes(codes);
    for c in 0..part.group.width() {
        read_column(&part.group, c, codes, column);
        let j = part.columns[c as usize];
        let first = j as usize * outer;
        let product = &mut exact[first..first + outer];
        times_column(parts, lines, j, column, scratch, product, meter);
    }
}

// The base, or its transpose, times column j. Where lines are mirrored, items before the j-th are left.
fn times_column<N: Number, G: Group<N>>(
    parts: &[Part<G>],
    lines: Lines,
    j: u32,
    column: &[N],
    scratch: &mut [Wide],
    product: &mut [Wide],
    meter: &mut Meter,
)
    requires bits { IsSupported N.BITS }
    requires whole { let parts = parts_of G.codes G.dictionary parts.now in
        IsWhole N.BITS (base_for lines.turned (length product.old) (length column.now) parts) }
    requires turned { IsTurned lines.order lines.turned }
    requires scratch { HasTuplesUpTo (length scratch.old) (parts_of G.codes G.dictionary parts.now) }
    requires zeros { (i : ℕ) → i < length product.old → at product.old i ≡ pos 0 }
    requires room { AreBelow line_bound meter.old }
    ensures product { let parts = parts_of G.codes G.dictionary parts.now in
        let item = at (map N.value column.now) in
        (i : ℕ) → first_item lines.order j ≤ i → i < length product.old →
        at product.new i ≡ item_times lines.turned parts item (length column.now) i }
    ensures counts { let values = column_values lines.order (parts_of G.codes G.dictionary parts.now) j in
        HasMults values meter.old meter.new }
{
    match lines.order {
        Order::Mirrored => times_base(column, parts, j, scratch, product, meter),
        Order::Rows | Order::Columns => {
            times_line(parts, lines.turned, column, scratch, product, meter)
        }
    }
}

// The values in place c of a group whose rows have these codes, row by row.
fn read_column<N: Number, G: Group<N>>(group: &G, c: u32, codes: &[u32], column: &mut [N])
    requires place { c < G.columns group.now }
    requires codes { codes.now ≡ G.codes group.now }
    requires rows { length column.old ≡ length codes.now }
    ensures { let cell = cell_of (G.codes group.now) (G.dictionary group.now) in
        (i : ℕ) → i < length column.old → at (map N.value column.new) i ≡ cell i c }
{
    for i in 0..column.len() {
        column[i] = group.value(codes[i], c);
    }
}
