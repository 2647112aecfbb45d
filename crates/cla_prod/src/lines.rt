//! Tables times the lines of a matrix.

ghost use Rattle.std.specs.Prelude.{◌≡◌, ◌<◌, ◌+◌, ◌*◌, ℕ, pos, length, map};
ghost use Rattle.cla_spec.specs.Matrix.{entry};
ghost use Rattle.cla_num.specs.Bits.{IsSupported};
ghost use Rattle.cla_num.specs.Counts.{AreBelow, kernel_bound};
ghost use Rattle.cla_layout.specs.Groups.{at};
ghost use Rattle.cla_layout.specs.Layouts.{IsWhole};
ghost use Rattle.cla_layout.specs.Values.{values_of};
ghost use Rattle.cla_coded.specs.Parts.{parts_of};
ghost use Rattle.cla_meaning.specs.Counts.{HasMults};
ghost use Rattle.cla_prod.specs.Sums.{HasTuplesUpTo, line_bound};
ghost use Rattle.cla_prod.specs.Lines.{AreLines, base_for, cols_in, copied_in, item_times, line_times, rows_in};

use crate::gathers::times_base;
use crate::numbers::Order;
use crate::scatters::base_times;
use cla_coded::Part;
use cla_group::Group;
use cla_num::{Dense, Meter, Number, Wide};

/// How a base is multiplied with lines: whether it is turned, whether the products are the rows or the columns
/// of the result, how many lines there are, how many items each has, and how many each product has.
#[derive(Clone, Copy, Debug)]
pub struct Lines {
    pub turned: bool,
    pub order: Order,
    pub count: u32,
    pub inner: u32,
    pub outer: u32,
}

/// The base that has these parts, or its transpose where it is turned, times each line of `m`. `exact`
/// begins with zeros and gets the products, one after the other. `column` has an item for each that is
/// copied of a line, and `scratch` one for each tuple of a part.
pub(crate) fn times_lines<N: Number, G: Group<N>>(
    parts: &[Part<G>],
    m: &Dense<N>,
    lines: Lines,
    column: &mut [N],
    scratch: &mut [Wide],
    exact: &mut [Wide],
    meter: &mut Meter,
)
    requires bits { IsSupported N.BITS }
    requires lines { AreLines N.BITS (parts_of G.codes G.dictionary parts.now) lines m.now (length exact.old) }
    requires column { length column.old ≡ copied_in lines.order m.now }
    requires scratch { HasTuplesUpTo (length scratch.old) (parts_of G.codes G.dictionary parts.now) }
    requires zeros { (p : ℕ) → p < length exact.old → at exact.old p ≡ pos 0 }
    requires room { AreBelow kernel_bound meter.old }
    ensures products { let parts = parts_of G.codes G.dictionary parts.now in
        (l i : ℕ) → l < lines.count → i < lines.outer →
        at exact.new (l * lines.outer + i) ≡ line_times parts lines m.now l i }
    ensures counts { HasMults (lines.count * values_of (parts_of G.codes G.dictionary parts.now)) meter.old meter.new }
{
    let outer = lines.outer as usize;
    for l in 0..lines.count {
        let product = &mut exact[l as usize * outer..(l as usize + 1) * outer];
        times_line_of(parts, m, lines, l, column, scratch, product, meter);
    }
}

// The base, or its transpose, times line l. Only a line whose items stand apart is copied.
fn times_line_of<N: Number, G: Group<N>>(
    parts: &[Part<G>],
    m: &Dense<N>,
    lines: Lines,
    l: u32,
    column: &mut [N],
    scratch: &mut [Wide],
    product: &mut [Wide],
    meter: &mut Meter,
)
    requires bits { IsSupported N.BITS }
    requires lines { let parts = parts_of G.codes G.dictionary parts.now in
        AreLines N.BITS parts lines m.now (lines.count * lines.outer) }
    requires line { l < lines.count }
    requires column { length column.old ≡ copied_in lines.order m.now }
    requires scratch { HasTuplesUpTo (length scratch.old) (parts_of G.codes G.dictionary parts.now) }
    requires product { length product.old ≡ lines.outer }
    requires zeros { (i : ℕ) → i < length product.old → at product.old i ≡ pos 0 }
    requires room { AreBelow line_bound meter.old }
    ensures product { let parts = parts_of G.codes G.dictionary parts.now in
        (i : ℕ) → i < lines.outer → at product.new i ≡ line_times parts lines m.now l i }
    ensures counts { HasMults (values_of (parts_of G.codes G.dictionary parts.now)) meter.old meter.new }
{
    let cells = m.cells();
    if column.is_empty() {
        let inner = lines.inner as usize;
        let line = &cells[l as usize * inner..(l as usize + 1) * inner];
        times_line(parts, lines.turned, line, scratch, product, meter);
    } else {
        copy_column(m, l, column);
        times_line(parts, lines.turned, column, scratch, product, meter);
    }
}

/// The base, or its transpose, times one line.
pub(crate) fn times_line<N: Number, G: Group<N>>(
    parts: &[Part<G>],
    turned: bool,
    line: &[N],
    scratch: &mut [Wide],
    product: &mut [Wide],
    meter: &mut Meter,
)
    requires bits { IsSupported N.BITS }
    requires whole { let parts = parts_of G.codes G.dictionary parts.now in
        IsWhole N.BITS (base_for turned (length product.old) (length line.now) parts) }
    requires scratch { HasTuplesUpTo (length scratch.old) (parts_of G.codes G.dictionary parts.now) }
    requires zeros { (i : ℕ) → i < length product.old → at product.old i ≡ pos 0 }
    requires room { AreBelow line_bound meter.old }
    ensures product { let parts = parts_of G.codes G.dictionary parts.now in
        let item = at (map N.value line.now) in
        (i : ℕ) → i < length product.old → at product.new i ≡ item_times turned parts item (length line.now) i }
    ensures counts { HasMults (values_of (parts_of G.codes G.dictionary parts.now)) meter.old meter.new }
{
    if turned {
        times_base(line, parts, 0, scratch, product, meter);
    } else {
        base_times(parts, line, scratch, product, meter);
    }
}

/// How many items are copied of each line: all of a column, unless there is only one, and none of a row.
pub(crate) fn copied<N: Number>(m: &Dense<N>, order: Order) -> u32
    ensures { result ≡ copied_in order m.now }
{
    match order {
        Order::Columns => { if m.cols() == 1 { 0 } else { m.rows() } }
        Order::Rows | Order::Mirrored => 0,
    }
}

/// The most tuples that a part has.
pub(crate) fn most_tuples<N: Number, G: Group<N>>(parts: &[Part<G>]) -> u32
    ensures { HasTuplesUpTo result (parts_of G.codes G.dictionary parts.now) }
{
    let mut most = 0;
    for part in parts {
        most = part.group.tuples().max(most);
    }
    most
}

/// The rows and columns of the matrix whose lines the products are.
pub(crate) fn shape(lines: Lines) -> (u32, u32)
    ensures rows { result.0 ≡ rows_in lines.order lines }
    ensures cols { result.1 ≡ cols_in lines.order lines }
{
    match lines.order {
        Order::Rows | Order::Mirrored => (lines.count, lines.outer),
        Order::Columns => (lines.outer, lines.count),
    }
}

// Copies one column.
fn copy_column<N: Number>(m: &Dense<N>, j: u32, column: &mut [N])
    requires col { j < m.now.cols }
    requires rows { length column.old ≡ m.now.rows }
    ensures { (i : ℕ) → i < m.now.rows → at (map N.value column.new) i ≡ entry m.now i j }
{
    for i in 0..m.rows() {
        column[i as usize] = m.entry(i, j);
    }
}
