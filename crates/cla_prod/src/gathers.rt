//! Vectors times bases: the vector is gathered over the rows of each tuple, and each tuple is multiplied
//! once with what was gathered for it.

ghost use Rattle.std.specs.Prelude.{◌≡◌, ◌<◌, ◌≤◌, ◌+◌, ◌-◌, ◌*◌, ◌+ℤ◌, ◌*ℤ◌, ℕ, pos, length, map};
ghost use Rattle.std.specs.Int.{w128};
ghost use Rattle.std.specs.Int.RustNames.{FitsSigned};
ghost use Rattle.cla_spec.specs.Numbers.{sum_to};
ghost use Rattle.cla_num.specs.Bits.{IsSupported};
ghost use Rattle.cla_num.specs.Counts.{AreBelow};
ghost use Rattle.cla_layout.specs.Groups.{at, value_of, cell_of};
ghost use Rattle.cla_layout.specs.Layouts.{IsPart, IsWhole, layout_with, column_at, entry_in};
ghost use Rattle.cla_coded.specs.Parts.{part_of, parts_of};
ghost use Rattle.cla_meaning.specs.Counts.{HasMults};
ghost use Rattle.cla_prod.specs.Sums.{column_times, FitsColumns, HasTuplesUpTo, AreSet, AreGathered, columns_from};
ghost use Rattle.cla_prod.specs.Sums.{values_from};
ghost use Rattle.cla_prod.specs.Sums.{line_bound, part_bound, tuple_bound};

use cla_coded::Part;
use cla_group::Group;
use cla_num::{Meter, Number, Wide};

/// A vector times the columns, from column `from` on, of the base that has these parts. `sums` begins
/// with zeros and gets an item for each of these columns. `scratch` has an item for each tuple of a part.
///
/// It makes at most one gather for each part, and as many multiplications as the parts have values in
/// these columns.
pub(crate) fn times_base<N: Number, G: Group<N>>(
    items: &[N],
    parts: &[Part<G>],
    from: u32,
    scratch: &mut [Wide],
    sums: &mut [Wide],
    meter: &mut Meter,
)
    requires bits { IsSupported N.BITS }
    requires whole { let parts = parts_of G.codes G.dictionary parts.now in
        IsWhole N.BITS (layout_with (length items.now) (length sums.old) parts) }
    requires scratch { HasTuplesUpTo (length scratch.old) (parts_of G.codes G.dictionary parts.now) }
    requires zeros { (j : ℕ) → j < length sums.old → at sums.old j ≡ pos 0 }
    requires room { AreBelow line_bound meter.old }
    ensures sums { let parts = parts_of G.codes G.dictionary parts.now in
        let item = at (map N.value items.now) in
        (j : ℕ) → from ≤ j → j < length sums.old →
        at sums.new j ≡ sum_to (λ i. entry_in parts i j *ℤ item i) (length items.now) }
    ensures counts { HasMults (values_from from (parts_of G.codes G.dictionary parts.now)) meter.old meter.new }
{
    for part in parts {
        gather_part(items, part, from, scratch, sums, meter);
    }
}

// The columns of a part, from column `from` on, get the product with the vector.
fn gather_part<N: Number, G: Group<N>>(
    items: &[N],
    part: &Part<G>,
    from: u32,
    scratch: &mut [Wide],
    sums: &mut [Wide],
    meter: &mut Meter,
)
    requires bits { IsSupported N.BITS }
    requires part { IsPart N.BITS (length items.now) (part_of G.codes G.dictionary part.now) }
    requires within { (c : ℕ) → c < length part.now.columns.items →
        column_at part.now.columns.items c < length sums.old }
    requires scratch { length (G.dictionary part.now.group) ≤ length scratch.old }
    requires zeros { (c : ℕ) → c < length part.now.columns.items →
        at sums.old (column_at part.now.columns.items c) ≡ pos 0 }
    requires room { AreBelow part_bound meter.old }
    ensures sums { let p = part_of G.codes G.dictionary part.now in
        AreGathered from (length items.now) p (at (map N.value items.now)) sums.old sums.new }
    ensures counts { let columns = part.now.columns.items in
        HasMults (length (G.dictionary part.now.group) * columns_from from columns) meter.old meter.new }
{
    let first = first_from(&part.columns, from);
    if first < part.columns.len() {
        gather_columns(items, part, first as u32, scratch, sums, meter);
    }
}

// The place of the first column from column `from` on; the length of `columns`, which rise, where all
// are before it.
fn first_from(columns: &[u32], from: u32) -> usize
    ensures within { result ≤ length columns.now }
    ensures before { (c : ℕ) → c < result → column_at columns.now c < from }
    ensures after { result < length columns.now → from ≤ column_at columns.now result }
{
    for (c, j) in columns.iter().enumerate() {
        if from <= *j {
            return c;
        }
    }
    columns.len()
}

// The columns of a part, from place `first` on, get the product with the vector.
fn gather_columns<N: Number, G: Group<N>>(
    items: &[N],
    part: &Part<G>,
    first: u32,
    scratch: &mut [Wide],
    sums: &mut [Wide],
    meter: &mut Meter,
)
    requires bits { IsSupported N.BITS }
    requires part { IsPart N.BITS (length items.now) (part_of G.codes G.dictionary part.now) }
    requires within { (c : ℕ) → c < length part.now.columns.items →
        column_at part.now.columns.items c < length sums.old }
    requires place { first ≤ length part.now.columns.items }
    requires scratch { length (G.dictionary part.now.group) ≤ length scratch.old }
    requires zeros { (c : ℕ) → c < length part.now.columns.items →
        at sums.old (column_at part.now.columns.items c) ≡ pos 0 }
    requires room { AreBelow part_bound meter.old }
    ensures sums { let columns = part.now.columns.items in
        let item = at (map N.value items.now) in
        let cell = cell_of (G.codes part.now.group) (G.dictionary part.now.group) in
        let value = λ (c : ℕ). sum_to (λ i. cell i c *ℤ item i) (length items.now) in
        AreSet first (length columns) columns value sums.old sums.new }
    ensures counts { let columns = part.now.columns.items in
        HasMults (length (G.dictionary part.now.group) * (length columns - first)) meter.old meter.new }
{
    let gathered = &mut scratch[..part.group.tuples() as usize];
    part.group.gather(items, gathered);
    add_tuples(part, first, gathered, sums, meter);
}

// Each tuple's values, from place `first` on, times what was gathered for the tuple.
fn add_tuples<N: Number, G: Group<N>>(
    part: &Part<G>,
    first: u32,
    gathered: &[Wide],
    sums: &mut [Wide],
    meter: &mut Meter,
)
    requires part { IsPart N.BITS (length (G.codes part.now.group)) (part_of G.codes G.dictionary part.now) }
    requires within { (c : ℕ) → c < length part.now.columns.items →
        column_at part.now.columns.items c < length sums.old }
    requires place { first ≤ length part.now.columns.items }
    requires gathered { length gathered.now ≡ length (G.dictionary part.now.group) }
    requires fits { FitsColumns (G.dictionary part.now.group) gathered.now (length part.now.columns.items) }
    requires zeros { (c : ℕ) → c < length part.now.columns.items →
        at sums.old (column_at part.now.columns.items c) ≡ pos 0 }
    requires room { AreBelow part_bound meter.old }
    ensures sums { let columns = part.now.columns.items in
        let tuples = G.dictionary part.now.group in
        let value = λ (c : ℕ). column_times tuples gathered.now c (length tuples) in
        AreSet first (length columns) columns value sums.old sums.new }
    ensures counts { let columns = part.now.columns.items in
        HasMults (length (G.dictionary part.now.group) * (length columns - first)) meter.old meter.new }
{
    for k in 0..part.group.tuples() {
        add_tuple(part, k, gathered[k as usize], first, sums, meter);
    }
}

// A tuple's values, from place `first` on, times w, each added to the sum of its column.
fn add_tuple<N: Number, G: Group<N>>(
    part: &Part<G>,
    k: u32,
    w: Wide,
    first: u32,
    sums: &mut [Wide],
    meter: &mut Meter,
)
    requires part { IsPart N.BITS (length (G.codes part.now.group)) (part_of G.codes G.dictionary part.now) }
    requires within { (c : ℕ) → c < length part.now.columns.items →
        column_at part.now.columns.items c < length sums.old }
    requires tuple { k < length (G.dictionary part.now.group) }
    requires place { first ≤ length part.now.columns.items }
    requires products { (c : ℕ) → c < length part.now.columns.items →
        FitsSigned w128 (value_of (G.dictionary part.now.group) k c *ℤ w) }
    requires sums { let columns = part.now.columns.items in
        (c : ℕ) → first ≤ c → c < length columns →
        FitsSigned w128 (at sums.old (column_at columns c) +ℤ value_of (G.dictionary part.now.group) k c *ℤ w) }
    requires room { AreBelow tuple_bound meter.old }
    ensures sums { let columns = part.now.columns.items in
        let old = λ (c : ℕ). at sums.old (column_at columns c) in
        let value = λ (c : ℕ). old c +ℤ value_of (G.dictionary part.now.group) k c *ℤ w in
        AreSet first (length columns) columns value sums.old sums.new }
    ensures counts { HasMults (length part.now.columns.items - first) meter.old meter.new }
{
    for c in first..part.group.width() {
        let j = part.columns[c as usize] as usize;
        sums[j] = sums[j].plus(part.group.value(k, c).times(w, meter));
    }
}
