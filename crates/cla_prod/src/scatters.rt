//! Bases times vectors: each tuple is multiplied once with its part of the vector, and what it gives is
//! scattered over the rows that have it.

ghost use Rattle.std.specs.Prelude.{◌≡◌, ◌<◌, ◌≤◌, ◌*◌, ◌+ℤ◌, ◌*ℤ◌, ℕ, pos, length, map};
ghost use Rattle.std.specs.Int.{w128};
ghost use Rattle.std.specs.Int.RustNames.{FitsSigned};
ghost use Rattle.cla_spec.specs.Numbers.{sum_to};
ghost use Rattle.cla_num.specs.Bits.{IsSupported};
ghost use Rattle.cla_num.specs.Counts.{AreBelow};
ghost use Rattle.cla_layout.specs.Groups.{at};
ghost use Rattle.cla_layout.specs.Layouts.{IsPart, IsWhole, layout_with, column_at, entry_in};
ghost use Rattle.cla_layout.specs.Values.{values_of};
ghost use Rattle.cla_coded.specs.Parts.{part_of, parts_of};
ghost use Rattle.cla_meaning.specs.Counts.{HasMults};
ghost use Rattle.cla_prod.specs.Sums.{tuple_times, part_times, HasTuplesUpTo, line_bound, part_bound, tuple_bound};

use cla_coded::Part;
use cla_group::Group;
use cla_num::{Meter, Number, Wide};

/// The base that has these parts, times a vector. `sums` begins with zeros and gets an item for each row.
/// `scratch` has an item for each tuple of a part.
///
/// It makes one scatter for each part, and as many multiplications as the parts have values.
pub(crate) fn base_times<N: Number, G: Group<N>>(
    parts: &[Part<G>],
    items: &[N],
    scratch: &mut [Wide],
    sums: &mut [Wide],
    meter: &mut Meter,
)
    requires bits { IsSupported N.BITS }
    requires whole { let parts = parts_of G.codes G.dictionary parts.now in
        IsWhole N.BITS (layout_with (length sums.old) (length items.now) parts) }
    requires scratch { HasTuplesUpTo (length scratch.old) (parts_of G.codes G.dictionary parts.now) }
    requires zeros { (i : ℕ) → i < length sums.old → at sums.old i ≡ pos 0 }
    requires room { AreBelow line_bound meter.old }
    ensures sums { let parts = parts_of G.codes G.dictionary parts.now in
        let item = at (map N.value items.now) in
        (i : ℕ) → i < length sums.old →
        at sums.new i ≡ sum_to (λ k. entry_in parts i k *ℤ item k) (length items.now) }
    ensures counts { HasMults (values_of (parts_of G.codes G.dictionary parts.now)) meter.old meter.new }
{
    for part in parts {
        add_part(part, items, scratch, sums, meter);
    }
}

// Adds what a part gives to each row.
fn add_part<N: Number, G: Group<N>>(
    part: &Part<G>,
    items: &[N],
    scratch: &mut [Wide],
    sums: &mut [Wide],
    meter: &mut Meter,
)
    requires bits { IsSupported N.BITS }
    requires part { IsPart N.BITS (length sums.old) (part_of G.codes G.dictionary part.now) }
    requires within { (c : ℕ) → c < length part.now.columns.items →
        column_at part.now.columns.items c < length items.now }
    requires fits { let p = part_of G.codes G.dictionary part.now in
        (i : ℕ) → i < length sums.old → FitsSigned w128 (at sums.old i +ℤ part_times (map N.value items.now) i p) }
    requires scratch { length (G.dictionary part.now.group) ≤ length scratch.old }
    requires room { AreBelow part_bound meter.old }
    ensures sums { let p = part_of G.codes G.dictionary part.now in
        (i : ℕ) → i < length sums.old → at sums.new i ≡ at sums.old i +ℤ part_times (map N.value items.now) i p }
    ensures counts { let values = length (G.dictionary part.now.group) * length part.now.columns.items in
        HasMults values meter.old meter.new }
{
    let products = &mut scratch[..part.group.tuples() as usize];
    times_tuples(part, items, products, meter);
    part.group.scatter(products, sums);
}

// Each tuple times the items of its columns.
fn times_tuples<N: Number, G: Group<N>>(
    part: &Part<G>,
    items: &[N],
    into: &mut [Wide],
    meter: &mut Meter,
)
    requires bits { IsSupported N.BITS }
    requires part { IsPart N.BITS (length (G.codes part.now.group)) (part_of G.codes G.dictionary part.now) }
    requires within { (c : ℕ) → c < length part.now.columns.items →
        column_at part.now.columns.items c < length items.now }
    requires tuples { length into.old ≡ length (G.dictionary part.now.group) }
    requires room { AreBelow part_bound meter.old }
    ensures products { let columns = part.now.columns.items in
        let tuples = G.dictionary part.now.group in
        let product = λ (k : ℕ). tuple_times tuples columns (map N.value items.now) k (length columns) in
        (k : ℕ) → k < length tuples → at into.new k ≡ product k }
    ensures counts { let values = length (G.dictionary part.now.group) * length part.now.columns.items in
        HasMults values meter.old meter.new }
{
    for k in 0..part.group.tuples() {
        into[k as usize] = times_tuple(part, k, items, meter);
    }
}

// A tuple times the items of its columns.
fn times_tuple<N: Number, G: Group<N>>(
    part: &Part<G>,
    k: u32,
    items: &[N],
    meter: &mut Meter,
) -> Wide
    requires bits { IsSupported N.BITS }
    requires part { IsPart N.BITS (length (G.codes part.now.group)) (part_of G.codes G.dictionary part.now) }
    requires within { (c : ℕ) → c < length part.now.columns.items →
        column_at part.now.columns.items c < length items.now }
    requires tuple { k < length (G.dictionary part.now.group) }
    requires room { AreBelow tuple_bound meter.old }
    ensures product { let columns = part.now.columns.items in
        result ≡ tuple_times (G.dictionary part.now.group) columns (map N.value items.now) k (length columns) }
    ensures counts { HasMults (length part.now.columns.items) meter.old meter.new }
{
    let mut sum = Wide::zero();
    for c in 0..part.group.width() {
        let item = items[part.columns[c as usize] as usize].wide();
        sum = sum.plus(part.group.value(k, c).times(item, meter));
    }
    sum
}
