//! Sums and extremes of the columns of a base: by tuples, and how often each occurs.

ghost use Rattle.std.specs.Prelude.{◌≡◌, ◌<◌, ◌≤◌, ◌+◌, ◌*◌, ◌+ℤ◌, ℕ, pos, false, length, map};
ghost use Rattle.cla_num.specs.Bits.{IsSupported};
ghost use Rattle.cla_num.specs.Counts.{AreBelow, kernel_bound, step_bound};
ghost use Rattle.cla_layout.specs.Groups.{at, value_of};
ghost use Rattle.cla_layout.specs.GroupLaws.{IsExtreme};
ghost use Rattle.cla_layout.specs.Layouts.{IsPart, IsWhole, column_at, entry_in};
ghost use Rattle.cla_layout.specs.Values.{values_of};
ghost use Rattle.cla_layout.proofs.Cells.{occurring};
ghost use Rattle.cla_spec.specs.Numbers.{sum_to};
ghost use Rattle.cla_coded.specs.Parts.{part_of, parts_of};
ghost use Rattle.cla_coded.specs.Tables.{layout_of};
ghost use Rattle.cla_meaning.specs.Entries.{col_sum};
ghost use Rattle.cla_meaning.specs.Counts.{HasMults};
ghost use Rattle.cla_agg.specs.Sums.{group_bound, column_bound};
ghost use Rattle.cla_agg.specs.Lines.{IsSumOf, ArePlaced, AreAddedTo, AreTuplesAdded, AreMade, IsFirstValue, IsChosen};

use crate::order::Order;
use cla_coded::{Part, Table};
use cla_group::Group;
use cla_num::{Meter, Number, Wide};
use std::mem;

/// Groups of fewer columns are added up one column after the other, and others one tuple after the other.
pub(crate) const NARROW: u32 = 4;

/// How many tuples are taken at a time, one column after the other: their values stay near.
pub(crate) const NEAR_TUPLES: u32 = 256;

/// Adds up each column of the base, at its place. `into` has a zero for each.
pub(crate) fn add_columns<N: Number, G: Group<N>>(
    m: &Table<N, G>,
    into: &mut [Wide],
    meter: &mut Meter,
)
    requires bits { IsSupported N.BITS }
    requires room { AreBelow kernel_bound meter.old }
    requires columns { length into.old ≡ m.now.cols }
    requires zeros { (j : ℕ) → at into.old j ≡ pos 0 }
    ensures sums { let entry = entry_in (parts_of G.codes G.dictionary m.now.parts) in
        (j : ℕ) → j < m.now.cols → at into.new j ≡ col_sum m.now.rows entry j }
    ensures whole { IsWhole N.BITS (layout_of G.codes G.dictionary m.now) }
    ensures counts { HasMults (values_of (parts_of G.codes G.dictionary m.now.parts)) meter.old meter.new }
{
    // (a meter of the loop's own stays in registers)
    let mut counts = mem::replace(meter, Meter::new());
    for part in m.parts() {
        add_part(part, into, &mut counts);
    }
    *meter = counts;
}

// Adds up the columns of a part.
#[inline(always)]
fn add_part<N: Number, G: Group<N>>(part: &Part<G>, into: &mut [Wide], meter: &mut Meter)
    requires bits { IsSupported N.BITS }
    requires part { IsPart N.BITS (length (G.codes part.now.group)) (part_of G.codes G.dictionary part.now) }
    requires room { AreBelow group_bound meter.old }
    requires within { let columns = part.now.columns.items in
        (c : ℕ) → c < length columns → column_at columns c < length into.old }
    requires zeros { let columns = part.now.columns.items in
        (c : ℕ) → c < length columns → at into.old (column_at columns c) ≡ pos 0 }
    ensures sums { ArePlaced IsSumOf (part_of G.codes G.dictionary part.now) into.old into.new }
    ensures counts { let values = length (G.dictionary part.now.group) * length part.now.columns.items in
        HasMults values meter.old meter.new }
{
    if part.group.width() < NARROW {
        add_by_columns(part, into, meter)
    } else {
        add_by_tuples(part, into, meter)
    }
}

// Adds up the columns of a part, one tuple after the other.
#[inline(always)]
fn add_by_tuples<N: Number, G: Group<N>>(part: &Part<G>, into: &mut [Wide], meter: &mut Meter)
    requires bits { IsSupported N.BITS }
    requires part { IsPart N.BITS (length (G.codes part.now.group)) (part_of G.codes G.dictionary part.now) }
    requires room { AreBelow group_bound meter.old }
    requires within { let columns = part.now.columns.items in
        (c : ℕ) → c < length columns → column_at columns c < length into.old }
    requires zeros { let columns = part.now.columns.items in
        (c : ℕ) → c < length columns → at into.old (column_at columns c) ≡ pos 0 }
    ensures sums { ArePlaced IsSumOf (part_of G.codes G.dictionary part.now) into.old into.new }
    ensures counts { let values = length (G.dictionary part.now.group) * length part.now.columns.items in
        HasMults values meter.old meter.new }
{
    for k in 0..part.group.tuples() {
        add_tuple(part, k, into, meter);
    }
}

// Adds a tuple's values, as often as it occurs, each at the place of its column.
#[inline(always)]
fn add_tuple<N: Number, G: Group<N>>(part: &Part<G>, k: u32, into: &mut [Wide], meter: &mut Meter)
    requires bits { IsSupported N.BITS }
    requires part { IsPart N.BITS (length (G.codes part.now.group)) (part_of G.codes G.dictionary part.now) }
    requires room { AreBelow step_bound meter.old }
    requires tuple { k < length (G.dictionary part.now.group) }
    requires within { let columns = part.now.columns.items in
        (c : ℕ) → c < length columns → column_at columns c < length into.old }
    requires so_far { AreAddedTo k (part_of G.codes G.dictionary part.now) into.old }
    ensures sums { AreTuplesAdded (k + 1) (part_of G.codes G.dictionary part.now) into.old into.new }
    ensures counts { HasMults (length part.now.columns.items) meter.old meter.new }
{
    let count = Wide::count(part.group.occurrences(k));
    for c in 0..part.group.width() {
        let place = part.columns[c as usize] as usize;
        into[place] = into[place].plus(part.group.value(k, c).times(count, meter));
    }
}

// Adds up the columns of a part, some tuples at a time, and of these one column after the other.
#[inline(always)]
fn add_by_columns<N: Number, G: Group<N>>(part: &Part<G>, into: &mut [Wide], meter: &mut Meter)
    requires bits { IsSupported N.BITS }
    requires part { IsPart N.BITS (length (G.codes part.now.group)) (part_of G.codes G.dictionary part.now) }
    requires room { AreBelow group_bound meter.old }
    requires within { let columns = part.now.columns.items in
        (c : ℕ) → c < length columns → column_at columns c < length into.old }
    requires zeros { let columns = part.now.columns.items in
        (c : ℕ) → c < length columns → at into.old (column_at columns c) ≡ pos 0 }
    ensures sums { ArePlaced IsSumOf (part_of G.codes G.dictionary part.now) into.old into.new }
    ensures counts { let values = length (G.dictionary part.now.group) * length part.now.columns.items in
        HasMults values meter.old meter.new }
{
    let tuples = part.group.tuples();
    let mut from = 0;
    while from < tuples {
        let count = NEAR_TUPLES.min(tuples - from);
        add_tuples(part, from, count, into, meter);
        from += count;
    }
}

// Adds the values of some tuples, each as often as its tuple occurs, at the places of their columns.
#[inline(always)]
fn add_tuples<N: Number, G: Group<N>>(
    part: &Part<G>,
    from: u32,
    count: u32,
    into: &mut [Wide],
    meter: &mut Meter,
)
    requires bits { IsSupported N.BITS }
    requires part { IsPart N.BITS (length (G.codes part.now.group)) (part_of G.codes G.dictionary part.now) }
    requires room { AreBelow step_bound meter.old }
    requires tuples { from + count ≤ length (G.dictionary part.now.group) }
    requires within { let columns = part.now.columns.items in
        (c : ℕ) → c < length columns → column_at columns c < length into.old }
    requires so_far { AreAddedTo from (part_of G.codes G.dictionary part.now) into.old }
    ensures sums { AreTuplesAdded (from + count) (part_of G.codes G.dictionary part.now) into.old into.new }
    ensures counts { HasMults (length part.now.columns.items * count) meter.old meter.new }
{
    for c in 0..part.group.width() {
        let sum = sum_in_column(&part.group, c, from, count, meter);
        let place = part.columns[c as usize] as usize;
        into[place] = into[place].plus(sum);
    }
}

/// The sum of the values of some tuples in one place, each as often as its tuple occurs.
#[inline(always)]
pub(crate) fn sum_in_column<N: Number, G: Group<N>>(
    g: &G,
    c: u32,
    from: u32,
    count: u32,
    meter: &mut Meter,
) -> Wide
    requires bits { IsSupported N.BITS }
    requires room { AreBelow column_bound meter.old }
    requires place { c < G.columns g.now }
    requires tuples { from + count ≤ length (G.dictionary g.now) }
    ensures sum { result ≡ sum_to (λ n. occurring (G.codes g.now) (G.dictionary g.now) (from + n) c) count }
    ensures counts { HasMults count meter.old meter.new }
{
    let mut sum = Wide::zero();
    for n in 0..count {
        let k = from + n;
        let times = Wide::count(g.occurrences(k));
        sum = sum.plus(g.value(k, c).times(times, meter));
    }
    sum
}

/// Puts the extreme of each column of the base at its place.
pub(crate) fn choose_in_columns<N: Number, G: Group<N>, O: Order<N>>(
    m: &Table<N, G>,
    into: &mut [N],
)
    requires columns { length into.old ≡ m.now.cols }
    ensures firsts { let entry = entry_in (parts_of G.codes G.dictionary m.now.parts) in
        (j : ℕ) → j < m.now.cols → IsExtreme O.before (λ i. entry i j) m.now.rows (at (map N.value into.new) j) }
    ensures whole { IsWhole N.BITS (layout_of G.codes G.dictionary m.now) }
{
    for part in m.parts() {
        choose_in_part::<N, G, O>(part, into);
    }
}

// Puts the extremes of a part's columns at their places, some tuples at a time.
fn choose_in_part<N: Number, G: Group<N>, O: Order<N>>(part: &Part<G>, into: &mut [N])
    requires part { IsPart N.BITS (length (G.codes part.now.group)) (part_of G.codes G.dictionary part.now) }
    requires within { let columns = part.now.columns.items in
        (c : ℕ) → c < length columns → column_at columns c < length into.old }
    ensures { ArePlaced (IsExtreme O.before) (part_of G.codes G.dictionary part.now)
        (map N.value into.old) (map N.value into.new) }
{
    place_first(part, into);
    let tuples = part.group.tuples();
    let mut from = 1;
    while from < tuples {
        let end = from + NEAR_TUPLES.min(tuples - from);
        choose_in_tuples::<N, G, O>(part, from, end, into);
        from = end;
    }
}

// Puts the first tuple's values at the places of their columns.
fn place_first<N: Number, G: Group<N>>(part: &Part<G>, into: &mut [N])
    requires part { IsPart N.BITS (length (G.codes part.now.group)) (part_of G.codes G.dictionary part.now) }
    requires within { let columns = part.now.columns.items in
        (c : ℕ) → c < length columns → column_at columns c < length into.old }
    ensures { let p = part_of G.codes G.dictionary part.now in
        AreMade (IsFirstValue p) p (map N.value into.old) (map N.value into.new) }
{
    for c in 0..part.group.width() {
        into[part.columns[c as usize] as usize] = part.group.value(0, c);
    }
}

// Joins the values of some tuples with the extremes of the tuples before them.
fn choose_in_tuples<N: Number, G: Group<N>, O: Order<N>>(
    part: &Part<G>,
    from: u32,
    end: u32,
    into: &mut [N],
)
    requires part { IsPart N.BITS (length (G.codes part.now.group)) (part_of G.codes G.dictionary part.now) }
    requires order { from ≤ end }
    requires tuples { end ≤ length (G.dictionary part.now.group) }
    requires within { let columns = part.now.columns.items in
        (c : ℕ) → c < length columns → column_at columns c < length into.old }
    requires so_far { let columns = part.now.columns.items in
        let part = part_of G.codes G.dictionary part.now in
        (c : ℕ) → c < length columns → IsChosen O.before part from c (at (map N.value into.old) (column_at columns c)) }
    ensures { let p = part_of G.codes G.dictionary part.now in
        AreMade (IsChosen O.before p end) p (map N.value into.old) (map N.value into.new) }
{
    for c in 0..part.group.width() {
        let place = part.columns[c as usize] as usize;
        into[place] = chosen_in_column::<N, G, O>(&part.group, c, from, end, into[place]);
    }
}

// Joins the values of some tuples in one place with the extreme of those before them.
fn chosen_in_column<N: Number, G: Group<N>, O: Order<N>>(
    g: &G,
    c: u32,
    from: u32,
    end: u32,
    mut first: N,
) -> N
    requires place { c < G.columns g.now }
    requires order { from ≤ end }
    requires tuples { end ≤ length (G.dictionary g.now) }
    requires so_far { let tuples = G.dictionary g.now in
        IsExtreme O.before (λ k. value_of tuples k c) from (N.value first) }
    ensures { let tuples = G.dictionary g.now in IsExtreme O.before (λ k. value_of tuples k c) end (N.value result) }
{
    for k in from..end {
        first = O::chosen(first, g.value(k, c));
    }
    first
}
