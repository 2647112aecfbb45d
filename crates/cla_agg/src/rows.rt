//! Sums and extremes of the rows of a base: of each tuple, and then of the rows that have it.

ghost use Rattle.std.specs.Prelude.{◌≡◌, ◌<◌, ◌≤◌, ◌+ℤ◌, ℕ, ℤ, pos, length, map};
ghost use Rattle.std.specs.Int.{w128};
ghost use Rattle.std.specs.Int.RustNames.{FitsSigned};
ghost use Rattle.cla_spec.specs.Numbers.{sum_to};
ghost use Rattle.cla_num.specs.Bits.{IsSupported};
ghost use Rattle.cla_layout.specs.Groups.{at, code_of, value_of, cell_of, Scattered};
ghost use Rattle.cla_layout.specs.GroupLaws.{IsExtreme};
ghost use Rattle.cla_layout.specs.Layouts.{IsWhole, entry_in};
ghost use Rattle.cla_coded.specs.Parts.{parts_of};
ghost use Rattle.cla_coded.specs.Tables.{layout_of};
ghost use Rattle.cla_meaning.specs.Entries.{row_sum};
ghost use Rattle.cla_agg.specs.Lines.{IsRoomForTuples};

use crate::extreme::first_of_tuple;
use crate::order::Order;
use cla_coded::Table;
use cla_group::Group;
use cla_num::{Number, Wide};

/// Adds up each row of the base: one scatter for each part. `into` has a zero for each row, and `scratch` at
/// least as many places as any part has tuples.
pub(crate) fn add_rows<N: Number, G: Group<N>>(
    m: &Table<N, G>,
    scratch: &mut [Wide],
    into: &mut [Wide],
)
    requires bits { IsSupported N.BITS }
    requires rows { length into.old ≡ m.now.rows }
    requires scratch { IsRoomForTuples (parts_of G.codes G.dictionary m.now.parts) (length scratch.old) }
    requires zeros { (i : ℕ) → at into.old i ≡ pos 0 }
    ensures sums { let entry = entry_in (parts_of G.codes G.dictionary m.now.parts) in
        (i : ℕ) → i < m.now.rows → at into.new i ≡ row_sum m.now.cols entry i }
    ensures whole { IsWhole N.BITS (layout_of G.codes G.dictionary m.now) }
{
    for part in m.parts() {
        add_group(&part.group, scratch, into);
    }
}

// Adds the sums of a group's rows.
fn add_group<N: Number, G: Group<N>>(g: &G, scratch: &mut [Wide], into: &mut [Wide])
    requires bits { IsSupported N.BITS }
    requires rows { length into.old ≡ length (G.codes g.now) }
    requires scratch { length (G.dictionary g.now) ≤ length scratch.old }
    requires fits { let cell = cell_of (G.codes g.now) (G.dictionary g.now) in
        (i : ℕ) → i < length into.old → FitsSigned w128 (at into.old i +ℤ row_sum (G.columns g.now) cell i) }
    ensures { let cell = cell_of (G.codes g.now) (G.dictionary g.now) in
        (i : ℕ) → i < length into.old → at into.new i ≡ at into.old i +ℤ row_sum (G.columns g.now) cell i }
{
    let sums = &mut scratch[..g.tuples() as usize];
    add_tuples(g, sums);
    g.scatter(sums, into);
}

// The sum of each tuple.
fn add_tuples<N: Number, G: Group<N>>(g: &G, into: &mut [Wide])
    requires bits { IsSupported N.BITS }
    requires tuples { length into.old ≡ length (G.dictionary g.now) }
    ensures { let tuples = G.dictionary g.now in
        (k : ℕ) → k < length tuples → at into.new k ≡ sum_to (value_of tuples k) (G.columns g.now) }
{
    for k in 0..g.tuples() {
        into[k as usize] = sum_of_tuple(g, k);
    }
}

// The sum of a tuple's values.
fn sum_of_tuple<N: Number, G: Group<N>>(g: &G, k: u32) -> Wide
    requires bits { IsSupported N.BITS }
    requires tuple { k < length (G.dictionary g.now) }
    ensures { result ≡ sum_to (value_of (G.dictionary g.now) k) (G.columns g.now) }
{
    let mut sum = Wide::zero();
    for c in 0..g.width() {
        sum = sum.plus(g.value(k, c).wide());
    }
    sum
}

/// Puts the extreme of each row of the base at its place, by the codes of one part after the other. `codes`
/// and `into` have a place for each row, and `firsts` at least as many as any part has tuples.
pub(crate) fn choose_in_rows<N: Number, G: Group<N>, O: Order<N>>(
    m: &Table<N, G>,
    codes: &mut [u32],
    firsts: &mut [N],
    into: &mut [N],
)
    requires codes { length codes.old ≡ m.now.rows }
    requires tuples { IsRoomForTuples (parts_of G.codes G.dictionary m.now.parts) (length firsts.old) }
    requires rows { length into.old ≡ m.now.rows }
    ensures firsts { let entry = entry_in (parts_of G.codes G.dictionary m.now.parts) in
        (i : ℕ) → i < m.now.rows → IsExtreme O.before (entry i) m.now.cols (at (map N.value into.new) i) }
    ensures whole { IsWhole N.BITS (layout_of G.codes G.dictionary m.now) }
{
    let parts = m.parts();
    read_group::<N, G, O>(&parts[0].group, codes, firsts);
    set_rows(codes, firsts, into);
    for q in 1..parts.len() {
        read_group::<N, G, O>(&parts[q].group, codes, firsts);
        join_rows::<N, O>(codes, firsts, into);
    }
}

// Reads the code of each row of a group, and the extreme of each tuple.
fn read_group<N: Number, G: Group<N>, O: Order<N>>(g: &G, codes: &mut [u32], firsts: &mut [N])
    requires codes { length codes.old ≡ length (G.codes g.now) }
    requires tuples { length (G.dictionary g.now) ≤ length firsts.old }
    ensures codes { codes.new ≡ G.codes g.now }
    ensures firsts { let tuples = G.dictionary g.now in (k : ℕ) → k < length tuples
        → IsExtreme O.before (value_of tuples k) (G.columns g.now) (at (map N.value firsts.new) k) }
{
    g.read_codes(codes);
    for k in 0..g.tuples() {
        firsts[k as usize] = first_of_tuple::<N, G, O>(g, k);
    }
}

// Each row's place becomes the item of its code.
fn set_rows<N: Number>(codes: &[u32], items: &[N], into: &mut [N])
    requires rows { length into.old ≡ length codes.now }
    requires tuples { (i : ℕ) → i < length codes.now → code_of codes.now i < length items.now }
    ensures { Scattered (λ old v. v) codes.now (map N.value items.now) (map N.value into.old) (map N.value into.new) }
{
    for i in 0..codes.len() {
        let k = codes[i] as usize;
        into[i] = items[k];
    }
}

// Each row's place becomes the one of itself and the item of its code that stands before.
fn join_rows<N: Number, O: Order<N>>(codes: &[u32], items: &[N], into: &mut [N])
    requires rows { length into.old ≡ length codes.now }
    requires tuples { (i : ℕ) → i < length codes.now → code_of codes.now i < length items.now }
    ensures { Scattered O.choice codes.now (map N.value items.now) (map N.value into.old) (map N.value into.new) }
{
    for i in 0..codes.len() {
        let k = codes[i] as usize;
        into[i] = O::chosen(into[i], items[k]);
    }
}

/// The greatest number of tuples that a part has.
pub(crate) fn most_tuples<N: Number, G: Group<N>>(m: &Table<N, G>) -> u32
    ensures { IsRoomForTuples (parts_of G.codes G.dictionary m.now.parts) result }
{
    let mut most = 0;
    for part in m.parts() {
        most = part.group.tuples().max(most);
    }
    most
}
