//! What a group of columns is.

ghost use Rattle.std.specs.Prelude.{◌≡◌, ◌<◌, ◌+ℤ◌, ℕ, ℤ, List, length, map};
ghost use Rattle.std.specs.Int.{w128, int_min, int_max};
ghost use Rattle.std.specs.Int.RustNames.{FitsSigned};
ghost use Rattle.cla_num.specs.Bits.{IsSupported};
ghost use Rattle.cla_layout.specs.Groups.{at, code_of, value_of, occurrences_of, first_row_of, gathered, Scattered};
ghost use Rattle.cla_layout.specs.Groups.{IsGroup};

use crate::items::gather_row;
use cla_num::{Number, Wide};

/// A group of columns, compressed (PVLDB 9(12), section 3): each row has a code, and the code names a
/// tuple of the dictionary, which holds the row's value in each column. Tuples need not be distinct.
///
/// Contracts see the number of columns, the codes and the dictionary, and nothing of how they are
/// kept. No call takes memory or refuses.
pub trait Group<N: Number> {
    /// How many columns the group has.
    ghost columns: { Self → ℕ };

    /// The code of each row.
    ghost codes: { Self → List ℕ };

    /// The tuples, each with a value for each column.
    ghost dictionary: { Self → List (List ℤ) };

    /// How many rows there are, at least 1.
    fn rows(&self) -> u32
        ensures { result ≡ length (codes self.now) };

    /// How many columns there are, at least 1. Rows times columns are at most 2^26.
    fn width(&self) -> u32
        ensures { result ≡ columns self.now };

    /// How many tuples there are.
    fn tuples(&self) -> u32
        ensures { result ≡ length (dictionary self.now) };

    /// The value in place c of tuple k, both from 0.
    fn value(&self, k: u32, c: u32) -> N
        requires tuple { k < length (dictionary self.now) }
        requires place { c < columns self.now }
        ensures { N.value result ≡ value_of (dictionary self.now) k c };

    /// How many rows have code k.
    fn occurrences(&self, k: u32) -> u32
        requires tuple { k < length (dictionary self.now) }
        ensures { result ≡ occurrences_of (codes self.now) k };

    /// The least row with code k.
    fn first_row(&self, k: u32) -> u32
        requires tuple { k < length (dictionary self.now) }
        ensures { result ≡ first_row_of (codes self.now) k };

    /// The code of row i.
    fn code_at(&self, i: u32) -> u32
        requires row { i < length (codes self.now) }
        ensures { result ≡ code_of (codes self.now) i };

    /// The code of each row, in one pass. `into` has an item for each row.
    fn read_codes(&self, into: &mut [u32])
        requires rows { length into.old ≡ length (codes self.now) }
        ensures { into.new ≡ codes self.now }
    {
        for i in 0..self.rows() {
            into[i as usize] = self.code_at(i);
        }
    }

    /// Adds part k to the place of every row with code k. `parts` has an item for each tuple, and
    /// `into` one for each row.
    fn scatter(&self, parts: &[Wide], into: &mut [Wide])
        requires tuples { length parts.now ≡ length (dictionary self.now) }
        requires rows { length into.old ≡ length (codes self.now) }
        requires fits { (i : ℕ) → i < length into.old →
            FitsSigned w128 (at into.old i +ℤ at parts.now (code_of (codes self.now) i)) }
        ensures { Scattered ◌+ℤ◌ (codes self.now) parts.now into.old into.new }
    {
        for i in 0..self.rows() {
            let part = parts[self.code_at(i) as usize];
            into[i as usize] = into[i as usize].plus(part);
        }
    }

    /// Each row's place becomes the lesser of itself and the part of the row's code. `parts` has an
    /// item for each tuple, and `into` one for each row.
    fn scatter_least(&self, parts: &[Wide], into: &mut [Wide])
        requires tuples { length parts.now ≡ length (dictionary self.now) }
        requires rows { length into.old ≡ length (codes self.now) }
        ensures { Scattered int_min (codes self.now) parts.now into.old into.new }
    {
        for i in 0..self.rows() {
            let part = parts[self.code_at(i) as usize];
            into[i as usize] = into[i as usize].min(part);
        }
    }

    /// Each row's place becomes the greater of itself and the part of the row's code. `parts` has an
    /// item for each tuple, and `into` one for each row.
    fn scatter_greatest(&self, parts: &[Wide], into: &mut [Wide])
        requires tuples { length parts.now ≡ length (dictionary self.now) }
        requires rows { length into.old ≡ length (codes self.now) }
        ensures { Scattered int_max (codes self.now) parts.now into.old into.new }
    {
        for i in 0..self.rows() {
            let part = parts[self.code_at(i) as usize];
            into[i as usize] = into[i as usize].max(part);
        }
    }

    /// Place k becomes the sum of the items of `rows` whose row has code k. `rows` has an item for
    /// each row, and `into` one for each tuple.
    fn gather(&self, rows: &[N], into: &mut [Wide])
        requires bits { IsSupported N.BITS }
        requires rows { length rows.now ≡ length (codes self.now) }
        requires tuples { length into.old ≡ length (dictionary self.now) }
        ensures { (k : ℕ) → k < length into.old →
            at into.new k ≡ gathered (codes self.now) (map N.value rows.now) k }
    {
        into.fill(Wide::zero());
        for i in 0..self.rows() {
            let k = self.code_at(i) as usize;
            gather_row(rows, i as usize, k, into);
        }
    }

    /// What holds of each group.
    ghost laws: { (g : Self) → IsGroup N.BITS (columns g) (codes g) (dictionary g) };
}
