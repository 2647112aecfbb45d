//! Items of rows, added up by the codes of the rows.

ghost use Rattle.std.specs.Prelude.{◌≡◌, ◌<◌, ◌≤◌, ◌+◌, ◌*◌, ◌+ℤ◌, ℕ, List, length, map};
ghost use Rattle.std.specs.Int.RustNames.{unsigned_abs};
ghost use Rattle.cla_spec.specs.Matrix.{most_cells};
ghost use Rattle.cla_num.specs.Bits.{IsSupported, value_bound};
ghost use Rattle.cla_layout.specs.Groups.{at, code_of, AreGathered};

use cla_num::{Number, Wide};

/// A sum of items of rows before row i, with that of row i.
#[inline(always)]
pub fn with_item<N: Number>(sum: Wide, rows: &[N], i: usize) -> Wide
    requires bits { IsSupported N.BITS }
    requires few { length rows.now ≤ most_cells }
    requires row { i < length rows.now }
    requires size { unsigned_abs sum ≤ i * value_bound }
    ensures sum { result ≡ sum +ℤ at (map N.value rows.now) i }
    ensures size { unsigned_abs result ≤ (i + 1) * value_bound }
{
    sum.plus(rows[i].wide())
}

/// Adds the item of row i, which has code k, to place k.
#[inline(always)]
pub fn gather_row<N: Number>(rows: &[N], i: usize, k: usize, into: &mut [Wide])
    requires bits { IsSupported N.BITS }
    requires few { length rows.now ≤ most_cells }
    requires row { i < length rows.now }
    requires place { k < length into.old }
    requires so_far { (codes : List ℕ) × (code_of codes i ≡ k) × AreGathered codes (map N.value rows.now) i into.old }
    ensures { (codes : List ℕ) → let items = map N.value rows.now in
        code_of codes i ≡ k → AreGathered codes items i into.old → AreGathered codes items (i + 1) into.new }
{
    into[k] = with_item(into[k], rows, i);
}
