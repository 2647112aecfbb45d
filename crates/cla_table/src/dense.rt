//! Tables of sums of which all cells are kept.

ghost use Rattle.std.specs.Prelude.{◌≡◌, ◌<◌, ◌+ℤ◌, false, true, pos, length, map, slice_index_or};
ghost use Rattle.cla_num.specs.Bits.{IsSupported};
ghost use Rattle.cla_spec.specs.Matrix.{entry};
ghost use Rattle.cla_spec.specs.Numbers.{InRange};
ghost use Rattle.cla_table.specs.Tables.{Adds};

use crate::grid::Grid;
use cla_num::{Number, Wide};
use std::marker::Model;

/// The sums of triples, as [`crate::Triples`] keeps them once they aren't few: a loop that adds many of
/// them looks for their form once. Contracts see the matrix of the sums.
#[derive(Drop)]
pub struct DenseTriples<N: Number> {
    pub(crate) grid: Grid,
    pub(crate) cells: Vec<N>,
}

impl<N: Number> Model for DenseTriples<N> {
    ghost use Rattle.std.specs.Prelude.{◌≡◌, ◌*◌, length};
    ghost use Rattle.cla_spec.specs.Matrix.{Matrix};
    ghost use Rattle.cla_table.specs.Sums.{dense_table_of};

    ghost Value = { Matrix };

    ghost view = { λ t. dense_table_of N.value t.grid t.cells.items };

    ghost invariant = { λ t. length t.cells.items ≡ t.grid.rows * t.grid.cols };
}

impl<N: Number> DenseTriples<N> {
    /// Adds v to the sum of a cell. `false` exactly where the new sum isn't in range; then the table is
    /// as it was.
    #[inline(always)]
    pub fn add(&mut self, row: u32, col: u32, v: N) -> bool
        requires bits { IsSupported N.BITS }
        requires row { row < self.old.rows }
        requires col { col < self.old.cols }
        ensures sum { result ≡ true → Adds self.old self.new row col (N.value v) }
        ensures in_range { result ≡ true → InRange N.BITS (entry self.old row col +ℤ N.value v) }
        ensures refused { result ≡ false → InRange N.BITS (entry self.old row col +ℤ N.value v) → ⊥ }
        ensures same { result ≡ false → self.new ≡ self.old }
    {
        let place = self.grid.place(row, col);
        let sum = sum_of(&self.cells, place).plus(v.wide());
        let Some(number) = N::narrow(sum) else {
            return false;
        };
        self.cells[place] = number;
        true
    }
}

// The sum at a place.
#[inline(always)]
fn sum_of<N: Number>(cells: &[N], place: usize) -> Wide
    requires { place < length cells.now }
    ensures sum { result ≡ slice_index_or (map N.value cells.now) place (pos 0) }
    ensures in_range { InRange N.BITS result }
{
    cells[place].wide()
}
