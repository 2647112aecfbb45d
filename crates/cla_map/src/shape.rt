//! Where the entries of a base stand among the cells of a table.

ghost use Rattle.std.specs.Prelude.{◌≡◌, ◌<◌, ◌^◌};
ghost use Rattle.cla_layout.specs.Layouts.{IsWhole};
ghost use Rattle.cla_map.specs.Stops.{place_in};

use cla_coded::Table;
use cla_group::Group;
use cla_num::Number;

/// The rows and columns of a base, and whether the table is its transpose.
#[derive(Clone, Copy, Debug)]
pub struct Shape {
    pub rows: u32,
    pub cols: u32,
    pub flipped: bool,
}

impl Shape {
    /// The place, among the table's cells row by row, of the entry in row i and column j of the base.
    #[inline(always)]
    pub(crate) fn place(self, i: u32, j: u32) -> u32
        requires row { i < self.rows }
        requires col { j < self.cols }
        requires few { place_in self i j < 2 ^ 31 }
        ensures { result ≡ place_in self i j }
    {
        if self.flipped {
            j * self.rows + i
        } else {
            i * self.cols + j
        }
    }
}

/// The base of a table: its rows and columns, and whether the table is its transpose.
pub(crate) fn base_of<N: Number, G: Group<N>>(m: &Table<N, G>) -> Shape
    ensures { result ≡ record { rows = m.now.rows; cols = m.now.cols; flipped = m.now.flipped } }
{
    if m.flipped() {
        Shape {
            rows: m.cols(),
            cols: m.rows(),
            flipped: true,
        }
    } else {
        Shape {
            rows: m.rows(),
            cols: m.cols(),
            flipped: false,
        }
    }
}
