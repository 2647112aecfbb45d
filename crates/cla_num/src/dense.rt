//! Dense matrices.

ghost use Rattle.std.specs.Prelude.{◌≡◌, ◌<◌, map};
ghost use Rattle.cla_spec.specs.Matrix.{IsShaped, entry};

use crate::number::Number;
use std::marker::Model;

/// A matrix whose cells stand row by row. Contracts see the matrix of the integers.
#[derive(Drop)]
pub struct Dense<N: Number> {
    rows: u32,
    cols: u32,
    cells: Vec<N>,
}

impl<N: Number> Model for Dense<N> {
    ghost use Rattle.std.specs.Prelude.{map};
    ghost use Rattle.cla_spec.specs.Matrix.{Matrix, IsShaped};

    ghost Value = { Matrix };

    ghost view = { λ d. record { rows = d.rows; cols = d.cols; cells = map N.value d.cells.items } };

    ghost invariant = { λ d. IsShaped d.rows d.cols d.cells.items };
}

impl<N: Number> Dense<N> {
    /// The matrix of these cells, which stand row by row. It has a row, a column, and at most 2^26
    /// cells.
    pub fn new(rows: u32, cols: u32, cells: Vec<N>) -> Dense<N>
        requires { IsShaped rows cols cells.items }
        ensures { result ≡ record { rows = rows; cols = cols; cells = map N.value cells.items } }
    {
        Dense { rows, cols, cells }
    }

    /// How many rows there are.
    pub fn rows(&self) -> u32
        ensures { result ≡ self.now.rows }
    {
        self.rows
    }

    /// How many columns there are.
    pub fn cols(&self) -> u32
        ensures { result ≡ self.now.cols }
    {
        self.cols
    }

    /// The entry in row i and column j, both from 0.
    pub fn entry(&self, i: u32, j: u32) -> N
        requires row { i < self.now.rows }
        requires col { j < self.now.cols }
        ensures { N.value result ≡ entry self.now i j }
    {
        self.cells[i as usize * self.cols as usize + j as usize]
    }

    /// The cells, row by row.
    pub fn cells(&self) -> &[N]
        ensures cells { map N.value result.now ≡ self.now.cells }
        ensures shape { IsShaped self.now.rows self.now.cols result.now }
    {
        &self.cells
    }
}

/// The cells, row by row, in the memory that the matrix had.
impl<N: Number> From<Dense<N>> for Vec<N> {
    fn from(m: Dense<N>) -> Vec<N>
        ensures cells { map N.value result.items ≡ m.cells }
        ensures shape { IsShaped m.rows m.cols result.items }
    {
        m.cells
    }
}
