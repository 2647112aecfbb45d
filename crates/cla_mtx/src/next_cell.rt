//! The cells of an array file's entries, one after the other.

ghost use Rattle.std.specs.Prelude.{◌≡◌, ◌+◌, ◌^◌, ◌<◌};
ghost use Rattle.cla_mtx.specs.Cells.{first_cell, cell_after};

use cla_market::Symmetry;

/// A cell. Rows and columns count from 0.
#[derive(Clone, Copy)]
pub(crate) struct Cell {
    pub(crate) row: u32,
    pub(crate) col: u32,
}

/// The first cell that an array file gives of a column.
pub(crate) fn first_cell(symmetry: Symmetry, col: u32) -> Cell
    requires { col < 2 ^ 31 }
    ensures { result ≡ first_cell symmetry col }
{
    let row = match symmetry {
        Symmetry::General => 0,
        Symmetry::Symmetric => col,
        Symmetry::SkewSymmetric => col + 1,
    };
    Cell { row, col }
}

/// The cell after this one.
#[inline(always)]
pub(crate) fn cell_after(symmetry: Symmetry, rows: u32, row: u32, col: u32) -> Cell
    requires row { row < rows }
    requires col { col + 1 < 2 ^ 31 }
    ensures { result ≡ cell_after symmetry rows row col }
{
    if row + 1 < rows {
        Cell { row: row + 1, col }
    } else {
        first_cell(symmetry, col + 1)
    }
}
