//! Tables of sums.

ghost use Rattle.std.specs.Prelude.{MatchResult, ◌≡◌, ◌*◌, ◌<◌, ◌≤◌, ◌+ℤ◌, IfOk, IfErr, OnOk, OnErr};
ghost use Rattle.cla_num.specs.Bits.{IsSupported};
ghost use Rattle.cla_spec.specs.Matrix.{most_cells, entry, IsShaped};
ghost use Rattle.cla_spec.specs.Numbers.{InRange};
ghost use Rattle.cla_table.specs.Tables.{zero_table, Adds, HasCause};

use crate::dense::DenseTriples;
use crate::fault::TableFault;
use crate::grid::Grid;
use crate::sums::{Sums, into_cells, put_sum, sum_at};
use cla_num::{Dense, Memory, Number};
use std::alloc::Global;
use std::marker::Model;

// From this share of the cells on, or this many additions, all cells are kept.
const CELLS_AN_ADDITION: u32 = 512;

const MOST_ADDITIONS: u32 = 1 << 16;

/// The sums of triples (row, column, value), cell by cell. Contracts see the matrix of the sums.
///
/// Few sums are kept by themselves, so a table takes memory by what was added to it: all of its cells
/// are kept only once the additions are a 512th of them, or 2^16.
#[derive(Drop)]
pub struct Triples<N: Number> {
    alloc: Global,
    grid: Grid,
    sums: Sums<N>,
    // how many additions are still few
    few: u32,
}

impl<N: Number> Model for Triples<N> {
    ghost use Rattle.cla_spec.specs.Matrix.{Matrix};

    ghost Value = { Matrix };

    ghost use Rattle.cla_table.specs.Sums.{table_of, IsWhole};

    ghost view = { λ t. table_of N.value t.grid t.sums };

    ghost invariant = { λ t. IsWhole t.grid t.sums };
}

impl<N: Number> Triples<N> {
    /// A table whose sums are all 0. It takes no memory.
    pub fn new(alloc: Global, rows: u32, cols: u32) -> Triples<N>
        requires a_row { 1 ≤ rows }
        requires a_col { 1 ≤ cols }
        requires few { rows * cols ≤ most_cells }
        ensures { result ≡ zero_table rows cols }
    {
        let few = (rows * cols / CELLS_AN_ADDITION).min(MOST_ADDITIONS);
        Triples {
            alloc,
            grid: Grid::new(rows, cols),
            sums: Sums::new(alloc),
            few,
        }
    }

    /// Adds v to the sum of a cell. `OutOfRange` exactly where the new sum isn't in range. After a
    /// refusal the table is as it was.
    #[inline(always)]
    pub fn add(&mut self, row: u32, col: u32, v: N) -> Result<(), TableFault>
        requires bits { IsSupported N.BITS }
        requires row { row < self.old.rows }
        requires col { col < self.old.cols }
        ensures sum { OnOk result (Adds self.old self.new row col (N.value v)) }
        ensures in_range { OnOk result (InRange N.BITS (entry self.old row col +ℤ N.value v)) }
        ensures cause { IfErr result (HasCause N.BITS (entry self.old row col +ℤ N.value v)) }
        ensures same { OnErr result (self.new ≡ self.old) }
    {
        let sum = sum_at(&self.sums, self.grid, row, col).plus(v.wide());
        let Some(number) = N::narrow(sum) else {
            return Err(TableFault::OutOfRange { sum });
        };
        match put_sum(
            self.alloc,
            self.grid,
            &mut self.sums,
            self.few,
            row,
            col,
            number,
        ) {
            Ok(()) => {
                self.few = self.few.saturating_sub(1);
                Ok(())
            }
            Err(_) => Err(TableFault::Memory),
        }
    }

    /// The table in the form that keeps all cells, if its sums aren't few; else the table as it is.
    pub fn into_dense(self) -> Result<DenseTriples<N>, Triples<N>>
        ensures { MatchResult result (λ dense. dense ≡ self) (λ triples. triples ≡ self) }
    {
        let Triples {
            alloc,
            grid,
            sums,
            few,
        } = self;
        match sums {
            Sums::Dense(cells) => Ok(DenseTriples { grid, cells }),
            Sums::Few(sums) => Err(Triples {
                alloc,
                grid,
                sums: Sums::Few(sums),
                few,
            }),
        }
    }

    /// A table of which all cells are kept.
    pub fn of_dense(alloc: Global, dense: DenseTriples<N>) -> Triples<N>
        ensures { result ≡ dense }
    {
        let DenseTriples { grid, cells } = dense;
        Triples {
            alloc,
            grid,
            sums: Sums::Dense(cells),
            few: 0,
        }
    }

    /// The matrix of the sums. Where memory is wanting, the table is dropped.
    pub fn finish(self) -> Result<Dense<N>, Memory>
        requires { IsSupported N.BITS }
        ensures sums { IfOk result (λ m. m ≡ self) }
        ensures shape { IfOk result (λ m. IsShaped m.rows m.cols m.cells) }
    {
        let Triples {
            alloc,
            grid,
            sums,
            ..
        } = self;
        let cells = into_cells(alloc, grid, sums)?;
        Ok(Dense::new(grid.rows, grid.cols, cells))
    }
}
