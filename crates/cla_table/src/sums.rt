//! The sums of a table, in either of two forms.

ghost use Rattle.std.specs.Prelude.{◌≡◌, ◌*◌, ◌<◌, ◌≤◌, pos, length, map, IfOk, OnOk, OnErr};
ghost use Rattle.cla_num.specs.Bits.{IsSupported};
ghost use Rattle.cla_spec.specs.Matrix.{row_by_row};
ghost use Rattle.cla_spec.specs.Numbers.{InRange};
ghost use Rattle.cla_table.specs.Kept.{AreWithin};
ghost use Rattle.cla_table.specs.Sums.{sum_in, few_sum, dense_sum, IsEmpty, IsWhole, AreSame, AreZero, with_cell};

use crate::grid::Grid;
use crate::{few, panels};
use cla_num::{Memory, Number, Wide};
use indexmap::IndexMap;
use std::alloc::Global;

/// The sums of a table.
#[derive(Drop)]
pub(crate) enum Sums<N> {
    /// Few sums, by the places of their cells row by row.
    Few(IndexMap<u32, N>),
    /// All cells, in panels.
    Dense(Vec<N>),
}

impl<N> Sums<N> {
    /// No sums.
    pub(crate) fn new(alloc: Global) -> Sums<N>
        ensures { IsEmpty result }
    {
        Sums::Few(IndexMap::new(alloc))
    }
}

/// The sum at a cell.
#[inline(always)]
pub(crate) fn sum_at<N: Number>(sums: &Sums<N>, grid: Grid, row: u32, col: u32) -> Wide
    requires row { row < grid.rows }
    requires col { col < grid.cols }
    requires whole { IsWhole grid sums.now }
    ensures sum { result ≡ sum_in N.value grid sums.now row col }
    ensures in_range { InRange N.BITS result }
{
    match sums {
        Sums::Few(sums) => few::sum_at(sums, grid.row_by_row(row, col)),
        Sums::Dense(cells) => cells[grid.place(row, col)].wide(),
    }
}

// Sets the sum at a cell.
#[inline(always)]
fn set_sum<N: Number>(
    sums: &mut Sums<N>,
    grid: Grid,
    row: u32,
    col: u32,
    sum: N,
) -> Result<(), Memory>
    requires row { row < grid.rows }
    requires col { col < grid.cols }
    requires whole { IsWhole grid sums.old }
    ensures whole { IsWhole grid sums.new }
    ensures set { let old = sum_in N.value grid sums.old in
        OnOk result (AreSame grid (sum_in N.value grid sums.new) (with_cell old row col (N.value sum))) }
    ensures same { OnErr result (AreSame grid (sum_in N.value grid sums.new) (sum_in N.value grid sums.old)) }
{
    match sums {
        Sums::Few(sums) => few::keep(sums, grid.row_by_row(row, col), sum),
        Sums::Dense(cells) => {
            cells[grid.place(row, col)] = sum;
            Ok(())
        }
    }
}

/// Sets the sum at a cell. All cells are kept from now on, unless the sums are still few. Where memory
/// is wanting, the sums stay as they were.
#[inline(always)]
pub(crate) fn put_sum<N: Number>(
    alloc: Global,
    grid: Grid,
    sums: &mut Sums<N>,
    few: u32,
    row: u32,
    col: u32,
    sum: N,
) -> Result<(), Memory>
    requires bits { IsSupported N.BITS }
    requires row { row < grid.rows }
    requires col { col < grid.cols }
    requires whole { IsWhole grid sums.old }
    ensures whole { IsWhole grid sums.new }
    ensures set { let old = sum_in N.value grid sums.old in
        OnOk result (AreSame grid (sum_in N.value grid sums.new) (with_cell old row col (N.value sum))) }
    ensures same { OnErr result (AreSame grid (sum_in N.value grid sums.new) (sum_in N.value grid sums.old)) }
{
    if few > 0 {
        return set_sum(sums, grid, row, col, sum);
    }
    grow(alloc, grid, sums)?;
    set_sum(sums, grid, row, col, sum)
}

// Keeps all cells from now on.
fn grow<N: Number>(alloc: Global, grid: Grid, sums: &mut Sums<N>) -> Result<(), Memory>
    requires bits { IsSupported N.BITS }
    requires whole { IsWhole grid sums.old }
    ensures whole { IsWhole grid sums.new }
    ensures same { AreSame grid (sum_in N.value grid sums.new) (sum_in N.value grid sums.old) }
{
    if let Sums::Few(few) = sums {
        let cells = spread(alloc, grid, few)?;
        *sums = Sums::Dense(cells);
    }
    Ok(())
}

/// All cells, row by row.
pub(crate) fn into_cells<N: Number>(
    alloc: Global,
    grid: Grid,
    sums: Sums<N>,
) -> Result<Vec<N>, Memory>
    requires bits { IsSupported N.BITS }
    requires whole { IsWhole grid sums }
    ensures count { IfOk result (λ cells. length cells.items ≡ grid.rows * grid.cols) }
    ensures cells { IfOk result (λ cells. map N.value cells.items ≡ row_by_row grid.rows grid.cols
        (sum_in N.value grid sums)) }
{
    match sums {
        Sums::Few(few) => spread(alloc, grid.by_rows(), &few),
        Sums::Dense(cells) => panels::row_by_row(alloc, grid, cells),
    }
}

// All cells in panels, of few sums.
fn spread<N: Number>(alloc: Global, grid: Grid, sums: &IndexMap<u32, N>) -> Result<Vec<N>, Memory>
    requires bits { IsSupported N.BITS }
    requires within { AreWithin (grid.rows * grid.cols) sums.now.entries }
    ensures count { IfOk result (λ cells. length cells.items ≡ grid.rows * grid.cols) }
    ensures sums { IfOk result (λ cells. AreSame grid (dense_sum N.value grid cells.items)
        (few_sum N.value grid sums.now.entries)) }
{
    let mut cells = zeros(alloc, grid.cells())?;
    for i in 0..sums.len() {
        if let Some((place, sum)) = sums.get_index(i) {
            cells[grid.place(*place / grid.cols, *place % grid.cols)] = *sum;
        }
    }
    Ok(cells)
}

// This many zeros.
fn zeros<N: Number>(alloc: Global, count: usize) -> Result<Vec<N>, Memory>
    requires { IsSupported N.BITS }
    ensures count { IfOk result (λ cells. length cells.items ≡ count) }
    ensures zero { IfOk result (λ cells. AreZero N.value cells.items) }
{
    let mut cells = Vec::new(alloc);
    cells.resize(count, zero())?;
    Ok(cells)
}

fn zero<N: Number>() -> N
    requires { IsSupported N.BITS }
    ensures { N.value result ≡ pos 0 }
{
    match N::of(0) {
        Some(zero) => zero,
        None => unreachable!("0 is in range"),
    }
}
