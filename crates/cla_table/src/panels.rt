//! Dense cells in panels, which are turned to row by row.

ghost use Rattle.std.specs.Prelude.{◌≡◌, ◌*◌, ◌^◌, ◌<◌, ◌≤◌, length, IfOk, OnOk};
ghost use Rattle.cla_table.specs.Places.{Turns, AreTurned};

use crate::grid::Grid;
use cla_num::{Memory, Number};
use std::alloc::Global;

/// The cells row by row, of cells in panels. It turns each panel in place, by way of a copy of that
/// panel.
pub(crate) fn row_by_row<N: Number>(
    alloc: Global,
    grid: Grid,
    mut cells: Vec<N>,
) -> Result<Vec<N>, Memory>
    requires { length cells.items ≡ grid.rows * grid.cols }
    ensures turned { IfOk result (λ turned. AreTurned (2 ^ grid.shift) grid.rows grid.cols cells.items turned.items) }
    ensures count { IfOk result (λ turned. length turned.items ≡ grid.rows * grid.cols) }
{
    let (rows, cols) = (grid.rows as usize, grid.cols as usize);
    let panel = grid.panel();
    let mut copy = Vec::new(alloc);
    let mut first = 0;
    while first < rows {
        let height = panel.min(rows - first);
        let next = first + height;
        turn(
            &mut cells[first * cols..next * cols],
            height,
            cols,
            &mut copy,
        )?;
        first = next;
    }
    Ok(cells)
}

// Turns a panel that stands column by column, so that it stands row by row.
fn turn<N: Number>(
    panel: &mut [N],
    height: usize,
    cols: usize,
    copy: &mut Vec<N>,
) -> Result<(), Memory>
    requires a_row { 1 ≤ height }
    requires a_col { 1 ≤ cols }
    requires small { height < 2 ^ 32 }
    requires count { length panel.old ≡ height * cols }
    ensures turned { OnOk result (Turns height cols panel.old panel.new) }
{
    if height == 1 {
        return Ok(());
    }
    copy.clear();
    copy.extend_from_slice(panel)?;
    let mut place = 0;
    for k in 0..copy.len() {
        panel[k] = copy[place];
        place += height;
        if place >= copy.len() {
            place = place - copy.len() + 1;
        }
    }
    Ok(())
}
