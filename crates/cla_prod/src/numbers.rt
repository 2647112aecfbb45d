//! From exact cells to numbers.

ghost use Rattle.std.specs.Prelude.{◌≡◌, ◌<◌, ◌+◌, ◌*◌, ◌^◌, ℕ, true, length, map, Some, None, MatchResult};
ghost use Rattle.cla_spec.specs.Matrix.{IsShaped, row_by_row};
ghost use Rattle.cla_num.specs.Bits.{IsSupported};
ghost use Rattle.cla_num.specs.Fault.{exactly, fault_of};
ghost use Rattle.cla_prod.specs.Lines.{place_in, cell_at, IsSquare, AreNumbers};

use cla_num::{Number, OpFault, What, Wide};

/// How the cells of a matrix stand: row by row, column by column, or row by row where those below the
/// diagonal are read above it.
#[derive(Clone, Copy, Debug)]
pub enum Order {
    Rows,
    Columns,
    Mirrored,
}

/// The place of the cell in row i and column j of a matrix of so many rows and columns.
fn place(order: Order, rows: u32, cols: u32, i: u32, j: u32) -> usize
    requires row { i < rows }
    requires col { j < cols }
    requires few { rows * cols < 2 ^ 31 }
    requires square { IsSquare order rows cols }
    ensures place { result ≡ place_in order rows cols i j }
    ensures within { result < rows * cols }
{
    match order {
        Order::Rows => i as usize * cols as usize + j as usize,
        Order::Columns => j as usize * rows as usize + i as usize,
        Order::Mirrored => i.min(j) as usize * cols as usize + i.max(j) as usize,
    }
}

/// The numbers of these exact cells, row by row, or the fault of the first that isn't in range.
pub(crate) fn numbers_of<N: Number>(
    cells: &[Wide],
    order: Order,
    rows: u32,
    cols: u32,
    numbers: &mut [N],
) -> Result<(), OpFault>
    requires bits { IsSupported N.BITS }
    requires shape { IsShaped rows cols cells.now }
    requires square { IsSquare order rows cols }
    requires numbers { length numbers.old ≡ rows * cols }
    ensures { let exact = cell_at order rows cols cells.now in
        let first = fault_of N.BITS rows cols (exactly exact) in
        MatchResult result (λ _. (map N.value numbers.new ≡ row_by_row rows cols exact) × (first ≡ None))
        (λ fault. first ≡ Some fault) }
{
    if is_row_by_row(order, cols) {
        return numbers_row_by_row(cells, rows, cols, numbers);
    }
    for i in 0..rows {
        numbers_of_row(cells, order, rows, cols, i, numbers)?;
    }
    Ok(())
}

// Whether cells in this order stand row by row. Those of one column do so in either order.
fn is_row_by_row(order: Order, cols: u32) -> bool
    ensures { result ≡ true → (rows i j : ℕ) → j < cols → place_in order rows cols i j ≡ i * cols + j }
{
    match order {
        Order::Rows => true,
        Order::Columns => cols == 1,
        Order::Mirrored => false,
    }
}

// The numbers of cells that stand row by row, in one pass over them, or the fault of the first that isn't in range.
fn numbers_row_by_row<N: Number>(
    cells: &[Wide],
    rows: u32,
    cols: u32,
    numbers: &mut [N],
) -> Result<(), OpFault>
    requires bits { IsSupported N.BITS }
    requires shape { IsShaped rows cols cells.now }
    requires numbers { length numbers.old ≡ rows * cols }
    ensures { let exact = cell_at Order.Rows rows cols cells.now in
        let first = fault_of N.BITS rows cols (exactly exact) in
        MatchResult result (λ _. (map N.value numbers.new ≡ row_by_row rows cols exact) × (first ≡ None))
        (λ fault. first ≡ Some fault) }
{
    for p in 0..cells.len() {
        let exact = cells[p];
        let Some(number) = N::narrow(exact) else {
            return Err(OpFault {
                op: 0,
                row: p as u32 / cols + 1,
                col: p as u32 % cols + 1,
                what: What::Range { value: exact },
            });
        };
        numbers[p] = number;
    }
    Ok(())
}

// The numbers of row i, or the fault of the first cell that isn't in range. The rows before it are done.
fn numbers_of_row<N: Number>(
    cells: &[Wide],
    order: Order,
    rows: u32,
    cols: u32,
    i: u32,
    numbers: &mut [N],
) -> Result<(), OpFault>
    requires bits { IsSupported N.BITS }
    requires shape { IsShaped rows cols cells.now }
    requires square { IsSquare order rows cols }
    requires numbers { length numbers.old ≡ rows * cols }
    requires row { i < rows }
    requires before { AreNumbers N.value cols (cell_at order rows cols cells.now) (i * cols) numbers.old }
    ensures { let exact = cell_at order rows cols cells.now in
        MatchResult result (λ _. AreNumbers N.value cols exact ((i + 1) * cols) numbers.new)
        (λ fault. fault_of N.BITS rows cols (exactly exact) ≡ Some fault) }
{
    for j in 0..cols {
        let exact = cells[place(order, rows, cols, i, j)];
        let Some(number) = N::narrow(exact) else {
            return Err(OpFault {
                op: 0,
                row: i + 1,
                col: j + 1,
                what: What::Range { value: exact },
            });
        };
        numbers[place(Order::Rows, rows, cols, i, j)] = number;
    }
    Ok(())
}
