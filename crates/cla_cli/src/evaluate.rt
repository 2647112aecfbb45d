//! The values of calls.

ghost use Rattle.std.specs.Prelude.{◌≡◌, Some, pos};
ghost use Rattle.std.specs.Option.{option_map};
ghost use Rattle.cla_num.specs.Bits.{IsSupported};
ghost use Rattle.cla_num.specs.Counts.{AreBelow, kernel_bound};
ghost use Rattle.cla_num.specs.Fault.{AnswersNumber};
ghost use Rattle.cla_script.specs.View.{tree_of};
ghost use Rattle.cla_cli.specs.Statements.{matrix_at, number_at, is_product, exact_number, sum_of, product_sum_of};
ghost use Rattle.cla_cli.specs.Statements.{summed, called, sum_counts, product_sum_counts, sum_work, call_work};
ghost use Rattle.cla_cli.specs.Evaluate.{MayComeTo, CountsTo, FewMore, operator_most, statement_most, statement_bound};

use crate::names::{Assigned, table_of};
use crate::table::Table;
use cla_num::{CellOp, Meter, Number, OpFault, Refused, What, Wide};
use cla_script::{BinOp, Call, Expr, Place};
use std::alloc::Global;

/// An operator fails, or memory is wanting.
#[derive(Debug, Drop)]
pub(crate) enum Failed {
    Operator { place: Place, fault: OpFault },
    Memory,
}

/// The number of a call that runs today; `None` where it doesn't, and where a name has no table.
pub(crate) fn call_value<N: Number>(
    alloc: Global,
    names: &[Assigned<N>],
    place: Place,
    call: Call,
    e: &Expr<N>,
    meter: &mut Meter,
) -> Result<Option<N>, Failed>
    requires bits { IsSupported N.BITS }
    requires room { AreBelow statement_bound meter.old }
    ensures value { MayComeTo N.value (called N.BITS names.now place call (tree_of N.value e.now)) result }
    ensures counts { CountsTo (call_work names.now call (tree_of N.value e.now)) meter.old meter.new result }
    ensures few { FewMore statement_most meter.old meter.new }
{
    match call {
        Call::Sum => sum_value(alloc, names, place, e, meter),
        Call::Nrow => match table_at(names, e) {
            Some(table) => count_value(place, table.shape().rows),
            None => Ok(None),
        },
        Call::Ncol => match table_at(names, e) {
            Some(table) => count_value(place, table.shape().cols),
            None => Ok(None),
        },
        Call::Transpose
        | Call::RowSums
        | Call::ColSums
        | Call::Min
        | Call::Max
        | Call::RowMins
        | Call::RowMaxs
        | Call::ColMins
        | Call::ColMaxs => Ok(None),
    }
}

// The table of an expression that is a name.
fn table_at<'a, N: Number>(names: &[Assigned<'a, N>], e: &Expr<N>) -> Option<&'a Table<N>>
    ensures { option_map (λ t. t.now) result ≡ matrix_at names.now (tree_of N.value e.now) }
{
    match e {
        Expr::Named { name, .. } => table_of(names, name),
        Expr::Number { .. }
        | Expr::Neg { .. }
        | Expr::Square { .. }
        | Expr::Binary { .. }
        | Expr::Call { .. }
        | Expr::Bind { .. }
        | Expr::Slice { .. } => None,
    }
}

// The number of an expression that is a number.
fn number_at<N: Number>(e: &Expr<N>) -> Option<N>
    ensures { option_map N.value result ≡ number_at (tree_of N.value e.now) }
{
    match e {
        Expr::Number { value } => Some(*value),
        Expr::Named { .. }
        | Expr::Neg { .. }
        | Expr::Square { .. }
        | Expr::Binary { .. }
        | Expr::Call { .. }
        | Expr::Bind { .. }
        | Expr::Slice { .. } => None,
    }
}

/// Whether an operator multiplies cell by cell.
pub(crate) fn is_product(op: BinOp) -> bool
    ensures { result ≡ is_product op }
{
    match op {
        BinOp::Cell(op) => match op {
            CellOp::Mul => true,
            CellOp::Add
            | CellOp::Sub
            | CellOp::Div
            | CellOp::Mod
            | CellOp::Lt
            | CellOp::Le
            | CellOp::Gt
            | CellOp::Ge
            | CellOp::Eq
            | CellOp::Ne
            | CellOp::Neg => false,
        },
        BinOp::Product => false,
    }
}

// A number of rows or columns.
fn count_value<N: Number>(place: Place, count: u32) -> Result<Option<N>, Failed>
    requires { IsSupported N.BITS }
    ensures { MayComeTo N.value (Some (exact_number N.BITS place (pos count))) result }
{
    match number_of(Wide::count(count)) {
        Ok(n) => Ok(Some(n)),
        Err(fault) => Err(Failed::Operator { place, fault }),
    }
}

// The number of an exact value.
fn number_of<N: Number>(exact: Wide) -> Result<N, OpFault>
    requires { IsSupported N.BITS }
    ensures { AnswersNumber N.BITS N.value exact result }
{
    match N::narrow(exact) {
        Some(n) => Ok(n),
        None => Err(OpFault {
            op: 0,
            row: 1,
            col: 1,
            what: What::Range { value: exact },
        }),
    }
}

// The sum of a table, or of its product with a number.
fn sum_value<N: Number>(
    alloc: Global,
    names: &[Assigned<N>],
    place: Place,
    e: &Expr<N>,
    meter: &mut Meter,
) -> Result<Option<N>, Failed>
    requires bits { IsSupported N.BITS }
    requires room { AreBelow statement_bound meter.old }
    ensures value { MayComeTo N.value (summed N.BITS names.now place (tree_of N.value e.now)) result }
    ensures counts { CountsTo (sum_work names.now (tree_of N.value e.now)) meter.old meter.new result }
    ensures few { FewMore statement_most meter.old meter.new }
{
    match e {
        Expr::Named { name, .. } => match table_of(names, name) {
            Some(table) => sum(table, place, meter),
            None => Ok(None),
        },
        Expr::Binary {
            place: times,
            op,
            a,
            b,
        } => {
            if is_product(*op) {
                match (table_at(names, a), number_at(b)) {
                    (Some(table), Some(k)) => product_sum(alloc, table, place, *times, k, meter),
                    _ => Ok(None),
                }
            } else {
                Ok(None)
            }
        }
        Expr::Number { .. }
        | Expr::Neg { .. }
        | Expr::Square { .. }
        | Expr::Call { .. }
        | Expr::Bind { .. }
        | Expr::Slice { .. } => Ok(None),
    }
}

// The sum of a table by the operator at this place.
fn sum<N: Number>(table: &Table<N>, place: Place, meter: &mut Meter) -> Result<Option<N>, Failed>
    requires bits { IsSupported N.BITS }
    requires room { AreBelow kernel_bound meter.old }
    ensures value { MayComeTo N.value (Some (sum_of N.BITS place table.now)) result }
    ensures counts { CountsTo (sum_counts table.now) meter.old meter.new result }
    ensures few { FewMore operator_most meter.old meter.new }
{
    match table.sum(meter) {
        Ok(n) => Ok(Some(n)),
        Err(fault) => Err(Failed::Operator { place, fault }),
    }
}

// The sum of a table's product with a number, by the operators at these places.
fn product_sum<N: Number>(
    alloc: Global,
    table: &Table<N>,
    place: Place,
    times: Place,
    k: N,
    meter: &mut Meter,
) -> Result<Option<N>, Failed>
    requires bits { IsSupported N.BITS }
    requires room { AreBelow statement_bound meter.old }
    ensures value { MayComeTo N.value (Some (product_sum_of N.BITS place times (N.value k) table.now)) result }
    ensures counts { CountsTo (product_sum_counts table.now) meter.old meter.new result }
    ensures few { FewMore statement_most meter.old meter.new }
{
    match table.scaled(alloc, k, meter) {
        Ok(product) => sum(&product, place, meter),
        Err(Refused::Op(fault)) => Err(Failed::Operator {
            place: times,
            fault,
        }),
        Err(Refused::Memory) => Err(Failed::Memory),
    }
}
