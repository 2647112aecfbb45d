//! Operators on cells.

ghost use Rattle.std.specs.Prelude.{◌≡◌, Some, None, MatchResult};
ghost use Rattle.cla_num.specs.Cells.{cell_value, quotient, remainder, DividesByFloor};

use crate::fault::ZeroDivisor;

/// An operator that works cell by cell. `Div` rounds towards minus infinity, `Mod` is what it leaves,
/// comparisons give 1 or 0, and `Neg` leaves its second operand out of account.
#[derive(Clone, Copy, Debug, PartialEq, Eq)]
pub enum CellOp {
    Add,
    Sub,
    Mul,
    Div,
    Mod,
    Lt,
    Le,
    Gt,
    Ge,
    Eq,
    Ne,
    Neg,
}

/// Floor division leaves a remainder that is 0 or has the divisor's sign, and is smaller in size.
pub fn division_by_floor()
    ensures { DividesByFloor }
{}

// The exact value of a cell.
pub(crate) fn exact(op: CellOp, a: i64, b: i64) -> Result<i128, ZeroDivisor>
    ensures { MatchResult result (λ v. cell_value op a b ≡ Some v) (λ e. cell_value op a b ≡ None) }
{
    let (x, y) = (a as i128, b as i128);
    match op {
        CellOp::Add => Ok(x + y),
        CellOp::Sub => Ok(x - y),
        CellOp::Mul => Ok(x * y),
        CellOp::Div => floor_div(a, b),
        CellOp::Mod => floor_mod(a, b),
        CellOp::Lt => Ok((x < y) as i128),
        CellOp::Le => Ok((x <= y) as i128),
        CellOp::Gt => Ok((x > y) as i128),
        CellOp::Ge => Ok((x >= y) as i128),
        CellOp::Eq => Ok((x == y) as i128),
        CellOp::Ne => Ok((x != y) as i128),
        CellOp::Neg => Ok(-x),
    }
}

// Both operands change their signs where the divisor is negative, and the quotient stays.
fn floor_div(a: i64, b: i64) -> Result<i128, ZeroDivisor>
    ensures { MatchResult result (λ v. quotient a b ≡ Some v) (λ e. quotient a b ≡ None) }
{
    let (x, y) = (a as i128, b as i128);
    match b {
        0 => Err(ZeroDivisor),
        1.. => Ok(x.div_euclid(y)),
        _ => Ok((-x).div_euclid(-y)),
    }
}

// What the quotient leaves changes its sign with the operands.
fn floor_mod(a: i64, b: i64) -> Result<i128, ZeroDivisor>
    ensures { MatchResult result (λ v. remainder a b ≡ Some v) (λ e. remainder a b ≡ None) }
{
    let (x, y) = (a as i128, b as i128);
    match b {
        0 => Err(ZeroDivisor),
        1.. => Ok(x.rem_euclid(y)),
        _ => Ok(-(-x).rem_euclid(-y)),
    }
}
