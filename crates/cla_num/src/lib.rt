//! Numbers of a bounded range, exact sums, the meter of counted operations, dense matrices and names.
#![tactic(auto)]

mod cell_op;
mod dense;
mod fault;
mod int;
mod meter;
mod name;
mod number;
#[cfg(test)]
mod tests;
mod wide;

pub use cell_op::{CellOp, division_by_floor};
pub use dense::Dense;
pub use fault::{Memory, OpFault, Refused, What, ZeroDivisor};
pub use int::Int;
pub use meter::Meter;
pub use name::Name;
pub use number::{GREATEST_BITS, Number};
pub use wide::Wide;
