//! Sums, least and greatest entries of tables, and of their rows and columns.
#![tactic(auto)]

mod columns;
mod extreme;
mod lines;
mod numbers;
mod order;
mod rows;
mod total;

pub use extreme::{greatest, least};
pub use lines::{col_greatest, col_least, col_sums, row_greatest, row_least, row_sums};
pub use total::sum;
