//! Tables of sums: the triples (row, column, value) that are added to a table are summed cell by cell.
#![tactic(auto)]

mod dense;
mod fault;
mod few;
mod grid;
mod panels;
mod sums;
mod triples;

pub use dense::DenseTriples;
pub use fault::TableFault;
pub use triples::Triples;
