//! The writer of packed files: a table's groups as they are kept, byte for byte.
#![tactic(auto)]

mod codes;
mod group;
mod lists;
mod numbers;
mod offsets;
mod outgoing;
mod runs;
mod tuples;
mod writer;

pub use writer::write_packed;
