//! Exact counts of the tuples of columns: how many there are, and how many rows and runs each has.
#![tactic(auto)]

mod coded;
mod counts;
mod tuples;

pub use tuples::Tuples;
