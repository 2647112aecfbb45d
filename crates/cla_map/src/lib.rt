//! Operators that map each entry of a table: on the values of the dictionaries, and not on the cells.
#![tactic(auto)]

mod chain;
mod mapping;
mod misfit;
mod room;
mod shape;
mod step;

pub use chain::{broadcast_row, map_chain};
pub use step::Step;
