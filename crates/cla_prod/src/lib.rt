//! Products of tables: with dense matrices from either side, with one another, and of a table's
//! transpose and the table. All of them are products of a base, or its transpose, and vectors.
#![tactic(auto)]

mod columns;
mod gathers;
mod lines;
mod numbers;
mod scatters;
mod sides;
mod squares;
mod tables;

pub use sides::{left, right};
pub use squares::self_product;
pub use tables::product;
