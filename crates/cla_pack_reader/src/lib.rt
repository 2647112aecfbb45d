//! The reader of packed files, in one pass over an input.
#![tactic(auto)]

mod bits;
mod coded;
mod codes;
mod columns;
mod cover;
mod fields;
mod group;
mod header;
mod kinds;
mod list;
mod listed;
mod listed_group;
mod listed_rows;
mod marks;
mod part;
mod parts;
mod plain;
mod reader;
mod run;
mod run_list;
mod segment;
mod tuples;
mod values;
mod walk;
mod zeros;

pub use reader::{Packed, read_packed};
