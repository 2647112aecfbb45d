//! The rules of single lines of a Matrix Market text, each a function of the line's bytes.
#![tactic(auto)]

mod banner;
mod entry;
mod number;
mod plain;
mod size;
mod skipped;

pub use banner::read_banner;
pub use entry::{Entry, read_array_entry, read_coordinate_entry, read_pattern_entry};
pub use plain::{one_number, three_numbers};
pub use size::read_size;
pub use skipped::is_skipped;
