//! Rows by their codes: how many rows have each code and which they are, and new codes for rows that
//! are kept when others are dropped.
#![tactic(auto)]

mod grouped;
mod renaming;
mod row_counts;

pub use grouped::{Grouped, group_places};
pub use renaming::{Renaming, renamed};
pub use row_counts::{Occurrences, counted};
