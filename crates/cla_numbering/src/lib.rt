//! Rows that are numbered by first row: by the entries of a column, and by the pairs of codes of two
//! groups of columns.
#![tactic(auto)]

mod column;
mod entries;
mod gather;
mod map;
mod numbered;
mod pairs;
mod table;
mod together;

pub use column::entries_of;
pub use entries::number_entries;
pub use gather::gathered;
pub use numbered::{NO_NUMBER, Numbered, NumberedColumn, PLACES_A_ROW};
pub use pairs::number_pairs;
pub use table::number_place;
pub use together::number_together;
