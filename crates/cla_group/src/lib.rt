//! Groups of columns: the traits that every encoding meets, and the dictionary that all of them have.
#![tactic(auto)]

mod dictionary;
mod group;
mod items;
mod join;
mod kept_rows;
mod owned;
mod projected;
mod reordered;
mod zeros;

pub use cla_layout::Kind;
pub use dictionary::Dictionary;
pub use group::Group;
pub use items::{gather_row, with_item};
pub use join::{Greatest, Join, Least, Plus};
pub use kept_rows::{KeptRows, keep_rows};
pub use owned::Owned;
pub use reordered::values_in_order;
