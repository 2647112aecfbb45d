//! Tables: matrices that are kept as groups of columns of any kind, and their transposes.
#![tactic(auto)]

mod any_group;
mod coded;
mod codes;
mod dense;
mod entry;
mod part;
mod skeleton;
mod table;

pub use any_group::AnyGroup;
pub use coded::{Coded, copy, loose};
pub use codes::codes_of;
pub use part::Part;
pub use skeleton::{Skeleton, SkeletonPart};
pub use table::Table;
