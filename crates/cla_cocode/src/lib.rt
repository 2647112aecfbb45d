//! Which columns of a matrix are grouped, how each group is kept, and what it takes; and the budget.
#![tactic(auto)]

mod budget;
mod built;
mod choice;
mod cut;
mod figures;
mod kept;
mod layouts;
mod listing;
mod pairs;
mod union;
mod values;
mod weigh;

pub use budget::{OverBudget, within};
pub use built::build;
pub use cut::{Cut, LayoutGroup, size};
pub use figures::{best, sizes};
pub use layouts::layout;
