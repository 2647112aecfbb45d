//! The files of tables: a table is read in either form, as Matrix Market text or as a packed file.
#![tactic(auto)]

mod budget;
mod fault;
mod kept;
mod packed_stats;
mod stats;
mod table_file;

pub use budget::BudgetFault;
pub use cla_cocode::OverBudget;
pub use cla_market::MtxFault;
pub use cla_packed::{FieldName, PackFault};
pub use fault::FileFault;
pub use stats::{GroupStats, TableStats};
pub use table_file::{TableFile, read_table};
