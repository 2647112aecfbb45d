//! Groups of columns with one code for each row.
#![tactic(auto)]

mod byte_codes;
mod bytes;
mod codes;
mod row_codes;

pub use codes::Codes;
pub use row_codes::RowCodes;
