//! Tables of given columns, codes and values. Whether these make groups and a table is tested when they
//! are made, so that a caller owes no proof of it. And groups that count the calls that are made of them.
#![tactic(auto)]

mod tables;
mod watched;

pub use tables::{Entry, expect_codes, group_of, numbers, table_of};
pub use watched::{Calls, Taken, Watched};
