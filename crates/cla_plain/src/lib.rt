//! Plain groups: columns that are kept uncompressed, row by row.
#![tactic(auto)]

mod plain;

pub use plain::Plain;
