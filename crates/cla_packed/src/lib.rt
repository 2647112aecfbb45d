//! Packed files, version 1, field by field: the definitions that their reader and writer cite.
#![tactic(auto)]

mod fault;

pub use fault::{FieldName, PackFault};
