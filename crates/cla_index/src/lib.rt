//! Where in a list of hashes one of them stands.
#![tactic(auto)]

mod chains;
mod hash_index;

pub use hash_index::HashIndex;
