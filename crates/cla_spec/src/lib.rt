//! The definitions that the contracts of all crates cite, and lemmas about them.
#![tactic(auto)]
