//! What each operator on matrices means: exact entries, its first fault, and what it counts. Engines
//! and kernels cite these definitions, and have none of their own.
#![tactic(auto)]

mod laws;

pub use laws::{faults_are_first, orders_choose};
