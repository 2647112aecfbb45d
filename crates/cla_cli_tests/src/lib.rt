//! Tests of whole runs over files and sinks in memory: worked examples, hostile files, and failing calls.
#![tactic(auto)]

#[cfg(test)]
mod budget_tests;
#[cfg(test)]
mod failing_tests;
#[cfg(test)]
mod packed_tests;
#[cfg(test)]
mod runs;
#[cfg(test)]
mod script_tests;
#[cfg(test)]
mod stats_tests;
#[cfg(test)]
mod table_tests;
#[cfg(test)]
mod word_tests;
