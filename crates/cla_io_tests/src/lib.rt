//! Tests of files, sinks and input line by line: over fakes in memory some of whose calls fail, over
//! files of which a few bytes move at a time, and over the real disk.
#![tactic(auto)]

#[cfg(test)]
mod disk_tests;
#[cfg(test)]
mod memory;
#[cfg(test)]
mod read_tests;
#[cfg(test)]
mod write_tests;
