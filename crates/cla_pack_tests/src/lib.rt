//! Tests of packed files: their bytes, worked out by hand from the format, files that are read whole, cut
//! short, made longer and damaged, matrices that come back from their files, and writes that fail.
#![tactic(auto)]

#[cfg(test)]
mod both_ways_tests;
#[cfg(test)]
mod known_files;
#[cfg(test)]
mod matrices;
#[cfg(test)]
mod packed_files;
#[cfg(test)]
mod read_tests;
#[cfg(test)]
mod write_tests;
