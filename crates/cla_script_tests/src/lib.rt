//! Tests of scripts: the first fault of each, worked out by hand from the rules of the script language.
#![tactic(auto)]

#[cfg(test)]
mod parse_tables;
#[cfg(test)]
mod parse_tests;
#[cfg(test)]
mod shape_tests;
