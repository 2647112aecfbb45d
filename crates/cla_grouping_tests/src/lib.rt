//! Tests of the tuples of columns and of the cut of a matrix: values from outside, and that calls succeed.
#![tactic(auto)]

#[cfg(test)]
mod cut_tests;
#[cfg(test)]
mod made;
#[cfg(test)]
mod rule_tests;
#[cfg(test)]
mod size_tests;
#[cfg(test)]
mod tuple_tests;
