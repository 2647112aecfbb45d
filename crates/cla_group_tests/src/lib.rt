//! Tests of groups of each kind, and of tables: values from outside, and that calls succeed.
#![tactic(auto)]

#[cfg(test)]
mod borrowed;
#[cfg(test)]
mod checked;
#[cfg(test)]
mod expected;
#[cfg(test)]
mod group_calls;
#[cfg(test)]
mod group_tests;
#[cfg(test)]
mod kept_tests;
#[cfg(test)]
mod table_tests;
