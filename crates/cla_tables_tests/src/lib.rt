//! Tests of tables from files of either form: the matrix, the groups and the packed size of files that were
//! written down by hand, what the first bytes tell, and reads that fail.
#![tactic(auto)]

#[cfg(test)]
mod form_tests;
#[cfg(test)]
mod group_tests;
#[cfg(test)]
mod known_tables;
#[cfg(test)]
mod table_files;
