//! Tests of the reader and the writer of Matrix Market files: what texts spell and their first bad
//! lines, worked out by hand from the rules of the exchange format, over files of which a few bytes
//! move at a time and over files whose calls fail.
#![tactic(auto)]

#[cfg(test)]
mod bad_texts;
#[cfg(test)]
mod drip_tests;
#[cfg(test)]
mod failing_tests;
#[cfg(test)]
mod good_texts;
#[cfg(test)]
mod heads;
#[cfg(test)]
mod limit_tests;
#[cfg(test)]
mod table_files;
#[cfg(test)]
mod tables;
#[cfg(test)]
mod text_tests;
#[cfg(test)]
mod write_tests;
