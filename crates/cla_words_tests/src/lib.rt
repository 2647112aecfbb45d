//! Tests of the words of the command line: lines that are commands and lines that are none, worked
//! out by hand from the rule of words.
#![tactic(auto)]

#[cfg(test)]
mod accepted;
#[cfg(test)]
mod refused;
#[cfg(test)]
mod tests;
