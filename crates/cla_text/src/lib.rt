//! Integers in words, words of a line, and texts that grow.
#![tactic(auto)]

mod integer;
#[cfg(test)]
mod tests;
mod text;
mod word;

pub use integer::{BadInt, read_int};
pub use text::Text;
pub use word::{Words, same_word};
