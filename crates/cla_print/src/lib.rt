//! The printed form of values, and the buffer through which it goes to a sink.
#![tactic(auto)]

mod buffer;
mod print;

pub use buffer::{BUFFER_BYTES, Buffer};
pub use print::{print_number, print_rows};
