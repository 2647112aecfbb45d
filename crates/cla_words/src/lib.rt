//! The words of the command line, and the command that they ask for.
#![tactic(auto)]

mod command;
mod parsed;

pub use command::{Command, read_command};
