//! The grammar of scripts: which trees its tokens have, and the first token that is refused. These are
//! definitions and laws; a law stands on a function with an empty body, whose contract it is.
#![tactic(auto)]

mod laws;
mod place;
mod words;

pub use laws::{one_answer, one_tree, scripts_are_read};
pub use place::Place;
pub use words::{BinOp, Bind, Call, SaveWord, ScriptKind};
