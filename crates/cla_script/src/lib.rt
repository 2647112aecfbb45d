//! Scripts: their trees, their reader, and files that a script both reads and writes.
#![tactic(auto)]

mod builder;
mod clashes;
mod expr;
mod expressions;
mod fault;
mod files;
mod frame;
mod parsing;
mod reader;
mod refusal;
mod spans;
mod statements;

pub use cla_grammar::{BinOp, Bind, Call, Place, ScriptKind};
pub use clashes::clash;
pub use expr::{Expr, Script, Span, Statement};
pub use fault::ScriptFault;
pub use parsing::parse;
