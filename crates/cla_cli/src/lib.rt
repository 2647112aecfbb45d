//! The command line: the words, the statuses, and the top call that does all that the program does.
#![tactic(auto)]

mod budget;
mod built;
mod evaluate;
mod inputs;
mod lines;
mod names;
mod needed;
mod statements;
mod stats;
mod status;
mod table;
mod top;
mod unfinished;
mod unread;
mod writing;

pub use cla_check::ShapeKind;
pub use cla_script::{Place, ScriptKind};
pub use cla_tables::FileFault;
pub use status::{BadKind, Status, code};
pub use top::run;
