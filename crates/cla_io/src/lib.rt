//! Files and sinks, fakes of both in memory, the real ones, and input line by line.
#![tactic(auto)]

mod disk;
mod drip;
mod file_sink;
mod files;
mod gather;
mod input;
mod last_line;
mod mem_files;
mod mem_map;
mod mem_sink;
mod numbers;
mod plan;
mod put;
mod sink;
mod std_sink;
mod stop;
mod taken;
mod window;

pub use disk::DiskFiles;
pub use drip::Drip;
pub use file_sink::FileSink;
pub use files::Files;
pub use input::{Input, InputOver};
pub use mem_files::MemFiles;
pub use mem_sink::MemSink;
pub use put::put_all;
pub use sink::Sink;
pub use std_sink::StdSink;
pub use stop::{CallKind, InFault, OutFault, Stop};
pub use taken::Taken;
