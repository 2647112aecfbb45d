//! The reader and the writer of Matrix Market files, by the NIST Matrix Market exchange format.
#![tactic(auto)]

mod dense;
mod entries;
mod next_cell;
mod phase;
mod plain;
mod reader;
mod writer;

pub use cla_io::OutFault;
pub use cla_market::MtxFault;
pub use reader::read_mtx;
pub use writer::write_mtx;
