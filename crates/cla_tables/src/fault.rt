//! Why the file of a table is refused.

use cla_market::MtxFault;
use cla_packed::PackFault;
use thiserror::Error;

/// What is wrong with the file of a table, in the form that it has.
#[derive(Clone, Copy, Debug, PartialEq, Eq, Error)]
pub enum FileFault {
    #[error("not a Matrix Market file")]
    Mtx(MtxFault),
    #[error("not a packed file")]
    Pack(PackFault),
}
