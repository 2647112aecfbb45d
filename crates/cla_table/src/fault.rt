//! Why a triple isn't added.

use cla_num::Wide;
use thiserror::Error;

/// A triple that isn't added: its cell's sum would be out of range, or memory is wanting.
#[derive(Clone, Copy, Debug, PartialEq, Eq, Error)]
pub enum TableFault {
    #[error("a sum is out of range")]
    OutOfRange { sum: Wide },
    #[error("out of memory")]
    Memory,
}
