//! Why a call on files or sinks answers nothing.

ghost use Rattle.std.specs.Prelude.{◌≡◌};

use cla_num::Memory;
use thiserror::Error;

/// A call failed, or memory is wanting.
#[derive(Clone, Copy, Debug, PartialEq, Eq)]
pub enum Stop {
    Failed,
    Memory,
}

/// An input gives no more: its file can't be read, a byte past the limit is needed and is there, or
/// memory is wanting.
#[derive(Clone, Copy, Debug, PartialEq, Eq, Error)]
pub enum InFault {
    #[error("the file can't be read")]
    Read,
    #[error("the file is longer than its limit")]
    TooLong,
    #[error("out of memory")]
    Memory,
}

/// A text isn't written whole: a write failed, or memory is wanting.
#[derive(Clone, Copy, Debug, PartialEq, Eq, Error)]
pub enum OutFault {
    #[error("a write failed")]
    Write,
    #[error("out of memory")]
    Memory,
}

/// The kinds of calls on files, by which the calls of [`crate::MemFiles`] are numbered.
#[derive(Clone, Copy, Debug, PartialEq, Eq)]
pub enum CallKind {
    BeginRead,
    Read,
    BeginWrite,
    Write,
    EndWrite,
}

impl From<Memory> for Stop {
    ghost use Rattle.cla_io.specs.declared.stop.Stop.{Stop};
    ghost use Rattle.cla_io.specs.declared.stop.Stop.TheVariants.{Memory};

    ghost from_gives = { λ _ e. e ≡ Memory };

    fn from(_memory: Memory) -> Stop {
        Stop::Memory
    }
}
