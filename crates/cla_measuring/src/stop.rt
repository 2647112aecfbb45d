//! Why a program that measures stops.

use cla_num::{Memory, OpFault, Refused};
use std::alloc::{AllocError, AllocFailed};
use std::io;

/// Why a program that measures stops.
#[derive(Debug, Drop)]
pub enum Stop {
    /// The words aren't those of a task.
    Words,
    /// Some tuple has no row, or there is no group or table of this size.
    Codes,

    /// A call refused its operands.
    Refused,
    Memory,
    /// No time or words from the system, or a failed write.
    System,
}

impl From<Memory> for Stop {
    fn from(_memory: Memory) -> Stop {
        Stop::Memory
    }
}

impl From<AllocError> for Stop {
    fn from(_error: AllocError) -> Stop {
        Stop::Memory
    }
}

impl<T: Drop> From<AllocFailed<T>> for Stop {
    fn from(_error: AllocFailed<T>) -> Stop {
        Stop::Memory
    }
}

impl From<io::Error> for Stop {
    fn from(_error: io::Error) -> Stop {
        Stop::System
    }
}

impl From<OpFault> for Stop {
    fn from(_fault: OpFault) -> Stop {
        Stop::Refused
    }
}

impl From<Refused> for Stop {
    fn from(_refused: Refused) -> Stop {
        Stop::Refused
    }
}
