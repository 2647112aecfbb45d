//! What is wrong with the shapes of a script.

use cla_script::Place;
use std::alloc::{AllocError, AllocFailed};
use thiserror::Error;

/// What is wrong with the shapes of an operator.
#[derive(Clone, Copy, Debug, PartialEq, Eq)]
pub enum ShapeKind {
    /// A name that no statement before has assigned.
    Unknown,
    /// A number where a matrix is needed.
    Operand,
    /// Two matrices whose shapes don't fit each other.
    Shapes,
    /// A span that isn't within the rows or columns.
    Bounds,
    /// A result that is past the limits of a matrix.
    TooLarge,
}

/// Why the shapes of a script are refused: their first fault, or want of memory.
#[derive(Debug, Drop, Error)]
pub enum ShapeFault {
    #[error("the shapes are refused")]
    At { place: Place, kind: ShapeKind },
    #[error("out of memory")]
    Memory,
}

/// What is wrong, and where.
#[derive(Clone, Copy, Debug, PartialEq, Eq)]
pub struct Fault {
    pub place: Place,
    pub kind: ShapeKind,
}

impl From<Fault> for ShapeFault {
    ghost use Rattle.std.specs.Prelude.{◌≡◌};
    ghost use Rattle.cla_check.specs.declared.fault.ShapeFault.TheVariants as fault;

    ghost from_gives = { λ f e. e ≡ fault.At f.place f.kind };

    fn from(fault: Fault) -> ShapeFault {
        ShapeFault::At {
            place: fault.place,
            kind: fault.kind,
        }
    }
}

impl From<AllocError> for ShapeFault {
    ghost use Rattle.std.specs.Prelude.{◌≡◌};
    ghost use Rattle.cla_check.specs.declared.fault.ShapeFault.TheVariants as fault;

    ghost from_gives = { λ _ e. e ≡ fault.Memory };

    fn from(_error: AllocError) -> ShapeFault {
        ShapeFault::Memory
    }
}

impl<T: Drop> From<AllocFailed<T>> for ShapeFault {
    ghost use Rattle.std.specs.Prelude.{◌≡◌};
    ghost use Rattle.cla_check.specs.declared.fault.ShapeFault.TheVariants as fault;

    ghost from_gives = { λ _ e. e ≡ fault.Memory };

    fn from(_error: AllocFailed<T>) -> ShapeFault {
        ShapeFault::Memory
    }
}
