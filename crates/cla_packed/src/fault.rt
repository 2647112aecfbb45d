//! Why a packed file could not be read.

ghost use Rattle.std.specs.Prelude.{◌≡◌};
ghost use Rattle.cla_packed.specs.declared.fault.PackFault.TheVariants.{Memory};

use std::alloc::{AllocError, AllocFailed};
use thiserror::Error;

/// The name of a field. `Cover` has no bytes: it stands behind the last byte of a group whose rows are
/// listed, and says which rows are named.
#[derive(Clone, Copy, Debug, PartialEq, Eq)]
pub enum FieldName {
    Magic,
    Rows,
    Columns,
    Groups,
    Kind,
    Width,
    Column,
    Tuples,
    Rest,
    Value,
    Code,
    Count,
    Offset,
    Runs,
    Gap,
    Length,
    Cover,
}

/// What is wrong with a packed file. `Field` is the first field, in the order of the file, that is cut
/// short or breaks its condition, with the offset of its first byte; the header's fields have group 0,
/// and groups count from 1.
#[derive(Clone, Copy, Debug, PartialEq, Eq, Error)]
pub enum PackFault {
    #[error("a bad field")]
    Field {
        group: u32,
        field: FieldName,
        at: u64,
    },
    #[error("bytes after the last group")]
    Trailing {
        at: u64,
    },
    #[error("too many cells")]
    TooLarge {
        rows: u32,
        cols: u32,
    },
    #[error("the file is too long")]
    TooLong,
    #[error("the file can't be read")]
    Read,
    #[error("out of memory")]
    Memory,
}

impl From<AllocError> for PackFault {
    ghost from_gives = { λ _ e. e ≡ Memory };

    fn from(_e: AllocError) -> PackFault {
        PackFault::Memory
    }
}

impl<T: Drop> From<AllocFailed<T>> for PackFault {
    ghost from_gives = { λ _ e. e ≡ Memory };

    fn from(_e: AllocFailed<T>) -> PackFault {
        PackFault::Memory
    }
}
