//! Why a text spells no matrix.

use thiserror::Error;

/// What is wrong with one line.
#[derive(Clone, Copy, Debug, PartialEq, Eq, Error)]
pub enum LineFault {
    #[error("no banner")]
    Banner,
    #[error("an unsupported word")]
    Unsupported { place: u8 },
    #[error("no size line")]
    Size,
    #[error("too many cells")]
    TooLarge { rows: u32, cols: u32 },
    #[error("no entry line")]
    Entry,
    #[error("an index out of bounds")]
    Index,
    #[error("a value on the diagonal")]
    Diagonal,
    #[error("a value or a sum out of range")]
    Range,
}

/// The first fault of a text in the order of its lines, which count from 1. A fault at the file's end
/// has the number of lines plus 1. `TooLong`, `Read` and `Memory` are met while the file is read.
#[derive(Clone, Copy, Debug, PartialEq, Eq, Error)]
pub enum MtxFault {
    #[error("no banner")]
    Banner { line: u64 },
    #[error("an unsupported word")]
    Unsupported { place: u8 },
    #[error("no size line")]
    Size { line: u64 },
    #[error("no entry line")]
    Entry { line: u64 },
    #[error("an index out of bounds")]
    Index { line: u64 },
    #[error("a value on the diagonal")]
    Diagonal { line: u64 },
    #[error("a value or a sum out of range")]
    Range { line: u64 },
    #[error("too few entries")]
    TooFew { line: u64 },
    #[error("too many entries")]
    TooMany { line: u64 },
    #[error("too many cells")]
    TooLarge { rows: u32, cols: u32 },
    #[error("the file is too long")]
    TooLong,
    #[error("the file can't be read")]
    Read,
    #[error("out of memory")]
    Memory,
}
