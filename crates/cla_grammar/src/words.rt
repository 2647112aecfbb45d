//! What words and signs of a script stand for, and why a script is refused.

use cla_num::CellOp;

/// A binary operator: one that works cell by cell, or the product of matrices.
#[derive(Clone, Copy, Debug, PartialEq, Eq)]
pub enum BinOp {
    Cell(CellOp),
    Product,
}

/// A function of one matrix.
#[derive(Clone, Copy, Debug, PartialEq, Eq)]
pub enum Call {
    Transpose,
    Sum,
    RowSums,
    ColSums,
    Min,
    Max,
    RowMins,
    RowMaxs,
    ColMins,
    ColMaxs,
    Nrow,
    Ncol,
}

/// A function that puts two matrices side by side, or one above the other.
#[derive(Clone, Copy, Debug, PartialEq, Eq)]
pub enum Bind {
    Columns,
    Rows,
}

/// The word of a statement that saves a matrix: as text, or packed.
#[derive(Clone, Copy, Debug, PartialEq, Eq)]
pub enum SaveWord {
    Write,
    Pack,
}

/// Why a script is refused.
#[derive(Clone, Copy, Debug, PartialEq, Eq)]
pub enum ScriptKind {
    /// A byte begins no token.
    Char,
    /// A text isn't closed in its line, is empty, is longer than 255 bytes, or has a byte that isn't
    /// printable ASCII. It stands at the opening quote.
    Text,
    /// The 257th token of a statement.
    Long,
    /// A number that is an expression isn't below 2^BITS, or a number in a span isn't below 2^31.
    Literal,
    /// `^` is followed by something other than a number of value 2.
    Exponent,
    /// No statement begins with the tokens up to this one.
    Syntax,
    /// A file is written that the script reads.
    Clash,
}
