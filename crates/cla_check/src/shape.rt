//! Shapes of matrices and of values.

/// The rows and columns of a matrix.
#[derive(Clone, Copy, Debug, PartialEq, Eq)]
pub struct Shape {
    pub rows: u32,
    pub cols: u32,
}

/// The shape of a value: a number, or a matrix of this shape.
#[derive(Clone, Copy, Debug, PartialEq, Eq)]
pub enum ValueShape {
    Scalar,
    Matrix(Shape),
}

/// Rows and columns are each at most so many.
pub const MOST_LINES: u32 = i32::MAX as u32;

/// A matrix has at most so many cells.
pub const MOST_CELLS: u64 = 1 << 26;
