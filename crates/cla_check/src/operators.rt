//! The shape of an operator's result.

ghost use Rattle.std.specs.Prelude.{◌≡◌, ◌≤◌};
ghost use Rattle.cla_check.specs.Shapes.{bind_shape, call_shape, cell_shape, matrix_of, product_shape};
ghost use Rattle.cla_check.specs.Shapes.{sized, slice_shape, span_size};
ghost use Rattle.cla_script.specs.View.{span_of};

use crate::fault::{Fault, ShapeKind};
use crate::shape::{MOST_CELLS, MOST_LINES, Shape, ValueShape};
use cla_script::{Bind, Call, Place, Span};

/// The matrix's shape, where it is one.
pub fn matrix_of(place: Place, a: ValueShape) -> Result<Shape, Fault>
    ensures { result ≡ matrix_of place a }
{
    match a {
        ValueShape::Matrix(shape) => Ok(shape),
        ValueShape::Scalar => Err(Fault {
            place,
            kind: ShapeKind::Operand,
        }),
    }
}

// A matrix of so many rows and columns, within the limits.
fn sized(place: Place, rows: u64, cols: u64) -> Result<ValueShape, Fault>
    ensures { result ≡ sized place rows cols }
{
    if u64::from(MOST_LINES) < rows || u64::from(MOST_LINES) < cols || MOST_CELLS < rows * cols {
        return Err(Fault {
            place,
            kind: ShapeKind::TooLarge,
        });
    }
    Ok(ValueShape::Matrix(Shape {
        rows: rows as u32,
        cols: cols as u32,
    }))
}

/// The shape of a cell operator's result.
pub fn cell_shape(place: Place, a: ValueShape, b: ValueShape) -> Result<ValueShape, Fault>
    ensures { result ≡ cell_shape place a b }
{
    match (a, b) {
        (ValueShape::Scalar, b) => Ok(b),
        (a, ValueShape::Scalar) => Ok(a),
        (ValueShape::Matrix(x), ValueShape::Matrix(y)) => {
            if x.cols == y.cols && (x.rows == y.rows || (1 < x.rows && y.rows == 1)) {
                Ok(a)
            } else {
                Err(Fault {
                    place,
                    kind: ShapeKind::Shapes,
                })
            }
        }
    }
}

/// The shape of a product of matrices.
pub fn product_shape(place: Place, a: ValueShape, b: ValueShape) -> Result<ValueShape, Fault>
    ensures { result ≡ product_shape place a b }
{
    let a = matrix_of(place, a)?;
    let b = matrix_of(place, b)?;
    if a.cols != b.rows {
        return Err(Fault {
            place,
            kind: ShapeKind::Shapes,
        });
    }
    sized(place, u64::from(a.rows), u64::from(b.cols))
}

/// The shape of a function's result.
pub fn call_shape(place: Place, call: Call, a: ValueShape) -> Result<ValueShape, Fault>
    ensures { result ≡ call_shape place call a }
{
    let Shape { rows, cols } = matrix_of(place, a)?;
    match call {
        Call::Transpose => Ok(ValueShape::Matrix(Shape {
            rows: cols,
            cols: rows,
        })),
        Call::Sum | Call::Min | Call::Max | Call::Nrow | Call::Ncol => Ok(ValueShape::Scalar),
        Call::RowSums | Call::RowMins | Call::RowMaxs => Ok(ValueShape::Matrix(Shape {
            rows,
            cols: 1,
        })),
        Call::ColSums | Call::ColMins | Call::ColMaxs => Ok(ValueShape::Matrix(Shape {
            rows: 1,
            cols,
        })),
    }
}

/// The shape of two matrices side by side, or one above the other.
pub fn bind_shape(
    place: Place,
    bind: Bind,
    a: ValueShape,
    b: ValueShape,
) -> Result<ValueShape, Fault>
    ensures { result ≡ bind_shape place bind a b }
{
    let a = matrix_of(place, a)?;
    let b = matrix_of(place, b)?;
    match bind {
        Bind::Columns => {
            if a.rows != b.rows {
                return Err(Fault {
                    place,
                    kind: ShapeKind::Shapes,
                });
            }
            sized(
                place,
                u64::from(a.rows),
                u64::from(a.cols) + u64::from(b.cols),
            )
        }
        Bind::Rows => {
            if a.cols != b.cols {
                return Err(Fault {
                    place,
                    kind: ShapeKind::Shapes,
                });
            }
            sized(
                place,
                u64::from(a.rows) + u64::from(b.rows),
                u64::from(a.cols),
            )
        }
    }
}

// How many of so many rows or columns a span keeps, where it is within them.
fn span_size(span: Span, size: u32) -> Option<u32>
    ensures { result ≡ span_size (span_of span) size }
{
    match span {
        Span::All => Some(size),
        Span::One { n } => { if 1 <= n && n <= size { Some(1) } else { None } }
        Span::Pair { first, last } => {
            if 1 <= first && first <= last && last <= size {
                Some(last - first + 1)
            } else {
                None
            }
        }
    }
}

/// The shape of a slice.
pub fn slice_shape(place: Place, a: ValueShape, rows: Span, cols: Span) -> Result<ValueShape, Fault>
    ensures { result ≡ slice_shape place a (span_of rows) (span_of cols) }
{
    let a = matrix_of(place, a)?;
    match (span_size(rows, a.rows), span_size(cols, a.cols)) {
        (Some(rows), Some(cols)) => Ok(ValueShape::Matrix(Shape { rows, cols })),
        _ => Err(Fault {
            place,
            kind: ShapeKind::Bounds,
        }),
    }
}
