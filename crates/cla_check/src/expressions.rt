//! The shape of an expression.

ghost use Rattle.std.specs.Prelude.{◌≡◌};
ghost use Rattle.cla_script.specs.View.{tree_of};
ghost use Rattle.cla_check.specs.Shapes.{binary_shape, shape_of};
ghost use Rattle.cla_check.specs.Names.{names_of};

use crate::fault::{Fault, ShapeKind};
use crate::names::{Assigned, name_shape};
use crate::operators::{bind_shape, call_shape, cell_shape, product_shape, slice_shape};
use crate::shape::ValueShape;
use cla_num::Number;
use cla_script::{BinOp, Expr, Place};

fn binary_shape(place: Place, op: BinOp, a: ValueShape, b: ValueShape) -> Result<ValueShape, Fault>
    ensures { result ≡ binary_shape place op a b }
{
    match op {
        BinOp::Cell(_) => cell_shape(place, a, b),
        BinOp::Product => product_shape(place, a, b),
    }
}

/// The shape of an expression under these names, or its first fault, operands before operators.
pub fn shape_of<N: Number>(names: &[Assigned], e: &Expr<N>) -> Result<ValueShape, Fault>
    ensures { result ≡ shape_of (names_of names.entry.now) (tree_of N.value e.now) }
{
    match e {
        Expr::Number { .. } => Ok(ValueShape::Scalar),
        Expr::Named { place, name } => match name_shape(names, name) {
            Some(shape) => Ok(shape),
            None => Err(Fault {
                place: *place,
                kind: ShapeKind::Unknown,
            }),
        },
        Expr::Neg { a, .. } | Expr::Square { a, .. } => shape_of(names, a),
        Expr::Binary { place, op, a, b } => {
            let x = shape_of(names, a)?;
            let y = shape_of(names, b)?;
            binary_shape(*place, *op, x, y)
        }
        Expr::Call { place, call, a } => {
            let x = shape_of(names, a)?;
            call_shape(*place, *call, x)
        }
        Expr::Bind { place, bind, a, b } => {
            let x = shape_of(names, a)?;
            let y = shape_of(names, b)?;
            bind_shape(*place, *bind, x, y)
        }
        Expr::Slice {
            place,
            a,
            rows,
            cols,
        } => {
            let x = shape_of(names, a)?;
            slice_shape(*place, x, *rows, *cols)
        }
    }
}
