//! What a statement makes of the names that were assigned.

ghost use Rattle.std.specs.Prelude.{◌≡◌};
ghost use Rattle.cla_script.specs.Reads.{statements_of};
ghost use Rattle.cla_script.specs.View.{statement_of};
ghost use Rattle.cla_check.specs.Scripts.{after, first_shape_fault};
ghost use Rattle.cla_check.specs.Scopes.{Finds, Takes, scope_of};

use crate::expressions::shape_of;
use crate::fault::ShapeFault;
use crate::names::Assigned;
use crate::operators::matrix_of;
use crate::shape::{Shape, ValueShape};
use cla_num::Number;
use cla_script::Statement;
use std::alloc::Global;

/// The names that were assigned, the last one last, and the shapes of the tables that are still to be
/// read.
#[derive(Drop)]
pub struct Scope<'a> {
    pub names: Vec<Assigned<'a>>,
    pub inputs: &'a [Shape],
}

impl<'a> Scope<'a> {
    /// The scope after the next statement.
    pub fn take<N: Number>(self, statement: &'a Statement<N>) -> Result<Scope<'a>, ShapeFault>
        ensures { Takes result (after (scope_of self.entry) (statement_of N.value statement.now)) }
    {
        let Scope { mut names, inputs } = self;
        match statement {
            Statement::Read { name, .. } => match inputs {
                [shape, rest @ ..] => {
                    names.push(Assigned {
                        name,
                        shape: ValueShape::Matrix(*shape),
                    })?;
                    Ok(Scope {
                        names,
                        inputs: rest,
                    })
                }
                [] => Ok(Scope { names, inputs }),
            },
            Statement::Let { name, value } => {
                let shape = shape_of(&names, value)?;
                names.push(Assigned { name, shape })?;
                Ok(Scope { names, inputs })
            }
            Statement::Print { value } => {
                shape_of(&names, value)?;
                Ok(Scope { names, inputs })
            }
            Statement::Write { value, place, .. } | Statement::Pack { value, place, .. } => {
                let shape = shape_of(&names, value)?;
                matrix_of(*place, shape)?;
                Ok(Scope { names, inputs })
            }
        }
    }
}

/// The first fault of the statements, where the tables that are read have these shapes.
pub fn check_shapes<N: Number>(
    alloc: Global,
    statements: &[Statement<N>],
    inputs: &[Shape],
) -> Result<(), ShapeFault>
    ensures { Finds result (first_shape_fault (statements_of N.value statements.now) inputs.now) }
{
    let mut scope = Scope {
        names: Vec::new(alloc),
        inputs,
    };
    for statement in statements {
        scope = match scope.take(statement) {
            Ok(scope) => scope,
            Err(fault) => return Err(fault),
        };
    }
    Ok(())
}
