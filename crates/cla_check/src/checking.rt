//! The check of a script's shapes.

ghost use Rattle.std.specs.Prelude.{◌≡◌, ◌<◌, ◌^◌, All, length};
ghost use Rattle.cla_script.specs.Reads.{statements_of};
ghost use Rattle.cla_tokens.specs.Formed.{AllFormed};
ghost use Rattle.cla_check.specs.Checks.{Checks};
ghost use Rattle.cla_check.specs.Scripts.{IsInLimits, reads_in};

use crate::checked::Checked;
use crate::fault::ShapeFault;
use crate::scope::check_shapes;
use crate::shape::Shape;
use cla_num::Number;
use cla_script::Script;
use std::alloc::Global;

/// The script with the shapes of the tables that it reads, one for each `read` in order, where each
/// expression has a shape. Refused at the first fault: statements in their order, operands before
/// operators, and at one operator `Operand`, `Shapes`, `Bounds` and `TooLarge` in this order. Its time
/// grows with the length of the script times the number of its assignments.
pub fn check<N: Number + Drop>(
    alloc: Global,
    s: Script<N>,
    inputs: &[Shape],
) -> Result<Checked<N>, ShapeFault>
    requires few { length s.statements.items < 2 ^ 32 }
    requires formed { AllFormed (statements_of N.value s.statements.items) }
    requires one_each { length inputs.now ≡ reads_in (statements_of N.value s.statements.items) }
    requires in_limits { All IsInLimits inputs.now }
    ensures { Checks N.value s inputs.now result }
{
    match check_shapes(alloc, &s.statements, inputs) {
        Ok(()) => Ok(Checked::new(s, inputs.to_vec(alloc)?)),
        Err(fault) => Err(fault),
    }
}
