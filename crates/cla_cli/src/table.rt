//! The tables of a script.

ghost use Rattle.std.specs.Prelude.{◌≡◌, ◌≤◌, ◌*◌, ◌∷◌, [], IfOk};
ghost use Rattle.cla_spec.specs.Matrix.{exact_sum};
ghost use Rattle.cla_num.specs.Bits.{IsSupported};
ghost use Rattle.cla_num.specs.Counts.{AreBelow, kernel_bound};
ghost use Rattle.cla_num.specs.Fault.{AnswersNumber};
ghost use Rattle.cla_check.specs.Scripts.{IsInLimits};
ghost use Rattle.cla_layout.specs.Layouts.{IsWhole};
ghost use Rattle.cla_coded.specs.AnyGroups.{any_codes, any_dictionary};
ghost use Rattle.cla_coded.specs.Tables.{layout_of, matrix_of};
ghost use Rattle.cla_coded.specs.Skeletons.{skeleton_of};
ghost use Rattle.cla_meaning.specs.Counts.{HasMults};
ghost use Rattle.cla_cli.specs.Outcome.{shape_of_table};
ghost use Rattle.cla_cli.specs.Tables.{IsLoose, AnswersProduct, MapsOrFewer};
ghost use Rattle.cla_cli.specs.Evaluate.{FewMore, operator_most};
ghost use Rattle.cla_print.specs.Texts.{matrix_text};
ghost use Rattle.cla_io.specs.Sinks.{PutsAll};
ghost use Rattle.cla_io.specs.Counts.{HasCause};

use cla_check::Shape;
use cla_coded::{Coded, loose};
use cla_io::{Sink, Stop};
use cla_map::{Step, map_chain};
use cla_num::{CellOp, Dense, Memory, Meter, Number, OpFault, Refused};
use cla_print::print_rows;
use std::alloc::Global;
use std::marker::Model;

/// A table, kept loose: as one plain group of all its columns. Contracts see the matrix.
#[derive(Drop)]
pub(crate) struct Table<N: Number> {
    coded: Coded<N>,
    ghost is_loose: { IsLoose (skeleton_of any_codes coded) },
    ghost is_whole: { IsWhole N.BITS (layout_of any_codes any_dictionary coded) },
}

impl<N: Number> Model for Table<N> {
    ghost use Rattle.cla_spec.specs.Matrix.{Matrix};
    ghost use Rattle.cla_coded.specs.AnyGroups.{any_codes, any_dictionary};
    ghost use Rattle.cla_coded.specs.Tables.{matrix_of};

    ghost Value = { Matrix };

    ghost view = { λ t. matrix_of any_codes any_dictionary t.coded };
}

impl<N: Number> Table<N> {
    /// The table of this matrix, in the memory that the cells had.
    pub(crate) fn of(alloc: Global, m: Dense<N>) -> Result<Table<N>, Memory>
        ensures { IfOk result (λ t. t ≡ m) }
    {
        // (its cells tell that it has its shape)
        prove!(!m.cells().is_empty());
        let coded = loose(alloc, m)?;
        Ok(Table::kept(coded))
    }

    // The table that is kept so.
    fn kept(coded: Coded<N>) -> Table<N>
        requires { IsLoose (skeleton_of any_codes coded) }
        ensures { result ≡ matrix_of any_codes any_dictionary coded }
    {
        // (its parts tell that it is whole)
        prove!(coded.parts().len() == 1);
        Table { coded }
    }

    /// How many rows and columns there are.
    pub(crate) fn shape(&self) -> Shape
        ensures same { result ≡ shape_of_table self.now }
        ensures limits { IsInLimits result }
    {
        Shape {
            rows: self.coded.rows(),
            cols: self.coded.cols(),
        }
    }

    /// The sum of all cells, with a multiplication for each.
    pub(crate) fn sum(&self, meter: &mut Meter) -> Result<N, OpFault>
        requires bits { IsSupported N.BITS }
        requires room { AreBelow kernel_bound meter.old }
        ensures sum { AnswersNumber N.BITS N.value (exact_sum self.now) result }
        ensures counts { HasMults (self.now.rows * self.now.cols) meter.old meter.new }
        ensures few { FewMore operator_most meter.old meter.new }
    {
        cla_agg::sum(&self.coded, meter)
    }

    /// Every cell times k, with a map evaluation for each.
    pub(crate) fn scaled(&self, alloc: Global, k: N, meter: &mut Meter) -> Result<Table<N>, Refused>
        requires bits { IsSupported N.BITS }
        requires room { AreBelow kernel_bound meter.old }
        ensures product { AnswersProduct N.BITS self.now (N.value k) result }
        ensures counts { MapsOrFewer (self.now.rows * self.now.cols) meter.old meter.new result }
        ensures few { FewMore operator_most meter.old meter.new }
    {
        let op = CellOp::Mul;
        let Ok(steps) = one_step(alloc, Step::Right { op, scalar: k }) else {
            return Err(Refused::Memory);
        };
        match map_chain(alloc, &self.coded, &steps, meter) {
            Ok(coded) => Ok(Table::kept(coded)),
            Err(refused) => Err(refused),
        }
    }

    /// Prints the rows, through one buffer.
    pub(crate) fn print<O: Sink>(&self, alloc: Global, out: &mut O) -> Result<(), Stop>
        ensures puts { PutsAll (matrix_text self.now) (O.told out.old) (O.told out.new) result }
        ensures later { O.faults out.old ≤ O.faults out.new }
        ensures steady { O.steady out.new ≡ O.steady out.old }
        ensures kept { O.kept out.old out.new }
        ensures cause { HasCause (O.faults out.old) (O.faults out.new) result }
    {
        print_rows(alloc, &self.coded.parts()[0].group, out)
    }
}

// The chain of this step alone.
fn one_step<N: Number>(alloc: Global, step: Step<N>) -> Result<Vec<Step<N>>, Memory>
    ensures { IfOk result (λ steps. steps.items ≡ step ∷ []) }
{
    let mut steps = Vec::with_capacity(alloc, 1)?;
    steps.push(step)?;
    Ok(steps)
}
