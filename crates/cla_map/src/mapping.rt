//! What the entries of each column go through.

ghost use Rattle.std.specs.Prelude.{◌≡◌, ◌<◌, ◌-◌, ◌^◌, ℕ, ℤ, [], ◌∷◌, Option, length, map};
ghost use Rattle.cla_num.specs.Bits.{IsSupported};
ghost use Rattle.cla_num.specs.Cells.{cell_value};
ghost use Rattle.cla_num.specs.Counts.{AreBelow};
ghost use Rattle.cla_layout.specs.Groups.{at};
ghost use Rattle.cla_meaning.specs.Counts.{AreRaised};
ghost use Rattle.cla_map.specs.declared.misfit.Stop.{Stop};
ghost use Rattle.cla_map.specs.Steps.{step_cell, row_steps};
ghost use Rattle.cla_map.specs.Stops.{last_value, stop_from, value_room};

use crate::misfit::{Ran, Stop, map_value, next_value};
use crate::step::Step;
use cla_num::{CellOp, Meter, Number};

/// What the entries of each column go through, value by value.
pub(crate) trait Mapping<N: Number> {
    /// Where an entry of this column stops, if it does.
    ghost stop: { Self → ℕ → ℤ → Option Stop };

    /// An entry of this column after all steps, or before the one at which it stops.
    ghost last: { Self → ℕ → ℤ → ℤ };

    /// How many steps there are.
    ghost steps: { Self → ℕ };

    /// There are steps for this column.
    ghost covers: { Self → ℕ → Type 0 };

    /// All steps of column j on one value.
    fn run(&self, j: u32, x: N, meter: &mut Meter) -> Ran<N>
        requires bits { IsSupported N.BITS }
        requires few { steps self.now < 2 ^ 32 }
        requires column { covers self.now j }
        requires room { AreBelow (value_room - 2 ^ 32) meter.old }
        ensures value { N.value result.value ≡ last self.now j (N.value x) }
        ensures stop { result.stop ≡ stop self.now j (N.value x) }
        ensures counts { AreRaised (steps self.now) result.stop meter.old meter.new };
}

/// The same steps in every column.
#[derive(Drop)]
pub(crate) struct Chain<'a, N> {
    pub(crate) steps: &'a [Step<N>],
}

impl<'a, N: Number> Mapping<N> for Chain<'a, N> {
    ghost stop = { λ c j. stop_from N.BITS 0 (map (step_cell N.value) c.steps.now) };

    ghost last = { λ c j. last_value N.BITS (map (step_cell N.value) c.steps.now) };

    ghost steps = { λ c. length c.steps.now };

    ghost covers = { λ c j. Unit {0} };

    #[inline(always)]
    fn run(&self, _j: u32, x: N, meter: &mut Meter) -> Ran<N> {
        map_value(x, self.steps, meter)
    }
}

/// One operator, whose right operand is the row's number in the column.
#[derive(Drop)]
pub(crate) struct RowOp<'a, N> {
    pub(crate) op: CellOp,
    pub(crate) row: &'a [N],
}

impl<'a, N: Number> Mapping<N> for RowOp<'a, N> {
    ghost stop = { λ r j. stop_from N.BITS 0 (row_steps r.op (map N.value r.row.now) j) };

    ghost last = { λ r j. last_value N.BITS (row_steps r.op (map N.value r.row.now) j) };

    ghost steps = { λ r. 1 };

    ghost covers = { λ r j. j < length r.row.now };

    #[inline(always)]
    fn run(&self, j: u32, x: N, meter: &mut Meter) -> Ran<N> {
        let step = Step::Right {
            op: self.op,
            scalar: self.row[j as usize],
        };
        match next_value(&step, x, meter) {
            Ok(value) => Ran { value, stop: None },
            Err(what) => Ran {
                value: x,
                stop: Some(Stop { op: 0, what }),
            },
        }
    }
}
