//! The first of the values that fail.

ghost use Rattle.std.specs.Prelude.{◌≡◌, ◌<◌, ◌+◌, ◌-◌, ◌^◌, length, map};
ghost use Rattle.cla_num.specs.Bits.{IsSupported};
ghost use Rattle.cla_num.specs.Counts.{AreBelow};
ghost use Rattle.cla_meaning.specs.Counts.{AreRaised};
ghost use Rattle.cla_map.specs.Steps.{step_cell};
ghost use Rattle.cla_map.specs.Stops.{last_value, stop_from, misfit_of, lesser_of, fault_of_misfit, value_room};
ghost use Rattle.cla_map.specs.Stops.{GivesNumber};

use crate::step::Step;
use cla_num::{Meter, Number, OpFault, What};

/// The step at which a value fails, from 0, and why.
#[derive(Clone, Copy, Debug)]
pub struct Stop {
    pub op: u32,
    pub what: What,
}

/// The same, and the place of the value's first cell, row by row from 0.
#[derive(Clone, Copy, Debug)]
pub struct Misfit {
    pub op: u32,
    pub place: u32,
    pub what: What,
}

impl Misfit {
    /// The fault of this cell, in a result of so many columns.
    pub(crate) fn fault(self, cols: u32) -> OpFault
        requires a_column { 0 < cols }
        requires few { self.place < 2 ^ 31 }
        ensures { result ≡ fault_of_misfit cols self }
    {
        OpFault {
            op: self.op,
            row: self.place / cols + 1,
            col: self.place % cols + 1,
            what: self.what,
        }
    }
}

/// The one with the lesser step, and of equal steps with the lesser place.
#[inline(always)]
pub(crate) fn lesser(first: Option<Misfit>, other: Option<Misfit>) -> Option<Misfit>
    ensures { result ≡ lesser_of first other }
{
    match (first, other) {
        (Some(a), Some(b)) => {
            if b.op < a.op || b.op == a.op && b.place < a.place {
                Some(b)
            } else {
                Some(a)
            }
        }
        (None, found) => found,
        (found, None) => found,
    }
}

/// A value that stopped, at its place.
#[inline(always)]
pub(crate) fn placed(stop: Option<Stop>, place: u32) -> Option<Misfit>
    ensures { result ≡ misfit_of stop place }
{
    match stop {
        Some(stop) => Some(Misfit {
            op: stop.op,
            place,
            what: stop.what,
        }),
        None => None,
    }
}

/// A value after all steps, or before the first one that fails.
#[derive(Clone, Copy)]
pub(crate) struct Ran<N> {
    pub(crate) value: N,
    pub(crate) stop: Option<Stop>,
}

/// One step: the next number, or what is wrong with it.
#[inline(always)]
pub(crate) fn next_value<N: Number>(step: &Step<N>, x: N, meter: &mut Meter) -> Result<N, What>
    requires bits { IsSupported N.BITS }
    requires room { AreBelow value_room meter.old }
    ensures next { GivesNumber N.BITS N.value (step_cell N.value step.now (N.value x)) result }
    ensures counts { meter.new ≡ record meter.old { maps = meter.old.maps + 1 } }
{
    let Ok(exact) = step.evaluate(x, meter) else {
        return Err(What::Zero);
    };
    match N::narrow(exact) {
        Some(n) => Ok(n),
        None => Err(What::Range { value: exact }),
    }
}

/// All steps on one value.
#[inline(always)]
pub(crate) fn map_value<N: Number>(x: N, steps: &[Step<N>], meter: &mut Meter) -> Ran<N>
    requires bits { IsSupported N.BITS }
    requires few { length steps.now < 2 ^ 32 }
    requires room { AreBelow (value_room - 2 ^ 32) meter.old }
    ensures value { N.value result.value ≡ last_value N.BITS (map (step_cell N.value) steps.now) (N.value x) }
    ensures stop { result.stop ≡ stop_from N.BITS 0 (map (step_cell N.value) steps.now) (N.value x) }
    ensures counts { AreRaised (length steps.now) result.stop meter.old meter.new }
{
    let mut value = x;
    for (op, step) in steps.iter().enumerate() {
        match next_value(step, value, meter) {
            Ok(next) => value = next,
            Err(what) => {
                return Ran {
                    value,
                    stop: Some(Stop {
                        op: op as u32,
                        what,
                    }),
                };
            }
        }
    }
    Ran { value, stop: None }
}
