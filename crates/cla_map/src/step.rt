//! Steps of chains.

ghost use Rattle.std.specs.Prelude.{◌≡◌, ◌+◌, Some, None, MatchResult};
ghost use Rattle.cla_num.specs.Counts.{AreBelow, operation_bound};
ghost use Rattle.cla_map.specs.Steps.{step_cell};

use cla_num::{CellOp, Meter, Number, Wide, ZeroDivisor};

/// What a step makes of an entry x: `x op scalar`, `scalar op x`, `-x`, or `x * x`.
#[derive(Clone, Copy, Debug)]
pub enum Step<N> {
    Right { op: CellOp, scalar: N },
    Left { op: CellOp, scalar: N },
    Neg,
    Square,
}

impl<N: Number> Step<N> {
    // The exact value. It counts as one map evaluation.
    #[inline(always)]
    pub(crate) fn evaluate(&self, x: N, meter: &mut Meter) -> Result<Wide, ZeroDivisor>
        requires { AreBelow operation_bound meter.old }
        ensures value { let cell = step_cell N.value self.now (N.value x) in
            MatchResult result (λ w. cell ≡ Some w) (λ e. cell ≡ None) }
        ensures counts { meter.new ≡ record meter.old { maps = meter.old.maps + 1 } }
    {
        match self {
            Step::Right { op, scalar } => N::apply(*op, x, *scalar, meter),
            Step::Left { op, scalar } => N::apply(*op, *scalar, x, meter),
            Step::Neg => N::apply(CellOp::Neg, x, x, meter),
            Step::Square => N::apply(CellOp::Mul, x, x, meter),
        }
    }
}
