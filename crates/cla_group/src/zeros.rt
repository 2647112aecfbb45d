//! Tuples of zeros.

ghost use Rattle.std.specs.Prelude.{◌≡◌, pos, map};
ghost use Rattle.std.specs.Ordering.{int_eq};
ghost use Rattle.cla_layout.specs.Listed.{is_zero};

use cla_num::{Number, Wide};

/// Whether each value of a tuple is 0.
pub fn is_zero<N: Number>(tuple: &[N]) -> bool
    ensures { result ≡ is_zero (map N.value tuple.now) }
{
    for value in tuple {
        if !is_nothing(value) {
            return false;
        }
    }
    true
}

// Whether a value is 0.
fn is_nothing<N: Number>(value: &N) -> bool
    ensures { result ≡ int_eq (N.value value.now) (pos 0) }
{
    value.wide() == Wide::zero()
}
