//! Which of two numbers stands before the other.

ghost use Rattle.std.specs.Prelude.{◌≡◌, ℤ};
ghost use Rattle.std.specs.Int.{int_min, int_max};
ghost use Rattle.cla_meaning.specs.Orders.{IsLesser, IsGreater, IsChoice};

use cla_num::Number;

/// An order of numbers, rising or falling.
pub(crate) trait Order<N: Number> {
    /// The first stands before the second, or is equal.
    ghost before: { ℤ → ℤ → Type 0 };

    /// The one that stands before.
    ghost choice: { ℤ → ℤ → ℤ };

    /// The one that stands before.
    fn chosen(a: N, b: N) -> N
        ensures { N.value result ≡ choice (N.value a) (N.value b) };

    /// What holds of each order.
    ghost laws: { IsChoice before choice };
}

/// The lesser stands before.
pub(crate) struct Rising;

/// The greater stands before.
pub(crate) struct Falling;

impl<N: Number> Order<N> for Rising {
    ghost use Rattle.cla_meaning.proofs.Choices.{lesser_chosen};

    ghost before = { IsLesser };

    ghost choice = { int_min };

    fn chosen(a: N, b: N) -> N {
        if b.wide() < a.wide() { b } else { a }
    }

    ghost laws = { lesser_chosen };
}

impl<N: Number> Order<N> for Falling {
    ghost use Rattle.cla_meaning.proofs.Choices.{greater_chosen};

    ghost before = { IsGreater };

    ghost choice = { int_max };

    fn chosen(a: N, b: N) -> N {
        if b.wide() < a.wide() { a } else { b }
    }

    ghost laws = { greater_chosen };
}
