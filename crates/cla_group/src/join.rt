//! How a part is joined with what a row has.

ghost use Rattle.std.specs.Prelude.{◌≡◌, ◌<◌, ◌+ℤ◌, ℕ, ℤ, length, true};
ghost use Rattle.std.specs.Int.{w128, int_min, int_max};
ghost use Rattle.std.specs.Int.RustNames.{FitsSigned};
ghost use Rattle.cla_layout.specs.Groups.{at};

use cla_num::Wide;

/// A way to join two integers, so that one walk over rows serves sums, least and greatest values.
pub trait Join {
    /// The two joined.
    ghost join: { ℤ → ℤ → ℤ };

    /// Whether the two may be joined.
    ghost can_join: { ℤ → ℤ → Type 0 };

    /// The two joined.
    fn joined(a: Wide, b: Wide) -> Wide
        requires { can_join a b }
        ensures { result ≡ join a b };

    /// Whether this part is known to leave everything that it is joined with as it is, so that its rows
    /// may be passed over.
    fn leaves_all(part: Wide) -> bool
        ensures { result ≡ true → (a : ℤ) → join a part ≡ a };
}

/// Joins two integers by their sum.
pub struct Plus;

/// Joins two integers by the lesser of them.
pub struct Least;

/// Joins two integers by the greater of them.
pub struct Greatest;

impl Join for Plus {
    ghost join = { ◌+ℤ◌ };

    ghost can_join = { λ a b. FitsSigned w128 (a +ℤ b) };

    fn joined(a: Wide, b: Wide) -> Wide {
        a.plus(b)
    }

    fn leaves_all(part: Wide) -> bool {
        part == Wide::zero()
    }
}

impl Join for Least {
    ghost join = { int_min };

    ghost can_join = { λ a b. Unit {0} };

    fn joined(a: Wide, b: Wide) -> Wide {
        a.min(b)
    }

    fn leaves_all(_part: Wide) -> bool {
        false
    }
}

impl Join for Greatest {
    ghost join = { int_max };

    ghost can_join = { λ a b. Unit {0} };

    fn joined(a: Wide, b: Wide) -> Wide {
        a.max(b)
    }

    fn leaves_all(_part: Wide) -> bool {
        false
    }
}
