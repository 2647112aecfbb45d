//! Numbers of a bounded range.

ghost use Rattle.std.specs.Prelude.{◌≡◌, ℕ, ℤ, ◌≤◌, ◌+◌, ◌*ℤ◌, take, length, IfSome, IsSome, Some, None, MatchResult};
ghost use Rattle.std.specs.Prelude.{◌↔◌};
ghost use Rattle.std.specs.Int.{w128};
ghost use Rattle.std.specs.Int.RustNames.{FitsSigned};
ghost use Rattle.std.specs.Ordering.{int_cmp, int_eq};
ghost use Rattle.cla_spec.specs.Bytes.{value_bytes};
ghost use Rattle.cla_spec.specs.Numbers.{InRange, decimal_of};
ghost use Rattle.cla_num.specs.Bits.{IsSupported};
ghost use Rattle.cla_num.specs.Cells.{cell_value};
ghost use Rattle.cla_num.specs.Counts.{AreBelow, operation_bound};

use crate::cell_op::CellOp;
use crate::fault::ZeroDivisor;
use crate::meter::Meter;
use crate::wide::Wide;
use std::hash::Hash;

/// The greatest `BITS` of a [`Number`]. Every condition on `BITS` names this constant.
pub const GREATEST_BITS: u32 = 47;

/// Numbers of a bounded range: the integers v with `-2^BITS < v < 2^BITS`. Contracts see the
/// integer by `value`. Equality, order and hash are those of the integers.
pub trait Number: Copy + Ord + Eq + Hash {
    ghost BITS: { ℕ };

    /// How many bits the size of a number may have.
    const BITS: u32;

    /// The integer that a number stands for.
    ghost value: { Self → ℤ };

    /// The number of this integer. `None` exactly where it isn't in range, or `BITS` isn't from 1
    /// to [`GREATEST_BITS`].
    fn of(v: i64) -> Option<Self>
        ensures value { IfSome result (λ n. value n ≡ v) }
        ensures cause { IsSome result ↔ (IsSupported BITS × InRange BITS v) };

    /// The same value, as a wide integer.
    fn wide(self) -> Wide
        ensures { result ≡ value self };

    /// The same value, as a number. `None` exactly where it isn't in range.
    fn narrow(w: Wide) -> Option<Self>
        requires { IsSupported BITS }
        ensures value { IfSome result (λ n. value n ≡ w) }
        ensures cause { IsSome result ↔ InRange BITS w };

    /// The exact product, which has to fit 128 bits. It counts as one multiplication.
    fn times(self, w: Wide, meter: &mut Meter) -> Wide
        requires fits { FitsSigned w128 (value self *ℤ w) }
        requires room { AreBelow operation_bound meter.old }
        ensures product { result ≡ value self *ℤ w }
        ensures counts { meter.new ≡ record meter.old { mults = meter.old.mults + 1 } };

    /// The exact value of `a op b`. Refused exactly where the operator is `Div` or `Mod` and b is 0.
    /// It counts as one map evaluation either way.
    fn apply(op: CellOp, a: Self, b: Self, meter: &mut Meter) -> Result<Wide, ZeroDivisor>
        requires room { AreBelow operation_bound meter.old }
        ensures value { MatchResult result (λ w. cell_value op (value a) (value b) ≡ Some w)
            (λ e. cell_value op (value a) (value b) ≡ None) }
        ensures counts { meter.new ≡ record meter.old { maps = meter.old.maps + 1 } };

    /// Puts the decimal text into the first bytes of `into`, and gives its length.
    fn put(self, into: &mut [u8; 40]) -> usize
        ensures text { take result into.new ≡ decimal_of (value self) }
        ensures length { result ≡ length (decimal_of (value self)) }
        ensures within { result ≤ 40 };

    /// The eight bytes of the integer in two's complement, the lowest first.
    fn to_le(self) -> [u8; 8]
        ensures { result ≡ value_bytes 8 (value self) };

    /// A number is in range.
    ghost in_range: { (x : Self) → InRange BITS (value x) };

    /// Order is that of the integers.
    ghost order: { (x y : Self) → Self.cmp x y ≡ int_cmp (value x) (value y) };

    /// Equality is that of the integers.
    ghost equality: { (x y : Self) → Self.eq x y ≡ int_eq (value x) (value y) };
}
