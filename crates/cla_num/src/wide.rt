//! Exact integers of 128 bits, in which sums are taken.

ghost use Rattle.std.specs.Prelude.{◌≡◌, ◌+ℤ◌, ◌≤◌, pos, take, length};
ghost use Rattle.std.specs.Int.{w128};
ghost use Rattle.std.specs.Int.RustNames.{FitsSigned};
ghost use Rattle.cla_spec.specs.Numbers.{decimal_of};

use itoa::Buffer;
use std::marker::Model;

/// An exact integer of 128 bits. Contracts see the integer itself.
#[derive(Clone, Copy, PartialEq, Eq, PartialOrd, Ord, Debug)]
pub struct Wide {
    value: i128,
}

impl Model for Wide {
    ghost use Rattle.std.specs.Prelude.{ℤ};
    ghost use Rattle.std.specs.Int.{w128};
    ghost use Rattle.std.specs.Int.RustNames.{FitsSigned};

    ghost Value = { ℤ };

    ghost view = { λ w. w.value };

    ghost invariant = { λ w. FitsSigned w128 w.value };

    ghost inverse = { λ z. record { value = z } };
}

impl Wide {
    /// Zero.
    pub fn zero() -> Wide
        ensures { result ≡ pos 0 }
    {
        Wide { value: 0 }
    }

    /// The number n, as of rows or cells that were counted.
    pub fn count(n: u32) -> Wide
        ensures { result ≡ pos n }
    {
        Wide { value: n as i128 }
    }

    /// The exact sum, which has to fit 128 bits.
    pub fn plus(self, other: Wide) -> Wide
        requires { FitsSigned w128 (self +ℤ other) }
        ensures { result ≡ self +ℤ other }
    {
        Wide {
            value: self.value + other.value,
        }
    }

    /// Puts the decimal text into the first bytes of `into`, and gives its length.
    pub fn put(self, into: &mut [u8; 40]) -> usize
        ensures text { take result into.new ≡ decimal_of self }
        ensures length { result ≡ length (decimal_of self) }
        ensures within { result ≤ 40 }
    {
        put_decimal(self.value, into)
    }

    pub(crate) fn from_i64(v: i64) -> Wide
        ensures { result ≡ v }
    {
        Wide { value: v as i128 }
    }

    pub(crate) fn from_i128(v: i128) -> Wide
        ensures { result ≡ v }
    {
        Wide { value: v }
    }

    pub(crate) fn as_i128(self) -> i128
        ensures { result ≡ self }
    {
        self.value
    }
}

/// Puts the decimal text of an integer into the first bytes of `into`, and gives its length.
pub(crate) fn put_decimal(v: i128, into: &mut [u8; 40]) -> usize
    ensures text { take result into.new ≡ decimal_of v }
    ensures length { result ≡ length (decimal_of v) }
    ensures within { result ≤ 40 }
{
    let mut buffer = Buffer::new();
    let text = buffer.format(v).as_bytes();
    into[..text.len()].copy_from_slice(text);
    text.len()
}
