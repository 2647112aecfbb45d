//! Numbers in 64 bits.

ghost use Rattle.std.specs.Prelude.{◌≡◌};
ghost use Rattle.cla_spec.specs.Numbers.{InRange};

use crate::cell_op::{CellOp, exact};
use crate::fault::ZeroDivisor;
use crate::meter::Meter;
use crate::number::{GREATEST_BITS, Number};
use crate::wide::{Wide, put_decimal};

/// An integer v with `-2^B < v < 2^B`.
#[derive(Clone, Copy, PartialEq, Eq, PartialOrd, Ord, Hash, Debug)]
pub struct Int<const B: u32> {
    value: i64,
    ghost in_range: { InRange B value },
}

impl<const B: u32> Number for Int<B> {
    ghost use Rattle.std.specs.Prelude.{refl};

    ghost BITS = { B };

    const BITS: u32 = B;

    ghost value = { λ x. x.value };

    fn of(v: i64) -> Option<Self> {
        if B >= 1 && B <= GREATEST_BITS && v.unsigned_abs() < 1 << B {
            Some(Int { value: v })
        } else {
            None
        }
    }

    fn wide(self) -> Wide {
        Wide::from_i64(self.value)
    }

    fn narrow(w: Wide) -> Option<Self> {
        let value = w.as_i128();
        if value.unsigned_abs() < 1 << B {
            Some(Int {
                value: value as i64,
            })
        } else {
            None
        }
    }

    fn times(self, w: Wide, meter: &mut Meter) -> Wide {
        meter.count_mult();
        Wide::from_i128(self.value as i128 * w.as_i128())
    }

    fn apply(op: CellOp, a: Self, b: Self, meter: &mut Meter) -> Result<Wide, ZeroDivisor> {
        meter.count_map();
        Ok(Wide::from_i128(exact(op, a.value, b.value)?))
    }

    fn put(self, into: &mut [u8; 40]) -> usize {
        put_decimal(self.value as i128, into)
    }

    fn to_le(self) -> [u8; 8] {
        self.value.to_le_bytes()
    }

    ghost in_range = { λ x. x.in_range };

    ghost order = { λ x y. refl };

    ghost equality = { λ x y. refl };
}
