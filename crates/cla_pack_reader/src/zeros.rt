//! The tuple of zeros, which a group that lists its tuples doesn't list.

ghost use Rattle.std.specs.Prelude.{◌≡◌, ◌≤◌, ◌^◌, ◌++◌, pos, take, drop, replicate, length, map, IfOk};
ghost use Rattle.cla_num.specs.Bits.{IsSupported};

use cla_num::{Memory, Number};
use std::alloc::Global;

// The number 0.
fn zero<N: Number>() -> N
    requires { IsSupported N.BITS }
    ensures { N.value result ≡ pos 0 }
{
    match N::of(0) {
        Some(zero) => zero,
        None => unreachable!("0 is in range"),
    }
}

/// These values with n zeros behind the first `place`.
pub(crate) fn put_zeros<N: Number>(
    alloc: Global,
    values: &[N],
    place: usize,
    n: u32,
) -> Result<Vec<N>, Memory>
    requires bits { IsSupported N.BITS }
    requires within { place ≤ length values.now }
    requires few { length values.now ≤ 2 ^ 32 }
    ensures { let old = map N.value values.now in
        IfOk result (λ all. map N.value all.items ≡ take place old ++ (replicate n (pos 0) ++ drop place old)) }
{
    let mut all = Vec::from_slice(alloc, &values[..place])?;
    all.resize(place + n as usize, zero())?;
    all.extend_from_slice(&values[place..])?;
    Ok(all)
}
