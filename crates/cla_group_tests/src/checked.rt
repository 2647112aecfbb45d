//! Exact integers, and groups of codes in given widths, tested when the tests run for what the calls require.

ghost use Rattle.std.specs.Prelude.{◌≡◌, ◌≤◌, ◌<◌, ℕ, length, IfOk};
ghost use Rattle.std.specs.Int.RustNames.{unsigned_abs};
ghost use Rattle.cla_num.specs.Bits.{value_bound};
ghost use Rattle.cla_layout.specs.Groups.{at};
ghost use Rattle.cla_codes.specs.Widths.{FitsWidth};

use cla_checked_tables::{Entry, expect_codes, numbers};
use cla_codes::Codes;
use cla_num::{Number, Wide};
use std::alloc::Global;
use std::test::Fail;

/// The exact integers.
pub(crate) fn wides(alloc: Global, of: &[i64]) -> Result<Vec<Wide>, Fail>
    ensures count { IfOk result (λ made. length made.items ≡ length of.now) }
    ensures small { IfOk result
        (λ made. (i : ℕ) → i < length made.items → unsigned_abs (at made.items i) ≤ value_bound) }
{
    let mut made = Vec::with_capacity(alloc, of.len())?;
    for v in of {
        made.push(Entry::of(*v).ok_or("in range")?.wide())?;
    }
    Ok(made)
}

/// The group of rows with these codes, in W bytes each, which can name `most` tuples.
pub(crate) fn codes_in_bytes<const W: usize>(
    alloc: Global,
    most: usize,
    width: u32,
    codes: &[u32],
    values: &[i64],
) -> Result<Codes<Entry, W>, Fail>
    requires { FitsWidth W most }
{
    let values = numbers(alloc, values)?;
    expect_codes(alloc, width, codes, values.len())?;
    if width == 0 || values.len() / width as usize > most {
        return Err(Fail::new("too many tuples"));
    }
    Ok(Codes::from_codes(alloc, width, codes, values)?)
}
