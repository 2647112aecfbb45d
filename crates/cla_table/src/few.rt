//! Few sums, kept by place.

ghost use Rattle.std.specs.Prelude.{◌≡◌, ℕ, ◌<◌, OnOk, OnErr};
ghost use Rattle.cla_spec.specs.Numbers.{InRange};
ghost use Rattle.cla_table.specs.Kept.{sum_among, Keeps, AreWithin};

use cla_num::{Memory, Number, Wide};
use indexmap::IndexMap;

/// The sum at a place.
pub(crate) fn sum_at<N: Number>(sums: &IndexMap<u32, N>, place: u32) -> Wide
    ensures sum { result ≡ sum_among N.value sums.now.entries place }
    ensures in_range { InRange N.BITS result }
{
    match sums.get(&place) {
        Some(sum) => sum.wide(),
        None => Wide::zero(),
    }
}

/// Keeps a sum at a place. Where memory is wanting, all stays as it was.
pub(crate) fn keep<N: Number>(sums: &mut IndexMap<u32, N>, place: u32, sum: N) -> Result<(), Memory>
    ensures kept { OnOk result (Keeps N.value sums.old.entries sums.new.entries place (N.value sum)) }
    ensures within { (n : ℕ) → place < n → AreWithin n sums.old.entries → AreWithin n sums.new.entries }
    ensures same { OnErr result (sums.new.entries ≡ sums.old.entries) }
{
    sums.insert(place, sum)?;
    Ok(())
}
