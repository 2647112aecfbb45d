//! Values of tuples in another order.

ghost use Rattle.std.specs.Prelude.{◌≡◌, ◌<◌, ◌≤◌, ◌+◌, ◌*◌, ℕ, length, map, IfOk};
ghost use Rattle.cla_spec.specs.Matrix.{most_cells};
ghost use Rattle.cla_layout.specs.Groups.{code_of};
ghost use Rattle.cla_group.specs.Dictionaries.{AreInOrder};

use cla_num::{Memory, Number};
use std::alloc::Global;

/// The values of the tuples that `order` names, tuple after tuple and in its order.
pub fn values_in_order<N: Number>(
    alloc: Global,
    width: u32,
    order: &[u32],
    values: &[N],
) -> Result<Vec<N>, Memory>
    requires within { (k : ℕ) → k < length order.now → (code_of order.now k + 1) * width ≤ length values.now }
    requires few { length order.now ≤ most_cells }
    requires narrow { width ≤ most_cells }
    ensures count { IfOk result (λ kept. length kept.items ≡ length order.now * width) }
    ensures values { let old = map N.value values.now in
        IfOk result (λ kept. AreInOrder width order.now old (map N.value kept.items)) }
{
    let places = width as usize;
    let mut kept = Vec::with_capacity(alloc, order.len() * places)?;
    for k in order {
        let begin = *k as usize * places;
        kept.extend_from_slice(&values[begin..begin + places])?;
    }
    Ok(kept)
}
