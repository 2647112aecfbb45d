//! Values of tuples, kept in some places alone.

ghost use Rattle.std.specs.Prelude.{◌≡◌, ◌<◌, ◌++◌, ℕ, length, map, IfOk};
ghost use Rattle.cla_layout.specs.Groups.{code_of};
ghost use Rattle.cla_group.specs.Rows.{projected};

use cla_num::{Memory, Number};

/// Appends what a tuple keeps in these places.
pub fn keep_places<N: Number>(tuple: &[N], places: &[u32], kept: &mut Vec<N>) -> Result<(), Memory>
    requires within { (c : ℕ) → c < length places.now → code_of places.now c < length tuple.now }
    ensures { let more = projected places.now (map N.value tuple.now) in
        IfOk result (λ _. map N.value kept.new.items ≡ map N.value kept.old.items ++ more) }
{
    for place in places {
        kept.push(tuple[*place as usize])?;
    }
    Ok(())
}
