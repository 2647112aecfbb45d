//! The group that saves most.

ghost use Rattle.std.specs.Prelude.{◌≡◌, ◌≤◌, ◌<◌, ◌-◌, ℕ, List, length, map, All, IfOk};
ghost use Rattle.cla_stats.specs.Coded.{CanJoin};
ghost use Rattle.cla_grouping.specs.Grouping.{choice_of};
ghost use Rattle.cla_cocode.specs.Weighing.{SavingGives};
ghost use Rattle.cla_cocode.specs.Kept.{IsFit, IsChosen, code_saving, better};

use crate::kept::{Kept, saving};
use cla_num::Memory;
use std::alloc::Global;

/// A group's place, and what it saves.
#[derive(Clone, Copy, Debug, PartialEq, Eq)]
pub struct Chosen {
    pub place: usize,
    pub saving: u64,
}

// How many of the last groups a column may join.
const WINDOW: usize = 16;

/// The group, of the last 16, that saves most by taking in a column, the earliest of equals.
pub(crate) fn choose(alloc: Global, groups: &[Kept], single: &Kept) -> Result<Chosen, Memory>
    requires single { IsFit single.now }
    requires groups { All IsFit groups.now }
    requires pairs { All (λ g. CanJoin g.tuples single.now.tuples) groups.now }
    ensures { IfOk result (IsChosen (length groups.now) (map (λ g. code_saving g single.now) groups.now)) }
{
    let mut best = Chosen {
        place: 0,
        saving: 0,
    };
    for k in groups.len().saturating_sub(WINDOW)..groups.len() {
        let saving = saving(alloc, &groups[k], single, best.saving)?;
        best = better_of(best, k, saving);
    }
    Ok(best)
}

// The better of two, and the first of equals; no saving is one that is no better.
fn better_of(best: Chosen, place: usize, saving: Option<u64>) -> Chosen
    ensures value { (s : ℕ) → SavingGives best.saving s saving → result ≡ better place s best }
    ensures within { (n : ℕ) → place < n → (0 < best.saving → best.place < n) → 0 < result.saving → result.place < n }
{
    let Some(saving) = saving else {
        return best;
    };
    if best.saving < saving {
        Chosen { place, saving }
    } else {
        best
    }
}
