//! Groups that are being made.

ghost use Rattle.std.specs.Prelude.{◌≡◌, ◌∷◌, [], ◌<◌, ◌++◌, IfOk, OnOk};
ghost use Rattle.cla_spec.specs.Matrix.{Matrix};
ghost use Rattle.cla_grouping.specs.Tuples.{tuples_in};
ghost use Rattle.cla_stats.specs.Coded.{CanJoin};
ghost use Rattle.cla_cocode.specs.Kept.{IsCounted, IsJoined, IsFit, code_saving};
ghost use Rattle.cla_cocode.specs.Weighing.{SavingGives};

use crate::figures::{best_kind, figures};
use crate::listing::few_listed;
use crate::union::weigh;
use cla_grouping::{Figures, KindBytes};
use cla_num::Memory;
use cla_stats::Tuples;
use std::alloc::Global;

/// Columns as one group, their tuples, the figures of these, their best kind, and the rows that are listed,
/// where they are few.
#[derive(Drop)]
pub struct Kept {
    pub columns: Vec<u32>,
    pub tuples: Tuples,
    pub figures: Figures,
    pub best: KindBytes,
    pub listing: Option<Vec<u32>>,
}

/// A column by itself, with these tuples.
pub(crate) fn alone(alloc: Global, column: u32, tuples: Tuples) -> Result<Kept, Memory>
    ensures counted { (m : Matrix) → tuples ≡ tuples_in m (column ∷ []) → IfOk result (IsCounted m) }
    ensures columns { IfOk result (λ k. k.columns.items ≡ column ∷ []) }
{
    let columns = vec![in alloc; column]?;
    let figures = figures(&tuples);
    let best = best_kind(figures);
    let listing = few_listed(alloc, &tuples, figures)?;
    Ok(Kept {
        columns,
        tuples,
        figures,
        best,
        listing,
    })
}

/// Takes a column into a group, whose list of columns grows in place.
pub(crate) fn take_in(
    alloc: Global,
    group: &mut Kept,
    single: &Kept,
    column: u32,
) -> Result<(), Memory>
    requires { CanJoin group.old.tuples single.now.tuples }
    ensures { OnOk result (IsJoined group.old single.now column group.new) }
{
    let tuples = Tuples::join(alloc, &group.tuples, &single.tuples)?;
    group.columns.push(column)?;
    let figures = figures(&tuples);
    group.listing = few_listed(alloc, &tuples, figures)?;
    group.best = best_kind(figures);
    group.figures = figures;
    group.tuples = tuples;
    Ok(())
}

/// The bytes that a group saves by taking in a column, or nothing where they are no more than `least`.
pub(crate) fn saving(
    alloc: Global,
    group: &Kept,
    single: &Kept,
    least: u64,
) -> Result<Option<u64>, Memory>
    requires pair { CanJoin group.now.tuples single.now.tuples }
    requires group { IsFit group.now }
    requires single { IsFit single.now }
    ensures { IfOk result (SavingGives least (code_saving group.now single.now)) }
{
    let apart = group.best.bytes + single.best.bytes;
    if apart <= least {
        return Ok(None);
    }
    let Some(together) = weigh(alloc, group, single, apart - least)? else {
        return Ok(None);
    };
    Ok(Some(apart.saturating_sub(together)))
}
