//! What the union of a group and a column would take.

ghost use Rattle.std.specs.Prelude.{◌≡◌, ◌<◌, length, IfOk};
ghost use Rattle.std.specs.List.{filter};
ghost use Rattle.cla_layout.specs.Listed.{rows_where};
ghost use Rattle.cla_grouping.specs.Sizes.{AreSmall, figures_of};
ghost use Rattle.cla_grouping.specs.Tuples.{AreTuples, joined};
ghost use Rattle.cla_stats.specs.Coded.{CanJoin};
ghost use Rattle.cla_cocode.specs.Listing.{listing_of, either_of};
ghost use Rattle.cla_cocode.specs.Kept.{IsFit};
ghost use Rattle.cla_cocode.specs.Weighing.{BytesGive};

use crate::kept::Kept;
use crate::listing::either_listed;
use crate::weigh::{count, count_in, floor, floor_in, least_union, with_distinct};
use cla_grouping::{Figures, best, most_tuples};
use cla_num::Memory;
use std::alloc::Global;

/// The bytes of the union of a group and a column, or nothing where they are no fewer than the target.
/// It is weighed by how many pairs of tuples there are and how many rows and runs are listed, and its codes
/// are not written. With more pairs than a group of fewer bytes has it isn't counted to the end. Where few
/// rows of either are listed, it goes over those alone.
pub(crate) fn weigh(
    alloc: Global,
    group: &Kept,
    single: &Kept,
    target: u64,
) -> Result<Option<u64>, Memory>
    requires pair { CanJoin group.now.tuples single.now.tuples }
    requires group { IsFit group.now }
    requires single { IsFit single.now }
    ensures { IfOk result (BytesGive target (joined group.now.tuples single.now.tuples)) }
{
    match (&group.listing, &single.listing) {
        (Some(first), Some(second)) => weigh_few(alloc, group, first, single, second, target),
        _ => weigh_all(alloc, group, single, target),
    }
}

// The same, over all rows. The union has no fewer listed rows and runs than either part.
fn weigh_all(alloc: Global, group: &Kept, single: &Kept, target: u64) -> Result<Option<u64>, Memory>
    requires pair { CanJoin group.now.tuples single.now.tuples }
    requires group { IsFit group.now }
    requires single { IsFit single.now }
    ensures { IfOk result (BytesGive target (joined group.now.tuples single.now.tuples)) }
{
    let (a, b) = (&group.tuples, &single.tuples);
    let bound = least_union(a, group.figures, b, single.figures);
    let Some(distinct) = count(alloc, a, b, most_tuples(bound, target))? else {
        return Ok(None);
    };
    let union = best(with_distinct(floor(a, b), distinct));
    Ok(Some(union.bytes))
}

// The same, over the rows that one or the other lists. It asks for codes of the column, which is weighed against many
// groups and so is at hand, in the rows that the group lists.
fn weigh_few(
    alloc: Global,
    group: &Kept,
    first: &[u32],
    single: &Kept,
    second: &[u32],
    target: u64,
) -> Result<Option<u64>, Memory>
    requires pair { CanJoin group.now.tuples single.now.tuples }
    requires group { IsFit group.now }
    requires single { IsFit single.now }
    requires first { first.now ≡ listing_of group.now.tuples }
    requires second { second.now ≡ listing_of single.now.tuples }
    ensures { IfOk result (BytesGive target (joined group.now.tuples single.now.tuples)) }
{
    let (a, b) = (&group.tuples, &single.tuples);
    let rows = either_listed(alloc, second, b.zero(), b.codes(), first)?;
    let bound = Figures {
        listed_rows: rows.len() as u32,
        ..least_union(a, group.figures, b, single.figures)
    };
    let Some(distinct) = count_in(alloc, a, b, &rows, most_tuples(bound, target))? else {
        return Ok(None);
    };
    let union = best(with_distinct(floor_in(a, b, &rows), distinct));
    Ok(Some(union.bytes))
}
