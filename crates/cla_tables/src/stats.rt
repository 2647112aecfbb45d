//! What is told of a table and of its groups.

ghost use Rattle.std.specs.Prelude.{◌≡◌, ◌<◌, ℕ, [], length, map, slice_index_or, IfOk};
ghost use Rattle.cla_grouping.specs.Tuples.{AreColumns};
ghost use Rattle.cla_cocode.specs.Cuts.{group_seen};
ghost use Rattle.cla_tables.specs.TableFiles.{of_matrix};
ghost use Rattle.cla_tables.specs.Stats.{AreStats, stats_of};

use cla_cocode::{LayoutGroup, layout, size};
use cla_layout::Kind;
use cla_num::{Dense, Memory, Number};
use cla_stats::Tuples;
use std::alloc::Global;

/// What is told of a group: its kind, how many columns and tuples it has, and its bytes.
#[derive(Clone, Copy, Debug, PartialEq, Eq)]
pub struct GroupStats {
    pub kind: Kind,
    pub width: usize,
    pub tuples: u32,
    pub bytes: u64,
}

/// What is told of a table: its rows, its columns, its packed size, and each of its groups.
#[derive(Debug, Drop)]
pub struct TableStats {
    pub rows: u32,
    pub cols: u32,
    pub bytes: u64,
    pub groups: Vec<GroupStats>,
}

/// What is told of the matrix of a text, by the cut of the rule.
pub(crate) fn text_stats<N: Number>(alloc: Global, m: &Dense<N>) -> Result<TableStats, Memory>
    ensures { IfOk result (AreStats (of_matrix m.now)) }
{
    // (its cells tell that it has a column)
    let _ = m.cells();
    let cut = layout(alloc, m)?;
    Ok(TableStats {
        rows: m.rows(),
        cols: m.cols(),
        bytes: size(&cut),
        groups: stats_of_groups(alloc, m, &cut.groups)?,
    })
}

// What is told of groups of a matrix.
fn stats_of_groups<N: Number>(
    alloc: Global,
    m: &Dense<N>,
    groups: &[LayoutGroup],
) -> Result<Vec<GroupStats>, Memory>
    requires { let columns = map (λ g. g.columns.items) groups.now in
        (q : ℕ) → q < length groups.now → AreColumns m.now.cols (slice_index_or columns q []) }
    ensures { IfOk result (λ v. v.items ≡ map (λ g. stats_of m.now (group_seen g)) groups.now) }
{
    let mut stats = Vec::with_capacity(alloc, groups.len())?;
    for group in groups {
        stats.push(stats_of_group(alloc, m, group)?)?;
    }
    Ok(stats)
}

// What is told of a group of these columns. Its tuples are counted anew, since a cut doesn't keep them.
fn stats_of_group<N: Number>(
    alloc: Global,
    m: &Dense<N>,
    group: &LayoutGroup,
) -> Result<GroupStats, Memory>
    requires { AreColumns m.now.cols group.now.columns.items }
    ensures { IfOk result (λ s. s ≡ stats_of m.now (group_seen group.now)) }
{
    let tuples = match group.kind {
        Kind::Plain => m.rows(),
        Kind::Codes | Kind::Offsets | Kind::Runs => {
            Tuples::count(alloc, m, &group.columns)?.distinct()
        }
    };
    Ok(GroupStats {
        kind: group.kind,
        width: group.columns.len(),
        tuples,
        bytes: group.bytes,
    })
}
