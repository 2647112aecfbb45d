//! What is told of a table of a packed file.

ghost use Rattle.std.specs.Prelude.{◌≡◌, ◌<◌, false, length, map, All, IfOk, IfSome};
ghost use Rattle.cla_layout.specs.Canonical.{IsCanonical};
ghost use Rattle.cla_coded.specs.AnyGroups.{any_codes, any_dictionary};
ghost use Rattle.cla_coded.specs.Forms.{kinds_of};
ghost use Rattle.cla_coded.specs.Tables.{layout_of};
ghost use Rattle.cla_grouping.specs.Sizes.{listed_of, listed_rows_of};
ghost use Rattle.cla_pack_reader.specs.Kept.{layout_kept, HaveTheirForms};
ghost use Rattle.cla_tables.specs.KeptStats.{bytes_kept, stats_kept, IsKeptPart};
ghost use Rattle.cla_tables.specs.TableFiles.{of_layout};
ghost use Rattle.cla_tables.specs.Stats.{AreStats};

use crate::stats::{GroupStats, TableStats};
use cla_coded::{AnyGroup, Part};
use cla_group::Group;
use cla_grouping::{Figures, codes_size, offsets_size, plain_size, runs_size};
use cla_num::{Memory, Number};
use cla_pack_reader::Packed;
use std::alloc::Global;

/// What is told of a packed file, by the groups that it keeps: each knows its tuples, and how many of its rows
/// and runs are listed. It goes over no rows, and takes memory for the groups alone.
pub(crate) fn packed_stats<N: Number>(
    alloc: Global,
    packed: &Packed<N>,
) -> Result<TableStats, Memory>
    requires upright { packed.now.table.flipped ≡ false }
    requires forms { HaveTheirForms packed.now.table.parts }
    requires canonical { IsCanonical N.BITS (layout_of any_codes any_dictionary packed.now.table)
        (kinds_of packed.now.table) }
    ensures { IfOk result (AreStats (of_layout packed.now.bytes (layout_kept packed.now.table))) }
{
    Ok(TableStats {
        rows: packed.table.rows(),
        cols: packed.table.cols(),
        bytes: packed.bytes,
        groups: stats_of_parts(alloc, packed.table.parts())?,
    })
}

// What is told of the groups of a table.
fn stats_of_parts<N: Number>(
    alloc: Global,
    parts: &[Part<AnyGroup<N>>],
) -> Result<Vec<GroupStats>, Memory>
    requires { All IsKeptPart parts.now }
    ensures { IfOk result (λ v. v.items ≡ map stats_kept parts.now) }
{
    let mut stats = Vec::with_capacity(alloc, parts.len())?;
    for part in parts {
        stats.push(stats_of_part(part))?;
    }
    Ok(stats)
}

// What is told of a group.
fn stats_of_part<N: Number>(part: &Part<AnyGroup<N>>) -> GroupStats
    requires { IsKeptPart part.now }
    ensures { result ≡ stats_kept part.now }
{
    GroupStats {
        kind: part.group.kind(),
        width: part.columns.len(),
        tuples: part.group.tuples(),
        bytes: bytes_of_part(part),
    }
}

// The bytes of a group in its kind.
fn bytes_of_part<N: Number>(part: &Part<AnyGroup<N>>) -> u64
    requires { IsKeptPart part.now }
    ensures { result ≡ bytes_kept part.now }
{
    let group = &part.group;
    let all = Figures {
        width: part.columns.len() as u32,
        rows: group.rows(),
        distinct: group.tuples(),
        listed: group.tuples(),
        listed_rows: group.rows(),
        listed_runs: 0,
    };
    match group {
        AnyGroup::Plain(_) => plain_size(all),
        AnyGroup::Codes1(_) | AnyGroup::Codes2(_) | AnyGroup::Codes4(_) => codes_size(all),
        AnyGroup::Offsets(offsets) => offsets_size(Figures {
            listed: listed_tuples(group, offsets.rest()),
            listed_rows: listed_rows(group, offsets.rest()),
            ..all
        }),
        AnyGroup::Runs(runs) => runs_size(Figures {
            listed: listed_tuples(group, runs.rest()),
            listed_runs: runs.run_rows().count(),
            ..all
        }),
    }
}

// How many tuples of a group are listed: all but the rest.
fn listed_tuples<N: Number>(group: &AnyGroup<N>, rest: Option<u32>) -> u32
    requires { IfSome rest (λ k. k < length (any_dictionary group.now)) }
    ensures { result ≡ listed_of rest (length (any_dictionary group.now)) }
{
    match rest {
        None => group.tuples(),
        Some(_) => group.tuples() - 1,
    }
}

// How many rows of a group are listed: all but those of the rest.
fn listed_rows<N: Number>(group: &AnyGroup<N>, rest: Option<u32>) -> u32
    requires { IfSome rest (λ k. k < length (any_dictionary group.now)) }
    ensures { result ≡ listed_rows_of rest (any_codes group.now) }
{
    match rest {
        None => group.rows(),
        Some(k) => group.rows() - group.occurrences(k),
    }
}
