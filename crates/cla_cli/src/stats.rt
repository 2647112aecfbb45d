//! How a table is grouped, as it is told.

ghost use Rattle.std.specs.Prelude.{◌≡◌, ◌++◌, length, IfOk, OnOk};
ghost use Rattle.cla_cli.specs.Stats.{kind_text, group_line, group_lines, head_lines, stats_text};

use crate::lines::push_numbered;
use cla_layout::Kind;
use cla_num::{Memory, Number};
use cla_tables::{GroupStats, TableFile, TableStats};
use cla_text::Text;
use std::alloc::Global;

/// The text that tells how a table is grouped.
pub(crate) fn stats_text<N: Number>(alloc: Global, table: &TableFile<N>) -> Result<Text, Memory>
    ensures { IfOk result (λ text. text ≡ stats_text table.now) }
{
    let stats = table.stats(alloc)?;
    let mut text = head_text(alloc, &stats)?;
    push_groups(&mut text, stats.groups.as_slice())?;
    Ok(text)
}

// The lines of a table before those of its groups.
fn head_text(alloc: Global, stats: &TableStats) -> Result<Text, Memory>
    ensures { IfOk result (λ text. text ≡ head_lines stats.now.rows stats.now.cols
        (length stats.now.groups.items) stats.now.bytes) }
{
    let mut text = Text::new(alloc);
    push_numbered(&mut text, b"rows ", u64::from(stats.rows))?;
    push_numbered(&mut text, b"\ncolumns ", u64::from(stats.cols))?;
    push_numbered(&mut text, b"\ngroups ", stats.groups.len() as u64)?;
    push_numbered(&mut text, b"\nbytes ", stats.bytes)?;
    text.push(b"\n")?;
    Ok(text)
}

// Appends a line for each group.
fn push_groups(text: &mut Text, groups: &[GroupStats]) -> Result<(), Memory>
    ensures { OnOk result (text.new ≡ text.old ++ group_lines 0 groups.now) }
{
    for before in 0..groups.len() {
        push_group(text, before as u64 + 1, groups[before])?;
    }
    Ok(())
}

// Appends the line of the n-th group.
fn push_group(text: &mut Text, n: u64, group: GroupStats) -> Result<(), Memory>
    ensures { OnOk result (text.new ≡ text.old ++ group_line n group) }
{
    push_numbered(text, b"group ", n)?;
    text.push(b" ")?;
    text.push(kind_text(group.kind))?;
    push_numbered(text, b" width ", group.width as u64)?;
    push_numbered(text, b" tuples ", u64::from(group.tuples))?;
    push_numbered(text, b" bytes ", group.bytes)?;
    text.push(b"\n")
}

fn kind_text(kind: Kind) -> &'static [u8]
    ensures { result.now ≡ kind_text kind }
{
    match kind {
        Kind::Plain => b"plain",
        Kind::Codes => b"codes",
        Kind::Offsets => b"offsets",
        Kind::Runs => b"runs",
    }
}
