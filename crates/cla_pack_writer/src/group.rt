//! Groups of every kind, with their columns.

ghost use Rattle.std.specs.Prelude.{◌≡◌, ◌≤◌, length};
ghost use Rattle.cla_spec.specs.Matrix.{most_cells};
ghost use Rattle.cla_coded.specs.AnyGroups.{any_codes, any_dictionary, any_form};
ghost use Rattle.cla_packed.specs.Files.{columns_bytes, body_bytes, group_bytes};
ghost use Rattle.cla_pack_writer.specs.Groups.{packed_part, HasItsRest};
ghost use Rattle.cla_pack_writer.specs.Listed.{body_with};
ghost use Rattle.cla_pack_writer.specs.Outgoing.{Sent};

use crate::codes::put_coded;
use crate::numbers::put_number;
use crate::offsets::put_offsets;
use crate::outgoing::Outgoing;
use crate::runs::put_runs;
use crate::tuples::put_tuples;
use cla_coded::{AnyGroup, Part};
use cla_group::Group;
use cla_io::Sink;
use cla_num::Number;
use std::alloc::Global;

/// Puts a group: its kind, its columns, and its tuples and rows.
pub(crate) fn put_group<N: Number, O: Sink>(
    alloc: Global,
    part: &Part<AnyGroup<N>>,
    outgoing: &mut Outgoing,
    out: &mut O,
)
    requires columns { length part.now.columns.items ≤ most_cells }
    requires rest { HasItsRest part.now.group }
    ensures { let bytes = group_bytes 8 (length (any_codes part.now.group)) (packed_part part.now) in
        Sent O.told O.faults O.steady O.kept bytes outgoing.old out.old outgoing.new out.new }
{
    put_number(u32::from(part.group.kind().number()), 1, outgoing, out);
    put_columns(&part.columns, outgoing, out);
    put_body(alloc, &part.group, outgoing, out);
}

fn put_columns<O: Sink>(columns: &[u32], outgoing: &mut Outgoing, out: &mut O)
    requires { length columns.now ≤ most_cells }
    ensures { let bytes = columns_bytes columns.now in
        Sent O.told O.faults O.steady O.kept bytes outgoing.old out.old outgoing.new out.new }
{
    put_number(columns.len() as u32, 4, outgoing, out);
    for column in columns {
        put_number(*column, 4, outgoing, out);
    }
}

// Puts what the kind of a group keeps of it.
fn put_body<N: Number, O: Sink>(
    alloc: Global,
    group: &AnyGroup<N>,
    outgoing: &mut Outgoing,
    out: &mut O,
)
    requires rest { HasItsRest group.now }
    ensures { let body = body_with (any_codes group.now) (any_dictionary group.now) in
        let bytes = body_bytes (any_form group.now).kind 8 (length (any_codes group.now)) body in
        Sent O.told O.faults O.steady O.kept bytes outgoing.old out.old outgoing.new out.new }
{
    match group {
        AnyGroup::Plain(g) => put_tuples(g, 0, g.tuples(), outgoing, out),
        AnyGroup::Codes1(g) => put_coded(g, outgoing, out),
        AnyGroup::Codes2(g) => put_coded(g, outgoing, out),
        AnyGroup::Codes4(g) => put_coded(g, outgoing, out),
        AnyGroup::Offsets(g) => put_offsets(g, outgoing, out),
        AnyGroup::Runs(g) => put_runs(alloc, g, outgoing, out),
    }
}
