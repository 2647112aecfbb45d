//! Tuples.

ghost use Rattle.std.specs.Prelude.{◌≡◌, ◌≤◌, ◌<◌, ◌-◌, [], length, take, drop, slice_index_or};
ghost use Rattle.std.specs.List.{flat_map};
ghost use Rattle.cla_packed.specs.Values.{tuple_bytes};
ghost use Rattle.cla_pack_writer.specs.Outgoing.{Sent};

use crate::numbers::put_value;
use crate::outgoing::Outgoing;
use cla_group::Group;
use cla_io::Sink;
use cla_num::Number;

/// Puts the tuples from tuple a to before tuple b.
pub(crate) fn put_tuples<N: Number, G: Group<N>, O: Sink>(
    g: &G,
    a: u32,
    b: u32,
    outgoing: &mut Outgoing,
    out: &mut O,
)
    requires order { a ≤ b }
    requires within { b ≤ length (G.dictionary g.now) }
    ensures { let bytes = flat_map (tuple_bytes 8) (take (b - a) (drop a (G.dictionary g.now))) in
        Sent O.told O.faults O.steady O.kept bytes outgoing.old out.old outgoing.new out.new }
{
    for k in a..b {
        put_tuple(g, k, outgoing, out);
    }
}

// Puts the values of tuple k.
fn put_tuple<N: Number, G: Group<N>, O: Sink>(g: &G, k: u32, outgoing: &mut Outgoing, out: &mut O)
    requires tuple { k < length (G.dictionary g.now) }
    ensures { let tuple = slice_index_or (G.dictionary g.now) k [] in
        Sent O.told O.faults O.steady O.kept (tuple_bytes 8 tuple) outgoing.old out.old outgoing.new out.new }
{
    for c in 0..g.width() {
        put_value(g.value(k, c), outgoing, out);
    }
}
