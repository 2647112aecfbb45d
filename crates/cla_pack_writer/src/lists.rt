//! What groups with lists of rows have in common: how many tuples are listed, whether there is a rest, and
//! the tuples that are listed.

ghost use Rattle.std.specs.Prelude.{◌≡◌, ◌<◌, length, IfSome};
ghost use Rattle.cla_pack_writer.specs.Listed.{head_bytes};
ghost use Rattle.cla_pack_writer.specs.Outgoing.{Sent};

use crate::numbers::put_number;
use crate::outgoing::Outgoing;
use crate::tuples::put_tuples;
use cla_group::Group;
use cla_io::Sink;
use cla_num::Number;

/// Puts how many tuples are listed, whether there is a rest, and the tuples but the rest.
pub(crate) fn put_head<N: Number, G: Group<N>, O: Sink>(
    g: &G,
    rest: Option<u32>,
    outgoing: &mut Outgoing,
    out: &mut O,
)
    requires tuple { IfSome rest (λ r. r < length (G.dictionary g.now)) }
    ensures { let bytes = head_bytes rest (G.dictionary g.now) in
        Sent O.told O.faults O.steady O.kept bytes outgoing.old out.old outgoing.new out.new }
{
    let tuples = g.tuples();
    match rest {
        None => {
            put_number(tuples, 4, outgoing, out);
            put_number(0, 1, outgoing, out);
            put_tuples(g, 0, tuples, outgoing, out);
        }
        Some(rest) => {
            put_number(tuples - 1, 4, outgoing, out);
            put_number(1, 1, outgoing, out);
            put_tuples(g, 0, rest, outgoing, out);
            put_tuples(g, rest + 1, tuples, outgoing, out);
        }
    }
}
