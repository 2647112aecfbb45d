//! Groups with one code for each row.

ghost use Rattle.std.specs.Prelude.{◌≡◌, ◌≤◌, length};
ghost use Rattle.std.specs.List.{flat_map};
ghost use Rattle.cla_spec.specs.Bytes.{bytes_of};
ghost use Rattle.cla_packed.specs.Codes.{code_bytes};
ghost use Rattle.cla_packed.specs.Bodies.{coded_bytes};
ghost use Rattle.cla_pack_writer.specs.Listed.{body_with};
ghost use Rattle.cla_pack_writer.specs.Outgoing.{Sent};

use crate::numbers::put_number;
use crate::outgoing::Outgoing;
use crate::tuples::put_tuples;
use cla_group::Group;
use cla_io::Sink;
use cla_num::Number;

/// Puts the tuples, and the code of each row in the fewest bytes.
pub(crate) fn put_coded<N: Number, G: Group<N>, O: Sink>(
    g: &G,
    outgoing: &mut Outgoing,
    out: &mut O,
)
    ensures { let body = body_with (G.codes g.now) (G.dictionary g.now) in
        Sent O.told O.faults O.steady O.kept (coded_bytes 8 body) outgoing.old out.old outgoing.new out.new }
{
    let tuples = g.tuples();
    put_number(tuples, 4, outgoing, out);
    put_tuples(g, 0, tuples, outgoing, out);
    put_codes(g, code_bytes(tuples), outgoing, out);
}

// Puts the first bytes of each row's code.
fn put_codes<N: Number, G: Group<N>, O: Sink>(
    g: &G,
    bytes: usize,
    outgoing: &mut Outgoing,
    out: &mut O,
)
    requires { bytes ≤ 4 }
    ensures { let sent = flat_map (bytes_of bytes) (G.codes g.now) in
        Sent O.told O.faults O.steady O.kept sent outgoing.old out.old outgoing.new out.new }
{
    for i in 0..g.rows() {
        put_number(g.code_at(i), bytes, outgoing, out);
    }
}

// How many bytes a code takes among so many.
fn code_bytes(tuples: u32) -> usize
    ensures bytes { result ≡ code_bytes tuples }
    ensures few { result ≤ 4 }
{
    if tuples <= 256 {
        1
    } else if tuples <= 65_536 {
        2
    } else {
        4
    }
}
