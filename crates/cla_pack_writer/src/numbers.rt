//! Numbers and values, the least byte first.

ghost use Rattle.std.specs.Prelude.{◌≡◌, ◌≤◌};
ghost use Rattle.cla_spec.specs.Bytes.{bytes_of};
ghost use Rattle.cla_spec.specs.Bytes.{value_bytes};
ghost use Rattle.cla_pack_writer.specs.Outgoing.{Sent};

use crate::outgoing::Outgoing;
use cla_io::Sink;
use cla_num::Number;

/// Puts the first bytes of a number, four at most.
pub(crate) fn put_number<O: Sink>(n: u32, bytes: usize, outgoing: &mut Outgoing, out: &mut O)
    requires { bytes ≤ 4 }
    ensures { Sent O.told O.faults O.steady O.kept (bytes_of bytes n) outgoing.old out.old outgoing.new out.new }
{
    outgoing.put(out, &n.to_le_bytes()[..bytes]);
}

/// Puts a value in eight bytes.
pub(crate) fn put_value<N: Number, O: Sink>(n: N, outgoing: &mut Outgoing, out: &mut O)
    ensures { let bytes = value_bytes 8 (N.value n) in
        Sent O.told O.faults O.steady O.kept bytes outgoing.old out.old outgoing.new out.new }
{
    outgoing.put(out, &n.to_le());
}
