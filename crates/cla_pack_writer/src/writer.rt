//! The writer.

ghost use Rattle.std.specs.Prelude.{◌≡◌, ◌≤◌, false, length};
ghost use Rattle.cla_io.specs.Counts.{HasCause};
ghost use Rattle.cla_io.specs.Sinks.{PutsAll, HasWriteCause};
ghost use Rattle.cla_coded.specs.AnyGroups.{any_codes, any_dictionary};
ghost use Rattle.cla_coded.specs.Forms.{kinds_of};
ghost use Rattle.cla_coded.specs.Tables.{layout_of};
ghost use Rattle.cla_packed.specs.Layouts.{encoded};
ghost use Rattle.cla_pack_writer.specs.Groups.{HaveTheirRests};
ghost use Rattle.cla_pack_writer.specs.Outgoing.{Sent};

use crate::group::put_group;
use crate::numbers::put_number;
use crate::outgoing::Outgoing;
use cla_coded::Coded;
use cla_io::{OutFault, Sink, Stop};
use cla_num::Number;
use std::alloc::Global;

/// Writes a table as a packed file of version 1: the magic, the shape, and each group as it is kept. After
/// an error a prefix of these bytes is appended.
///
/// The table is not flipped, and in kinds 3 and 4 the first tuple of zeros is the rest, as where groups are
/// made of codes. Where its layout is canonical too, what is written is read as itself.
///
/// It takes the memory of one buffer, and for a group of runs 4 bytes a run and a tuple while it is written.
pub fn write_packed<N: Number, O: Sink>(
    alloc: Global,
    m: &Coded<N>,
    out: &mut O,
) -> Result<(), OutFault>
    requires upright { m.now.flipped ≡ false }
    requires rests { HaveTheirRests m.now }
    ensures puts { let bytes = encoded 8 (layout_of any_codes any_dictionary m.now) (kinds_of m.now) in
        PutsAll bytes (O.told out.old) (O.told out.new) result }
    ensures later { O.faults out.old ≤ O.faults out.new }
    ensures steady { O.steady out.new ≡ O.steady out.old }
    ensures kept { O.kept out.old out.new }
    ensures cause { HasWriteCause (O.faults out.old) (O.faults out.new) result }
{
    match put_table(alloc, m, out) {
        Ok(()) => Ok(()),
        Err(Stop::Failed) => Err(OutFault::Write),
        Err(Stop::Memory) => Err(OutFault::Memory),
    }
}

fn put_table<N: Number, O: Sink>(alloc: Global, m: &Coded<N>, out: &mut O) -> Result<(), Stop>
    requires upright { m.now.flipped ≡ false }
    requires rests { HaveTheirRests m.now }
    ensures puts { let bytes = encoded 8 (layout_of any_codes any_dictionary m.now) (kinds_of m.now) in
        PutsAll bytes (O.told out.old) (O.told out.new) result }
    ensures later { O.faults out.old ≤ O.faults out.new }
    ensures steady { O.steady out.new ≡ O.steady out.old }
    ensures kept { O.kept out.old out.new }
    ensures cause { HasCause (O.faults out.old) (O.faults out.new) result }
{
    let mut outgoing = Outgoing::new(alloc)?;
    put_file(alloc, m, &mut outgoing, out);
    outgoing.end(out)
}

// Puts the header, and the groups.
fn put_file<N: Number, O: Sink>(alloc: Global, m: &Coded<N>, outgoing: &mut Outgoing, out: &mut O)
    requires upright { m.now.flipped ≡ false }
    requires rests { HaveTheirRests m.now }
    ensures { let bytes = encoded 8 (layout_of any_codes any_dictionary m.now) (kinds_of m.now) in
        Sent O.told O.faults O.steady O.kept bytes outgoing.old out.old outgoing.new out.new }
{
    outgoing.put(out, b"CLAGRP01");
    put_number(m.rows(), 4, outgoing, out);
    put_number(m.cols(), 4, outgoing, out);
    put_number(m.parts().len() as u32, 4, outgoing, out);
    for part in m.parts() {
        put_group(alloc, part, outgoing, out);
    }
}
