//! The packed file of a matrix.

ghost use Rattle.std.specs.Prelude.{◌≡◌, ◌≤◌, ℕ, List, [], length, Some, None, false, IfOk, OnOk};
ghost use Rattle.cla_coded.specs.AnyGroups.{any_codes, any_dictionary};
ghost use Rattle.cla_coded.specs.Forms.{kinds_of};
ghost use Rattle.cla_coded.specs.Tables.{layout_of};
ghost use Rattle.cla_packed.specs.Layouts.{first_bad_field};
ghost use Rattle.cla_pack_writer.specs.Groups.{HaveTheirRests};
ghost use Rattle.cla_io.specs.Sinks.{PutsAll, HasWriteCause};
ghost use Rattle.cla_pack.specs.Packing.{kinds_by_rule, packed_file_of, IsLayoutByRule};

use cla_cocode::{build, layout};
use cla_coded::Coded;
use cla_io::{OutFault, Sink};
use cla_num::{Dense, Memory, Number};
use cla_pack_writer::write_packed;
use std::alloc::Global;

/// Writes a matrix as a packed file of version 1, by the groups of the rule. After an error a prefix of its
/// bytes is appended. What an empty sink has after all was written is read back: it has no bad field.
///
/// It takes the memory of the groups and of what finds them, and then that of one buffer.
pub fn pack_matrix<N: Number, O: Sink>(
    alloc: Global,
    m: &Dense<N>,
    out: &mut O,
) -> Result<(), OutFault>
    ensures puts { PutsAll (packed_file_of m.now) (O.told out.old) (O.told out.new) result }
    ensures readable { (limit : ℕ) (file : List ℕ) → N.BITS ≡ 47 → O.told out.old ≡ Some [] →
        O.told out.new ≡ Some file → length file ≤ limit → OnOk result (first_bad_field 8 47 limit file ≡ None) }
    ensures later { O.faults out.old ≤ O.faults out.new }
    ensures steady { O.steady out.new ≡ O.steady out.old }
    ensures kept { O.kept out.old out.new }
    ensures cause { HasWriteCause (O.faults out.old) (O.faults out.new) result }
{
    match packed_table(alloc, m) {
        Ok(table) => write_packed(alloc, &table, out),
        Err(_) => Err(OutFault::Memory),
    }
}

// The table of a matrix by its cut.
fn packed_table<N: Number>(alloc: Global, m: &Dense<N>) -> Result<Coded<N>, Memory>
    ensures upright { IfOk result (λ t. t.flipped ≡ false) }
    ensures rests { IfOk result (λ t. HaveTheirRests t) }
    ensures kinds { IfOk result (λ t. kinds_of t ≡ kinds_by_rule m.now) }
    ensures by_rule { IfOk result (λ t. IsLayoutByRule N.BITS m.now (layout_of any_codes any_dictionary t)) }
{
    // The cells tell their shape, by which a layout is that of one matrix.
    let _ = m.cells();
    let cut = layout(alloc, m)?;
    build(alloc, m, &cut)
}
