//! Whole packed files.

ghost use Rattle.std.specs.Prelude.{◌≡◌, ◌≤◌, length, true, false, IfOk};
ghost use Rattle.cla_num.specs.Bits.{IsSupported};
ghost use Rattle.cla_io.specs.State.{left};
ghost use Rattle.cla_io.specs.Lines.{ahead_of};
ghost use Rattle.cla_io.specs.InputFrame.{ReadsOn};
ghost use Rattle.cla_layout.specs.Canonical.{IsCanonical};
ghost use Rattle.cla_coded.specs.AnyGroups.{any_codes, any_dictionary};
ghost use Rattle.cla_coded.specs.Forms.{kinds_of};
ghost use Rattle.cla_coded.specs.Tables.{layout_of};
ghost use Rattle.cla_packed.specs.Fields.{Place, Gives, ended};
ghost use Rattle.cla_packed.specs.Files.{PackedLayout};
ghost use Rattle.cla_packed.specs.Layouts.{encoded};
ghost use Rattle.cla_pack_reader.specs.Kept.{HaveTheirForms, layout_kept};
ghost use Rattle.cla_pack_reader.specs.Places.{places_of, HasReadCause};
ghost use Rattle.cla_pack_reader.specs.Reading.{GivesFileWhereTold, IsEncodingWhereTold, HasLengthWhereTold};

use crate::header::read_header;
use crate::parts::read_parts;
use cla_coded::{Coded, Table};
use cla_io::{Files, InFault, Input};
use cla_num::Number;
use cla_packed::PackFault;
use std::alloc::Global;

/// A table that was read, and how many bytes its file has.
#[derive(Drop)]
pub struct Packed<N: Number> {
    pub table: Coded<N>,
    pub bytes: u64,
}

// The end of the file, where each byte is one too many.
fn read_end<F: Files>(input: &mut Input<'_, F>) -> Result<(), PackFault>
    requires near { input.old.taken.at ≤ input.old.taken.limit }
    ensures same_reference { input.new.files.ghost_name ≡ input.old.files.ghost_name }
    ensures frame { ReadsOn (F.state input.old.files.now) (F.state input.new.files.now) }
    ensures cause { HasReadCause (F.state input.old.files.now).read_faults (F.state input.new.files.now).read_faults
        result }
    ensures exact { (layout : PackedLayout) (p : Place) →
        places_of input.old.taken (F.state input.old.files.now) true p →
        Gives (λ _end. layout) result (ended (layout, p)) }
{
    let at = input.at();
    match input.take(1) {
        Ok(Some(_byte)) => Err(PackFault::Trailing { at }),
        Ok(None) => Ok(()),
        Err(InFault::TooLong) => Err(PackFault::TooLong),
        Err(InFault::Read) => Err(PackFault::Read),
        Err(InFault::Memory) => Err(PackFault::Memory),
    }
}

/// The table that a packed file of version 1 holds, with the groups and kinds of the file, in one pass.
///
/// A file that isn't the encoding of a canonical layout is refused at its first bad field. `Trailing`,
/// `TooLarge` and `TooLong` come where they stand in the order of the file, `Read` only where faults of
/// reading rose, and `Memory` at any field. `Ok` says that the file was read to its end.
///
/// It takes memory by what was read, and besides a bit for each row of a group whose rows are listed and a
/// bit for each column. No row of such a group gets a code.
pub fn read_packed<N: Number, F: Files>(
    alloc: Global,
    input: &mut Input<'_, F>,
) -> Result<Packed<N>, PackFault>
    requires bits { IsSupported N.BITS }
    requires nothing_taken { input.old.taken.at ≡ 0 }
    ensures same_reference { input.new.files.ghost_name ≡ input.old.files.ghost_name }
    ensures frame { ReadsOn (F.state input.old.files.now) (F.state input.new.files.now) }
    ensures cause { HasReadCause (F.state input.old.files.now).read_faults (F.state input.new.files.now).read_faults
        result }
    ensures upright { IfOk result (λ packed. packed.table.flipped ≡ false) }
    ensures forms { IfOk result (λ packed. HaveTheirForms packed.table.parts) }
    ensures canonical { IfOk result (λ packed. let layout = layout_of any_codes any_dictionary packed.table in
        IsCanonical N.BITS layout (kinds_of packed.table)) }
    ensures count { IfOk result (λ packed. let layout = layout_of any_codes any_dictionary packed.table in
        packed.bytes ≡ length (encoded 8 layout (kinds_of packed.table))) }
    ensures whole { let bytes = ahead_of input.old.taken (left (F.state input.old.files.now)) in
        IfOk result (λ packed. HasLengthWhereTold bytes packed.bytes) }
    ensures in_limit { IfOk result (λ packed. packed.bytes ≤ input.old.taken.limit) }
    ensures exact { let bytes = ahead_of input.old.taken (left (F.state input.old.files.now)) in
        GivesFileWhereTold (λ packed. layout_kept packed.table) N.BITS input.old.taken.limit bytes result }
    ensures encodes { let bytes = ahead_of input.old.taken (left (F.state input.old.files.now)) in
        IfOk result (λ packed. let layout = layout_of any_codes any_dictionary packed.table in
        IsEncodingWhereTold bytes (encoded 8 layout (kinds_of packed.table))) }
{
    let header = match read_header(input) {
        Ok(header) => header,
        Err(fault) => return Err(fault),
    };
    let parts = match read_parts(alloc, input, header) {
        Ok(parts) => parts,
        Err(fault) => return Err(fault),
    };
    let bytes = input.at();
    match read_end(input) {
        Ok(()) => Ok(Packed {
            table: Table::new(header.rows, header.cols, false, parts),
            bytes,
        }),
        Err(fault) => Err(fault),
    }
}
