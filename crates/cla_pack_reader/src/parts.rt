//! The groups of a file, one after the other.

ghost use Rattle.std.specs.Prelude.{◌≡◌, ◌*◌, ◌≤◌, ◌<◌, ◌^◌, [], map, IfOk};
ghost use Rattle.cla_num.specs.Bits.{IsSupported};
ghost use Rattle.cla_io.specs.InputFrame.{ReadsOn};
ghost use Rattle.cla_packed.specs.Fields.{list_at};
ghost use Rattle.cla_packed.specs.Files.{group_at};
ghost use Rattle.cla_pack_reader.specs.Kept.{group_kept, HaveTheirForms};
ghost use Rattle.cla_pack_reader.specs.Places.{places_of, HasReadCause, Reads};

use crate::header::Header;
use crate::marks::TakenColumns;
use crate::part::read_part;
use cla_coded::{AnyGroup, Part};
use cla_io::{Files, Input};
use cla_num::Number;
use cla_packed::PackFault;
use std::alloc::Global;

/// The groups behind the header. It keeps a mark for each column while it works.
pub(crate) fn read_parts<N: Number, F: Files>(
    alloc: Global,
    input: &mut Input<'_, F>,
    header: Header,
) -> Result<Vec<Part<AnyGroup<N>>>, PackFault>
    requires bits { IsSupported N.BITS }
    requires a_row { 1 ≤ header.rows }
    requires few_rows { header.rows < 2 ^ 31 }
    requires few_cells { header.rows * header.cols ≤ 2 ^ 26 }
    requires few_groups { header.groups ≤ header.cols }
    ensures same_reference { input.new.files.ghost_name ≡ input.old.files.ghost_name }
    ensures frame { ReadsOn (F.state input.old.files.now) (F.state input.new.files.now) }
    ensures cause { HasReadCause (F.state input.old.files.now).read_faults (F.state input.new.files.now).read_faults
        result }
    ensures forms { IfOk result (λ parts. HaveTheirForms parts.items) }
    ensures exact { let start = places_of input.old.taken (F.state input.old.files.now) in
        let end = places_of input.new.taken (F.state input.new.files.now) in
        Reads start end (λ parts. map group_kept parts.items) result
        (list_at (group_at 8 N.BITS header.rows header.cols) header.groups []) }
{
    let mut taken = match TakenColumns::none(alloc, header.cols) {
        Ok(taken) => taken,
        Err(_) => return Err(PackFault::Memory),
    };
    let mut parts = Vec::new(alloc);
    for g in 0..header.groups {
        match read_part(alloc, input, header, &taken, g + 1, header.groups - 1 - g) {
            Ok(part) => {
                taken.add(&part.columns);
                match parts.push(part) {
                    Ok(()) => (),
                    Err(_) => return Err(PackFault::Memory),
                }
            }
            Err(fault) => return Err(fault),
        }
    }
    Ok(parts)
}
