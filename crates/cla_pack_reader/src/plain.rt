//! A group with its values row by row.

ghost use Rattle.std.specs.Prelude.{◌≡◌, ◌*◌, ◌≤◌, length, map, IfOk};
ghost use Rattle.cla_num.specs.Bits.{IsSupported};
ghost use Rattle.cla_io.specs.InputFrame.{ReadsOn};
ghost use Rattle.cla_layout.specs.Tuples.{tuples_of};
ghost use Rattle.cla_packed.specs.Files.{plain_at, own_codes};
ghost use Rattle.cla_pack_reader.specs.Places.{places_of, HasReadCause, Reads};

use crate::values::tuple;
use cla_io::{Files, Input};
use cla_num::Number;
use cla_packed::PackFault;
use std::alloc::Global;

/// The values of a group of `rows` rows, row by row. Each row has a code of its own.
pub(crate) fn plain_values<N: Number, F: Files>(
    alloc: Global,
    input: &mut Input<'_, F>,
    group: u32,
    rows: u32,
    width: u32,
) -> Result<Vec<N>, PackFault>
    requires bits { IsSupported N.BITS }
    requires some { 1 ≤ width }
    ensures same_reference { input.new.files.ghost_name ≡ input.old.files.ghost_name }
    ensures frame { ReadsOn (F.state input.old.files.now) (F.state input.new.files.now) }
    ensures cause { HasReadCause (F.state input.old.files.now).read_faults (F.state input.new.files.now).read_faults
        result }
    ensures count { IfOk result (λ values. length values.items ≡ rows * width) }
    ensures exact { let start = places_of input.old.taken (F.state input.old.files.now) in
        let end = places_of input.new.taken (F.state input.new.files.now) in
        Reads start end (λ values. own_codes rows (tuples_of width rows (map N.value values.items))) result
        (plain_at 8 N.BITS group rows width) }
{
    let mut values = Vec::new(alloc);
    for _i in 0..rows {
        match tuple(input, &mut values, group, width) {
            Ok(()) => (),
            Err(fault) => return Err(fault),
        }
    }
    Ok(values)
}
