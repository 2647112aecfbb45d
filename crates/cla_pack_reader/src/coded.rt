//! A group with a code for each row.

ghost use Rattle.std.specs.Prelude.{◌≡◌, ◌≤◌, ◌/◌, ◌^◌, length, true, IfOk};
ghost use Rattle.cla_num.specs.Bits.{IsSupported};
ghost use Rattle.cla_codes.specs.Widths.{is_code_width};
ghost use Rattle.cla_io.specs.InputFrame.{ReadsOn};
ghost use Rattle.cla_packed.specs.Bodies.{coded_at};
ghost use Rattle.cla_packed.specs.Codes.{code_bytes};
ghost use Rattle.cla_pack_reader.specs.Places.{places_of, HasReadCause, Reads};
ghost use Rattle.cla_pack_reader.specs.Bodies.{body_seen, AreWholeTuples};

use crate::codes::codes_of;
use crate::fields::field;
use crate::tuples::tuples;
use cla_codes::RowCodes;
use cla_io::{Files, Input};
use cla_num::Number;
use cla_packed::{FieldName, PackFault};
use std::alloc::Global;

/// The code of each row, and the values of the tuples, tuple after tuple.
#[derive(Drop)]
pub struct GroupBody<N: Number> {
    pub codes: RowCodes,
    pub values: Vec<N>,
}

// How many bytes a code takes among d.
fn code_bytes(d: u32) -> usize
    ensures bytes { result ≡ code_bytes d }
    ensures width { is_code_width result ≡ true }
    ensures fits { d ≤ 256 ^ result }
{
    if d <= 256 {
        1
    } else if d <= 65536 {
        2
    } else {
        4
    }
}

/// The body of a group that has a code for each row.
pub(crate) fn coded_body<N: Number, F: Files>(
    alloc: Global,
    input: &mut Input<'_, F>,
    group: u32,
    rows: u32,
    width: u32,
) -> Result<GroupBody<N>, PackFault>
    requires bits { IsSupported N.BITS }
    requires some { 1 ≤ width }
    ensures same_reference { input.new.files.ghost_name ≡ input.old.files.ghost_name }
    ensures frame { ReadsOn (F.state input.old.files.now) (F.state input.new.files.now) }
    ensures cause { HasReadCause (F.state input.old.files.now).read_faults (F.state input.new.files.now).read_faults
        result }
    ensures whole { IfOk result (λ body. AreWholeTuples width body.values.items) }
    ensures fewest { IfOk result (λ body. body.codes.width ≡ code_bytes (length body.values.items / width)) }
    ensures exact { let before = places_of input.old.taken (F.state input.old.files.now) in
        let after = places_of input.new.taken (F.state input.new.files.now) in
        Reads before after (λ body. body_seen N.value width body.codes.codes body.values.items) result
        (coded_at 8 N.BITS group rows width) }
{
    let d = match field(input, 4, 1, rows as u64, group, FieldName::Tuples) {
        Ok(d) => d as u32,
        Err(fault) => return Err(fault),
    };
    let values = match tuples(alloc, input, group, width, d, false) {
        Ok(values) => values,
        Err(fault) => return Err(fault),
    };
    match codes_of(alloc, input, code_bytes(d), group, d, rows) {
        Ok(codes) => Ok(GroupBody { codes, values }),
        Err(fault) => Err(fault),
    }
}
