//! Values, and the values of a tuple that any may be.

ghost use Rattle.std.specs.Prelude.{◌≡◌, ℤ, ◌+◌, ◌-◌, ◌≤◌, List, Bool, length, OnOk};
ghost use Rattle.cla_spec.specs.Bytes.{signed_of};
ghost use Rattle.cla_spec.specs.Numbers.{InRange, in_range};
ghost use Rattle.cla_num.specs.Bits.{IsSupported};
ghost use Rattle.cla_io.specs.InputFrame.{ReadsOn};
ghost use Rattle.cla_packed.specs.Fields.{number_at};
ghost use Rattle.cla_packed.specs.Values.{tuple_at};
ghost use Rattle.cla_pack_reader.specs.Places.{places_of, HasReadCause};
ghost use Rattle.cla_pack_reader.specs.Values.{TestsRange, GivesValue, GivesPushed, GivesTuple};

use crate::fields::number;
use cla_io::{Files, Input};
use cla_num::Number;
use cla_packed::{FieldName, PackFault};

// A number of 8 bytes as a value in two's complement.
#[inline(always)]
fn signed(number: u64) -> i64
    ensures { result ≡ signed_of 8 number }
{
    number.cast_signed()
}

/// A value. That it is in range is a part of every test that a value passes.
#[inline(always)]
pub(crate) fn value<N: Number, F: Files>(
    input: &mut Input<'_, F>,
    group: u32,
) -> Result<N, PackFault>
    requires { IsSupported N.BITS }
    ensures same_reference { input.new.files.ghost_name ≡ input.old.files.ghost_name }
    ensures frame { ReadsOn (F.state input.old.files.now) (F.state input.new.files.now) }
    ensures cause { HasReadCause (F.state input.old.files.now).read_faults (F.state input.new.files.now).read_faults
        result }
    ensures moved { OnOk result (input.new.taken.at ≡ input.old.taken.at + 8) }
    ensures exact { let before = places_of input.old.taken (F.state input.old.files.now) in
        let after = places_of input.new.taken (F.state input.new.files.now) in
        (test : ℤ → Bool) → TestsRange N.BITS test
        → GivesValue N.value 8 test group before after input.old.taken.at result }
{
    let at = input.at();
    let number = match number(input, 8, group, FieldName::Value) {
        Ok(number) => number,
        Err(fault) => return Err(fault),
    };
    match N::of(signed(number)) {
        Some(value) => Ok(value),
        None => Err(PackFault::Field {
            group,
            field: FieldName::Value,
            at,
        }),
    }
}

/// A value that is kept behind the others.
pub(crate) fn push_value<N: Number, F: Files>(
    input: &mut Input<'_, F>,
    values: &mut Vec<N>,
    group: u32,
) -> Result<(), PackFault>
    requires { IsSupported N.BITS }
    ensures same_reference { input.new.files.ghost_name ≡ input.old.files.ghost_name }
    ensures frame { ReadsOn (F.state input.old.files.now) (F.state input.new.files.now) }
    ensures cause { HasReadCause (F.state input.old.files.now).read_faults (F.state input.new.files.now).read_faults
        result }
    ensures count { OnOk result (length values.new.items ≡ length values.old.items + 1) }
    ensures moved { OnOk result (input.new.taken.at ≡ input.old.taken.at + 8) }
    ensures exact { let before = places_of input.old.taken (F.state input.old.files.now) in
        let after = places_of input.new.taken (F.state input.new.files.now) in
        (test : ℤ → Bool) → TestsRange N.BITS test
        → GivesPushed N.value 8 N.BITS test group before after input.old.taken.at values.old.items values.new.items
        result }
{
    let next = match value(input, group) {
        Ok(next) => next,
        Err(fault) => return Err(fault),
    };
    match values.push(next) {
        Ok(()) => Ok(()),
        Err(_) => Err(PackFault::Memory),
    }
}

/// The values of a tuple. Whether the tuple may stand where it does is left to the caller: if not, the
/// fault is its last value.
pub(crate) fn tuple<N: Number, F: Files>(
    input: &mut Input<'_, F>,
    values: &mut Vec<N>,
    group: u32,
    width: u32,
) -> Result<(), PackFault>
    requires bits { IsSupported N.BITS }
    requires some { 1 ≤ width }
    ensures same_reference { input.new.files.ghost_name ≡ input.old.files.ghost_name }
    ensures frame { ReadsOn (F.state input.old.files.now) (F.state input.new.files.now) }
    ensures cause { HasReadCause (F.state input.old.files.now).read_faults (F.state input.new.files.now).read_faults
        result }
    ensures count { OnOk result (length values.new.items ≡ length values.old.items + width) }
    ensures far { OnOk result (8 ≤ input.new.taken.at) }
    ensures exact { let before = places_of input.old.taken (F.state input.old.files.now) in
        let after = places_of input.new.taken (F.state input.new.files.now) in
        (whole : List ℤ → Bool)
        → GivesTuple N.value 8 N.BITS group width whole before after (input.new.taken.at - 8) values.old.items
        values.new.items result }
{
    for _j in 0..width - 1 {
        match push_value(input, values, group) {
            Ok(()) => (),
            Err(fault) => return Err(fault),
        }
    }
    push_value(input, values, group)
}
