//! Single fields.

ghost use Rattle.std.specs.Prelude.{◌≡◌, ◌+◌, ◌<◌, ◌≤◌, ◌^◌, true, IfOk, OnOk};
ghost use Rattle.cla_io.specs.InputFrame.{ReadsOn};
ghost use Rattle.cla_io.specs.Numbers.{is_number_width};
ghost use Rattle.cla_packed.specs.Fields.{number_at, field_at};
ghost use Rattle.cla_pack_reader.specs.Places.{places_of, HasReadCause, Reads};
ghost use Rattle.cla_pack_reader.specs.Ranges.{within};

use cla_io::{Files, InFault, Input};
use cla_packed::{FieldName, PackFault};

/// The number of a field of k bytes.
#[inline(always)]
pub(crate) fn number<F: Files>(
    input: &mut Input<'_, F>,
    k: usize,
    group: u32,
    name: FieldName,
) -> Result<u64, PackFault>
    requires { is_number_width k ≡ true }
    ensures same_reference { input.new.files.ghost_name ≡ input.old.files.ghost_name }
    ensures frame { ReadsOn (F.state input.old.files.now) (F.state input.new.files.now) }
    ensures cause { HasReadCause (F.state input.old.files.now).read_faults (F.state input.new.files.now).read_faults
        result }
    ensures small { IfOk result (λ n. n < 256 ^ k) }
    ensures moved { OnOk result (input.new.taken.at ≡ input.old.taken.at + k) }
    ensures exact { let before = places_of input.old.taken (F.state input.old.files.now) in
        let after = places_of input.new.taken (F.state input.new.files.now) in
        Reads before after (λ n. n) result (number_at k group name) }
{
    let at = input.at();
    match input.take(k) {
        Ok(Some(number)) => Ok(number),
        Ok(None) => Err(PackFault::Field {
            group,
            field: name,
            at,
        }),
        Err(InFault::TooLong) => Err(PackFault::TooLong),
        Err(InFault::Read) => Err(PackFault::Read),
        Err(InFault::Memory) => Err(PackFault::Memory),
    }
}

/// A field of k bytes whose number is from `low` to `high`.
pub(crate) fn field<F: Files>(
    input: &mut Input<'_, F>,
    k: usize,
    low: u64,
    high: u64,
    group: u32,
    name: FieldName,
) -> Result<u64, PackFault>
    requires { is_number_width k ≡ true }
    ensures same_reference { input.new.files.ghost_name ≡ input.old.files.ghost_name }
    ensures frame { ReadsOn (F.state input.old.files.now) (F.state input.new.files.now) }
    ensures cause { HasReadCause (F.state input.old.files.now).read_faults (F.state input.new.files.now).read_faults
        result }
    ensures low { IfOk result (λ n. low ≤ n) }
    ensures high { IfOk result (λ n. n ≤ high) }
    ensures exact { let before = places_of input.old.taken (F.state input.old.files.now) in
        let after = places_of input.new.taken (F.state input.new.files.now) in
        Reads before after (λ n. n) result (field_at k (within low high) group name) }
{
    let at = input.at();
    let number = match number(input, k, group, name) {
        Ok(number) => number,
        Err(fault) => return Err(fault),
    };
    if !is_within(low, high, number) {
        return Err(PackFault::Field {
            group,
            field: name,
            at,
        });
    }
    Ok(number)
}

fn is_within(low: u64, high: u64, number: u64) -> bool
    ensures { result ≡ within low high number }
{
    low <= number && number <= high
}
