//! The codes of rows.

ghost use Rattle.std.specs.Prelude.{◌≡◌, ◌<◌, ◌≤◌, ◌^◌, true, IfOk};
ghost use Rattle.cla_codes.specs.Widths.{is_code_width};
ghost use Rattle.cla_io.specs.InputFrame.{ReadsOn};
ghost use Rattle.cla_io.specs.Numbers.{is_number_width};
ghost use Rattle.cla_packed.specs.declared.fault.FieldName.TheVariants.{Code};
ghost use Rattle.cla_packed.specs.Codes.{codes_at};
ghost use Rattle.cla_packed.specs.Fields.{field_at};
ghost use Rattle.cla_pack_reader.specs.Places.{places_of, HasReadCause, Reads};
ghost use Rattle.cla_pack_reader.specs.Seen.{fits_seen};

use crate::fields::number;
use cla_codes::RowCodes;
use cla_io::{Files, Input};
use cla_packed::{FieldName, PackFault};
use std::alloc::Global;

// Whether a code may stand behind those of `seen` tuples; `last` says that no row is behind it.
fn fits_seen(d: u32, seen: u32, last: bool, code: u64) -> bool
    ensures { result ≡ fits_seen d seen last code }
{
    let all = d as u64;
    let known = seen as u64;
    if all <= code {
        return false;
    }
    if known < code {
        return false;
    }
    if !last {
        return true;
    }
    if code == known {
        return known + 1 == all;
    }
    known == all
}

/// A code of k bytes, behind those of `seen` tuples; `last` says that no row is behind it.
#[inline(always)]
fn code_of<F: Files>(
    input: &mut Input<'_, F>,
    k: usize,
    group: u32,
    d: u32,
    seen: u32,
    last: bool,
) -> Result<u32, PackFault>
    requires { is_number_width k ≡ true }
    ensures same_reference { input.new.files.ghost_name ≡ input.old.files.ghost_name }
    ensures frame { ReadsOn (F.state input.old.files.now) (F.state input.new.files.now) }
    ensures cause { HasReadCause (F.state input.old.files.now).read_faults (F.state input.new.files.now).read_faults
        result }
    ensures below { IfOk result (λ code. code < d) }
    ensures known { IfOk result (λ code. code ≤ seen) }
    ensures exact { let before = places_of input.old.taken (F.state input.old.files.now) in
        let after = places_of input.new.taken (F.state input.new.files.now) in
        Reads before after (λ n. n) result (field_at k (fits_seen d seen last) group Code) }
{
    let at = input.at();
    let code = match number(input, k, group, FieldName::Code) {
        Ok(code) => code,
        Err(fault) => return Err(fault),
    };
    if !fits_seen(d, seen, last, code) {
        return Err(PackFault::Field {
            group,
            field: FieldName::Code,
            at,
        });
    }
    Ok(code as u32)
}

/// The codes of `rows` rows among `d` tuples, k bytes each, as a group keeps them.
pub(crate) fn codes_of<F: Files>(
    alloc: Global,
    input: &mut Input<'_, F>,
    k: usize,
    group: u32,
    d: u32,
    rows: u32,
) -> Result<RowCodes, PackFault>
    requires width { is_code_width k ≡ true }
    requires fits { d ≤ 256 ^ k }
    ensures same_reference { input.new.files.ghost_name ≡ input.old.files.ghost_name }
    ensures frame { ReadsOn (F.state input.old.files.now) (F.state input.new.files.now) }
    ensures cause { HasReadCause (F.state input.old.files.now).read_faults (F.state input.new.files.now).read_faults
        result }
    ensures exact { let before = places_of input.old.taken (F.state input.old.files.now) in
        let after = places_of input.new.taken (F.state input.new.files.now) in
        Reads before after (λ codes. codes.codes) result (codes_at k group d rows) }
    ensures width { IfOk result (λ codes. codes.width ≡ k) }
{
    let mut codes = RowCodes::new(alloc, k);
    let mut seen = 0;
    for i in 0..rows {
        match code_of(input, k, group, d, seen, i + 1 == rows) {
            Ok(code) => {
                match codes.push(code) {
                    Ok(()) => (),
                    Err(_) => return Err(PackFault::Memory),
                }
                seen = seen.max(code + 1);
            }
            Err(fault) => return Err(fault),
        }
    }
    Ok(codes)
}
