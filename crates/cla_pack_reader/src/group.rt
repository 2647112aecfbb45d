//! The groups behind their columns.

ghost use Rattle.std.specs.Prelude.{◌≡◌, ◌*◌, ◌/◌, ◌≤◌, ◌<◌, ◌^◌, length, IfOk};
ghost use Rattle.cla_num.specs.Bits.{IsSupported};
ghost use Rattle.cla_io.specs.InputFrame.{ReadsOn};
ghost use Rattle.cla_layout.specs.Tuples.{AreCodes};
ghost use Rattle.cla_packed.specs.Bodies.{coded_at};
ghost use Rattle.cla_packed.specs.Codes.{code_bytes};
ghost use Rattle.cla_packed.specs.Files.{plain_at, body_at};
ghost use Rattle.cla_pack_reader.specs.Bodies.{body_seen};
ghost use Rattle.cla_pack_reader.specs.Kept.{body_kept, HasForm};
ghost use Rattle.cla_pack_reader.specs.Places.{places_of, HasReadCause, Reads};

use crate::coded::{GroupBody, coded_body};
use crate::listed_group::listed_group;
use crate::plain::plain_values;
use cla_coded::AnyGroup;
use cla_io::{Files, Input};
use cla_layout::Kind;
use cla_num::{Memory, Number};
use cla_packed::PackFault;
use cla_plain::Plain;
use cla_rows::Grouped;
use cla_runs::KeyedRun;
use std::alloc::Global;

fn plain_group<N: Number, F: Files>(
    alloc: Global,
    input: &mut Input<'_, F>,
    group: u32,
    rows: u32,
    width: u32,
) -> Result<AnyGroup<N>, PackFault>
    requires bits { IsSupported N.BITS }
    requires some { 1 ≤ width }
    requires a_row { 1 ≤ rows }
    requires few { rows * width ≤ 2 ^ 26 }
    ensures same_reference { input.new.files.ghost_name ≡ input.old.files.ghost_name }
    ensures frame { ReadsOn (F.state input.old.files.now) (F.state input.new.files.now) }
    ensures cause { HasReadCause (F.state input.old.files.now).read_faults (F.state input.new.files.now).read_faults
        result }
    ensures form { IfOk result (λ g. HasForm Kind.Plain g) }
    ensures exact { let start = places_of input.old.taken (F.state input.old.files.now) in
        let end = places_of input.new.taken (F.state input.new.files.now) in
        Reads start end body_kept result (plain_at 8 N.BITS group rows width) }
{
    match plain_values(alloc, input, group, rows, width) {
        Ok(values) => Ok(AnyGroup::Plain(Plain::from_rows(width, values))),
        Err(fault) => Err(fault),
    }
}

// The group with these codes, whose bytes it takes over, and these tuples.
fn from_body<N: Number>(
    alloc: Global,
    width: u32,
    body: GroupBody<N>,
) -> Result<AnyGroup<N>, Memory>
    requires codes { let values = length body.values.items in
        AreCodes width (values / width) body.codes.codes values }
    requires fewest { body.codes.width ≡ code_bytes (length body.values.items / width) }
    ensures form { IfOk result (λ g. HasForm Kind.Codes g) }
    ensures body { let seen = body_seen N.value width body.codes.codes body.values.items in
        IfOk result (λ g. body_kept g ≡ seen) }
{
    let GroupBody { codes, values } = body;
    AnyGroup::from_row_codes(alloc, width, codes, values)
}

fn coded_group<N: Number, F: Files>(
    alloc: Global,
    input: &mut Input<'_, F>,
    group: u32,
    rows: u32,
    width: u32,
) -> Result<AnyGroup<N>, PackFault>
    requires bits { IsSupported N.BITS }
    requires some { 1 ≤ width }
    requires a_row { 1 ≤ rows }
    requires most { rows < 2 ^ 31 }
    requires few { rows * width ≤ 2 ^ 26 }
    ensures same_reference { input.new.files.ghost_name ≡ input.old.files.ghost_name }
    ensures frame { ReadsOn (F.state input.old.files.now) (F.state input.new.files.now) }
    ensures cause { HasReadCause (F.state input.old.files.now).read_faults (F.state input.new.files.now).read_faults
        result }
    ensures form { IfOk result (λ g. HasForm Kind.Codes g) }
    ensures exact { let start = places_of input.old.taken (F.state input.old.files.now) in
        let end = places_of input.new.taken (F.state input.new.files.now) in
        Reads start end body_kept result (coded_at 8 N.BITS group rows width) }
{
    let body = match coded_body(alloc, input, group, rows, width) {
        Ok(body) => body,
        Err(fault) => return Err(fault),
    };
    match from_body(alloc, width, body) {
        Ok(group) => Ok(group),
        Err(Memory) => Err(PackFault::Memory),
    }
}

/// The group of this kind with `width` columns, behind the list of them. It is kept as the file has it.
pub(crate) fn read_group<N: Number, F: Files>(
    alloc: Global,
    input: &mut Input<'_, F>,
    kind: Kind,
    group: u32,
    rows: u32,
    width: u32,
) -> Result<AnyGroup<N>, PackFault>
    requires bits { IsSupported N.BITS }
    requires some { 1 ≤ width }
    requires a_row { 1 ≤ rows }
    requires most { rows < 2 ^ 31 }
    requires few { rows * width ≤ 2 ^ 26 }
    ensures same_reference { input.new.files.ghost_name ≡ input.old.files.ghost_name }
    ensures frame { ReadsOn (F.state input.old.files.now) (F.state input.new.files.now) }
    ensures cause { HasReadCause (F.state input.old.files.now).read_faults (F.state input.new.files.now).read_faults
        result }
    ensures form { IfOk result (λ g. HasForm kind g) }
    ensures exact { let start = places_of input.old.taken (F.state input.old.files.now) in
        let end = places_of input.new.taken (F.state input.new.files.now) in
        Reads start end body_kept result (body_at kind 8 N.BITS group rows width) }
{
    match kind {
        Kind::Plain => plain_group(alloc, input, group, rows, width),
        Kind::Codes => coded_group(alloc, input, group, rows, width),
        Kind::Offsets => listed_group::<Grouped, N, F>(alloc, input, group, rows, width),
        Kind::Runs => listed_group::<Vec<KeyedRun>, N, F>(alloc, input, group, rows, width),
    }
}
