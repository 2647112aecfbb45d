//! A group with its columns.

ghost use Rattle.std.specs.Prelude.{◌≡◌, ℕ, ◌+◌, ◌*◌, ◌≤◌, ◌<◌, ◌^◌, List, length, IfOk};
ghost use Rattle.cla_num.specs.Bits.{IsSupported};
ghost use Rattle.cla_io.specs.InputFrame.{ReadsOn};
ghost use Rattle.cla_layout.specs.Groups.{code_of};
ghost use Rattle.cla_packed.specs.Files.{PackedGroup, columns_of, group_at};
ghost use Rattle.cla_pack_reader.specs.Kept.{group_kept, HasItsForm};
ghost use Rattle.cla_pack_reader.specs.Places.{places_of, HasReadCause, Reads};
ghost use Rattle.cla_pack_reader.specs.Taken.{HasTaken};

use crate::columns::{columns_of, width_of};
use crate::group::read_group;
use crate::header::Header;
use crate::kinds::read_kind;
use crate::marks::TakenColumns;
use cla_coded::{AnyGroup, Part};
use cla_io::{Files, Input};
use cla_num::Number;
use cla_packed::PackFault;
use std::alloc::Global;

/// The next group with its columns, behind those whose columns are taken and before `left` others.
pub(crate) fn read_part<N: Number, F: Files>(
    alloc: Global,
    input: &mut Input<'_, F>,
    header: Header,
    taken: &TakenColumns,
    group: u32,
    left: u32,
) -> Result<Part<AnyGroup<N>>, PackFault>
    requires bits { IsSupported N.BITS }
    requires a_row { 1 ≤ header.rows }
    requires few_rows { header.rows < 2 ^ 31 }
    requires few_cells { header.rows * header.cols ≤ 2 ^ 26 }
    requires places { length taken.now.marks ≡ header.cols }
    requires room { taken.now.count + left < header.cols }
    ensures same_reference { input.new.files.ghost_name ≡ input.old.files.ghost_name }
    ensures frame { ReadsOn (F.state input.old.files.now) (F.state input.new.files.now) }
    ensures cause { HasReadCause (F.state input.old.files.now).read_faults (F.state input.new.files.now).read_faults
        result }
    ensures room { IfOk result (λ part. length part.columns.items + taken.now.count + left ≤ header.cols) }
    ensures below { IfOk result
        (λ part. (c : ℕ) → c < length part.columns.items → code_of part.columns.items c < header.cols) }
    ensures form { IfOk result (λ part. HasItsForm part) }
    ensures exact { let start = places_of input.old.taken (F.state input.old.files.now) in
        let end = places_of input.new.taken (F.state input.new.files.now) in
        (before : List PackedGroup) → length before + 1 ≡ group → HasTaken header.cols (columns_of before) taken.now
        → Reads start end group_kept result (group_at 8 N.BITS header.rows header.cols left before) }
{
    let kind = match read_kind(input, group) {
        Ok(kind) => kind,
        Err(fault) => return Err(fault),
    };
    let width = match width_of(input, group, header.cols, taken.count, left) {
        Ok(width) => width,
        Err(fault) => return Err(fault),
    };
    let columns = match columns_of(alloc, input, group, &taken.marks, taken.least, width) {
        Ok(columns) => columns,
        Err(fault) => return Err(fault),
    };
    match read_group(alloc, input, kind, group, header.rows, width) {
        Ok(group) => Ok(Part { columns, group }),
        Err(fault) => Err(fault),
    }
}
