//! The fields before the groups.

ghost use Rattle.std.specs.Prelude.{◌≡◌, ℕ, ◌≤◌, ◌<◌, ◌*◌, ◌^◌, IfOk};
ghost use Rattle.cla_io.specs.InputFrame.{ReadsOn};
ghost use Rattle.cla_packed.specs.Fields.{field_at};
ghost use Rattle.cla_packed.specs.Files.{fits_size};
ghost use Rattle.cla_pack_reader.specs.Places.{places_of, HasReadCause, Reads};
ghost use Rattle.cla_pack_reader.specs.Headers.{GivesHeader};

use crate::fields::field;
use cla_io::{Files, Input};
use cla_packed::{FieldName, PackFault};

// `CLAGRP01`, the low byte first.
const MAGIC: u64 = 0x3130_5052_4741_4c43;

const MOST_CELLS: u64 = 1 << 26;

/// How many rows, columns and groups a file has.
#[derive(Clone, Copy, Debug, Drop)]
pub(crate) struct Header {
    pub(crate) rows: u32,
    pub(crate) cols: u32,
    pub(crate) groups: u32,
}

// How many rows or columns there are.
fn size<F: Files>(input: &mut Input<'_, F>, name: FieldName) -> Result<u32, PackFault>
    ensures same_reference { input.new.files.ghost_name ≡ input.old.files.ghost_name }
    ensures frame { ReadsOn (F.state input.old.files.now) (F.state input.new.files.now) }
    ensures cause { HasReadCause (F.state input.old.files.now).read_faults (F.state input.new.files.now).read_faults
        result }
    ensures some { IfOk result (λ n. 1 ≤ n) }
    ensures few { IfOk result (λ n. n < 2 ^ 31) }
    ensures exact { let before = places_of input.old.taken (F.state input.old.files.now) in
        let after = places_of input.new.taken (F.state input.new.files.now) in
        Reads before after (λ n. n) result (field_at 4 fits_size 0 name) }
{
    match field(input, 4, 1, i32::MAX as u64, 0, name) {
        Ok(size) => Ok(size as u32),
        Err(fault) => Err(fault),
    }
}

/// The magic, and how many rows, columns and groups there are.
pub(crate) fn read_header<F: Files>(input: &mut Input<'_, F>) -> Result<Header, PackFault>
    ensures same_reference { input.new.files.ghost_name ≡ input.old.files.ghost_name }
    ensures frame { ReadsOn (F.state input.old.files.now) (F.state input.new.files.now) }
    ensures cause { HasReadCause (F.state input.old.files.now).read_faults (F.state input.new.files.now).read_faults
        result }
    ensures a_row { IfOk result (λ h. 1 ≤ h.rows) }
    ensures a_column { IfOk result (λ h. 1 ≤ h.cols) }
    ensures few_rows { IfOk result (λ h. h.rows < 2 ^ 31) }
    ensures few_cells { IfOk result (λ h. h.rows * h.cols ≤ 2 ^ 26) }
    ensures a_group { IfOk result (λ h. 1 ≤ h.groups) }
    ensures few_groups { IfOk result (λ h. h.groups ≤ h.cols) }
    ensures exact { let before = places_of input.old.taken (F.state input.old.files.now) in
        let after = places_of input.new.taken (F.state input.new.files.now) in
        (bits : ℕ) → GivesHeader 8 bits before after result }
{
    match field(input, 8, MAGIC, MAGIC, 0, FieldName::Magic) {
        Ok(_magic) => (),
        Err(fault) => return Err(fault),
    }
    let rows = match size(input, FieldName::Rows) {
        Ok(rows) => rows,
        Err(fault) => return Err(fault),
    };
    let cols = match size(input, FieldName::Columns) {
        Ok(cols) => cols,
        Err(fault) => return Err(fault),
    };
    let cells = rows as u64 * cols as u64;
    if cells > MOST_CELLS {
        return Err(PackFault::TooLarge { rows, cols });
    }
    match field(input, 4, 1, cols as u64, 0, FieldName::Groups) {
        Ok(groups) => Ok(Header {
            rows,
            cols,
            groups: groups as u32,
        }),
        Err(fault) => Err(fault),
    }
}
