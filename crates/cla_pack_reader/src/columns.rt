//! The columns of a group.

ghost use Rattle.std.specs.Prelude.{◌≡◌, ℕ, ◌+◌, ◌<◌, ◌≤◌, ◌^◌, ◌==◌, List, [], length, true, IfOk, nat_lt};
ghost use Rattle.std.specs.Prelude.{if◌then◌else◌};
ghost use Rattle.cla_io.specs.InputFrame.{ReadsOn};
ghost use Rattle.cla_layout.specs.Groups.{code_of};
ghost use Rattle.cla_packed.specs.declared.fault.FieldName.TheVariants.{Width, Column};
ghost use Rattle.cla_packed.specs.Fields.{field_at, list_at};
ghost use Rattle.cla_packed.specs.Files.{fits_width, fits_column};
ghost use Rattle.cla_pack_reader.specs.Places.{places_of, HasReadCause, Reads};
ghost use Rattle.cla_pack_reader.specs.Marks.{AreMarks, IsLeast, IsNext};

use crate::bits::Marks;
use crate::fields::{field, number};
use cla_io::{Files, Input};
use cla_packed::{FieldName, PackFault};
use std::alloc::Global;

// The least width of a group before `left` others: the last one has all columns that are left.
fn least_width(left: u32, most: u32) -> u32
    ensures some { 1 ≤ most → 1 ≤ result }
    ensures exact { result ≡ (if left == 0 then most else 1) }
{
    if left == 0 {
        return most;
    }
    1
}

/// How many columns a group has, where `count` columns are in groups before it and `left` groups are
/// behind it.
pub(crate) fn width_of<F: Files>(
    input: &mut Input<'_, F>,
    group: u32,
    cols: u32,
    count: u32,
    left: u32,
) -> Result<u32, PackFault>
    requires room { count + left < cols }
    ensures same_reference { input.new.files.ghost_name ≡ input.old.files.ghost_name }
    ensures frame { ReadsOn (F.state input.old.files.now) (F.state input.new.files.now) }
    ensures cause { HasReadCause (F.state input.old.files.now).read_faults (F.state input.new.files.now).read_faults
        result }
    ensures some { IfOk result (λ width. 1 ≤ width) }
    ensures room { IfOk result (λ width. width + count + left ≤ cols) }
    ensures exact { let start = places_of input.old.taken (F.state input.old.files.now) in
        let end = places_of input.new.taken (F.state input.new.files.now) in
        (taken : List ℕ) → length taken ≡ count
        → Reads start end (λ n. n) result (field_at 4 (fits_width cols taken left) group Width) }
{
    let most = cols - count - left;
    let least = least_width(left, most);
    match field(input, 4, least as u64, most as u64, group, FieldName::Width) {
        Ok(width) => Ok(width as u32),
        Err(fault) => Err(fault),
    }
}

// Whether a column may stand behind `started` others of its group, of which the last is below `next`. The
// columns in groups before have marks, and `next` is the least without one where the group has none yet.
fn fits_column(marks: &Marks, started: bool, next: u32, column: u64) -> bool
    requires { length marks.now < 2 ^ 32 }
    ensures below { result ≡ true → column < length marks.now }
    ensures exact { (taken so_far : List ℕ) → AreMarks (length marks.now) taken marks.now
        → started ≡ nat_lt 0 (length so_far) → IsNext taken so_far next
        → result ≡ fits_column (length marks.now) taken so_far column }
{
    if column >= marks.len() as u64 {
        return false;
    }
    if marks.has(column as u32) {
        return false;
    }
    if started {
        return next as u64 <= column;
    }
    next as u64 == column
}

/// A column of a group, behind `started` others of it.
fn column_of<F: Files>(
    input: &mut Input<'_, F>,
    group: u32,
    marks: &Marks,
    started: bool,
    next: u32,
) -> Result<u32, PackFault>
    requires { length marks.now < 2 ^ 32 }
    ensures same_reference { input.new.files.ghost_name ≡ input.old.files.ghost_name }
    ensures frame { ReadsOn (F.state input.old.files.now) (F.state input.new.files.now) }
    ensures cause { HasReadCause (F.state input.old.files.now).read_faults (F.state input.new.files.now).read_faults
        result }
    ensures below { IfOk result (λ column. column < length marks.now) }
    ensures exact { let start = places_of input.old.taken (F.state input.old.files.now) in
        let end = places_of input.new.taken (F.state input.new.files.now) in
        let cols = length marks.now in
        (taken so_far : List ℕ) → AreMarks cols taken marks.now → started ≡ nat_lt 0 (length so_far)
        → IsNext taken so_far next
        → Reads start end (λ n. n) result (field_at 4 (fits_column cols taken so_far) group Column) }
{
    let at = input.at();
    let column = match number(input, 4, group, FieldName::Column) {
        Ok(column) => column,
        Err(fault) => return Err(fault),
    };
    if !fits_column(marks, started, next, column) {
        return Err(PackFault::Field {
            group,
            field: FieldName::Column,
            at,
        });
    }
    Ok(column as u32)
}

/// The columns of a group, `width` of them. The columns in groups before have marks, and `least` is the least
/// without one.
pub(crate) fn columns_of<F: Files>(
    alloc: Global,
    input: &mut Input<'_, F>,
    group: u32,
    marks: &Marks,
    least: u32,
    width: u32,
) -> Result<Vec<u32>, PackFault>
    requires { length marks.now < 2 ^ 32 }
    ensures same_reference { input.new.files.ghost_name ≡ input.old.files.ghost_name }
    ensures frame { ReadsOn (F.state input.old.files.now) (F.state input.new.files.now) }
    ensures cause { HasReadCause (F.state input.old.files.now).read_faults (F.state input.new.files.now).read_faults
        result }
    ensures count { IfOk result (λ columns. length columns.items ≡ width) }
    ensures below { IfOk result
        (λ columns. (c : ℕ) → c < length columns.items → code_of columns.items c < length marks.now) }
    ensures exact { let start = places_of input.old.taken (F.state input.old.files.now) in
        let end = places_of input.new.taken (F.state input.new.files.now) in
        let cols = length marks.now in
        (taken : List ℕ) → AreMarks cols taken marks.now → IsLeast taken least
        → Reads start end (λ columns. columns.items) result
        (list_at (λ left so_far. field_at 4 (fits_column cols taken so_far) group Column) width []) }
{
    let mut columns = Vec::new(alloc);
    let mut next = least;
    for j in 0..width {
        match column_of(input, group, marks, j > 0, next) {
            Ok(column) => {
                match columns.push(column) {
                    Ok(()) => (),
                    Err(_) => return Err(PackFault::Memory),
                }
                next = column + 1;
            }
            Err(fault) => return Err(fault),
        }
    }
    Ok(columns)
}
