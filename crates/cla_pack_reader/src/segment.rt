//! The rows of a segment.

ghost use Rattle.std.specs.Prelude.{◌≡◌, ℕ, ◌+◌, ◌*◌, ◌^◌, ◌<◌, ◌≤◌, ◌++◌, ◌&&◌, ◌||◌, not, nat_lt, List, [], length};
ghost use Rattle.std.specs.Prelude.{IfOk};
ghost use Rattle.cla_packed.specs.Fields.{list_at};
ghost use Rattle.cla_packed.specs.Offsets.{row_at, segment_at, joined, segment_rows};
ghost use Rattle.cla_pack_reader.specs.Places.{places_of, HasReadCause};
ghost use Rattle.cla_io.specs.InputFrame.{ReadsOn};
ghost use Rattle.cla_pack_reader.specs.Segments.{IsOffsetState, GivesRow, GivesRows};
ghost use Rattle.cla_pack_reader.specs.Walks.{IsState};

use crate::bits::Marks;
use crate::fields::number;
use crate::walk::{Walk, fits_row};
use cla_io::{Files, Input};
use cla_packed::{FieldName, PackFault};

/// One offset of a tuple in the segment of `rows` rows from row `base` on. The answer is its row.
#[inline(always)]
fn offset_of<F: Files>(
    input: &mut Input<'_, F>,
    marks: &Marks,
    walk: Walk,
    group: u32,
    floor: u64,
    base: u32,
    rows: u32,
) -> Result<u32, PackFault>
    requires within { base + rows ≤ length marks.now }
    requires few { length marks.now < 2 ^ 32 }
    ensures same_reference { input.new.files.ghost_name ≡ input.old.files.ghost_name }
    ensures frame { ReadsOn (F.state input.old.files.now) (F.state input.new.files.now) }
    ensures cause { HasReadCause (F.state input.old.files.now).read_faults (F.state input.new.files.now).read_faults
        result }
    ensures below { IfOk result (λ row. row < length marks.now) }
    ensures exact { let start = places_of input.old.taken (F.state input.old.files.now) in
        let end = places_of input.new.taken (F.state input.new.files.now) in
        let all = length marks.now in
        (size : ℕ) (earlier before : List (List ℕ)) (so_far : List ℕ) → base ≡ length before * size
        → rows ≡ segment_rows size all (length before)
        → IsState earlier (joined before ++ so_far) marks.now walk floor
        → GivesRow earlier (joined before ++ so_far) result start end
        (row_at size all group earlier before so_far) }
{
    let at = input.at();
    let offset = match number(input, 2, group, FieldName::Offset) {
        Ok(offset) => offset as u32,
        Err(fault) => return Err(fault),
    };
    if offset >= rows {
        return Err(PackFault::Field {
            group,
            field: FieldName::Offset,
            at,
        });
    }
    if !fits_row(marks, walk, floor, base + offset) {
        return Err(PackFault::Field {
            group,
            field: FieldName::Offset,
            at,
        });
    }
    Ok(base + offset)
}

/// The offsets of a segment, `n` of them.
fn offsets_of<F: Files>(
    input: &mut Input<'_, F>,
    marks: &mut Marks,
    places: &mut Vec<u32>,
    walk: Walk,
    group: u32,
    floor: u64,
    base: u32,
    rows: u32,
    n: u32,
) -> Result<Walk, PackFault>
    requires within { base + rows ≤ length marks.old }
    requires few { length marks.old < 2 ^ 32 }
    ensures size { length marks.new ≡ length marks.old }
    ensures same_reference { input.new.files.ghost_name ≡ input.old.files.ghost_name }
    ensures frame { ReadsOn (F.state input.old.files.now) (F.state input.new.files.now) }
    ensures cause { HasReadCause (F.state input.old.files.now).read_faults (F.state input.new.files.now).read_faults
        result }
    ensures exact { let start = places_of input.old.taken (F.state input.old.files.now) in
        let end = places_of input.new.taken (F.state input.new.files.now) in
        let all = length marks.old in
        (size : ℕ) (earlier before : List (List ℕ)) → base ≡ length before * size
        → rows ≡ segment_rows size all (length before)
        → IsOffsetState earlier (joined before) marks.old places.old.items walk floor
        → GivesRows earlier (joined before) marks.new places.new.items floor result start end
        (list_at (λ left so_far. row_at size all group earlier before so_far) n []) }
{
    let mut walk = walk;
    for _j in 0..n {
        match offset_of(input, marks, walk, group, floor, base, rows) {
            Ok(row) => {
                match places.push(row) {
                    Ok(()) => (),
                    Err(_) => return Err(PackFault::Memory),
                }
                marks.put(row);
                walk = walk.past(row, row + 1);
            }
            Err(fault) => return Err(fault),
        }
    }
    Ok(walk)
}

/// The number of a segment's rows, and each of them. `last` says that no segment is behind it.
pub(crate) fn segment_of<F: Files>(
    input: &mut Input<'_, F>,
    marks: &mut Marks,
    places: &mut Vec<u32>,
    walk: Walk,
    group: u32,
    floor: u64,
    base: u32,
    rows: u32,
    last: bool,
) -> Result<Walk, PackFault>
    requires within { base + rows ≤ length marks.old }
    requires few { length marks.old < 2 ^ 32 }
    ensures size { length marks.new ≡ length marks.old }
    ensures same_reference { input.new.files.ghost_name ≡ input.old.files.ghost_name }
    ensures frame { ReadsOn (F.state input.old.files.now) (F.state input.new.files.now) }
    ensures cause { HasReadCause (F.state input.old.files.now).read_faults (F.state input.new.files.now).read_faults
        result }
    ensures exact { let start = places_of input.old.taken (F.state input.old.files.now) in
        let end = places_of input.new.taken (F.state input.new.files.now) in
        let all = length marks.old in
        (size left : ℕ) (earlier before : List (List ℕ)) → base ≡ length before * size
        → rows ≡ segment_rows size all (length before) → last ≡ not (nat_lt 0 left)
        → IsOffsetState earlier (joined before) marks.old places.old.items walk floor
        → GivesRows earlier (joined before) marks.new places.new.items floor result start end
        (segment_at size all group earlier left before) }
{
    let at = input.at();
    let n = match number(input, 2, group, FieldName::Count) {
        Ok(n) => n as u32,
        Err(fault) => return Err(fault),
    };
    if n > rows {
        return Err(PackFault::Field {
            group,
            field: FieldName::Count,
            at,
        });
    }
    if is_empty(last, walk.started, n) {
        return Err(PackFault::Field {
            group,
            field: FieldName::Count,
            at,
        });
    }
    offsets_of(input, marks, places, walk, group, floor, base, rows, n)
}

// Whether a tuple would have no row at its last segment.
fn is_empty(last: bool, started: bool, n: u32) -> bool
    ensures { result ≡ (last && not (started || nat_lt 0 n)) }
{
    last && !(started || n > 0)
}
