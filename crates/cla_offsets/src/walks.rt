//! Walks over the rows of one segment.

ghost use Rattle.std.specs.Prelude.{◌≡◌, ◌≤◌, ◌<◌, ◌+◌, ◌-◌, ◌==◌, ◌++◌, ℕ, List, length, map, take, drop, IfOk};
ghost use Rattle.std.specs.List.{list_any};
ghost use Rattle.cla_spec.specs.Matrix.{most_cells};
ghost use Rattle.cla_num.specs.Bits.{IsSupported};
ghost use Rattle.cla_layout.specs.Groups.{code_of};
ghost use Rattle.cla_offsets.specs.Walks.{code_given, IsRising, MayBeJoined, AreJoined};
ghost use Rattle.cla_offsets.specs.Walks.{MayListBeJoined, IsListJoined, AreCodesFrom, AreGatheredBefore};
ghost use Rattle.cla_layout.specs.Groups.{AreGathered};

use cla_group::{Join, gather_row};
use cla_num::{Memory, Number, Wide};

// Gives each place a code.
pub(crate) fn fill_codes(code: u32, codes: &mut [u32])
    ensures { (j : ℕ) → j < length codes.old → code_of codes.new j ≡ code }
{
    for place in codes.iter_mut() {
        *place = code;
    }
}

// Gives these places a code.
pub(crate) fn give_code(code: u32, places: &[u16], codes: &mut [u32])
    requires within { (n : ℕ) → n < length places.now → code_of places.now n < length codes.old }
    ensures { (j : ℕ) → j < length codes.old → code_of codes.new j ≡ code_given code places.now codes.old j }
{
    for place in places {
        codes[*place as usize] = code;
    }
}

// Appends the codes from place a to before place b.
pub(crate) fn push_part(
    segment: &[u32],
    a: usize,
    b: usize,
    codes: &mut Vec<u32>,
) -> Result<(), Memory>
    requires order { a ≤ b }
    requires within { b ≤ length segment.now }
    ensures { IfOk result (λ _. codes.new.items ≡ codes.old.items ++ take (b - a) (drop a segment.now)) }
{
    codes.extend_from_slice(&segment[a..b])?;
    Ok(())
}

// Whether this offset is listed.
pub(crate) fn has_offset(list: &[u16], offset: u16) -> bool
    requires rising { IsRising list.now }
    ensures { result ≡ list_any (λ o. o == offset) list.now }
{
    list.binary_search(&offset).is_ok()
}

// Joins the places from place `first` on with the parts of these codes.
pub(crate) fn join_codes<J: Join>(codes: &[u32], first: usize, parts: &[Wide], into: &mut [Wide])
    requires within { first + length codes.now ≤ length into.old }
    requires tuples { (j : ℕ) → j < length codes.now → code_of codes.now j < length parts.now }
    requires fits { MayBeJoined J.can_join first codes.now parts.now into.old }
    ensures { AreJoined J.join first codes.now parts.now into.old into.new }
{
    for j in 0..codes.len() {
        into[first + j] = J::joined(into[first + j], parts[codes[j] as usize]);
    }
}

// Joins a part with the places that these offsets name, counted from place `first`. A part that leaves
// all as it is is passed over.
pub(crate) fn join_list<J: Join>(part: Wide, offsets: &[u16], first: usize, into: &mut [Wide])
    requires within { (n : ℕ) → n < length offsets.now → first + code_of offsets.now n < length into.old }
    requires rising { IsRising offsets.now }
    requires fits { MayListBeJoined J.can_join first offsets.now part into.old }
    ensures { IsListJoined J.join first offsets.now part into.old into.new }
{
    if J::leaves_all(part) {
        return;
    }
    for offset in offsets {
        let place = first + *offset as usize;
        into[place] = J::joined(into[place], part);
    }
}

// Adds the items from row `first` on to the places of these codes.
pub(crate) fn gather_codes<N: Number>(codes: &[u32], first: usize, rows: &[N], into: &mut [Wide])
    requires bits { IsSupported N.BITS }
    requires few { length rows.now ≤ most_cells }
    requires within { first + length codes.now ≤ length rows.now }
    requires tuples { (j : ℕ) → j < length codes.now → code_of codes.now j < length into.old }
    requires so_far { AreGatheredBefore first codes.now (map N.value rows.now) into.old }
    ensures { (all : List ℕ) → let items = map N.value rows.now in AreCodesFrom first codes.now all →
        AreGathered all items first into.old → AreGathered all items (first + length codes.now) into.new }
{
    for j in 0..codes.len() {
        gather_row(rows, first + j, codes[j] as usize, into);
    }
}
