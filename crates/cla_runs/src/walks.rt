//! Steps of walks over rows, each over rows that have one code.

ghost use Rattle.std.specs.Prelude.{◌≡◌, ◌≤◌, ◌<◌, ◌+◌, ℕ, List, length, map};
ghost use Rattle.cla_spec.specs.Matrix.{most_cells};
ghost use Rattle.cla_num.specs.Bits.{IsSupported};
ghost use Rattle.cla_layout.specs.Groups.{at, code_of};
ghost use Rattle.cla_runs.specs.Walks.{JoinsOn, AreGatheredTo, GathersOn};

use cla_group::{Join, with_item};
use cla_num::{Number, Wide};

// The part of code k; 0 where there is none.
pub(crate) fn part_of(parts: &[Wide], k: u32) -> Wide
    ensures { result ≡ at parts.now k }
{
    match parts.get(k as usize) {
        Some(part) => *part,
        None => Wide::zero(),
    }
}

// Joins a part with the rows from row a to before row b.
pub(crate) fn join_between<J: Join>(part: Wide, a: u32, b: u32, into: &mut [Wide])
    requires order { a ≤ b }
    requires within { b ≤ length into.old }
    requires fits { (i : ℕ) → a ≤ i → i < b → J.can_join (at into.old i) part }
    ensures { JoinsOn J.join part a b into.old into.new }
{
    if J::leaves_all(part) {
        return;
    }
    for i in a as usize..b as usize {
        into[i] = J::joined(into[i], part);
    }
}

// Adds the items of the rows from row a to before row b to place k.
pub(crate) fn gather_between<N: Number>(rows: &[N], k: u32, a: u32, b: u32, into: &mut [Wide])
    requires bits { IsSupported N.BITS }
    requires few { length rows.now ≤ most_cells }
    requires within { b ≤ length rows.now }
    requires place { a < b → k < length into.old }
    requires sums { (codes : List ℕ) × AreGatheredTo a codes (map N.value rows.now) into.old }
    ensures { GathersOn (map N.value rows.now) k a b into.old into.new }
{
    if a >= b {
        return;
    }
    let mut total = into[k as usize];
    for i in a as usize..b as usize {
        total = with_item(total, rows, i);
    }
    into[k as usize] = total;
}

// Gives a code to the rows from row a to before row b.
pub(crate) fn give_code(code: u32, a: u32, b: u32, into: &mut [u32])
    requires order { a ≤ b }
    requires within { b ≤ length into.old }
    ensures given { (i : ℕ) → a ≤ i → i < b → code_of into.new i ≡ code }
    ensures before { (i : ℕ) → i < a → code_of into.new i ≡ code_of into.old i }
    ensures past { (i : ℕ) → b ≤ i → code_of into.new i ≡ code_of into.old i }
{
    for i in a as usize..b as usize {
        into[i] = code;
    }
}
