//! The groups that are measured, and what their calls are given.

ghost use Rattle.std.specs.Prelude.{◌≡◌, ◌<◌, ◌≤◌, ◌+ℤ◌, ℕ, pos, true, length, IfOk};
ghost use Rattle.std.specs.Int.{w128};
ghost use Rattle.std.specs.Int.RustNames.{FitsSigned};
ghost use Rattle.cla_spec.specs.Matrix.{most_cells};
ghost use Rattle.cla_layout.specs.Groups.{at, code_of, occurrences_of};
ghost use Rattle.cla_layout.specs.Tuples.{AreCodes};
ghost use Rattle.cla_coded.specs.AnyGroups.{any_columns};

use crate::task::Task;
use cla_coded::AnyGroup;
use cla_measuring::Stop;
use cla_num::{Int, Memory, Number, Wide};
use cla_rows::{Occurrences, counted};
use std::alloc::Global;

/// The numbers of the groups.
pub type Cell = Int<47>;

const MOST_CELLS: usize = 1 << 26;

// Whether each code is below `tuples`.
fn are_below(codes: &[u32], tuples: u32) -> bool
    ensures { result ≡ true → (i : ℕ) → i < length codes.now → code_of codes.now i < tuples }
{
    for code in codes {
        if *code >= tuples {
            return false;
        }
    }
    true
}

// Whether each of these counts is above 0.
fn are_some(counts: &[u32]) -> bool
    ensures { result ≡ true → (k : ℕ) → k < length counts.now → 0 < code_of counts.now k }
{
    for count in counts {
        if *count == 0 {
            return false;
        }
    }
    true
}

// Whether these are the codes of a group of one column with so many tuples.
fn are_codes(alloc: Global, codes: &[u32], tuples: u32) -> Result<bool, Memory>
    ensures { IfOk result (λ are. are ≡ true → AreCodes 1 tuples codes.now tuples) }
{
    if codes.is_empty() || codes.len() > MOST_CELLS || !are_below(codes, tuples) {
        return Ok(false);
    }
    let Occurrences { counts, .. } = counted(alloc, codes, tuples)?;
    Ok(are_some(&counts))
}

/// So many numbers: the n-th, from 0, is `n * factor`, without what doesn't fit 32 bits.
pub fn multiples(alloc: Global, count: u32, factor: u32) -> Result<Vec<Cell>, Stop>
    ensures { IfOk result (λ v. length v.items ≡ count) }
{
    let mut numbers = Vec::with_capacity(alloc, count as usize)?;
    for n in 0..count {
        let number = Cell::of(i64::from(n.wrapping_mul(factor))).ok_or(Stop::Codes)?;
        numbers.push(number)?;
    }
    Ok(numbers)
}

/// The group of these codes.
pub fn group_of(alloc: Global, task: &Task, codes: &[u32]) -> Result<AnyGroup<Cell>, Stop>
    ensures { IfOk result (λ g. any_columns g ≡ 1) }
{
    let tuples = task.tuples.checked_add(1).ok_or(Stop::Codes)?;
    if !are_codes(alloc, codes, tuples)? {
        return Err(Stop::Codes);
    }
    let values = multiples(alloc, tuples, 1)?;
    Ok(AnyGroup::from_codes(alloc, task.kind, 1, codes, values)?)
}

/// A part for each tuple: part k is k.
pub fn parts_of(alloc: Global, count: u32) -> Result<Vec<Wide>, Memory>
    ensures count { IfOk result (λ v. length v.items ≡ count) }
    ensures fits { IfOk result (λ v. (k : ℕ) → k < count → FitsSigned w128 (pos 0 +ℤ at v.items k)) }
{
    let mut parts = Vec::with_capacity(alloc, count as usize)?;
    for k in 0..count {
        parts.push(Wide::count(k))?;
    }
    Ok(parts)
}

/// So many zeros.
pub fn zeros(alloc: Global, count: u32) -> Result<Vec<Wide>, Memory>
    ensures count { IfOk result (λ v. length v.items ≡ count) }
    ensures zeros { IfOk result (λ v. (i : ℕ) → at v.items i ≡ pos 0) }
{
    Ok(vec![in alloc; Wide::zero(); count as usize]?)
}
