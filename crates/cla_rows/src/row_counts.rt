//! How many rows have each code, and which is the first.

ghost use Rattle.std.specs.Prelude.{◌<◌, ◌≤◌, ℕ, length, IfOk};
ghost use Rattle.cla_spec.specs.Matrix.{most_cells};
ghost use Rattle.cla_layout.specs.Groups.{code_of};
ghost use Rattle.cla_rows.specs.Counted.{AreCounted};

use cla_num::Memory;
use std::alloc::Global;

/// For each code how many rows have it, and the first of them.
#[derive(Drop)]
pub struct Occurrences {
    /// How many rows have each code.
    pub counts: Vec<u32>,

    /// The first row of each code; the number of rows where none has it.
    pub first_rows: Vec<u32>,
}

/// Counts the rows of each code, and finds the first, in one pass over the rows. The codes are below
/// `tuples`.
pub fn counted(alloc: Global, codes: &[u32], tuples: u32) -> Result<Occurrences, Memory>
    requires below { (i : ℕ) → i < length codes.now → code_of codes.now i < tuples }
    requires few { length codes.now ≤ most_cells }
    ensures { IfOk result (λ found. AreCounted codes.now tuples found.counts.items found.first_rows.items) }
{
    let mut counts = vec![in alloc; 0; tuples as usize]?;
    let mut first_rows = vec![in alloc; codes.len() as u32; tuples as usize]?;
    for i in (0..codes.len()).rev() {
        let k = codes[i] as usize;
        counts[k] += 1;
        first_rows[k] = i as u32;
    }
    Ok(Occurrences { counts, first_rows })
}
