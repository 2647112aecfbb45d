//! How many rows and runs each tuple has.

ghost use Rattle.std.specs.Prelude.{◌≡◌, ◌<◌, ◌≤◌, ℕ, length, if◌then◌else◌, IfOk};
ghost use Rattle.cla_spec.specs.Matrix.{most_cells};
ghost use Rattle.cla_layout.specs.Groups.{code_of};
ghost use Rattle.cla_layout.specs.Listed.{begins_run};
ghost use Rattle.cla_stats.specs.Coded.{AreTallied, has_code};

use cla_num::Memory;
use std::alloc::Global;

/// For each code how many rows have it, and how many maximal runs.
#[derive(Drop)]
pub struct Counts {
    pub occurrences: Vec<u32>,
    pub runs: Vec<u32>,
}

/// Counts the rows and the runs of each of `distinct` codes, in one pass over the rows.
pub fn count_codes(alloc: Global, codes: &[u32], distinct: u32) -> Result<Counts, Memory>
    requires below { (i : ℕ) → i < length codes.now → code_of codes.now i < distinct }
    requires few { length codes.now ≤ most_cells }
    ensures occurrences { let rows = length codes.now in
        IfOk result (λ c. AreTallied (has_code codes.now) rows distinct c.occurrences.items) }
    ensures runs { IfOk result (λ c. AreTallied (begins_run codes.now) (length codes.now) distinct c.runs.items) }
{
    let mut occurrences = vec![in alloc; 0; distinct as usize]?;
    let mut runs = vec![in alloc; 0; distinct as usize]?;
    for i in 0..codes.len() {
        let k = codes[i] as usize;
        occurrences[k] += 1;
        runs[k] += begins(codes, i);
    }
    Ok(Counts { occurrences, runs })
}

// 1 where a maximal run begins at row i, else 0.
fn begins(codes: &[u32], i: usize) -> u32
    requires { i < length codes.now }
    ensures value { result ≡ (if begins_run codes.now (code_of codes.now i) i then 1 else 0) }
    ensures small { result ≤ 1 }
{
    (i == 0 || codes[i - 1] != codes[i]) as u32
}
