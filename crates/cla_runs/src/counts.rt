//! How many rows have each code, by their runs.

ghost use Rattle.std.specs.Prelude.{IfOk};
ghost use Rattle.cla_rows.specs.Counted.{AreCounted};
ghost use Rattle.cla_runs.specs.Rows.{rows_in_runs, AreRowsInRuns};

use crate::run_list::RunList;
use cla_num::Memory;
use cla_rows::Occurrences;
use std::alloc::Global;

// Counts the rows of each code, and finds the first of them, in one pass over the runs.
pub(crate) fn counted_by_run(
    alloc: Global,
    runs: &RunList,
    tuples: u32,
    rest: u32,
) -> Result<Occurrences, Memory>
    requires { AreRowsInRuns (rows_in_runs tuples rest runs.now) runs.now }
    ensures { IfOk result (λ found. AreCounted (rows_in_runs tuples rest runs.now).codes tuples
        found.counts.items found.first_rows.items) }
{
    let mut counts = vec![in alloc; 0; tuples as usize]?;
    let mut first_rows = vec![in alloc; runs.begin(runs.len()); tuples as usize]?;
    for s in (0..2 * runs.len() + 1).rev() {
        let begin = runs.edge(s);
        let end = runs.edge(s + 1);
        if begin < end {
            let k = runs.code(s, rest) as usize;
            counts[k] += end - begin;
            first_rows[k] = begin;
        }
    }
    Ok(Occurrences { counts, first_rows })
}
