//! The rows of tuples as runs.

ghost use Rattle.std.specs.Prelude.{◌≡◌, ℕ, ◌+◌, ◌<◌, ◌^◌};
ghost use Rattle.cla_packed.specs.Rests.{with_rest};
ghost use Rattle.cla_runs.specs.KeyedRuns.{AreKeyedRuns};
ghost use Rattle.cla_pack_reader.specs.ListedRows.{AreRunsOf};
ghost use Rattle.cla_pack_reader.specs.Listings.{AsRuns};

use crate::bits::Marks;
use crate::listed_rows::{ListedRows, MarkedRows};
use crate::run::run_list_of;
use cla_coded::AnyGroup;
use cla_group::Dictionary;
use cla_io::{Files, Input};
use cla_num::{Memory, Number};
use cla_packed::PackFault;
use cla_runs::{KeyedRun, Runs};
use std::alloc::Global;

// The code of tuple t, where the rest has code r.
fn code_beside(r: u32, t: u32) -> u32
    requires { t + 1 < 2 ^ 32 }
    ensures { (d : ℕ) → t < d → result ≡ with_rest d r t }
{
    if t < r {
        return t;
    }
    t + 1
}

impl ListedRows for Vec<KeyedRun> {
    ghost listing = { AsRuns };

    ghost are_of = { λ x rows lists. AreRunsOf rows lists x.items };

    ghost are_coded = { λ x codes rows tuples rest first. AreKeyedRuns codes rows tuples rest x.items };

    /// It takes 12 bytes for each run, whose key is the number of its tuple.
    fn read<F: Files>(
        alloc: Global,
        input: &mut Input<'_, F>,
        group: u32,
        d: u32,
        rows: u32,
    ) -> Result<MarkedRows<Vec<KeyedRun>>, PackFault> {
        let Ok(mut marks) = Marks::none(alloc, rows) else {
            return Err(PackFault::Memory);
        };
        let mut listed = Vec::new(alloc);
        let mut floor = 0;
        for t in 0..d {
            match run_list_of(input, &mut marks, &mut listed, group, t, floor) {
                Ok(next) => floor = next,
                Err(fault) => return Err(fault),
            }
        }
        Ok(MarkedRows { listed, marks })
    }

    fn rest_code(&self, _d: u32, first: u32) -> u32 {
        let mut r: u32 = 0;
        for run in self {
            if run.begin < first {
                r = r.max(run.key + 1);
            }
        }
        r
    }

    /// Runs of tuples become runs of their codes.
    fn with_rest(self, r: u32) -> Result<Vec<KeyedRun>, Memory> {
        let mut runs = self;
        for n in 0..runs.len() {
            let run = runs[n];
            runs[n] = KeyedRun {
                begin: run.begin,
                end: run.end,
                key: code_beside(r, run.key),
            };
        }
        Ok(runs)
    }

    fn group<N: Number>(
        self,
        alloc: Global,
        dictionary: Dictionary<N>,
        rows: u32,
        rest: u32,
        _first: u32,
    ) -> Result<AnyGroup<N>, Memory> {
        let group = Runs::from_runs(alloc, dictionary, rows, self, rest)?;
        Ok(AnyGroup::Runs(group))
    }
}
