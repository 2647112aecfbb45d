//! Groups with runs.

ghost use Rattle.std.specs.Prelude.{◌≡◌, ◌≤◌, ◌<◌, ◌-◌, ℕ, length};
ghost use Rattle.cla_spec.specs.Matrix.{most_cells};
ghost use Rattle.cla_layout.specs.Listed.{rest_of, rows_of};
ghost use Rattle.cla_rows.specs.Grouped.{AreGrouped};
ghost use Rattle.cla_rows.specs.CodeRuns.{listed_keys, AreRunsByKey};
ghost use Rattle.cla_runs.specs.Members.{runs_codes, runs_dictionary, runs_rest};
ghost use Rattle.cla_packed.specs.Lists.{rows_from};
ghost use Rattle.cla_packed.specs.Runs.{runs_bytes};
ghost use Rattle.cla_packed.specs.Rests as rests;
ghost use Rattle.cla_pack_writer.specs.Listed.{body_with, lists_from, IsListOf};
ghost use Rattle.cla_pack_writer.specs.Outgoing.{Sent};

use crate::lists::put_head;
use crate::numbers::put_number;
use crate::outgoing::Outgoing;
use cla_group::Group;
use cla_io::Sink;
use cla_num::Number;
use cla_rows::Grouped;
use cla_runs::{RunRows, Runs};
use std::alloc::Global;

/// Puts the tuples but the rest, and the maximal runs of each of them. It takes 4 bytes a run and a tuple
/// while it works.
pub(crate) fn put_runs<N: Number, O: Sink>(
    alloc: Global,
    g: &Runs<N>,
    outgoing: &mut Outgoing,
    out: &mut O,
)
    requires rest { runs_rest g.now ≡ rest_of (runs_codes g.now) (runs_dictionary g.now) }
    ensures { let bytes = rests.listed_bytes runs_bytes 8 (body_with (runs_codes g.now) (runs_dictionary g.now)) in
        Sent O.told O.faults O.steady O.kept bytes outgoing.old out.old outgoing.new out.new }
{
    let rest = g.rest();
    let tuples = g.tuples();
    let rows = g.run_rows();
    match rows.numbers(alloc) {
        Err(_) => outgoing.give_up(),
        Ok(numbers) => {
            put_head(g, rest, outgoing, out);
            match rest {
                None => put_lists(rows, &numbers, 0, tuples, outgoing, out),
                Some(rest) => {
                    put_lists(rows, &numbers, 0, rest, outgoing, out);
                    put_lists(rows, &numbers, rest + 1, tuples, outgoing, out);
                }
            }
        }
    }
}

// Puts the runs of the codes from code a to before code b.
fn put_lists<O: Sink>(
    rows: &RunRows,
    numbers: &Grouped,
    a: u32,
    b: u32,
    outgoing: &mut Outgoing,
    out: &mut O,
)
    requires order { a ≤ b }
    requires within { b ≤ rows.now.tuples }
    requires few { length rows.now.codes ≤ most_cells }
    requires listed { (k : ℕ) → a ≤ k → k < b → k ≡ rows.now.rest → ⊥ }
    requires grouped { let keys = listed_keys rows.now.codes rows.now.rest in
        AreGrouped rows.now.tuples keys numbers.now.starts.items numbers.now.places.items }
    requires runs { AreRunsByKey rows.now.codes rows.now.rest }
    ensures { let bytes = lists_from runs_bytes rows.now.codes a (b - a) in
        Sent O.told O.faults O.steady O.kept bytes outgoing.old out.old outgoing.new out.new }
{
    for k in a..b {
        put_list(rows, numbers.places_of(k), outgoing, out);
    }
}

// Puts how many runs have these numbers, which are those of code k, and each of them as its gap and its
// length.
fn put_list<O: Sink>(rows: &RunRows, numbers: &[u32], outgoing: &mut Outgoing, out: &mut O)
    requires few { length rows.now.codes ≤ most_cells }
    requires numbers { (k : ℕ) × IsListOf rows.now k numbers.now }
    ensures { (k : ℕ) → IsListOf rows.now k numbers.now → let bytes = runs_bytes (rows_from 0 rows.now.codes k) in
        Sent O.told O.faults O.steady O.kept bytes outgoing.old out.old outgoing.new out.new }
{
    put_number(numbers.len() as u32, 4, outgoing, out);
    let mut end = 0;
    for number in numbers {
        let begin = rows.begin(*number);
        put_number(begin - end, 4, outgoing, out);
        end = rows.end(*number);
        put_number(end - begin, 4, outgoing, out);
    }
}
