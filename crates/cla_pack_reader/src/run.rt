//! The runs of a tuple's rows.

ghost use Rattle.std.specs.Prelude.{◌≡◌, ℕ, ◌+◌, ◌^◌, ◌<◌, ◌≤◌, nat_lt, nat_le, List, [], length, IfOk, if◌then◌else◌};
ghost use Rattle.cla_io.specs.InputFrame.{ReadsOn};
ghost use Rattle.cla_packed.specs.declared.fault.FieldName.TheVariants.{Length};
ghost use Rattle.cla_packed.specs.Fields.{field_at, list_at};
ghost use Rattle.cla_packed.specs.Runs.{Run, run_at, runs_at};
ghost use Rattle.cla_pack_reader.specs.Places.{places_of, HasReadCause};
ghost use Rattle.cla_pack_reader.specs.Runs.{AreNamedFrom, IsRunState, AreRunsSoFar, fits_rows, GivesLength};
ghost use Rattle.cla_pack_reader.specs.Runs.{GivesRun, GivesRuns, GivesRunList};
ghost use Rattle.cla_pack_reader.specs.Walks.{at_start};

use crate::bits::Marks;
use crate::fields::{field, number};
use crate::walk::Walk;
use cla_io::{Files, Input};
use cla_packed::{FieldName, PackFault};
use cla_runs::KeyedRun;

// Whether a gap may stand before row `first`, which is there.
fn fits_gap(started: bool, floor: u64, first: u64, gap: u64) -> bool
    ensures { result ≡ (if started then nat_lt 0 gap else nat_le floor first) }
{
    if started {
        return gap > 0;
    }
    floor <= first
}

/// The length of a run that begins at row `first`, behind the rows of its tuple that were read.
fn length_of<F: Files>(
    input: &mut Input<'_, F>,
    marks: &Marks,
    group: u32,
    first: u32,
) -> Result<u32, PackFault>
    requires few { length marks.now < 2 ^ 32 }
    ensures same_reference { input.new.files.ghost_name ≡ input.old.files.ghost_name }
    ensures frame { ReadsOn (F.state input.old.files.now) (F.state input.new.files.now) }
    ensures cause { HasReadCause (F.state input.old.files.now).read_faults (F.state input.new.files.now).read_faults
        result }
    ensures some { IfOk result (λ n. 0 < n) }
    ensures within { IfOk result (λ n. first + n ≤ length marks.now) }
    ensures exact { let start = places_of input.old.taken (F.state input.old.files.now) in
        let end = places_of input.new.taken (F.state input.new.files.now) in
        let rows = length marks.now in
        (earlier : List (List ℕ)) → AreNamedFrom first earlier marks.now
        → GivesLength earlier first result start end (field_at 4 (fits_rows rows earlier first) group Length) }
{
    let rows = marks.len() as u64;
    let at = input.at();
    let n = match number(input, 4, group, FieldName::Length) {
        Ok(n) => n,
        Err(fault) => return Err(fault),
    };
    let bad = PackFault::Field {
        group,
        field: FieldName::Length,
        at,
    };
    let end = first as u64 + n;
    if end > rows {
        return Err(bad);
    }
    if n < 1 {
        return Err(bad);
    }
    if marks.has_any(first, end as u32) {
        return Err(bad);
    }
    Ok(n as u32)
}

/// One run of tuple `t`: the gap behind the run before, and its length.
fn run_of<F: Files>(
    input: &mut Input<'_, F>,
    marks: &Marks,
    walk: Walk,
    group: u32,
    t: u32,
    floor: u64,
) -> Result<KeyedRun, PackFault>
    requires few { length marks.now < 2 ^ 32 }
    ensures same_reference { input.new.files.ghost_name ≡ input.old.files.ghost_name }
    ensures frame { ReadsOn (F.state input.old.files.now) (F.state input.new.files.now) }
    ensures cause { HasReadCause (F.state input.old.files.now).read_faults (F.state input.new.files.now).read_faults
        result }
    ensures order { IfOk result (λ run. run.begin < run.end) }
    ensures within { IfOk result (λ run. run.end ≤ length marks.now) }
    ensures exact { let start = places_of input.old.taken (F.state input.old.files.now) in
        let end = places_of input.new.taken (F.state input.new.files.now) in
        let rows = length marks.now in
        (earlier : List (List ℕ)) (so_far : List Run) → IsRunState earlier so_far marks.now walk floor
        → GivesRun t earlier so_far result start end (run_at rows group earlier so_far) }
{
    let rows = marks.len() as u64;
    let at = input.at();
    let gap = match number(input, 4, group, FieldName::Gap) {
        Ok(gap) => gap,
        Err(fault) => return Err(fault),
    };
    let bad = PackFault::Field {
        group,
        field: FieldName::Gap,
        at,
    };
    let first = walk.next as u64 + gap;
    if first >= rows {
        return Err(bad);
    }
    if !fits_gap(walk.started, floor, first, gap) {
        return Err(bad);
    }
    let begin = first as u32;
    match length_of(input, marks, group, begin) {
        Ok(n) => Ok(KeyedRun {
            begin,
            end: begin + n,
            key: t,
        }),
        Err(fault) => Err(fault),
    }
}

/// The runs of tuple `t`, `n` of them.
fn runs_of<F: Files>(
    input: &mut Input<'_, F>,
    marks: &mut Marks,
    runs: &mut Vec<KeyedRun>,
    group: u32,
    t: u32,
    floor: u64,
    n: u64,
) -> Result<Walk, PackFault>
    requires few { length marks.old < 2 ^ 32 }
    ensures size { length marks.new ≡ length marks.old }
    ensures same_reference { input.new.files.ghost_name ≡ input.old.files.ghost_name }
    ensures frame { ReadsOn (F.state input.old.files.now) (F.state input.new.files.now) }
    ensures cause { HasReadCause (F.state input.old.files.now).read_faults (F.state input.new.files.now).read_faults
        result }
    ensures exact { let start = places_of input.old.taken (F.state input.old.files.now) in
        let end = places_of input.new.taken (F.state input.new.files.now) in
        let rows = length marks.old in
        (earlier : List (List ℕ)) → AreRunsSoFar rows earlier marks.old runs.old.items floor → length earlier ≡ t
        → GivesRuns rows earlier marks.new runs.new.items floor result start end
        (list_at (λ left so_far. run_at rows group earlier so_far) n []) }
{
    let mut walk = Walk::new();
    for _r in 0..n {
        match run_of(input, marks, walk, group, t, floor) {
            Ok(run) => {
                match runs.push(run) {
                    Ok(()) => (),
                    Err(_) => return Err(PackFault::Memory),
                }
                marks.put_all(run.begin, run.end);
                walk = walk.past(run.begin, run.end);
            }
            Err(fault) => return Err(fault),
        }
    }
    Ok(walk)
}

/// The rows of tuple `t`, as runs. The answer is the row behind the first one.
pub(crate) fn run_list_of<F: Files>(
    input: &mut Input<'_, F>,
    marks: &mut Marks,
    runs: &mut Vec<KeyedRun>,
    group: u32,
    t: u32,
    floor: u64,
) -> Result<u64, PackFault>
    requires few { length marks.old < 2 ^ 31 }
    ensures size { length marks.new ≡ length marks.old }
    ensures same_reference { input.new.files.ghost_name ≡ input.old.files.ghost_name }
    ensures frame { ReadsOn (F.state input.old.files.now) (F.state input.new.files.now) }
    ensures cause { HasReadCause (F.state input.old.files.now).read_faults (F.state input.new.files.now).read_faults
        result }
    ensures exact { let start = places_of input.old.taken (F.state input.old.files.now) in
        let end = places_of input.new.taken (F.state input.new.files.now) in
        let rows = length marks.old in
        (earlier : List (List ℕ)) → AreRunsSoFar rows earlier marks.old runs.old.items floor → length earlier ≡ t
        → GivesRunList rows earlier marks.new runs.new.items result start end (runs_at rows group earlier) }
{
    let rows = marks.len() as u64;
    let n = match field(input, 4, 1, rows, group, FieldName::Runs) {
        Ok(n) => n,
        Err(fault) => return Err(fault),
    };
    match runs_of(input, marks, runs, group, t, floor, n) {
        Ok(walk) => Ok(walk.first as u64 + 1),
        Err(fault) => Err(fault),
    }
}
