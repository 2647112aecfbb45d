//! The sum of all entries.

ghost use Rattle.std.specs.Prelude.{◌≡◌, ◌<◌, ◌≤◌, ◌+◌, ◌*◌, length};
ghost use Rattle.cla_spec.specs.Numbers.{sum_to};
ghost use Rattle.cla_spec.specs.Matrix.{sum_of_entries};
ghost use Rattle.cla_num.specs.Bits.{IsSupported};
ghost use Rattle.cla_num.specs.Counts.{AreBelow, kernel_bound, step_bound};
ghost use Rattle.cla_num.specs.Fault.{AnswersNumber};
ghost use Rattle.cla_layout.specs.Groups.{cell_of};
ghost use Rattle.cla_layout.proofs.Cells.{occurring};
ghost use Rattle.cla_layout.specs.Layouts.{entry_in};
ghost use Rattle.cla_coded.specs.Parts.{parts_of};
ghost use Rattle.cla_coded.specs.Tables.{rows_of_table, cols_of_table, table_entry};
ghost use Rattle.cla_layout.specs.Values.{values_of};
ghost use Rattle.cla_meaning.specs.Counts.{HasMults};
ghost use Rattle.cla_agg.specs.Sums.{group_bound};

use crate::columns::{NARROW, NEAR_TUPLES, sum_in_column};
use cla_coded::Table;
use cla_group::Group;
use cla_num::{Meter, Number, OpFault, What, Wide};
use std::mem;

/// The sum of all cells: each tuple's values times how often it occurs (PVLDB 9(12), section 3). Refused
/// exactly where it isn't in range, at entry (1, 1); no partial sum is tested for range.
///
/// It makes as many multiplications as the dictionaries have values, and takes no memory.
pub fn sum<N: Number, G: Group<N>>(m: &Table<N, G>, meter: &mut Meter) -> Result<N, OpFault>
    requires bits { IsSupported N.BITS }
    requires room { AreBelow kernel_bound meter.old }
    ensures sum { let entry = table_entry G.codes G.dictionary m.now in
        AnswersNumber N.BITS N.value (sum_of_entries (rows_of_table m.now) (cols_of_table m.now) entry) result }
    ensures counts { HasMults (values_of (parts_of G.codes G.dictionary m.now.parts)) meter.old meter.new }
{
    number_of(base_sum(m, meter))
}

// The number of an exact value.
fn number_of<N: Number>(exact: Wide) -> Result<N, OpFault>
    requires { IsSupported N.BITS }
    ensures { AnswersNumber N.BITS N.value exact result }
{
    match N::narrow(exact) {
        Some(n) => Ok(n),
        None => Err(OpFault {
            op: 0,
            row: 1,
            col: 1,
            what: What::Range { value: exact },
        }),
    }
}

// The sum of the entries of the base.
fn base_sum<N: Number, G: Group<N>>(m: &Table<N, G>, meter: &mut Meter) -> Wide
    requires bits { IsSupported N.BITS }
    requires room { AreBelow kernel_bound meter.old }
    ensures sum { result ≡ sum_of_entries m.now.rows m.now.cols (entry_in (parts_of G.codes G.dictionary m.now.parts)) }
    ensures counts { HasMults (values_of (parts_of G.codes G.dictionary m.now.parts)) meter.old meter.new }
{
    // (a meter of the loop's own stays in registers)
    let mut counts = mem::replace(meter, Meter::new());
    let mut sum = Wide::zero();
    for part in m.parts() {
        sum = sum.plus(group_sum(&part.group, &mut counts));
    }
    *meter = counts;
    sum
}

// The sum of a group's cells.
#[inline(always)]
fn group_sum<N: Number, G: Group<N>>(g: &G, meter: &mut Meter) -> Wide
    requires bits { IsSupported N.BITS }
    requires room { AreBelow group_bound meter.old }
    ensures sum { result ≡ sum_of_entries (length (G.codes g.now)) (G.columns g.now)
        (cell_of (G.codes g.now) (G.dictionary g.now)) }
    ensures counts { HasMults (length (G.dictionary g.now) * G.columns g.now) meter.old meter.new }
{
    if g.width() < NARROW {
        sum_by_columns(g, meter)
    } else {
        sum_by_tuples(g, meter)
    }
}

// The sum of a group's cells, some tuples at a time, and of these one column after the other.
#[inline(always)]
fn sum_by_columns<N: Number, G: Group<N>>(g: &G, meter: &mut Meter) -> Wide
    requires bits { IsSupported N.BITS }
    requires room { AreBelow group_bound meter.old }
    ensures sum { result ≡ sum_of_entries (length (G.codes g.now)) (G.columns g.now)
        (cell_of (G.codes g.now) (G.dictionary g.now)) }
    ensures counts { HasMults (length (G.dictionary g.now) * G.columns g.now) meter.old meter.new }
{
    let tuples = g.tuples();
    let mut sum = Wide::zero();
    let mut from = 0;
    while from < tuples {
        let count = NEAR_TUPLES.min(tuples - from);
        sum = sum.plus(sum_of_tuples(g, from, count, meter));
        from += count;
    }
    sum
}

// The sum of the values of some tuples, each as often as its tuple occurs.
#[inline(always)]
fn sum_of_tuples<N: Number, G: Group<N>>(g: &G, from: u32, count: u32, meter: &mut Meter) -> Wide
    requires bits { IsSupported N.BITS }
    requires room { AreBelow step_bound meter.old }
    requires tuples { from + count ≤ length (G.dictionary g.now) }
    ensures sum { let counted = occurring (G.codes g.now) (G.dictionary g.now) in
        result ≡ sum_to (λ n. sum_to (counted (from + n)) (G.columns g.now)) count }
    ensures counts { HasMults (G.columns g.now * count) meter.old meter.new }
{
    let mut sum = Wide::zero();
    for c in 0..g.width() {
        sum = sum.plus(sum_in_column(g, c, from, count, meter));
    }
    sum
}

// The sum of a group's cells, tuple by tuple.
#[inline(always)]
fn sum_by_tuples<N: Number, G: Group<N>>(g: &G, meter: &mut Meter) -> Wide
    requires bits { IsSupported N.BITS }
    requires room { AreBelow group_bound meter.old }
    ensures sum { result ≡ sum_of_entries (length (G.codes g.now)) (G.columns g.now)
        (cell_of (G.codes g.now) (G.dictionary g.now)) }
    ensures counts { HasMults (length (G.dictionary g.now) * G.columns g.now) meter.old meter.new }
{
    let mut sum = Wide::zero();
    for k in 0..g.tuples() {
        sum = sum.plus(tuple_sum(g, k, meter));
    }
    sum
}

// The sum of a tuple's values over all of its rows.
#[inline(always)]
fn tuple_sum<N: Number, G: Group<N>>(g: &G, k: u32, meter: &mut Meter) -> Wide
    requires bits { IsSupported N.BITS }
    requires tuple { k < length (G.dictionary g.now) }
    requires room { AreBelow step_bound meter.old }
    ensures sum { result ≡ sum_to (λ c. occurring (G.codes g.now) (G.dictionary g.now) k c) (G.columns g.now) }
    ensures counts { HasMults (G.columns g.now) meter.old meter.new }
{
    let count = Wide::count(g.occurrences(k));
    let mut sum = Wide::zero();
    for c in 0..g.width() {
        sum = sum.plus(g.value(k, c).times(count, meter));
    }
    sum
}
