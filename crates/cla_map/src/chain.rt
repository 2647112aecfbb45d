//! Chains of steps, and rows, over groups, parts and tables.

ghost use Rattle.std.specs.Prelude.{◌≡◌, ◌<◌, ◌*◌, ◌^◌, ℕ, false, [], length, map, IfOk};
ghost use Rattle.cla_num.specs.Bits.{IsSupported};
ghost use Rattle.cla_num.specs.Counts.{AreBelow, kernel_bound};
ghost use Rattle.cla_num.specs.Fault.{fault_of};
ghost use Rattle.cla_layout.specs.Groups.{at};
ghost use Rattle.cla_layout.specs.Layouts.{IsWhole, layout_with};
ghost use Rattle.cla_coded.specs.Parts.{part_of, parts_of};
ghost use Rattle.cla_coded.specs.Tables.{rows_of_table, cols_of_table, table_entry};
ghost use Rattle.cla_layout.specs.Values.{values_of};
ghost use Rattle.cla_meaning.specs.Chains.{chain_fault, chain_value, integer_of};
ghost use Rattle.cla_meaning.specs.Counts.{HasMapsUpTo};
ghost use Rattle.cla_meaning.specs.Entries.{broadcast_entry};
ghost use Rattle.cla_map.specs.Steps.{step_cell};
ghost use Rattle.cla_map.specs.Stops.{part_room, tuple_room};
ghost use Rattle.cla_map.specs.FirstStops.{part_values};
ghost use Rattle.cla_map.specs.Answers.{HasShape, MapsTuple, MapsTuples, MapsPart, MapsParts, MapsTable};

use crate::mapping::{Chain, Mapping, RowOp};
use crate::misfit::{Misfit, lesser, placed};
use crate::room::{Room, rooms_for};
use crate::shape::{Shape, base_of};
use crate::step::Step;
use cla_coded::{Part, Table};
use cla_group::{Group, Owned};
use cla_num::{CellOp, Memory, Meter, Number, Refused};
use std::alloc::Global;
use std::mem;

// All steps on the values of a tuple, each of which is appended.
#[inline(always)]
fn map_tuple<N: Number, G: Group<N>, M: Mapping<N>>(
    part: &Part<G>,
    t: u32,
    shape: Shape,
    mapping: &M,
    values: &mut Vec<N>,
    meter: &mut Meter,
) -> Result<Option<Misfit>, Memory>
    requires bits { IsSupported N.BITS }
    requires few { M.steps mapping.now < 2 ^ 32 }
    requires covers { (j : ℕ) → j < shape.cols → M.covers mapping.now j }
    requires shape { HasShape N.BITS shape (part_of G.codes G.dictionary part.now) }
    requires tuple { t < length (G.dictionary part.now.group) }
    requires room { AreBelow tuple_room meter.old }
    requires so_far { let p = part_of G.codes G.dictionary part.now in
        map N.value values.old.items ≡ part_values (M.last mapping.now) p (t * length p.columns) }
    ensures done { let p = part_of G.codes G.dictionary part.now in
        let new = map N.value values.new.items in
        IfOk result (λ first. MapsTuple (M.stop mapping.now) (M.last mapping.now) shape p t new first
        (M.steps mapping.now) meter.old meter.new) }
    ensures counts { HasMapsUpTo (length part.now.columns.items * M.steps mapping.now) meter.old meter.new }
{
    let row = part.group.first_row(t);
    let mut first = None;
    for c in 0..part.group.width() {
        let column = part.columns[c as usize];
        let ran = mapping.run(column, part.group.value(t, c), meter);
        values.push(ran.value)?;
        first = lesser(first, placed(ran.stop, shape.place(row, column)));
    }
    Ok(first)
}

// All steps on the values of a part, which are appended.
#[inline(always)]
fn map_tuples<N: Number, G: Group<N>, M: Mapping<N>>(
    part: &Part<G>,
    shape: Shape,
    mapping: &M,
    values: &mut Vec<N>,
    meter: &mut Meter,
) -> Result<Option<Misfit>, Memory>
    requires bits { IsSupported N.BITS }
    requires few { M.steps mapping.now < 2 ^ 32 }
    requires covers { (j : ℕ) → j < shape.cols → M.covers mapping.now j }
    requires shape { HasShape N.BITS shape (part_of G.codes G.dictionary part.now) }
    requires room { AreBelow part_room meter.old }
    requires none_yet { values.old.items ≡ [] }
    ensures done { let p = part_of G.codes G.dictionary part.now in
        let new = map N.value values.new.items in
        IfOk result (λ first. MapsTuples (M.stop mapping.now) (M.last mapping.now) shape p new first
        (M.steps mapping.now) meter.old meter.new) }
    ensures counts { let p = part_of G.codes G.dictionary part.now in
        HasMapsUpTo (length p.tuples * length p.columns * M.steps mapping.now) meter.old meter.new }
{
    let mut first = None;
    for t in 0..part.group.tuples() {
        let found = map_tuple(part, t, shape, mapping, values, meter)?;
        first = lesser(first, found);
    }
    Ok(first)
}

// All steps on the values of a part, for which there is room.
fn map_part<N: Number, G: Owned<N> + Drop, M: Mapping<N>>(
    alloc: Global,
    room: Room<N, G>,
    shape: Shape,
    mapping: &M,
    meter: &mut Meter,
) -> Result<(Part<G>, Option<Misfit>), Memory>
    requires bits { IsSupported N.BITS }
    requires few { M.steps mapping.now < 2 ^ 32 }
    requires covers { (j : ℕ) → j < shape.cols → M.covers mapping.now j }
    requires shape { HasShape N.BITS shape (part_of G.codes G.dictionary room.part.now) }
    requires room { AreBelow part_room meter.old }
    ensures done { let p = part_of G.codes G.dictionary room.entry.part.now in
        IfOk result (λ r. MapsPart (M.stop mapping.now) (M.last mapping.now) shape p
        (part_of G.codes G.dictionary r.0) r.1 (M.steps mapping.now) meter.old meter.new) }
    ensures counts { let p = part_of G.codes G.dictionary room.entry.part.now in
        HasMapsUpTo (length p.tuples * length p.columns * M.steps mapping.now) meter.old meter.new }
{
    let Room {
        part,
        columns,
        mut values,
    } = room;
    // (a meter of the loop's own stays in registers)
    let mut counts = mem::replace(meter, Meter::new());
    let found = map_tuples(part, shape, mapping, &mut values, &mut counts);
    *meter = counts;
    let first = found?;
    let group = part.group.with_values(alloc, values)?;
    Ok((Part { columns, group }, first))
}

// All steps on the values of all parts. All room is taken before the first step.
fn map_parts<N: Number, G: Owned<N> + Drop, M: Mapping<N>>(
    alloc: Global,
    parts: &[Part<G>],
    shape: Shape,
    mapping: &M,
    meter: &mut Meter,
) -> Result<(Vec<Part<G>>, Option<Misfit>), Memory>
    requires bits { IsSupported N.BITS }
    requires few { M.steps mapping.now < 2 ^ 32 }
    requires covers { (j : ℕ) → j < shape.cols → M.covers mapping.now j }
    requires whole { IsWhole N.BITS (layout_with shape.rows shape.cols (parts_of G.codes G.dictionary parts.now)) }
    requires room { AreBelow kernel_bound meter.old }
    ensures done { let old = parts_of G.codes G.dictionary parts.now in
        IfOk result (λ r. MapsParts (M.stop mapping.now) (M.last mapping.now) shape old
        (parts_of G.codes G.dictionary r.0.items) r.1 (M.steps mapping.now) meter.old meter.new) }
    ensures counts { let old = parts_of G.codes G.dictionary parts.now in
        HasMapsUpTo (values_of old * M.steps mapping.now) meter.old meter.new }
{
    let rooms = rooms_for(alloc, parts)?;
    let mut mapped = Vec::with_capacity(alloc, parts.len())?;
    let mut first = None;
    for room in rooms {
        let (next, found) = map_part(alloc, room, shape, mapping, meter)?;
        mapped.push(next)?;
        first = lesser(first, found);
    }
    Ok((mapped, first))
}

/// All steps in order on every entry, on the same codes. Refused exactly where some step has a fault, at
/// the least such step after the steps before it, and there at the first cell of the value, row by row.
///
/// Each value of a dictionary goes through the steps once, and stands for the cells of all rows of its
/// tuple (PVLDB 9(12), section 3), of which that in the tuple's first row comes first. No row is scanned:
/// it makes one map evaluation for each value and step. It takes the values of the new dictionaries before
/// the first step.
pub fn map_chain<N: Number, G: Owned<N> + Drop>(
    alloc: Global,
    m: &Table<N, G>,
    steps: &[Step<N>],
    meter: &mut Meter,
) -> Result<Table<N, G>, Refused>
    requires bits { IsSupported N.BITS }
    requires few { length steps.now < 2 ^ 32 }
    requires room { AreBelow kernel_bound meter.old }
    ensures maps { let fs = map (step_cell N.value) steps.now in
        let a = table_entry G.codes G.dictionary m.now in
        let fault = chain_fault N.BITS (rows_of_table m.now) (cols_of_table m.now) fs a in
        let values = values_of (parts_of G.codes G.dictionary m.now.parts) in
        MapsTable G.codes G.dictionary (λ i j. chain_value fs (a i j)) fault (values * length steps.now)
        m.now result meter.old meter.new }
    ensures counts { let values = values_of (parts_of G.codes G.dictionary m.now.parts) in
        HasMapsUpTo (values * length steps.now) meter.old meter.new }
{
    let shape = base_of(m);
    let Ok((parts, first)) = map_parts(alloc, m.parts(), shape, &Chain { steps }, meter) else {
        return Err(Refused::Memory);
    };
    match first {
        Some(misfit) => Err(Refused::Op(misfit.fault(m.cols()))),
        None => Ok(Table::new(shape.rows, shape.cols, shape.flipped, parts)),
    }
}

/// The entry in row i and column j is `m(i, j) op row[j]`, on the same codes. The table isn't flipped, and the
/// row has a number for each column. Refused exactly where an entry has a fault, at the first cell, row by
/// row.
///
/// As for `map_chain`, each value of a dictionary is mapped once, and no row is scanned: it makes one map
/// evaluation for each value. It takes the values of the new dictionaries before it begins.
pub fn broadcast_row<N: Number, G: Owned<N> + Drop>(
    alloc: Global,
    m: &Table<N, G>,
    op: CellOp,
    row: &[N],
    meter: &mut Meter,
) -> Result<Table<N, G>, Refused>
    requires bits { IsSupported N.BITS }
    requires plain { m.now.flipped ≡ false }
    requires row { length row.now ≡ m.now.cols }
    requires room { AreBelow kernel_bound meter.old }
    ensures maps { let a = table_entry G.codes G.dictionary m.now in
        let exact = broadcast_entry op a (at (map N.value row.now)) in
        let fault = fault_of N.BITS (rows_of_table m.now) (cols_of_table m.now) exact in
        let values = values_of (parts_of G.codes G.dictionary m.now.parts) in
        MapsTable G.codes G.dictionary (λ i j. integer_of (exact i j)) fault values m.now result meter.old meter.new }
    ensures counts { HasMapsUpTo (values_of (parts_of G.codes G.dictionary m.now.parts)) meter.old meter.new }
{
    let shape = base_of(m);
    let Ok((parts, first)) = map_parts(alloc, m.parts(), shape, &RowOp { op, row }, meter) else {
        return Err(Refused::Memory);
    };
    match first {
        Some(misfit) => Err(Refused::Op(misfit.fault(m.cols()))),
        None => Ok(Table::new(shape.rows, shape.cols, shape.flipped, parts)),
    }
}
