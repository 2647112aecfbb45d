//! The tuples of a group, each of which differs from those before it.

ghost use Rattle.std.specs.Prelude.{◌≡◌, ℤ, pos, ◌+◌, ◌*◌, ◌<◌, ◌≤◌, ◌++◌, ◌&&◌, not, true, length, map, IfOk};
ghost use Rattle.std.specs.Prelude.{OnOk};
ghost use Rattle.std.specs.Cmp.Lexicographic.{pointwise};
ghost use Rattle.std.specs.Ordering.{int_eq};
ghost use Rattle.cla_num.specs.Bits.{IsSupported};
ghost use Rattle.cla_io.specs.InputFrame.{ReadsOn};
ghost use Rattle.cla_layout.specs.Listed.{is_zero};
ghost use Rattle.cla_layout.specs.Tuples.{tuples_of};
ghost use Rattle.cla_packed.specs.Values.{is_among};
ghost use Rattle.cla_pack_reader.specs.Places.{places_of, HasReadCause};
ghost use Rattle.cla_pack_reader.specs.Hashes.{tuple_hash, items_at, AreHashed};
ghost use Rattle.cla_pack_reader.specs.Tuples.{GivesNext, GivesTuples};

use crate::values::tuple;
use cla_index::HashIndex;
use cla_io::{Files, Input};
use cla_num::{Memory, Number, Wide};
use cla_packed::{FieldName, PackFault};
use std::alloc::Global;
use std::hash::{FoldHasher, Hash, Hasher};

// Whether a value is 0.
fn is_nothing<N: Number>(value: &N) -> bool
    ensures { result ≡ int_eq (N.value value.now) (pos 0) }
{
    value.wide() == Wide::zero()
}

// Whether each value of a tuple is 0.
fn is_zero<N: Number>(tuple: &[N]) -> bool
    ensures { result ≡ is_zero (map N.value tuple.now) }
{
    for value in tuple {
        if !is_nothing(value) {
            return false;
        }
    }
    true
}

// Whether a tuple is the one of zeros in a group that lists its tuples.
fn is_unlisted<N: Number>(listed: bool, tuple: &[N]) -> bool
    ensures { result ≡ (listed && is_zero (map N.value tuple.now)) }
{
    listed && is_zero(tuple)
}

// The hash of a tuple, in 32 bits.
fn tuple_hash<N: Number>(tuple: &[N]) -> u32
    ensures { result ≡ tuple_hash N.hash_input tuple.now }
{
    let mut state = FoldHasher::default();
    N::hash_slice(tuple, &mut state);
    (state.finish() & 0xFFFF_FFFF) as u32
}

// Whether a tuple is tuple k of these values.
fn is_at<N: Number>(values: &[N], k: usize, tuple: &[N]) -> bool
    requires { k * length tuple.now + length tuple.now ≤ length values.now }
    ensures { result ≡ pointwise N.eq tuple.now (items_at (length tuple.now) values.now k) }
{
    let from = k * tuple.len();
    tuple == &values[from..from + tuple.len()]
}

// Whether a tuple is among those of these values, which have the hashes that were seen.
fn is_seen<N: Number>(seen: &HashIndex, values: &[N], tuple: &[N], hash: u32) -> bool
    requires hashed { AreHashed N.hash_input (length tuple.now) values.now seen.now }
    requires hash { hash ≡ tuple_hash N.hash_input tuple.now }
    ensures { result ≡ is_among (tuples_of (length tuple.now) (length seen.now) (map N.value values.now))
        (map N.value tuple.now) }
{
    seen.has(hash, |k| is_at(values, k, tuple))
}

// Whether a tuple is new among those of these values, which have the hashes that were seen. Its own is
// seen then.
fn insert_new<N: Number>(seen: &mut HashIndex, values: &[N], tuple: &[N]) -> Result<bool, Memory>
    requires few { length seen.old < 4294967295 }
    requires hashed { AreHashed N.hash_input (length tuple.now) values.now seen.old }
    ensures new { IfOk result (λ new. new ≡ not (is_among (tuples_of (length tuple.now) (length seen.old)
        (map N.value values.now)) (map N.value tuple.now))) }
    ensures more { IfOk result (λ new. new ≡ true → length seen.new ≡ length seen.old + 1) }
    ensures hashed { IfOk result (λ new. new ≡ true
        → AreHashed N.hash_input (length tuple.now) (values.now ++ tuple.now) seen.new) }
{
    let hash = tuple_hash(tuple);
    if is_seen(seen, values, tuple, hash) {
        return Ok(false);
    }
    seen.push(hash)?;
    Ok(true)
}

/// One tuple more, which is none of those before it, and has a value other than 0 where the group lists
/// its tuples.
fn next_tuple<N: Number, F: Files>(
    input: &mut Input<'_, F>,
    values: &mut Vec<N>,
    seen: &mut HashIndex,
    group: u32,
    width: u32,
    listed: bool,
) -> Result<(), PackFault>
    requires bits { IsSupported N.BITS }
    requires some { 1 ≤ width }
    requires few { length seen.old < 4294967295 }
    requires hashed { AreHashed N.hash_input width values.old.items seen.old }
    ensures same_reference { input.new.files.ghost_name ≡ input.old.files.ghost_name }
    ensures frame { ReadsOn (F.state input.old.files.now) (F.state input.new.files.now) }
    ensures cause { HasReadCause (F.state input.old.files.now).read_faults (F.state input.new.files.now).read_faults
        result }
    ensures count { OnOk result (length seen.new ≡ length seen.old + 1) }
    ensures hashed { OnOk result (AreHashed N.hash_input width values.new.items seen.new) }
    ensures exact { let start = places_of input.old.taken (F.state input.old.files.now) in
        let end = places_of input.new.taken (F.state input.new.files.now) in
        let before = tuples_of width (length seen.old) (map N.value values.old.items) in
        GivesNext N.value 8 N.BITS group width listed before start end values.old.items values.new.items result }
{
    let from = values.len();
    match tuple(input, values, group, width) {
        Ok(()) => (),
        Err(fault) => return Err(fault),
    }
    let bad = PackFault::Field {
        group,
        field: FieldName::Value,
        at: input.at() - 8,
    };
    let (before, last) = values.split_at(from);
    if is_unlisted(listed, last) {
        return Err(bad);
    }
    match insert_new(seen, before, last) {
        Ok(true) => Ok(()),
        Ok(false) => Err(bad),
        Err(Memory) => Err(PackFault::Memory),
    }
}

/// The values of n tuples, tuple after tuple. Each tuple differs from those before it, and has a value
/// other than 0 where the group lists its tuples. It finds them by an index of their hashes, which takes
/// from 12 to 16 bytes a tuple while it works.
pub(crate) fn tuples<N: Number, F: Files>(
    alloc: Global,
    input: &mut Input<'_, F>,
    group: u32,
    width: u32,
    n: u32,
    listed: bool,
) -> Result<Vec<N>, PackFault>
    requires bits { IsSupported N.BITS }
    requires some { 1 ≤ width }
    ensures same_reference { input.new.files.ghost_name ≡ input.old.files.ghost_name }
    ensures frame { ReadsOn (F.state input.old.files.now) (F.state input.new.files.now) }
    ensures cause { HasReadCause (F.state input.old.files.now).read_faults (F.state input.new.files.now).read_faults
        result }
    ensures count { IfOk result (λ values. length values.items ≡ n * width) }
    ensures exact { let start = places_of input.old.taken (F.state input.old.files.now) in
        let end = places_of input.new.taken (F.state input.new.files.now) in
        GivesTuples N.value 8 N.BITS group width listed n start end result }
{
    let mut values = Vec::new(alloc);
    let mut seen = HashIndex::new(alloc);
    for _k in 0..n {
        match next_tuple(input, &mut values, &mut seen, group, width, listed) {
            Ok(()) => (),
            Err(fault) => return Err(fault),
        }
    }
    Ok(values)
}
