//! Groups whose tuples are listed with their rows.

ghost use Rattle.std.specs.Prelude.{◌≡◌, ℕ, ◌*◌, ◌≤◌, ◌<◌, ◌^◌, List, map, is_some, IfOk, MatchResult};
ghost use Rattle.cla_num.specs.Bits.{IsSupported};
ghost use Rattle.cla_io.specs.InputFrame.{ReadsOn};
ghost use Rattle.cla_layout.specs.Tuples.{tuples_of};
ghost use Rattle.cla_packed.specs.Lists.{lists_of};
ghost use Rattle.cla_packed.specs.Rests.{body_with, listed_at};
ghost use Rattle.cla_pack_reader.specs.Kept.{body_kept, HasForm};
ghost use Rattle.cla_pack_reader.specs.ListedParts.{flag, covering_at, AreListedTuples, AreFewCells};
ghost use Rattle.cla_pack_reader.specs.ListedParts.{HasRest, HaveOwners, CoversRows};
ghost use Rattle.cla_pack_reader.specs.Listings.{rows_at, kind_listed};
ghost use Rattle.cla_pack_reader.specs.Places.{places_of, HasReadCause, Reads, Refused};

use crate::cover::{first_unlisted, is_covered};
use crate::listed::{ListedTuples, listed_tuples};
use crate::listed_rows::{ListedRows, MarkedRows};
use cla_coded::AnyGroup;
use cla_io::{Files, Input};
use cla_num::{Memory, Number};
use cla_packed::{FieldName, PackFault};
use std::alloc::Global;

/// The rows of tuples, and the first row that is none of them.
#[derive(Drop)]
struct CoveredRows<L> {
    listed: L,
    unlisted: Option<u32>,
}

// The rows of d tuples, and whether each row is one of them exactly where there is no rest.
fn covered_rows<L: ListedRows, F: Files>(
    alloc: Global,
    input: &mut Input<'_, F>,
    group: u32,
    d: u32,
    rows: u32,
    has_rest: bool,
) -> Result<CoveredRows<L>, PackFault>
    requires a_row { 1 ≤ rows }
    requires most { rows < 2 ^ 31 }
    requires near { input.old.taken.at ≤ input.old.taken.limit }
    ensures same_reference { input.new.files.ghost_name ≡ input.old.files.ghost_name }
    ensures frame { ReadsOn (F.state input.old.files.now) (F.state input.new.files.now) }
    ensures cause { HasReadCause (F.state input.old.files.now).read_faults (F.state input.new.files.now).read_faults
        result }
    ensures exact { let start = places_of input.old.taken (F.state input.old.files.now) in
        let end = places_of input.new.taken (F.state input.new.files.now) in
        let read = covering_at (rows_at L.listing rows group) group rows d (flag has_rest) in
        MatchResult result (λ x. CoversRows (L.are_of x.listed) rows d has_rest start end read x.unlisted)
        (λ e. Refused start read e) }
{
    let MarkedRows { listed, marks } = match L::read(alloc, input, group, d, rows) {
        Ok(marked) => marked,
        Err(fault) => return Err(fault),
    };
    let unlisted = first_unlisted(&marks);
    if !is_covered(has_rest, unlisted) {
        return Err(PackFault::Field {
            group,
            field: FieldName::Cover,
            at: input.at(),
        });
    }
    Ok(CoveredRows { listed, unlisted })
}

// The group of these rows, where row `first` is the first that isn't listed.
fn group_with_rest<N: Number, L: ListedRows>(
    alloc: Global,
    rows: u32,
    width: u32,
    tuples: ListedTuples<N>,
    listed: L,
    first: u32,
) -> Result<AnyGroup<N>, Memory>
    requires bits { IsSupported N.BITS }
    requires cells { AreFewCells rows width }
    requires tuples { AreListedTuples N.value width tuples.count tuples.values.items }
    requires owners { (owners : List ℕ) × HasRest rows tuples.count owners first
        × L.are_of listed rows (lists_of tuples.count owners) }
    ensures form { IfOk result (λ g. HasForm (kind_listed L.listing) g) }
    ensures body { let all = tuples_of width tuples.count (map N.value tuples.values.items) in
        (owners : List ℕ) → HasRest rows tuples.count owners first
        → L.are_of listed rows (lists_of tuples.count owners)
        → IfOk result (λ g. body_kept g ≡ body_with width tuples.count all owners 1) }
{
    let r = listed.rest_code(tuples.count, first);
    let dictionary = tuples.dictionary_with_rest(alloc, width, r)?;
    let coded = listed.with_rest(r)?;
    coded.group(alloc, dictionary, rows, r, first)
}

// The group of these rows; the others have the tuple of zeros.
fn group_of_rows<N: Number, L: ListedRows>(
    alloc: Global,
    rows: u32,
    width: u32,
    tuples: ListedTuples<N>,
    covered: CoveredRows<L>,
) -> Result<AnyGroup<N>, Memory>
    requires bits { IsSupported N.BITS }
    requires cells { AreFewCells rows width }
    requires tuples { AreListedTuples N.value width tuples.count tuples.values.items }
    requires owners { (owners : List ℕ) × HaveOwners rows tuples.count owners covered.unlisted
        × L.are_of covered.listed rows (lists_of tuples.count owners) }
    ensures form { IfOk result (λ g. HasForm (kind_listed L.listing) g) }
    ensures body { let all = tuples_of width tuples.count (map N.value tuples.values.items) in
        (owners : List ℕ) → HaveOwners rows tuples.count owners covered.unlisted
        → L.are_of covered.listed rows (lists_of tuples.count owners)
        → IfOk result (λ g. body_kept g
        ≡ body_with width tuples.count all owners (flag (is_some covered.unlisted))) }
{
    let CoveredRows { listed, unlisted } = covered;
    let rest = tuples.count;
    match unlisted {
        None => listed.group(alloc, tuples.dictionary(width), rows, rest, rows),
        Some(first) => group_with_rest(alloc, rows, width, tuples, listed, first),
    }
}

/// A group whose tuples are listed with their rows. The rows that aren't listed have the tuple of zeros. It
/// keeps what it read and a bit a row while it reads.
pub(crate) fn listed_group<L: ListedRows, N: Number, F: Files>(
    alloc: Global,
    input: &mut Input<'_, F>,
    group: u32,
    rows: u32,
    width: u32,
) -> Result<AnyGroup<N>, PackFault>
    requires bits { IsSupported N.BITS }
    requires some { 1 ≤ width }
    requires a_row { 1 ≤ rows }
    requires most { rows < 2 ^ 31 }
    requires few { rows * width ≤ 2 ^ 26 }
    ensures same_reference { input.new.files.ghost_name ≡ input.old.files.ghost_name }
    ensures frame { ReadsOn (F.state input.old.files.now) (F.state input.new.files.now) }
    ensures cause { HasReadCause (F.state input.old.files.now).read_faults (F.state input.new.files.now).read_faults
        result }
    ensures form { IfOk result (λ g. HasForm (kind_listed L.listing) g) }
    ensures exact { let start = places_of input.old.taken (F.state input.old.files.now) in
        let end = places_of input.new.taken (F.state input.new.files.now) in
        Reads start end body_kept result (listed_at (rows_at L.listing rows group) 8 N.BITS group rows width) }
{
    let tuples = match listed_tuples(alloc, input, group, rows, width) {
        Ok(tuples) => tuples,
        Err(fault) => return Err(fault),
    };
    let covered: CoveredRows<L> = match covered_rows(
        alloc,
        input,
        group,
        tuples.count,
        rows,
        tuples.has_rest,
    ) {
        Ok(covered) => covered,
        Err(fault) => return Err(fault),
    };
    match group_of_rows(alloc, rows, width, tuples, covered) {
        Ok(group) => Ok(group),
        Err(Memory) => Err(PackFault::Memory),
    }
}
