//! The tuples of a group that lists them with their rows.

ghost use Rattle.std.specs.Prelude.{◌≡◌, ℕ, ◌≤◌, pos, List, map, replicate, IfOk, MatchResult};
ghost use Rattle.cla_num.specs.Bits.{IsSupported};
ghost use Rattle.cla_io.specs.InputFrame.{ReadsOn};
ghost use Rattle.cla_layout.specs.Tuples.{tuples_of};
ghost use Rattle.cla_packed.specs.Rests.{rest_code, with_rest, with_tuple, listed_at};
ghost use Rattle.cla_pack_reader.specs.ListedParts.{OneList, HeadOf, AreListedTuples, AreFewCells};
ghost use Rattle.cla_pack_reader.specs.ListedParts.{AreAllListed, HasRest, IsDictionaryFor};
ghost use Rattle.cla_pack_reader.specs.Places.{places_of, HasReadCause, Refused};

use crate::fields::field;
use crate::tuples::tuples;
use crate::zeros::put_zeros;
use cla_group::Dictionary;
use cla_io::{Files, Input};
use cla_num::{Memory, Number};
use cla_packed::{FieldName, PackFault};
use std::alloc::Global;

/// The tuples that a group lists with their rows, none of which is the tuple of zeros.
#[derive(Drop)]
pub(crate) struct ListedTuples<N: Number> {
    /// How many there are.
    pub(crate) count: u32,

    /// Whether some row is in no list, and so has the tuple of zeros.
    pub(crate) has_rest: bool,

    /// Their values, tuple after tuple.
    pub(crate) values: Vec<N>,
}

/// What stands before the lists of a group: how many tuples it has, whether there is a rest, and the
/// tuples.
pub(crate) fn listed_tuples<N: Number, F: Files>(
    alloc: Global,
    input: &mut Input<'_, F>,
    group: u32,
    rows: u32,
    width: u32,
) -> Result<ListedTuples<N>, PackFault>
    requires bits { IsSupported N.BITS }
    requires some { 1 ≤ width }
    ensures same_reference { input.new.files.ghost_name ≡ input.old.files.ghost_name }
    ensures frame { ReadsOn (F.state input.old.files.now) (F.state input.new.files.now) }
    ensures cause { HasReadCause (F.state input.old.files.now).read_faults (F.state input.new.files.now).read_faults
        result }
    ensures tuples { IfOk result (λ x. AreListedTuples N.value width x.count x.values.items) }
    ensures near { IfOk result (λ _. input.new.taken.at ≤ input.new.taken.limit) }
    ensures exact { let start = places_of input.old.taken (F.state input.old.files.now) in
        let end = places_of input.new.taken (F.state input.new.files.now) in
        (one : OneList) → MatchResult result
        (λ x. HeadOf one N.BITS group rows width start end x.count x.has_rest
        (tuples_of width x.count (map N.value x.values.items)))
        (λ e. Refused start (listed_at one 8 N.BITS group rows width) e) }
{
    let count = match field(input, 4, 0, rows as u64, group, FieldName::Tuples) {
        Ok(count) => count as u32,
        Err(fault) => return Err(fault),
    };
    let rest = match field(input, 1, 0, 1, group, FieldName::Rest) {
        Ok(rest) => rest,
        Err(fault) => return Err(fault),
    };
    let values = match tuples(alloc, input, group, width, count, true) {
        Ok(values) => values,
        Err(fault) => return Err(fault),
    };
    Ok(ListedTuples {
        count,
        has_rest: rest == 1,
        values,
    })
}

impl<N: Number> ListedTuples<N> {
    /// Their dictionary, where each row is in a list.
    pub(crate) fn dictionary(self, width: u32) -> Dictionary<N>
        requires tuples { AreListedTuples N.value width self.count self.values.items }
        requires owners { (rows : ℕ) × (owners : List ℕ) × AreFewCells rows width
            × AreAllListed rows self.count owners }
        ensures { let tuples = tuples_of width self.count (map N.value self.values.items) in
            (rows : ℕ) (owners : List ℕ) → AreFewCells rows width → AreAllListed rows self.count owners
            → IsDictionaryFor N.BITS width owners self.count tuples result }
    {
        Dictionary::of_values(width, self.values)
    }

    /// Their dictionary, where the first row that is in no list is behind the first rows of r of them:
    /// the tuple of zeros has code r.
    pub(crate) fn dictionary_with_rest(
        self,
        alloc: Global,
        width: u32,
        r: u32,
    ) -> Result<Dictionary<N>, Memory>
        requires bits { IsSupported N.BITS }
        requires tuples { AreListedTuples N.value width self.count self.values.items }
        requires owners { (rows first : ℕ) × (owners : List ℕ) × AreFewCells rows width
            × HasRest rows self.count owners first × (r ≡ rest_code self.count owners) }
        ensures { let d = self.count in
            let tuples = with_tuple r (replicate width (pos 0)) (tuples_of width d (map N.value self.values.items)) in
            (rows first : ℕ) (owners : List ℕ) → AreFewCells rows width → HasRest rows d owners first
            → r ≡ rest_code d owners
            → IfOk result (IsDictionaryFor N.BITS width (map (with_rest d r) owners) r tuples) }
    {
        let values = put_zeros(alloc, &self.values, r as usize * width as usize, width)?;
        Ok(Dictionary::of_values(width, values))
    }
}
