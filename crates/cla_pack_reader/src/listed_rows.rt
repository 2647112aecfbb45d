//! The rows of tuples, as a packed file lists them.

ghost use Rattle.std.specs.Prelude.{◌≡◌, ℕ, ◌+◌, ◌<◌, ◌^◌, List, [], length, map, IfOk, MatchResult};
ghost use Rattle.cla_io.specs.InputFrame.{ReadsOn};
ghost use Rattle.cla_layout.specs.Groups.{IsGroup};
ghost use Rattle.cla_layout.specs.Listed.{rest_of, numbered_rest};
ghost use Rattle.cla_packed.specs.Fields.{list_at};
ghost use Rattle.cla_packed.specs.Lists.{lists_of};
ghost use Rattle.cla_packed.specs.Rests.{rest_code, with_rest};
ghost use Rattle.cla_pack_reader.specs.Kept.{body_kept, HasForm};
ghost use Rattle.cla_pack_reader.specs.ListedParts.{AreFewCells, HasRest, AreGrouped};
ghost use Rattle.cla_pack_reader.specs.ListedRows.{TookRows};
ghost use Rattle.cla_pack_reader.specs.Listings.{Listing, rows_at, kind_listed};
ghost use Rattle.cla_pack_reader.specs.Places.{places_of, HasReadCause, Refused};

use crate::bits::Marks;
use cla_coded::AnyGroup;
use cla_group::Dictionary;
use cla_io::{Files, Input};
use cla_num::{Memory, Number};
use cla_packed::PackFault;
use std::alloc::Global;

/// The rows that tuples list, and a mark for each of them.
#[derive(Drop)]
pub(crate) struct MarkedRows<L> {
    pub(crate) listed: L,
    pub(crate) marks: Marks,
}

/// The rows that tuples list, kept in the way of one kind of group.
pub(crate) trait ListedRows: Sized + Drop {
    /// How the rows of a tuple are listed.
    ghost listing: { Listing };

    /// They are the rows of these lists, among so many rows.
    ghost are_of: { Self → ℕ → List (List ℕ) → Type 0 };

    /// They are those of these codes but the rest: so many rows, so many tuples, the rest, and its first row.
    ghost are_coded: { Self → List ℕ → ℕ → ℕ → ℕ → ℕ → Type 0 };

    /// The rows of `d` tuples. It takes memory by the rows or runs that were read, a bit for each row, and
    /// none by `d` before.
    fn read<F: Files>(
        alloc: Global,
        input: &mut Input<'_, F>,
        group: u32,
        d: u32,
        rows: u32,
    ) -> Result<MarkedRows<Self>, PackFault>
        requires few { rows < 2 ^ 31 }
        ensures same_reference { input.new.files.ghost_name ≡ input.old.files.ghost_name }
        ensures frame { ReadsOn (F.state input.old.files.now) (F.state input.new.files.now) }
        ensures cause { HasReadCause (F.state input.old.files.now).read_faults (F.state input.new.files.now).read_faults
            result }
        ensures exact { let start = places_of input.old.taken (F.state input.old.files.now) in
            let end = places_of input.new.taken (F.state input.new.files.now) in
            let read = list_at (λ left earlier. rows_at listing rows group earlier) d [] in
            MatchResult result (λ x. TookRows (are_of x.listed) rows start end read x.marks)
            (λ e. Refused start read e) };

    /// How many of d tuples have their first row before row `first`, which is the first that isn't listed.
    fn rest_code(&self, d: u32, first: u32) -> u32
        requires { (rows : ℕ) × (owners : List ℕ) × HasRest rows d owners first
            × are_of self.now rows (lists_of d owners) }
        ensures { (rows : ℕ) (owners : List ℕ) → HasRest rows d owners first
            → are_of self.now rows (lists_of d owners) → result ≡ rest_code d owners };

    /// The same rows by codes, where the rest has code r.
    fn with_rest(self, r: u32) -> Result<Self, Memory>
        requires { (rows width d first : ℕ) × (owners : List ℕ) × AreFewCells rows width
            × HasRest rows d owners first × are_of self rows (lists_of d owners) × (r ≡ rest_code d owners) }
        ensures { (rows width d first : ℕ) (owners : List ℕ) → AreFewCells rows width
            → HasRest rows d owners first → are_of self rows (lists_of d owners) → r ≡ rest_code d owners
            → IfOk result (λ x. are_coded x (map (with_rest d r) owners) rows (d + 1) r first) };

    /// The group of these rows and tuples. The rows that aren't listed have tuple `rest`, and `first` is the
    /// first of them.
    fn group<N: Number>(
        self,
        alloc: Global,
        dictionary: Dictionary<N>,
        rows: u32,
        rest: u32,
        first: u32,
    ) -> Result<AnyGroup<N>, Memory>
        requires { (codes : List ℕ) × IsGroup N.BITS dictionary.width codes dictionary.tuples
            × (numbered_rest (length dictionary.tuples) rest ≡ rest_of codes dictionary.tuples)
            × AreGrouped (are_of self) (are_coded self) codes rows (length dictionary.tuples) rest first }
        ensures form { IfOk result (λ g. HasForm (kind_listed listing) g) }
        ensures body { (codes : List ℕ)
            → AreGrouped (are_of self) (are_coded self) codes rows (length dictionary.tuples) rest first
            → IfOk result (λ g. body_kept g ≡ record { codes = codes; tuples = dictionary.tuples }) };
}
