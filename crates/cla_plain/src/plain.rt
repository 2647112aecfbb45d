//! Groups that are kept uncompressed.

ghost use Rattle.std.specs.Prelude.{◌≡◌, ◌*◌, ◌/◌, length, map, IfOk, IsOk};
ghost use Rattle.std.specs.List.{range_with_len};
ghost use Rattle.cla_layout.specs.Groups.{IsGroup};
ghost use Rattle.cla_layout.specs.Tuples.{tuples_of};
ghost use Rattle.cla_plain.specs.Rows.{AreRows};

use cla_group::{Dictionary, Group, Owned};
use cla_num::{Memory, Number};
use std::alloc::Global;

/// A group that is kept uncompressed (PVLDB 9(12): uncompressed column group, UC): its values stand row
/// by row, one for each column. Each row is a tuple of its own, so row i has code i and there are as
/// many tuples as rows, equal ones among them or not.
#[derive(Drop)]
pub struct Plain<N: Number> {
    // The tuples are the rows.
    dictionary: Dictionary<N>,
    ghost is: { IsGroup N.BITS dictionary.width (range_with_len 0 (length dictionary.tuples)) dictionary.tuples },
}

impl<N: Number> Plain<N> {
    /// The group of these rows, which stand one after the other with `width` values each. There are
    /// at most 2^26 values. It keeps `values` as they are, and takes no memory.
    pub fn from_rows(width: u32, values: Vec<N>) -> Plain<N>
        requires rows { AreRows width values.items }
        ensures columns { ⟦<Plain<N> as Group<N>>⟧.columns result ≡ width }
        ensures codes { ⟦<Plain<N> as Group<N>>⟧.codes result ≡ range_with_len 0 (length values.items / width) }
        ensures dictionary { let tuples = tuples_of width (length values.items / width) (map N.value values.items) in
            ⟦<Plain<N> as Group<N>>⟧.dictionary result ≡ tuples }
    {
        let rows = (values.len() / width as usize) as u32;
        Plain {
            dictionary: Dictionary::new(width, rows, values),
        }
    }
}

#[tactic(auto, using(cla_layout::proofs::Counting::rows_count, cla_layout::proofs::Counting::code_is, cla_layout::proofs::Counting::first_row_is))]
impl<N: Number> Group<N> for Plain<N> {
    ghost columns = { λ p. p.dictionary.width };

    ghost codes = { λ p. range_with_len 0 (length p.dictionary.tuples) };

    ghost dictionary = { λ p. p.dictionary.tuples };

    fn rows(&self) -> u32 {
        self.dictionary.len()
    }

    fn width(&self) -> u32 {
        self.dictionary.width()
    }

    fn tuples(&self) -> u32 {
        self.dictionary.len()
    }

    fn value(&self, k: u32, c: u32) -> N {
        self.dictionary.value(k, c)
    }

    fn occurrences(&self, _k: u32) -> u32 {
        1
    }

    fn first_row(&self, k: u32) -> u32 {
        k
    }

    fn code_at(&self, i: u32) -> u32 {
        i
    }

    ghost laws = { λ p. p.is };
}

#[tactic(auto, using(cla_layout::proofs::Counting::rows_count))]
impl<N: Number> Owned<N> for Plain<N> {
    fn slice_rows(&self, alloc: Global, a: u32, b: u32) -> Result<Self, Memory> {
        Ok(Plain {
            dictionary: self.dictionary.slice(alloc, a, b)?,
        })
    }

    fn project(&self, alloc: Global, places: &[u32]) -> Result<Self, Memory> {
        Ok(Plain {
            dictionary: self.dictionary.project(alloc, places)?,
        })
    }

    fn with_values(&self, _alloc: Global, values: Vec<N>) -> Result<Self, Memory>
        requires whole { length values.items ≡ length self.now.dictionary.tuples * self.now.dictionary.width }
        ensures succeeds { IsOk result }
        ensures columns { IfOk result (λ g. g.dictionary.width ≡ self.now.dictionary.width) }
        ensures codes { let codes = range_with_len 0 (length self.now.dictionary.tuples) in
            IfOk result (λ g. range_with_len 0 (length g.dictionary.tuples) ≡ codes) }
        ensures dictionary { let old = self.now.dictionary in
            let tuples = tuples_of old.width (length old.tuples) (map N.value values.items) in
            IfOk result (λ g. g.dictionary.tuples ≡ tuples) }
    {
        Ok(Plain {
            dictionary: self.dictionary.with_values(values),
        })
    }
}
