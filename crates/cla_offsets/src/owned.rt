//! Groups of offset lists for some of the rows, for some of the columns, and with other values.

ghost use Rattle.std.specs.Prelude.{◌≡◌, ◌<◌, ◌≤◌, ◌*◌, ◌-◌, length, IfOk};
ghost use Rattle.cla_group.specs.Rows.{ArePlaces};
ghost use Rattle.cla_layout.specs.Groups.{AreNumbered};
ghost use Rattle.cla_layout.specs.Listed.{rest_of};
ghost use Rattle.cla_offsets.specs.Members.{offsets_columns, offsets_codes, offsets_dictionary};
ghost use Rattle.cla_offsets.specs.Members.{offsets_rest, projected_tuples, revalued, IsSlice};

use crate::offsets::Offsets;
use cla_group::{KeptRows, Owned, keep_rows};
use cla_num::{Memory, Number};
use std::alloc::Global;

impl<N: Number> Owned<N> for Offsets<N> {
    fn slice_rows(&self, alloc: Global, a: u32, b: u32) -> Result<Self, Memory>
        requires some { a < b }
        requires within { b ≤ length (offsets_codes self.now) }
        ensures columns { IfOk result (λ g. offsets_columns g ≡ offsets_columns self.now) }
        ensures rows { IfOk result (λ g. IsSlice a (b - a) self.now g) }
        ensures numbered { IfOk result (λ g. AreNumbered (offsets_codes g) (length (offsets_dictionary g))) }
        ensures rest { IfOk result (λ g. offsets_rest g ≡ rest_of (offsets_codes g) (offsets_dictionary g)) }
    {
        let old = self.rows.codes_between(alloc, a, b)?;
        let KeptRows { codes, dictionary } = keep_rows(alloc, &old, &self.dictionary)?;
        Ok(Offsets::of_codes(alloc, dictionary, &codes)?)
    }

    fn project(&self, alloc: Global, places: &[u32]) -> Result<Self, Memory>
        requires places { ArePlaces (offsets_columns self.now) places.now }
        ensures columns { IfOk result (λ g. offsets_columns g ≡ length places.now) }
        ensures codes { IfOk result (λ g. offsets_codes g ≡ offsets_codes self.now) }
        ensures dictionary { IfOk result (λ g. offsets_dictionary g ≡ projected_tuples places.now self.now) }
        ensures rest { IfOk result (λ g. offsets_rest g ≡ offsets_rest self.now) }
    {
        Ok(Offsets {
            dictionary: self.dictionary.project(alloc, places)?,
            rows: self.rows.clone()?,
        })
    }

    fn with_values(&self, _alloc: Global, values: Vec<N>) -> Result<Self, Memory>
        requires whole { length values.items ≡ length (offsets_dictionary self.now) * offsets_columns self.now }
        ensures columns { IfOk result (λ g. offsets_columns g ≡ offsets_columns self.now) }
        ensures codes { IfOk result (λ g. offsets_codes g ≡ offsets_codes self.now) }
        ensures dictionary { IfOk result (λ g. offsets_dictionary g ≡ revalued N.value self.now values.items) }
        ensures rest { IfOk result (λ g. offsets_rest g ≡ offsets_rest self.now) }
    {
        let dictionary = self.dictionary.with_values(values);
        let rows = self.rows.clone()?;
        Ok(Offsets { dictionary, rows })
    }
}
