//! Groups that are kept as runs.

ghost use Rattle.std.specs.Prelude.{◌≡◌, ◌*◌, ◌-◌, ◌/◌, ◌<◌, ◌≤◌, ℕ, List, false, length, map, IfOk, IfSome};
ghost use Rattle.cla_layout.specs.Groups.{IsGroup};
ghost use Rattle.cla_layout.specs.Listed.{rest_of, numbered_rest, is_rest, run_begins};
ghost use Rattle.cla_layout.specs.Groups.{AreNumbered};
ghost use Rattle.cla_group.specs.Rows.{AreRowsFrom, ArePlaces, projected};
ghost use Rattle.cla_layout.specs.Tuples.{AreCodes, tuples_of};
ghost use Rattle.cla_rows.specs.CodeRuns.{IsRun};
ghost use Rattle.cla_runs.specs.KeyedRuns.{AreKeyedRuns};
ghost use Rattle.cla_runs.specs.Rows.{rest_in};

use crate::run_list::KeyedRun;
use crate::run_rows::{Run, RunRows};
use cla_group::{Dictionary, Greatest, Group, KeptRows, Least, Owned, Plus, keep_rows};
use cla_num::{Memory, Number, Wide};
use std::alloc::Global;
use std::rc::Rc;

/// A group whose rows are kept as runs (PVLDB 9(12): run-length encoding, RLE): where the maximal runs of
/// rows of each tuple begin and end, in the order of rows, and the dictionary. One tuple may be the rest,
/// whose rows are those between the runs; [`Dictionary::rest`] says which.
///
/// It keeps 12 bytes a run, 8 a tuple, and the tuples. Groups that differ in their values or columns alone
/// share the rows.
#[derive(Drop)]
pub struct Runs<N: Number> {
    dictionary: Dictionary<N>,
    rows: Rc<RunRows>,
    ghost is: { IsGroup N.BITS dictionary.width rows.value.codes dictionary.tuples },
    ghost all: { rows.value.tuples ≡ length dictionary.tuples },
}

impl<N: Number> Runs<N> {
    /// The group of rows with these codes. Its tuples stand one after the other, with `width` values
    /// each, and each of them is the code of some row. The rest is that of [`Dictionary::rest`]. It
    /// costs two passes over the rows.
    pub fn from_codes(
        alloc: Global,
        width: u32,
        codes: &[u32],
        values: Vec<N>,
    ) -> Result<Runs<N>, Memory>
        requires codes { AreCodes width (length values.items / width) codes.now (length values.items) }
        ensures columns { IfOk result (λ g. ⟦<Runs<N> as Group<N>>⟧.columns g ≡ width) }
        ensures codes { IfOk result (λ g. ⟦<Runs<N> as Group<N>>⟧.codes g ≡ codes.now) }
        ensures dictionary { IfOk result
            (λ g. ⟦<Runs<N> as Group<N>>⟧.dictionary g
            ≡ tuples_of width (length values.items / width) (map N.value values.items)) }
        ensures rest { IfOk result
            (λ g. rest_in g.rows.value ≡ rest_of codes.now (⟦<Runs<N> as Group<N>>⟧.dictionary g)) }
    {
        let dictionary = Dictionary::of_values(width, values);
        Ok(Runs::of_rows(alloc, codes, dictionary)?)
    }

    /// The group of rows that have these maximal runs, in any order: each run of a tuple but the rest once. The
    /// rest is that of [`Dictionary::rest_number`], and has the rows between them. It sorts the runs, and then costs
    /// two passes over them; it allocates for runs and tuples, and nothing for the rows.
    pub fn from_runs(
        alloc: Global,
        dictionary: Dictionary<N>,
        rows: u32,
        runs: Vec<KeyedRun>,
        rest: u32,
    ) -> Result<Runs<N>, Memory>
        requires runs { (codes : List ℕ) × IsGroup N.BITS dictionary.width codes dictionary.tuples
            × (numbered_rest (length dictionary.tuples) rest ≡ rest_of codes dictionary.tuples)
            × AreKeyedRuns codes rows (length dictionary.tuples) rest runs.items }
        ensures columns { IfOk result (λ g. ⟦<Runs<N> as Group<N>>⟧.columns g ≡ dictionary.width) }
        ensures codes { (codes : List ℕ) → AreKeyedRuns codes rows (length dictionary.tuples) rest runs.items →
            IfOk result (λ g. ⟦<Runs<N> as Group<N>>⟧.codes g ≡ codes) }
        ensures dictionary { IfOk result (λ g. ⟦<Runs<N> as Group<N>>⟧.dictionary g ≡ dictionary.tuples) }
        ensures rest { IfOk result (λ g. rest_in g.rows.value
            ≡ rest_of (⟦<Runs<N> as Group<N>>⟧.codes g) (⟦<Runs<N> as Group<N>>⟧.dictionary g)) }
    {
        let tuples = dictionary.len();
        let kept = RunRows::from_runs(alloc, rows, tuples, rest, runs)?;
        let rows = Rc::new(alloc, kept)?;
        Ok(Runs { dictionary, rows })
    }

    // The group of these codes of a dictionary.
    fn of_rows(alloc: Global, codes: &[u32], dictionary: Dictionary<N>) -> Result<Runs<N>, Memory>
        requires { IsGroup N.BITS dictionary.width codes.now dictionary.tuples }
        ensures dictionary { IfOk result (λ g. g.dictionary ≡ dictionary) }
        ensures codes { IfOk result (λ g. g.rows.value.codes ≡ codes.now) }
        ensures rest { IfOk result (λ g. rest_in g.rows.value ≡ rest_of codes.now dictionary.tuples) }
    {
        let tuples = dictionary.len();
        let rest = dictionary.rest_number();
        let rows = RunRows::from_codes(alloc, codes, tuples, rest)?;
        Ok(Runs {
            dictionary,
            rows: Rc::new(alloc, rows)?,
        })
    }

    /// The tuple whose runs no call lends, if there is one.
    pub fn rest(&self) -> Option<u32>
        ensures rest { result ≡ rest_in self.now.rows.value }
        ensures tuple { IfSome result (λ k. k < length (⟦<Runs<N> as Group<N>>⟧.dictionary self.now)) }
    {
        let rest = self.rows.rest();
        if rest < self.dictionary.len() {
            Some(rest)
        } else {
            None
        }
    }

    /// The rows as they are kept, for whoever wants all runs.
    pub fn run_rows(&self) -> &RunRows
        ensures { result.now ≡ self.now.rows.value }
    {
        &self.rows
    }

    /// How many maximal runs code k has, by a pass over the runs of all.
    pub fn run_count(&self, k: u32) -> u32
        requires tuple { k < length (⟦<Runs<N> as Group<N>>⟧.dictionary self.now) }
        requires listed { is_rest (rest_in self.now.rows.value) k ≡ false }
        ensures { result ≡ length (run_begins (⟦<Runs<N> as Group<N>>⟧.codes self.now) k) }
    {
        self.rows.run_count(k)
    }

    /// Run n of code k, both from 0, by a pass over the runs of all.
    pub fn run(&self, k: u32, n: u32) -> Run
        requires tuple { k < length (⟦<Runs<N> as Group<N>>⟧.dictionary self.now) }
        requires listed { is_rest (rest_in self.now.rows.value) k ≡ false }
        requires run { n < length (run_begins (⟦<Runs<N> as Group<N>>⟧.codes self.now) k) }
        ensures { IsRun (⟦<Runs<N> as Group<N>>⟧.codes self.now) k n result.gap result.length }
    {
        self.rows.run(k, n)
    }
}

impl<N: Number> Group<N> for Runs<N> {
    ghost columns = { λ g. g.dictionary.width };

    ghost codes = { λ g. g.rows.value.codes };

    ghost dictionary = { λ g. g.dictionary.tuples };

    fn rows(&self) -> u32 {
        self.rows.len()
    }

    fn width(&self) -> u32 {
        self.dictionary.width()
    }

    fn tuples(&self) -> u32 {
        self.dictionary.len()
    }

    fn value(&self, k: u32, c: u32) -> N {
        self.dictionary.value(k, c)
    }

    fn occurrences(&self, k: u32) -> u32 {
        self.rows.occurrences(k)
    }

    fn first_row(&self, k: u32) -> u32 {
        self.rows.first_row(k)
    }

    fn code_at(&self, i: u32) -> u32 {
        self.rows.code_at(i)
    }

    fn read_codes(&self, into: &mut [u32]) {
        self.rows.codes_into(0, into);
    }

    fn scatter(&self, parts: &[Wide], into: &mut [Wide]) {
        self.rows.join_each::<Plus>(parts, into);
    }

    fn scatter_least(&self, parts: &[Wide], into: &mut [Wide]) {
        self.rows.join_each::<Least>(parts, into);
    }

    fn scatter_greatest(&self, parts: &[Wide], into: &mut [Wide]) {
        self.rows.join_each::<Greatest>(parts, into);
    }

    fn gather(&self, rows: &[N], into: &mut [Wide]) {
        self.rows.gather(rows, into);
    }

    ghost laws = { λ g. g.is };
}

impl<N: Number> Owned<N> for Runs<N> {
    fn slice_rows(&self, alloc: Global, a: u32, b: u32) -> Result<Self, Memory>
        requires some { a < b }
        requires within { b ≤ length self.now.rows.value.codes }
        ensures columns { IfOk result (λ g. g.dictionary.width ≡ self.now.dictionary.width) }
        ensures rows { let p = self.now in IfOk result
            (λ g. AreRowsFrom a (b - a) p.dictionary.width p.rows.value.codes p.dictionary.tuples
            g.rows.value.codes g.dictionary.tuples) }
        ensures numbered { IfOk result (λ g. AreNumbered g.rows.value.codes (length g.dictionary.tuples)) }
        ensures rest { IfOk result (λ g. rest_in g.rows.value ≡ rest_of g.rows.value.codes g.dictionary.tuples) }
    {
        let codes = self.rows.codes_between(alloc, a, b)?;
        let KeptRows { codes, dictionary } = keep_rows(alloc, &codes, &self.dictionary)?;
        Ok(Runs::of_rows(alloc, &codes, dictionary)?)
    }

    fn project(&self, alloc: Global, places: &[u32]) -> Result<Self, Memory>
        requires places { ArePlaces self.now.dictionary.width places.now }
        ensures columns { IfOk result (λ g. g.dictionary.width ≡ length places.now) }
        ensures codes { IfOk result (λ g. g.rows.value.codes ≡ self.now.rows.value.codes) }
        ensures dictionary { IfOk result
            (λ g. g.dictionary.tuples ≡ map (projected places.now) self.now.dictionary.tuples) }
        ensures rest { IfOk result (λ g. rest_in g.rows.value ≡ rest_in self.now.rows.value) }
    {
        Ok(Runs {
            dictionary: self.dictionary.project(alloc, places)?,
            rows: self.rows.clone()?,
        })
    }

    fn with_values(&self, _alloc: Global, values: Vec<N>) -> Result<Self, Memory>
        requires whole { length values.items ≡ length self.now.dictionary.tuples * self.now.dictionary.width }
        ensures columns { IfOk result (λ g. g.dictionary.width ≡ self.now.dictionary.width) }
        ensures codes { IfOk result (λ g. g.rows.value.codes ≡ self.now.rows.value.codes) }
        ensures dictionary { let d = self.now.dictionary in IfOk result
            (λ g. g.dictionary.tuples ≡ tuples_of d.width (length d.tuples) (map N.value values.items)) }
        ensures rest { IfOk result (λ g. rest_in g.rows.value ≡ rest_in self.now.rows.value) }
    {
        let dictionary = self.dictionary.with_values(values);
        let rows = self.rows.clone()?;
        Ok(Runs { dictionary, rows })
    }
}
