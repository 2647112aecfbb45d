//! The calls of a group of offset lists.

ghost use Rattle.std.specs.Prelude.{◌≡◌, ◌<◌, ◌*◌, ◌/◌, false, ℕ, List, length, IfOk};
ghost use Rattle.cla_layout.specs.Groups.{code_of, IsGroup};
ghost use Rattle.cla_layout.specs.Tuples.{AreCodes};
ghost use Rattle.cla_layout.specs.Listed.{is_rest, rest_of, numbered_rest};
ghost use Rattle.cla_offsets.specs.Segments.{segment_rows, segment_offsets};
ghost use Rattle.cla_offsets.specs.RowLists.{AreRowLists};
ghost use Rattle.cla_offsets.specs.Members.{tuples_in, offsets_columns, offsets_codes};
ghost use Rattle.cla_offsets.specs.Members.{offsets_dictionary, offsets_rest};

use crate::offsets::Offsets;
use crate::rows::OffsetRows;
use cla_group::{Dictionary, Greatest, Group, Least, Plus};
use cla_num::{Memory, Number, Wide};
use cla_rows::Grouped;
use std::alloc::Global;
use std::rc::Rc;

impl<N: Number> Offsets<N> {
    /// The group of rows with these codes. Its tuples stand one after the other, with `width` values
    /// each; each of them is the code of some row. The rest is the first tuple of zeros, if there is
    /// one.
    pub fn from_codes(
        alloc: Global,
        width: u32,
        codes: &[u32],
        values: Vec<N>,
    ) -> Result<Offsets<N>, Memory>
        requires codes { AreCodes width (length values.items / width) codes.now (length values.items) }
        ensures columns { IfOk result (λ g. offsets_columns g ≡ width) }
        ensures codes { IfOk result (λ g. offsets_codes g ≡ codes.now) }
        ensures dictionary { IfOk result (λ g. offsets_dictionary g ≡ tuples_in N.value width values.items) }
        ensures rest { IfOk result (λ g. offsets_rest g ≡ rest_of codes.now (tuples_in N.value width values.items)) }
    {
        let dictionary = Dictionary::of_values(width, values);
        Ok(Offsets::of_codes(alloc, dictionary, codes)?)
    }

    /// The group of rows that are listed tuple by tuple. `rest` is the number of the tuple without a list,
    /// and how many tuples there are where each has one; it is the first tuple of zeros, if there is one.
    /// `first_unlisted` is the first row that no list has, if a tuple is the rest. It takes time and memory
    /// by the lists and the segments, and not by the rows.
    pub fn from_lists(
        alloc: Global,
        dictionary: Dictionary<N>,
        rows: u32,
        lists: &Grouped,
        rest: u32,
        first_unlisted: u32,
    ) -> Result<Offsets<N>, Memory>
        requires lists { (codes : List ℕ) × IsGroup N.BITS dictionary.width codes dictionary.tuples
            × (numbered_rest (length dictionary.tuples) rest ≡ rest_of codes dictionary.tuples)
            × AreRowLists codes rows (length dictionary.tuples) rest first_unlisted lists.now.starts.items
            lists.now.places.items }
        ensures columns { IfOk result (λ g. offsets_columns g ≡ dictionary.width) }
        ensures codes { (codes : List ℕ)
            → AreRowLists codes rows (length dictionary.tuples) rest first_unlisted lists.now.starts.items
            lists.now.places.items
            → IfOk result (λ g. offsets_codes g ≡ codes) }
        ensures dictionary { IfOk result (λ g. offsets_dictionary g ≡ dictionary.tuples) }
        ensures rest { IfOk result (λ g. offsets_rest g ≡ rest_of (offsets_codes g) (offsets_dictionary g)) }
    {
        let tuples = dictionary.len();
        let rows = OffsetRows::from_lists(alloc, rows, tuples, rest, lists, first_unlisted)?;
        Ok(Offsets {
            dictionary,
            rows: Rc::new(alloc, rows)?,
        })
    }

    // The group of these codes and tuples.
    pub(crate) fn of_codes(
        alloc: Global,
        dictionary: Dictionary<N>,
        codes: &[u32],
    ) -> Result<Offsets<N>, Memory>
        requires { IsGroup N.BITS dictionary.width codes.now dictionary.tuples }
        ensures dictionary { IfOk result (λ g. g.dictionary ≡ dictionary) }
        ensures codes { IfOk result (λ g. offsets_codes g ≡ codes.now) }
        ensures rest { IfOk result (λ g. offsets_rest g ≡ rest_of codes.now dictionary.tuples) }
    {
        let tuples = dictionary.len();
        let rest = dictionary.rest_number();
        let rows = OffsetRows::from_codes(alloc, codes, tuples, rest)?;
        Ok(Offsets {
            dictionary,
            rows: Rc::new(alloc, rows)?,
        })
    }

    /// The tuple that no list names, if there is one.
    pub fn rest(&self) -> Option<u32>
        ensures value { result ≡ offsets_rest self.now }
    {
        let rest = self.rows.rest();
        if rest < self.dictionary.len() {
            Some(rest)
        } else {
            None
        }
    }

    /// How many rows of segment s have code k. Segment s begins with row `SEGMENT_ROWS` times s.
    pub fn count(&self, k: u32, s: u32) -> u32
        requires tuple { k < length (offsets_dictionary self.now) }
        requires listed { is_rest (offsets_rest self.now) k ≡ false }
        requires segment { s * segment_rows < length (offsets_codes self.now) }
        ensures { result ≡ length (segment_offsets (offsets_codes self.now) k s) }
    {
        self.list(k, s).len() as u32
    }

    /// The n-th row of segment s that has code k, from 0, counted from the segment's first row.
    pub fn offset(&self, k: u32, s: u32, n: u32) -> u32
        requires tuple { k < length (offsets_dictionary self.now) }
        requires listed { is_rest (offsets_rest self.now) k ≡ false }
        requires segment { s * segment_rows < length (offsets_codes self.now) }
        requires place { n < length (segment_offsets (offsets_codes self.now) k s) }
        ensures { result ≡ code_of (segment_offsets (offsets_codes self.now) k s) n }
    {
        u32::from(self.list(k, s)[n as usize])
    }

    /// The rows of segment s that have code k, in rising order and counted from the segment's first row.
    /// It takes no memory.
    pub fn list(&self, k: u32, s: u32) -> &[u16]
        requires tuple { k < length (offsets_dictionary self.now) }
        requires listed { is_rest (offsets_rest self.now) k ≡ false }
        requires segment { s * segment_rows < length (offsets_codes self.now) }
        ensures { result.now ≡ segment_offsets (offsets_codes self.now) k s }
    {
        self.rows.list(k, s)
    }
}

impl<N: Number> Group<N> for Offsets<N> {
    ghost columns = { λ g. g.dictionary.width };

    ghost codes = { λ g. g.rows.value.codes };

    ghost dictionary = { λ g. g.dictionary.tuples };

    fn rows(&self) -> u32 {
        self.rows.len()
    }

    fn width(&self) -> u32 {
        self.dictionary.width()
    }

    fn tuples(&self) -> u32 {
        self.dictionary.len()
    }

    fn value(&self, k: u32, c: u32) -> N {
        self.dictionary.value(k, c)
    }

    fn occurrences(&self, k: u32) -> u32 {
        self.rows.occurrences(k)
    }

    fn first_row(&self, k: u32) -> u32 {
        self.rows.first_row(k)
    }

    fn code_at(&self, i: u32) -> u32 {
        self.rows.code_at(i)
    }

    fn read_codes(&self, into: &mut [u32]) {
        self.rows.read_codes(into);
    }

    fn scatter(&self, parts: &[Wide], into: &mut [Wide]) {
        self.rows.join_each::<Plus>(parts, into);
    }

    fn scatter_least(&self, parts: &[Wide], into: &mut [Wide]) {
        self.rows.join_each::<Least>(parts, into);
    }

    fn scatter_greatest(&self, parts: &[Wide], into: &mut [Wide]) {
        self.rows.join_each::<Greatest>(parts, into);
    }

    fn gather(&self, rows: &[N], into: &mut [Wide]) {
        self.rows.gather(rows, into);
    }

    ghost laws = { λ g. g.is };
}
