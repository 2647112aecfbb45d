//! Groups that keep one code for each row.

ghost use Rattle.std.specs.Prelude.{◌≡◌, ◌/◌, ◌*◌, length, map, IfOk};
ghost use Rattle.cla_layout.specs.Groups.{IsGroup};
ghost use Rattle.cla_layout.specs.Tuples.{AreCodes, tuples_of};
ghost use Rattle.cla_codes.specs.Widths.{FitsWidth};
ghost use Rattle.cla_codes.specs.Bytes.{AreWritten};

use crate::byte_codes::ByteCodes;
use crate::row_codes::RowCodes;
use cla_group::{Dictionary, Group, KeptRows, Owned, keep_rows};
use cla_num::{Memory, Number};
use std::alloc::Global;
use std::rc::Rc;

/// A group with one code for each row (dense dictionary coding, DDC, as SystemDS has it after PVLDB
/// 9(12)): row by row the number of its tuple, in W bytes, and the tuples. W is 1, 2 or 4.
///
/// How many rows have a code and which is the first are kept too, so that each call on one tuple or
/// one row answers in constant time. What belongs to the rows is shared between a group and those
/// with the same rows that are made of it.
#[derive(Drop)]
pub struct Codes<N: Number, const W: usize> {
    dictionary: Dictionary<N>,
    rows: Rc<ByteCodes<W>>,
    ghost is: { IsGroup N.BITS dictionary.width rows.value dictionary.tuples },
    ghost fits: { FitsWidth W (length dictionary.tuples) },
}

impl<N: Number, const W: usize> Codes<N, W> {
    /// The group of rows with these codes. Its tuples stand one after the other, with `width` values
    /// each; each of them is the code of some row, and there are no more than W bytes can name.
    pub fn from_codes(
        alloc: Global,
        width: u32,
        codes: &[u32],
        values: Vec<N>,
    ) -> Result<Codes<N, W>, Memory>
        requires codes { AreCodes width (length values.items / width) codes.now (length values.items) }
        requires fits { FitsWidth W (length values.items / width) }
        ensures columns { IfOk result (λ g. ⟦<Codes<N, W> as Group<N>>⟧.columns g ≡ width) }
        ensures codes { IfOk result (λ g. ⟦<Codes<N, W> as Group<N>>⟧.codes g ≡ codes.now) }
        ensures dictionary { let tuples = tuples_of width (length values.items / width) (map N.value values.items) in
            IfOk result (λ g. ⟦<Codes<N, W> as Group<N>>⟧.dictionary g ≡ tuples) }
    {
        Codes::of_codes(alloc, Dictionary::of_values(width, values), codes)
    }

    /// The group of rows with these codes, which takes over their bytes. The tuples are as above.
    pub fn from_row_codes(
        alloc: Global,
        width: u32,
        codes: RowCodes,
        values: Vec<N>,
    ) -> Result<Codes<N, W>, Memory>
        requires bytes { codes.width ≡ W }
        requires codes { AreCodes width (length values.items / width) codes.codes (length values.items) }
        requires fits { FitsWidth W (length values.items / width) }
        ensures columns { IfOk result (λ g. ⟦<Codes<N, W> as Group<N>>⟧.columns g ≡ width) }
        ensures codes { IfOk result (λ g. ⟦<Codes<N, W> as Group<N>>⟧.codes g ≡ codes.codes) }
        ensures dictionary { let tuples = tuples_of width (length values.items / width) (map N.value values.items) in
            IfOk result (λ g. ⟦<Codes<N, W> as Group<N>>⟧.dictionary g ≡ tuples) }
    {
        let dictionary = Dictionary::of_values(width, values);
        let rows = ByteCodes::from_row_codes(alloc, codes, dictionary.len())?;
        Codes::of_rows(alloc, dictionary, rows)
    }

    // The group of these tuples and codes.
    fn of_codes(
        alloc: Global,
        dictionary: Dictionary<N>,
        codes: &[u32],
    ) -> Result<Codes<N, W>, Memory>
        requires is { IsGroup N.BITS dictionary.width codes.now dictionary.tuples }
        requires fits { FitsWidth W (length dictionary.tuples) }
        ensures dictionary { IfOk result (λ g. g.dictionary ≡ dictionary) }
        ensures codes { IfOk result (λ g. g.rows.value ≡ codes.now) }
    {
        let rows = ByteCodes::from_codes(alloc, codes, dictionary.len())?;
        Codes::of_rows(alloc, dictionary, rows)
    }

    fn of_rows(
        alloc: Global,
        dictionary: Dictionary<N>,
        rows: ByteCodes<W>,
    ) -> Result<Codes<N, W>, Memory>
        requires is { IsGroup N.BITS dictionary.width rows dictionary.tuples }
        requires fits { FitsWidth W (length dictionary.tuples) }
        ensures dictionary { IfOk result (λ g. g.dictionary ≡ dictionary) }
        ensures codes { IfOk result (λ g. g.rows.value ≡ rows.entry) }
    {
        Ok(Codes {
            dictionary,
            rows: Rc::new(alloc, rows)?,
        })
    }

    /// The codes of the rows one after the other, each in W bytes, the least byte first. It takes no
    /// memory.
    pub fn bytes(&self) -> &[u8]
        ensures { let codes = ⟦<Codes<N, W> as Group<N>>⟧.codes self.now in
            AreWritten W (length codes) codes result.now }
    {
        self.rows.bytes()
    }
}

impl<N: Number, const W: usize> Group<N> for Codes<N, W> {
    ghost columns = { λ g. g.dictionary.width };

    ghost codes = { λ g. g.rows.value };

    ghost dictionary = { λ g. g.dictionary.tuples };

    fn rows(&self) -> u32 {
        self.rows.len()
    }

    fn width(&self) -> u32 {
        self.dictionary.width()
    }

    fn tuples(&self) -> u32 {
        self.dictionary.len()
    }

    fn value(&self, k: u32, c: u32) -> N {
        self.dictionary.value(k, c)
    }

    fn occurrences(&self, k: u32) -> u32 {
        self.rows.occurrences(k)
    }

    fn first_row(&self, k: u32) -> u32 {
        self.rows.first_row(k)
    }

    #[inline(always)]
    fn code_at(&self, i: u32) -> u32 {
        self.rows.code_at(i)
    }

    fn read_codes(&self, into: &mut [u32]) {
        self.rows.read(0, into)
    }

    ghost laws = { λ g. g.is };
}

impl<N: Number, const W: usize> Owned<N> for Codes<N, W> {
    fn slice_rows(&self, alloc: Global, a: u32, b: u32) -> Result<Self, Memory> {
        let rows = self.rows.codes_between(alloc, a, b)?;
        let KeptRows { codes, dictionary } = keep_rows(alloc, &rows, &self.dictionary)?;
        Ok(Codes::of_codes(alloc, dictionary, &codes)?)
    }

    fn project(&self, alloc: Global, places: &[u32]) -> Result<Self, Memory> {
        Ok(Codes {
            dictionary: self.dictionary.project(alloc, places)?,
            rows: self.rows.clone()?,
        })
    }

    fn with_values(&self, _alloc: Global, values: Vec<N>) -> Result<Self, Memory>
        requires whole { length values.items ≡ length self.now.dictionary.tuples * self.now.dictionary.width }
        ensures columns { IfOk result (λ g. g.dictionary.width ≡ self.now.dictionary.width) }
        ensures codes { IfOk result (λ g. g.rows.value ≡ self.now.rows.value) }
        ensures dictionary { let old = self.now.dictionary in
            let tuples = tuples_of old.width (length old.tuples) (map N.value values.items) in
            IfOk result (λ g. g.dictionary.tuples ≡ tuples) }
    {
        Ok(Codes {
            dictionary: self.dictionary.with_values(values),
            rows: self.rows.clone()?,
        })
    }
}
