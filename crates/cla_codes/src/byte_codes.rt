//! Rows that keep one code each, in bytes.

ghost use Rattle.std.specs.Prelude.{◌≡◌, ◌<◌, ◌≤◌, ◌+◌, ◌-◌, ◌*◌, ℕ, List, length, take, drop, true, IfOk};
ghost use Rattle.cla_spec.specs.Matrix.{most_cells};
ghost use Rattle.cla_layout.specs.Groups.{code_of, occurrences_of, first_row_of};
ghost use Rattle.cla_rows.specs.Counted.{AreCounted};
ghost use Rattle.cla_codes.specs.Widths.{FitsWidth, is_code_width};
ghost use Rattle.cla_codes.specs.Bytes.{codes_in, AreWritten};

use crate::bytes::{read_code, write_codes};
use crate::row_codes::RowCodes;
use cla_num::Memory;
use cla_rows::Occurrences;
use std::alloc::Global;
use std::marker::Model;

/// The code of each row in W bytes, and for each code how many rows have it and which is the first.
#[derive(Drop)]
pub struct ByteCodes<const W: usize> {
    rows: u32,
    bytes: Vec<u8>,
    occurrences: Occurrences,
}

impl<const W: usize> Model for ByteCodes<W> {
    ghost use Rattle.std.specs.Prelude.{List, ℕ};
    ghost use Rattle.cla_codes.specs.Bytes.{codes_in, AreKept};

    ghost Value = { List ℕ };

    ghost view = { λ r. codes_in W r.bytes.items r.rows };

    ghost invariant = { λ r. AreKept W r.rows (codes_in W r.bytes.items r.rows) r.bytes.items r.occurrences.counts.items
        r.occurrences.first_rows.items };
}

impl<const W: usize> ByteCodes<W> {
    /// The bytes of these codes, which are below `tuples`.
    pub fn from_codes(alloc: Global, codes: &[u32], tuples: u32) -> Result<ByteCodes<W>, Memory>
        requires below { (i : ℕ) → i < length codes.now → code_of codes.now i < tuples }
        requires few { length codes.now ≤ most_cells }
        requires fits { FitsWidth W tuples }
        ensures { IfOk result (λ r. r ≡ codes.now) }
    {
        let bytes = write_codes::<W>(alloc, codes)?;
        ByteCodes::from_bytes(alloc, codes.len() as u32, bytes, tuples)
    }

    /// These codes, which are below `tuples`, in their own bytes.
    pub fn from_row_codes(
        alloc: Global,
        codes: RowCodes,
        tuples: u32,
    ) -> Result<ByteCodes<W>, Memory>
        requires width { codes.width ≡ W }
        requires below { (i : ℕ) → i < length codes.codes → code_of codes.codes i < tuples }
        requires few { length codes.codes ≤ most_cells }
        requires fits { FitsWidth W tuples }
        ensures { IfOk result (λ r. r ≡ codes.codes) }
    {
        let bytes = codes.into_bytes();
        ByteCodes::from_bytes(alloc, (bytes.len() / W) as u32, bytes, tuples)
    }

    // The codes of these rows, which are in these bytes.
    fn from_bytes(
        alloc: Global,
        rows: u32,
        bytes: Vec<u8>,
        tuples: u32,
    ) -> Result<ByteCodes<W>, Memory>
        requires size { length bytes.items ≡ rows * W }
        requires below { (i : ℕ) → i < rows → code_of (codes_in W bytes.items rows) i < tuples }
        requires few { rows ≤ most_cells }
        requires fits { FitsWidth W tuples }
        ensures { IfOk result (λ r. r ≡ codes_in W bytes.items rows) }
    {
        let occurrences = counted::<W>(alloc, &bytes, rows, tuples)?;
        Ok(ByteCodes {
            rows,
            bytes,
            occurrences,
        })
    }

    /// How many rows there are.
    pub fn len(&self) -> u32
        ensures { result ≡ length self.now }
    {
        self.rows
    }

    /// How many rows have code k.
    pub fn occurrences(&self, k: u32) -> u32
        requires { 0 < occurrences_of self.now k }
        ensures { result ≡ occurrences_of self.now k }
    {
        self.occurrences.counts[k as usize]
    }

    /// The first row that has code k.
    pub fn first_row(&self, k: u32) -> u32
        requires { 0 < occurrences_of self.now k }
        ensures { result ≡ first_row_of self.now k }
    {
        self.occurrences.first_rows[k as usize]
    }

    /// The code of row i.
    #[inline(always)]
    pub fn code_at(&self, i: u32) -> u32
        requires { i < length self.now }
        ensures { result ≡ code_of self.now i }
    {
        read_code::<W>(&self.bytes, i)
    }

    /// The codes of the rows from row `first` on, as many as `into` has places.
    pub fn read(&self, first: u32, into: &mut [u32])
        requires within { first + length into.old ≤ length self.now }
        ensures { into.new ≡ take (length into.old) (drop first self.now) }
    {
        let bytes = self.bytes.as_slice();
        let count = into.len() as u32;
        for i in 0..count {
            into[i as usize] = read_code::<W>(bytes, first + i);
        }
    }

    /// The codes of the rows from row a to before row b.
    pub fn codes_between(&self, alloc: Global, a: u32, b: u32) -> Result<Vec<u32>, Memory>
        requires order { a ≤ b }
        requires within { b ≤ length self.now }
        ensures { IfOk result (λ codes. codes.items ≡ take (b - a) (drop a self.now)) }
    {
        let mut codes = vec![in alloc; 0; (b - a) as usize]?;
        self.read(a, &mut codes);
        Ok(codes)
    }

    /// The bytes of all codes, one row after the other.
    pub fn bytes(&self) -> &[u8]
        ensures { AreWritten W (length self.now) self.now result.now }
    {
        &self.bytes
    }
}

// Counts the rows of each code, and finds the first, in one pass over the bytes of the rows.
fn counted<const W: usize>(
    alloc: Global,
    bytes: &[u8],
    rows: u32,
    tuples: u32,
) -> Result<Occurrences, Memory>
    requires width { is_code_width W ≡ true }
    requires size { length bytes.now ≡ rows * W }
    requires below { (i : ℕ) → i < rows → code_of (codes_in W bytes.now rows) i < tuples }
    requires few { rows ≤ most_cells }
    ensures { let codes = codes_in W bytes.now rows in
        IfOk result (λ found. AreCounted codes tuples found.counts.items found.first_rows.items) }
{
    let mut counts = vec![in alloc; 0; tuples as usize]?;
    let mut first_rows = vec![in alloc; rows; tuples as usize]?;
    for i in (0..rows).rev() {
        let k = read_code::<W>(bytes, i) as usize;
        counts[k] += 1;
        first_rows[k] = i;
    }
    Ok(Occurrences { counts, first_rows })
}
