//! The distinct tuples of columns.

ghost use Rattle.std.specs.Prelude.{◌≡◌, ◌-◌, ◌<◌, ◌≤◌, length, IfOk};
ghost use Rattle.cla_layout.specs.Groups.{occurrences_of};
ghost use Rattle.cla_grouping.specs.Tuples.{AreColumns, AreTuples, tuples_in, joined};
ghost use Rattle.cla_num.specs.declared.number.TheConstants.{GREATEST_BITS};
ghost use Rattle.cla_numbering.specs.Together.{AreNumberedTo};
ghost use Rattle.cla_stats.specs.Coded.{tuples_seen, tuples_of_each, runs_of, CanJoin};

use crate::coded::{Coded, code_columns, code_entries, code_numbered, join_codes};
use crate::counts::{Counts, count_codes};
use cla_num::{Dense, Memory, Number};
use cla_numbering::{NumberedColumn, gathered, number_together};
use std::alloc::Global;
use std::marker::Model;

/// The distinct tuples of some columns of a matrix (PVLDB 9(12), section 3), and how many rows and
/// maximal runs each has. A code numbers the tuples by the first row that has them. Contracts see how
/// many columns and tuples there are, the code of each row, and the code of the tuple of zeros.
#[derive(Drop)]
pub struct Tuples {
    coded: Coded,
    counts: Counts,
}

impl Model for Tuples {
    ghost use Rattle.cla_grouping.specs.Tuples.{TuplesOf, AreTuples};
    ghost use Rattle.cla_stats.specs.Coded.{tuples_seen, AreCounts};

    ghost Value = { TuplesOf };

    ghost view = { λ t. tuples_seen t.coded };

    ghost invariant = { λ t. AreTuples (tuples_seen t.coded)
        × AreCounts (tuples_seen t.coded) t.counts.occurrences.items t.counts.runs.items };
}

impl Tuples {
    /// The tuples of these columns, which are one at least and rise. Each column is gone over once, and
    /// the rows once more for each column and for the counts. It takes 4 bytes a row, and 8 a tuple.
    pub fn count<N: Number>(alloc: Global, m: &Dense<N>, columns: &[u32]) -> Result<Tuples, Memory>
        requires { AreColumns m.now.cols columns.now }
        ensures { IfOk result (λ t. t ≡ tuples_in m.now columns.now) }
    {
        counted(alloc, code_columns(alloc, m, columns)?)
    }

    /// The tuples of each of the columns from `first` on and before `past`, by itself. The matrix is gone over once
    /// for all of them, and the cells that stand side by side in a row are read together. Where a value is below 0 or
    /// not below 4,096, they are gone over once more, and it takes 8 bytes a cell while it works.
    pub fn count_each<N: Number>(
        alloc: Global,
        m: &Dense<N>,
        first: u32,
        past: u32,
    ) -> Result<Vec<Tuples>, Memory>
        requires order { first ≤ past }
        requires within { past ≤ m.now.cols }
        ensures { IfOk result (λ v. v.items ≡ tuples_of_each m.now first (past - first)) }
    {
        match number_together(alloc, m, first, past)? {
            Some(columns) => count_numbered(alloc, m, first, columns),
            None => count_gathered(alloc, m, first, past),
        }
    }

    /// The pairs of the tuples of two groups of columns with the same rows, as for the columns of both
    /// together. The cells are not asked again: codes are joined, through a table where there are few
    /// pairs against the rows.
    pub fn join(alloc: Global, a: &Tuples, b: &Tuples) -> Result<Tuples, Memory>
        requires { CanJoin a.now b.now }
        ensures { IfOk result (λ t. t ≡ joined a.now b.now) }
    {
        counted(alloc, join_codes(alloc, &a.coded, &b.coded)?)
    }

    /// How many rows there are.
    pub fn rows(&self) -> u32
        ensures { result ≡ length self.now.codes }
    {
        self.coded.codes.len() as u32
    }

    /// How many columns there are.
    pub fn width(&self) -> u32
        ensures { result ≡ self.now.width }
    {
        self.coded.width
    }

    /// How many distinct tuples there are.
    pub fn distinct(&self) -> u32
        ensures { result ≡ self.now.distinct }
    {
        self.coded.distinct
    }

    /// The code of each row's tuple.
    pub fn codes(&self) -> &[u32]
        ensures codes { result.now ≡ self.now.codes }
        ensures are { AreTuples self.now }
    {
        &self.coded.codes
    }

    /// How many rows have tuple k.
    pub fn occurrences(&self, k: u32) -> u32
        requires { k < self.now.distinct }
        ensures { result ≡ occurrences_of self.now.codes k }
    {
        self.counts.occurrences[k as usize]
    }

    /// How many maximal runs of rows have tuple k.
    pub fn runs(&self, k: u32) -> u32
        requires { k < self.now.distinct }
        ensures { result ≡ runs_of self.now.codes k }
    {
        self.counts.runs[k as usize]
    }

    /// The code of the tuple of zeros; `None` exactly where no row has it.
    pub fn zero(&self) -> Option<u32>
        ensures { result ≡ self.now.zero }
    {
        self.coded.zero
    }
}

// The tuples, with their counts.
fn counted(alloc: Global, coded: Coded) -> Result<Tuples, Memory>
    requires { AreTuples (tuples_seen coded) }
    ensures { IfOk result (λ t. t ≡ tuples_seen coded) }
{
    let counts = count_codes(alloc, &coded.codes, coded.distinct)?;
    Ok(Tuples { coded, counts })
}

// The tuples of columns that are numbered, from the first on.
fn count_numbered<N: Number>(
    alloc: Global,
    m: &Dense<N>,
    first: u32,
    columns: Vec<NumberedColumn>,
) -> Result<Vec<Tuples>, Memory>
    requires bits { N.BITS ≤ GREATEST_BITS }
    requires numbered { AreNumberedTo m.now first (λ _. m.now.rows) columns.items }
    ensures { IfOk result (λ v. v.items ≡ tuples_of_each m.now first (length columns.items)) }
{
    // The cells tell that there are few rows, and that their numbers are in range.
    let _ = m.cells();
    let mut each = Vec::with_capacity(alloc, columns.len())?;
    for column in columns {
        each.push(counted(alloc, code_numbered(column))?)?;
    }
    Ok(each)
}

// The tuples of each of the columns from `first` on and before `past`, whose entries are brought together first.
fn count_gathered<N: Number>(
    alloc: Global,
    m: &Dense<N>,
    first: u32,
    past: u32,
) -> Result<Vec<Tuples>, Memory>
    requires order { first ≤ past }
    requires within { past ≤ m.now.cols }
    ensures { IfOk result (λ v. v.items ≡ tuples_of_each m.now first (past - first)) }
{
    // The cells tell that there are few rows.
    let _ = m.cells();
    let mut each = Vec::with_capacity(alloc, (past - first) as usize)?;
    for items in gathered(alloc, m, first, past)? {
        each.push(counted(alloc, code_entries(alloc, &items)?)?)?;
    }
    Ok(each)
}
