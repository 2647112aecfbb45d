//! Generated matrices, as tables and as dense matrices, and their products entry by entry.

use crate::products::Due;
use crate::tables::{GREATEST, KINDS, matrix, part_of};
use cla_checked_tables::{Entry, table_of};
use cla_coded::{AnyGroup, Coded, Part};
use cla_group::Kind;
use cla_num::Dense;
use std::alloc::Global;
use std::test::Fail;

/// A matrix whose rows, or, where it is flipped, whose columns take turns. Its tables have at most so many
/// groups, whose columns take turns, and so do their kinds, from kind `first` on.
#[derive(Clone, Copy)]
pub(crate) struct Generated {
    pub(crate) seed: u32,
    pub(crate) rows: u32,
    pub(crate) cols: u32,
    pub(crate) flipped: bool,
    pub(crate) groups: u32,
    pub(crate) first: usize,
}

impl Generated {
    /// The transpose.
    pub(crate) fn transposed(self) -> Generated {
        Generated {
            seed: self.seed,
            rows: self.cols,
            cols: self.rows,
            flipped: !self.flipped,
            ..self
        }
    }

    // The rows and the columns of the base.
    fn base(self) -> (u32, u32) {
        if self.flipped {
            (self.cols, self.rows)
        } else {
            (self.rows, self.cols)
        }
    }

    // Which row of the base takes its turn in row i: one of about half as many as there are.
    fn turn(self, i: u32) -> u32 {
        i.checked_rem(self.turns()).unwrap_or(0)
    }

    fn turns(self) -> u32 {
        self.base().0.div_ceil(2)
    }

    // The value in column j of the row that takes turn k: at an end of the range, or small; all are small
    // where the seed is odd.
    fn value(self, k: u32, j: u32) -> i64 {
        let mixed = self
            .seed
            .wrapping_add(k.wrapping_mul(3))
            .wrapping_add(j.wrapping_mul(5));
        match (mixed % 6, self.seed % 2) {
            (0, 0) => GREATEST,
            (1, 0) => -GREATEST,
            (0 | 2, _) => 1,
            (1 | 3, _) => -1,
            (4, _) => 2,
            _ => 0,
        }
    }

    /// The entry in row i and column j.
    pub(crate) fn entry(self, i: u32, j: u32) -> i64 {
        if self.flipped {
            self.value(self.turn(j), i)
        } else {
            self.value(self.turn(i), j)
        }
    }

    /// The dense matrix.
    pub(crate) fn dense(self, alloc: Global) -> Result<Dense<Entry>, Fail> {
        let mut cells = Vec::new(alloc);
        for i in 0..self.rows {
            for j in 0..self.cols {
                cells.push(self.entry(i, j))?;
            }
        }
        matrix(alloc, self.rows, self.cols, &cells)
    }

    /// The table.
    pub(crate) fn table(self, alloc: Global) -> Result<Coded<Entry>, Fail> {
        let (rows, cols) = self.base();
        let mut parts = Vec::new(alloc);
        for group in 0..self.groups.min(cols) {
            let kind = KINDS[(self.first % 4 + parts.len() % 4) % 4];
            parts.push(self.part(alloc, kind, group)?)?;
        }
        table_of(alloc, rows, cols, self.flipped, parts)
    }

    // The part of every so many columns.
    fn part(self, alloc: Global, kind: Kind, group: u32) -> Result<Part<AnyGroup<Entry>>, Fail> {
        let columns = self.columns(alloc, group)?;
        let values = self.values(alloc, &columns)?;
        part_of(alloc, kind, &columns, &self.codes(alloc)?, &values)
    }

    fn columns(self, alloc: Global, group: u32) -> Result<Vec<u32>, Fail> {
        let mut columns = Vec::new(alloc);
        for j in group..self.base().1 {
            if j.checked_rem(self.groups) == Some(group) {
                columns.push(j)?;
            }
        }
        Ok(columns)
    }

    fn codes(self, alloc: Global) -> Result<Vec<u32>, Fail> {
        let mut codes = Vec::new(alloc);
        for i in 0..self.base().0 {
            codes.push(self.turn(i))?;
        }
        Ok(codes)
    }

    fn values(self, alloc: Global, columns: &[u32]) -> Result<Vec<i64>, Fail> {
        let mut values = Vec::new(alloc);
        for k in 0..self.turns() {
            for j in columns {
                values.push(self.value(k, *j))?;
            }
        }
        Ok(values)
    }
}

// An entry of a product.
fn exact(a: Generated, b: Generated, i: u32, j: u32) -> i128 {
    let mut sum = 0i128;
    for k in 0..a.cols {
        let product = i128::from(a.entry(i, k)).wrapping_mul(i128::from(b.entry(k, j)));
        sum = sum.wrapping_add(product);
    }
    sum
}

/// The cells of a product, or the row and the column, from 1, of the first that isn't in range.
#[derive(Drop)]
pub(crate) enum Slow {
    Cells(Vec<i64>),
    Fault(u32, u32),
}

impl Slow {
    pub(crate) fn due(&self) -> Due<'_> {
        match self {
            Slow::Cells(cells) => Due::Cells(cells),
            Slow::Fault(row, col) => Due::Fault(*row, *col),
        }
    }
}

/// The product of two matrices, entry by entry.
pub(crate) fn slow_product(alloc: Global, a: Generated, b: Generated) -> Result<Slow, Fail> {
    let mut cells = Vec::new(alloc);
    for i in 0..a.rows {
        for j in 0..b.cols {
            let sum = exact(a, b, i, j);
            if sum > i128::from(GREATEST) || sum < i128::from(-GREATEST) {
                return Ok(Slow::Fault(i.wrapping_add(1), j.wrapping_add(1)));
            }
            cells.push(i64::try_from(sum)?)?;
        }
    }
    Ok(Slow::Cells(cells))
}
