//! Tables of groups.

ghost use Rattle.std.specs.Prelude.{◌≡◌, ◌<◌, not, map, IfOk};
ghost use Rattle.cla_layout.specs.Layouts.{IsWhole, layout_with};
ghost use Rattle.cla_coded.specs.Parts.{parts_of};
ghost use Rattle.cla_coded.specs.Tables.{layout_of, rows_of_table, cols_of_table, table_entry, matrix_of};
ghost use Rattle.cla_coded.specs.Outlines.{outline};
ghost use Rattle.cla_coded.specs.Skeletons.{view_of, skeleton_of};

use crate::dense::{Shape, cells_of};
use crate::entry::entry_in;
use crate::part::Part;
use crate::skeleton::{Skeleton, part_skeleton};
use cla_group::Group;
use cla_num::{Dense, Memory, Number};
use std::alloc::Global;
use std::marker::{Model, PhantomData};

/// A matrix that is kept as groups of columns (PVLDB 9(12), section 3), or its transpose.
///
/// The parts describe the base matrix: each of its columns is in one part. A flipped table is the
/// transpose of its base. Contracts see the base's rows, columns and parts, with their groups, and
/// whether the table is flipped.
#[derive(Drop)]
pub struct Table<N: Number, G: Group<N>> {
    rows: u32,
    cols: u32,
    flipped: bool,
    parts: Vec<Part<G>>,
    numbers: PhantomData<N>,
}

impl<N: Number, G: Group<N>> Model for Table<N, G> {
    ghost use Rattle.cla_layout.specs.Layouts.{IsWhole, layout_with};
    ghost use Rattle.cla_coded.specs.Parts.{parts_of};
    ghost use Rattle.cla_coded.specs.Tables.{TableOf};

    ghost Value = { TableOf G };

    ghost view = { λ t. record { rows = t.rows; cols = t.cols; flipped = t.flipped; parts = t.parts.items } };

    ghost invariant = { λ t. IsWhole N.BITS (layout_with t.rows t.cols (parts_of G.codes G.dictionary t.parts.items)) };
}

impl<N: Number, G: Group<N>> Table<N, G> {
    /// The table of these parts, which make a whole layout of a base with `rows` rows and `cols`
    /// columns: each part's columns rise and are as many as its group's width, all together are the
    /// base's, each once, each group has `rows` rows, and there are at most 2^26 cells.
    pub fn new(rows: u32, cols: u32, flipped: bool, parts: Vec<Part<G>>) -> Table<N, G>
        requires { IsWhole N.BITS (layout_with rows cols (parts_of G.codes G.dictionary parts.items)) }
        ensures { result ≡ record { rows = rows; cols = cols; flipped = flipped; parts = parts.items } }
    {
        Table {
            rows,
            cols,
            flipped,
            parts,
            numbers: PhantomData,
        }
    }

    // The table of the same shape with these parts, whose groups have the same columns and codes, and
    // any values.
    pub(crate) fn with_parts<H: Group<N>>(&self, parts: Vec<Part<H>>) -> Table<N, H>
        requires { map (outline H.columns H.codes) parts.items ≡ map (outline G.columns G.codes) self.now.parts }
        ensures { let old = self.now in
            result ≡ record { rows = old.rows; cols = old.cols; flipped = old.flipped; parts = parts.items } }
    {
        Table {
            rows: self.rows,
            cols: self.cols,
            flipped: self.flipped,
            parts,
            numbers: PhantomData,
        }
    }

    /// How many rows the table has.
    pub fn rows(&self) -> u32
        ensures { result ≡ rows_of_table self.now }
    {
        if self.flipped { self.cols } else { self.rows }
    }

    /// How many columns the table has.
    pub fn cols(&self) -> u32
        ensures { result ≡ cols_of_table self.now }
    {
        if self.flipped { self.rows } else { self.cols }
    }

    /// Whether the table is the transpose of its base.
    pub fn flipped(&self) -> bool
        ensures { result ≡ self.now.flipped }
    {
        self.flipped
    }

    /// The parts of the base.
    pub fn parts(&self) -> &[Part<G>]
        ensures parts { result.now ≡ self.now.parts }
        ensures whole { IsWhole N.BITS (layout_of G.codes G.dictionary self.now) }
    {
        &self.parts
    }

    /// The entry in row i and column j of the table, both from 0: the value in the part that has the
    /// column. It takes no memory. It searches the parts for the column, and the group for the row's
    /// code: to go over all entries call `to_dense`.
    pub fn entry(&self, i: u32, j: u32) -> N
        requires row { i < rows_of_table self.now }
        requires col { j < cols_of_table self.now }
        ensures { N.value result ≡ table_entry G.codes G.dictionary self.now i j }
    {
        if self.flipped {
            entry_in(&self.parts, j, i)
        } else {
            entry_in(&self.parts, i, j)
        }
    }

    /// The dense matrix that the table stands for. Each part is written once, row by row, or tuple by
    /// tuple where each row has its own. It takes the cells, and 4 bytes a row while it works.
    pub fn to_dense(&self, alloc: Global) -> Result<Dense<N>, Memory>
        ensures { IfOk result (λ m. m ≡ matrix_of G.codes G.dictionary self.now) }
    {
        let shape = Shape {
            rows: self.rows,
            cols: self.cols,
            flipped: self.flipped,
        };
        let cells = cells_of(alloc, &self.parts, shape, self.entry(0, 0))?;
        Ok(Dense::new(self.rows(), self.cols(), cells))
    }

    /// The groups without their values, with the rows and columns of the base. It goes over the rows of
    /// each group once.
    pub fn skeleton(&self, alloc: Global) -> Result<Skeleton, Memory>
        ensures { IfOk result (λ s. view_of s ≡ skeleton_of G.codes self.now) }
    {
        let mut parts = Vec::with_capacity(alloc, self.parts.len())?;
        for part in &self.parts {
            parts.push(part_skeleton(alloc, part)?)?;
        }
        Ok(Skeleton {
            rows: self.rows,
            cols: self.cols,
            flipped: self.flipped,
            parts,
        })
    }

    /// The transpose. It takes no memory.
    pub fn flip(self) -> Table<N, G>
        ensures { result ≡ record self { flipped = not self.flipped } }
    {
        Table {
            flipped: !self.flipped,
            ..self
        }
    }
}
