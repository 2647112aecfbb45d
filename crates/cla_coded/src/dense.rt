//! From tables to dense matrices: part by part, and row by row.

ghost use Rattle.std.specs.Prelude.{◌≡◌, ◌<◌, ◌*◌, ◌^◌, length, map, IfOk};
ghost use Rattle.cla_layout.specs.Layouts.{IsWhole, layout_with};
ghost use Rattle.cla_coded.specs.Parts.{part_of, parts_of};
ghost use Rattle.cla_coded.specs.Places.{HasCells, IsPartOf, IsRowWritten, IsPartWritten, AreEntries, place_in};

use crate::part::Part;
use cla_group::Group;
use cla_num::{Memory, Number};
use std::alloc::Global;

/// The rows and columns of a base, and whether the table is its transpose.
#[derive(Clone, Copy, Debug)]
pub(crate) struct Shape {
    pub(crate) rows: u32,
    pub(crate) cols: u32,
    pub(crate) flipped: bool,
}

impl Shape {
    // The place, among the table's cells row by row, of the entry in row i and column j of the base.
    fn place(self, i: u32, j: u32) -> usize
        requires row { i < self.rows }
        requires col { j < self.cols }
        requires few { self.rows * self.cols < 2 ^ 31 }
        ensures place { result ≡ place_in self i j }
        ensures within { result < self.rows * self.cols }
    {
        if self.flipped {
            j as usize * self.rows as usize + i as usize
        } else {
            i as usize * self.cols as usize + j as usize
        }
    }
}

/// The cells, row by row, of the table whose base has these parts. `first` fills them until they are
/// written.
pub(crate) fn cells_of<N: Number, G: Group<N>>(
    alloc: Global,
    parts: &[Part<G>],
    shape: Shape,
    first: N,
) -> Result<Vec<N>, Memory>
    requires { IsWhole N.BITS (layout_with shape.rows shape.cols (parts_of G.codes G.dictionary parts.now)) }
    ensures count { IfOk result (λ cells. length cells.items ≡ shape.rows * shape.cols) }
    ensures entries { let base = parts_of G.codes G.dictionary parts.now in
        IfOk result (λ cells. AreEntries shape base (map N.value cells.items)) }
{
    let rows = shape.rows as usize;
    let mut cells = Vec::from_elem(alloc, first, rows * shape.cols as usize)?;
    let mut codes = Vec::from_elem(alloc, 0, rows)?;
    write_parts(parts, shape, &mut codes, &mut cells);
    Ok(cells)
}

// Writes all parts of a whole layout into the table's cells. `codes` is scratch, with a place for each
// row.
fn write_parts<N: Number, G: Group<N>>(
    parts: &[Part<G>],
    shape: Shape,
    codes: &mut [u32],
    cells: &mut [N],
)
    requires whole { IsWhole N.BITS (layout_with shape.rows shape.cols (parts_of G.codes G.dictionary parts.now)) }
    requires codes { length codes.old ≡ shape.rows }
    requires cells { length cells.old ≡ shape.rows * shape.cols }
    ensures { AreEntries shape (parts_of G.codes G.dictionary parts.now) (map N.value cells.new) }
{
    for part in parts {
        write_part(part, shape, codes, cells);
    }
}

// Writes a part.
fn write_part<N: Number, G: Group<N>>(
    part: &Part<G>,
    shape: Shape,
    codes: &mut [u32],
    cells: &mut [N],
)
    requires part { IsPartOf N.BITS shape (part_of G.codes G.dictionary part.now) }
    requires codes { length codes.old ≡ shape.rows }
    requires cells { HasCells shape cells.old }
    ensures { let p = part_of G.codes G.dictionary part.now in
        IsPartWritten shape p (map N.value cells.old) (map N.value cells.new) }
{
    if part.group.tuples() == shape.rows {
        write_tuples(part, shape, cells);
    } else {
        part.group.read_codes(codes);
        write_rows(part, codes, shape, cells);
    }
}

// Writes a part whose rows have a tuple each: every tuple into its row.
fn write_tuples<N: Number, G: Group<N>>(part: &Part<G>, shape: Shape, cells: &mut [N])
    requires part { IsPartOf N.BITS shape (part_of G.codes G.dictionary part.now) }
    requires own { length (G.dictionary part.now.group) ≡ shape.rows }
    requires cells { HasCells shape cells.old }
    ensures { let p = part_of G.codes G.dictionary part.now in
        IsPartWritten shape p (map N.value cells.old) (map N.value cells.new) }
{
    for k in 0..shape.rows {
        write_row(part, k, part.group.first_row(k), shape, cells);
    }
}

// Writes a part whose rows have these codes.
fn write_rows<N: Number, G: Group<N>>(part: &Part<G>, codes: &[u32], shape: Shape, cells: &mut [N])
    requires part { IsPartOf N.BITS shape (part_of G.codes G.dictionary part.now) }
    requires codes { codes.now ≡ G.codes part.now.group }
    requires cells { HasCells shape cells.old }
    ensures { let p = part_of G.codes G.dictionary part.now in
        IsPartWritten shape p (map N.value cells.old) (map N.value cells.new) }
{
    for i in 0..shape.rows {
        write_row(part, codes[i as usize], i, shape, cells);
    }
}

// Writes tuple k into row i, in the columns of the part.
fn write_row<N: Number, G: Group<N>>(part: &Part<G>, k: u32, i: u32, shape: Shape, cells: &mut [N])
    requires part { IsPartOf N.BITS shape (part_of G.codes G.dictionary part.now) }
    requires tuple { k < length (G.dictionary part.now.group) }
    requires row { i < shape.rows }
    requires cells { HasCells shape cells.old }
    ensures { let p = part_of G.codes G.dictionary part.now in
        IsRowWritten shape p k i (map N.value cells.old) (map N.value cells.new) }
{
    for c in 0..part.group.width() {
        cells[shape.place(i, part.columns[c as usize])] = part.group.value(k, c);
    }
}
