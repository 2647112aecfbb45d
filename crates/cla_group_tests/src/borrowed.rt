//! Tables over groups that are borrowed, with values of their own: they have the same model, and the
//! same parts but for the values. So an operator may go on with a table whose codes it has not copied.

ghost use Rattle.std.specs.Prelude.{◌≡◌, length, map, IfOk};
ghost use Rattle.cla_layout.specs.Groups.{IsGroup};
ghost use Rattle.cla_group.specs.Dictionaries.{AreTuples};
ghost use Rattle.cla_coded.specs.Outlines.{outline};

use cla_coded::{Part, Table};
use cla_group::{Dictionary, Group};
use cla_num::{Memory, Number, Wide};
use std::alloc::Global;

/// The codes of a borrowed group, with a dictionary of its own.
#[derive(Drop)]
pub(crate) struct Mapped<'a, N: Number, G: Group<N>> {
    of: &'a G,
    dictionary: Dictionary<N>,
    ghost is: { IsGroup N.BITS dictionary.width (G.codes of.now) dictionary.tuples },
    ghost as_many: { length dictionary.tuples ≡ length (G.dictionary of.now) },
}

impl<'a, N: Number, G: Group<N>> Group<N> for Mapped<'a, N, G> {
    ghost columns = { λ m. m.dictionary.width };

    ghost codes = { λ m. G.codes m.of.now };

    ghost dictionary = { λ m. m.dictionary.tuples };

    fn rows(&self) -> u32 {
        self.of.rows()
    }

    fn width(&self) -> u32 {
        self.dictionary.width()
    }

    fn tuples(&self) -> u32 {
        self.dictionary.len()
    }

    fn value(&self, k: u32, c: u32) -> N {
        self.dictionary.value(k, c)
    }

    fn occurrences(&self, k: u32) -> u32 {
        self.of.occurrences(k)
    }

    fn first_row(&self, k: u32) -> u32 {
        self.of.first_row(k)
    }

    fn code_at(&self, i: u32) -> u32 {
        self.of.code_at(i)
    }

    fn read_codes(&self, into: &mut [u32]) {
        self.of.read_codes(into)
    }

    fn scatter(&self, parts: &[Wide], into: &mut [Wide]) {
        self.of.scatter(parts, into)
    }

    fn scatter_least(&self, parts: &[Wide], into: &mut [Wide]) {
        self.of.scatter_least(parts, into)
    }

    fn scatter_greatest(&self, parts: &[Wide], into: &mut [Wide]) {
        self.of.scatter_greatest(parts, into)
    }

    fn gather(&self, rows: &[N], into: &mut [Wide]) {
        self.of.gather(rows, into)
    }

    ghost laws = { λ m. m.is };
}

// A dictionary of as many tuples as the group has, all of whose values are its first one.
fn dictionary_like<N: Number, G: Group<N>>(alloc: Global, g: &G) -> Result<Dictionary<N>, Memory>
    ensures width { IfOk result (λ d. d.width ≡ G.columns g.now) }
    ensures count { IfOk result (λ d. length d.tuples ≡ length (G.dictionary g.now)) }
    ensures are { IfOk result (λ d. AreTuples N.BITS d.width d.tuples) }
{
    let values = Vec::from_elem(
        alloc,
        g.value(0, 0),
        g.tuples() as usize * g.width() as usize,
    )?;
    let dictionary = Dictionary::new(g.width(), g.tuples(), values);
    let _tuples = dictionary.len();
    Ok(dictionary)
}

// The part over the borrowed group.
fn borrowed_part<'a, N: Number, G: Group<N>>(
    alloc: Global,
    part: &'a Part<G>,
) -> Result<Part<Mapped<'a, N, G>>, Memory>
    ensures { let old = outline G.columns G.codes part.now in
        IfOk result (λ p. outline (λ m. m.dictionary.width) (λ m. G.codes m.of.now) p ≡ old) }
{
    let columns = Vec::from_slice(alloc, &part.columns)?;
    let dictionary = dictionary_like(alloc, &part.group)?;
    let group = Mapped {
        of: &part.group,
        dictionary,
    };
    Ok(Part { columns, group })
}

// The rows and columns of the base.
fn base_shape<N: Number, G: Group<N>>(m: &Table<N, G>) -> (u32, u32)
    ensures rows { result.0 ≡ m.now.rows }
    ensures cols { result.1 ≡ m.now.cols }
{
    if m.flipped() {
        (m.cols(), m.rows())
    } else {
        (m.rows(), m.cols())
    }
}

/// The table over the borrowed groups of another: it has the same shape, columns and codes.
pub(crate) fn borrowed_table<'a, N: Number, G: Group<N>>(
    alloc: Global,
    m: &'a Table<N, G>,
) -> Result<Table<N, Mapped<'a, N, G>>, Memory>
    ensures shape { IfOk result (λ t. (t.rows ≡ m.now.rows) × (t.cols ≡ m.now.cols)) }
    ensures flipped { IfOk result (λ t. t.flipped ≡ m.now.flipped) }
    ensures outlines { IfOk result (λ t. map (outline (λ p. p.dictionary.width) (λ p. G.codes p.of.now)) t.parts
        ≡ map (outline G.columns G.codes) m.now.parts) }
{
    let mut parts = Vec::new(alloc);
    for part in m.parts() {
        parts.push(borrowed_part(alloc, part)?)?;
    }
    let (rows, cols) = base_shape(m);
    Ok(Table::new(rows, cols, m.flipped(), parts))
}
