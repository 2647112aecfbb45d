//! The size line.

ghost use Rattle.std.specs.Prelude.{◌≡◌, ◌*◌, ◌<◌, ◌≤◌, ◌^◌, true, IfOk, OnOk};
ghost use Rattle.cla_spec.specs.Matrix.{most_cells};
ghost use Rattle.cla_text.specs.Words.{words_of};
ghost use Rattle.cla_market.specs.Sizes.{size_in, size_from, count_in, shape_in, is_square, array_entries};

use crate::number::{three_words, two_words};
use cla_market::{Banner, Format, LineFault, Size, Symmetry};
use cla_text::read_int;

/// The greatest number of cells of a matrix.
const MOST_CELLS: u64 = 1 << 26;

/// What the size line says under a banner.
#[tactic(auto, unfolding(cla_market::specs::Sizes::size_in))]
pub fn read_size(banner: Banner, line: &[u8]) -> Result<Size, LineFault>
    ensures exact { result ≡ size_in banner (words_of line.now) }
    ensures few { IfOk result (λ size. size.rows * size.cols ≤ most_cells) }
    ensures a_row { IfOk result (λ size. 1 ≤ size.rows) }
    ensures a_col { IfOk result (λ size. 1 ≤ size.cols) }
{
    match banner.format {
        Format::Coordinate => coordinate_size(banner.symmetry, line),
        Format::Array => array_size(banner.symmetry, line),
    }
}

fn coordinate_size(symmetry: Symmetry, line: &[u8]) -> Result<Size, LineFault>
    ensures exact { result ≡ size_from Format.Coordinate symmetry (words_of line.now) }
    ensures few { IfOk result (λ size. size.rows * size.cols ≤ most_cells) }
    ensures a_row { IfOk result (λ size. 1 ≤ size.rows) }
    ensures a_col { IfOk result (λ size. 1 ≤ size.cols) }
{
    match three_words(line) {
        None => Err(LineFault::Size),
        Some((first, second, third)) => {
            let rows = count_in(1, first)?;
            let cols = count_in(1, second)?;
            let entries = count_in(0, third)?;
            shape_in(symmetry, rows, cols)?;
            Ok(Size {
                rows,
                cols,
                entries,
            })
        }
    }
}

fn array_size(symmetry: Symmetry, line: &[u8]) -> Result<Size, LineFault>
    ensures exact { result ≡ size_from Format.Array symmetry (words_of line.now) }
    ensures few { IfOk result (λ size. size.rows * size.cols ≤ most_cells) }
    ensures a_row { IfOk result (λ size. 1 ≤ size.rows) }
    ensures a_col { IfOk result (λ size. 1 ≤ size.cols) }
{
    match two_words(line) {
        None => Err(LineFault::Size),
        Some((first, second)) => {
            let rows = count_in(1, first)?;
            let cols = count_in(1, second)?;
            shape_in(symmetry, rows, cols)?;
            let entries = array_entries(symmetry, rows, cols);
            Ok(Size {
                rows,
                cols,
                entries,
            })
        }
    }
}

// A number from `least` to 2^31 - 1.
fn count_in(least: u32, word: &[u8]) -> Result<u32, LineFault>
    ensures exact { result ≡ count_in least word.now }
    ensures least { IfOk result (λ n. least ≤ n) }
    ensures most { IfOk result (λ n. n < 2 ^ 31) }
{
    match read_int(word) {
        Ok(v) => {
            if v >= least as i128 && v < 1 << 31 {
                Ok(v as u32)
            } else {
                Err(LineFault::Size)
            }
        }
        Err(_) => Err(LineFault::Size),
    }
}

fn is_square(symmetry: Symmetry, rows: u32, cols: u32) -> bool
    ensures { result ≡ is_square symmetry rows cols }
{
    match symmetry {
        Symmetry::General => true,
        Symmetry::Symmetric => rows == cols,
        Symmetry::SkewSymmetric => rows == cols,
    }
}

// Whether a matrix can have this shape.
fn shape_in(symmetry: Symmetry, rows: u32, cols: u32) -> Result<(), LineFault>
    ensures exact { result ≡ shape_in symmetry rows cols }
    ensures few { OnOk result (rows * cols ≤ most_cells) }
    ensures square { OnOk result (is_square symmetry rows cols ≡ true) }
{
    if !is_square(symmetry, rows, cols) {
        return Err(LineFault::Size);
    }
    if u64::from(rows) * u64::from(cols) <= MOST_CELLS {
        Ok(())
    } else {
        Err(LineFault::TooLarge { rows, cols })
    }
}

fn array_entries(symmetry: Symmetry, rows: u32, cols: u32) -> u32
    requires few { rows * cols ≤ most_cells }
    requires a_row { 1 ≤ rows }
    requires square { is_square symmetry rows cols ≡ true }
    ensures { result ≡ array_entries symmetry rows cols }
{
    match symmetry {
        Symmetry::General => rows * cols,
        Symmetry::Symmetric => rows * (rows + 1) / 2,
        Symmetry::SkewSymmetric => rows * (rows - 1) / 2,
    }
}
