//! Entry lines.

ghost use Rattle.std.specs.Prelude.{◌≡◌, ℕ, ◌<◌, IfOk, pos};
ghost use Rattle.cla_num.specs.Bits.{IsSupported};
ghost use Rattle.cla_text.specs.Words.{words_of};
ghost use Rattle.cla_market.specs.Results.{one_of, two_of, three_of};
ghost use Rattle.cla_market_lines.specs.Lines.{map_ok, triple_of};
ghost use Rattle.cla_market.specs.Entries.{coordinate_entry, pattern_entry, array_entry, diagonal_in, value_of};
ghost use Rattle.cla_market.specs.Entries.{is_zero};

use crate::number::{index_of, number_in, one_word, three_words, two_words};
use cla_market::{LineFault, Symmetry};
use cla_num::Number;

/// A value at a cell. Rows and columns count from 0.
#[derive(Clone, Copy, Debug, PartialEq, Eq)]
pub struct Entry<N> {
    pub row: u32,
    pub col: u32,
    pub value: N,
}

/// The entry of a line of a coordinate file of integers: its row, its column and its value.
pub fn read_coordinate_entry<N: Number>(
    symmetry: Symmetry,
    rows: u32,
    cols: u32,
    line: &[u8],
) -> Result<Entry<N>, LineFault>
    requires { IsSupported N.BITS }
    ensures exact { let words = words_of line.now in
        map_ok (triple_of N.value) result ≡ coordinate_entry N.BITS symmetry rows cols (three_of words) }
    ensures row { IfOk result (λ entry. entry.row < rows) }
    ensures col { IfOk result (λ entry. entry.col < cols) }
{
    match three_words(line) {
        None => Err(LineFault::Entry),
        Some((first, second, third)) => {
            let row = number_in(first)?;
            let col = number_in(second)?;
            let number = number_in(third)?;
            let row = index_of(row, rows)?;
            let col = index_of(col, cols)?;
            diagonal_in(symmetry, row, col, number)?;
            let value = value_of(number)?;
            Ok(Entry { row, col, value })
        }
    }
}

/// The entry of a line of a pattern: its row and its column. Its value is 1.
pub fn read_pattern_entry<N: Number>(
    rows: u32,
    cols: u32,
    line: &[u8],
) -> Result<Entry<N>, LineFault>
    requires { IsSupported N.BITS }
    ensures exact { map_ok (triple_of N.value) result ≡ pattern_entry rows cols (two_of (words_of line.now)) }
    ensures row { IfOk result (λ entry. entry.row < rows) }
    ensures col { IfOk result (λ entry. entry.col < cols) }
{
    match two_words(line) {
        None => Err(LineFault::Entry),
        Some((first, second)) => {
            let row = number_in(first)?;
            let col = number_in(second)?;
            let row = index_of(row, rows)?;
            let col = index_of(col, cols)?;
            let value = one();
            Ok(Entry { row, col, value })
        }
    }
}

/// The entry of a line of an array file, whose cell this is.
pub fn read_array_entry<N: Number>(row: u32, col: u32, line: &[u8]) -> Result<Entry<N>, LineFault>
    requires { IsSupported N.BITS }
    ensures exact { let cell : ℕ × ℕ = (row, col) in
        map_ok (triple_of N.value) result ≡ array_entry N.BITS cell (one_of (words_of line.now)) }
    ensures row { IfOk result (λ entry. entry.row ≡ row) }
    ensures col { IfOk result (λ entry. entry.col ≡ col) }
{
    match one_word(line) {
        None => Err(LineFault::Entry),
        Some(word) => {
            let number = number_in(word)?;
            let value = value_of(number)?;
            Ok(Entry { row, col, value })
        }
    }
}

fn is_zero(value: Option<i128>) -> bool
    ensures { result ≡ is_zero value }
{
    match value {
        Some(v) => v == 0,
        None => false,
    }
}

// The diagonal of a skew-symmetric matrix is 0.
fn diagonal_in(symmetry: Symmetry, row: u32, col: u32, value: Option<i128>) -> Result<(), LineFault>
    ensures { result ≡ diagonal_in symmetry row col value }
{
    match symmetry {
        Symmetry::General => Ok(()),
        Symmetry::Symmetric => Ok(()),
        Symmetry::SkewSymmetric => {
            if row == col && !is_zero(value) {
                Err(LineFault::Diagonal)
            } else {
                Ok(())
            }
        }
    }
}

// The number of an integer, if it is in range.
fn value_of<N: Number>(value: Option<i128>) -> Result<N, LineFault>
    requires { IsSupported N.BITS }
    ensures { map_ok N.value result ≡ value_of N.BITS value }
{
    match value {
        Some(wide) => match i64::try_from(wide) {
            Ok(v) => match N::of(v) {
                Some(number) => Ok(number),
                None => Err(LineFault::Range),
            },
            Err(_) => Err(LineFault::Range),
        },
        None => Err(LineFault::Range),
    }
}

fn one<N: Number>() -> N
    requires { IsSupported N.BITS }
    ensures { N.value result ≡ pos 1 }
{
    match N::of(1) {
        Some(one) => one,
        None => unreachable!("1 is in range"),
    }
}
