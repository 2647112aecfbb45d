//! Texts and tables that are made by formula.

ghost use Rattle.std.specs.Prelude.{◌≤◌};

use crate::heads::{ARRAY, GENERAL};
use std::alloc::Global;
use std::test::Fail;

/// The rows and columns of the tables by formula.
pub(crate) const ROWS: u32 = 300;

pub(crate) const COLS: u32 = 90;

/// The value in row i and column j, both from 0.
pub(crate) fn value_at(i: u32, j: u32) -> i64
    requires row { i ≤ 1000 }
    requires col { j ≤ 1000 }
{
    i64::from((i * 31 + j * 17) % 2003) - 1001
}

/// The array file of the table, of more than 65,536 bytes.
pub(crate) fn array_text(alloc: Global) -> Result<String, Fail> {
    let mut text = String::from_str(alloc, ARRAY)?;
    text.push_str("300 90\n")?;
    for j in 0..COLS {
        push_column(&mut text, j)?;
    }
    Ok(text)
}

fn push_column(text: &mut String, j: u32) -> Result<(), Fail>
    requires { j ≤ 1000 }
{
    for i in 0..ROWS {
        writeln!(text, "{}", value_at(i, j))?;
    }
    Ok(())
}

/// The cells of the table, row by row.
pub(crate) fn cells(alloc: Global) -> Result<Vec<i64>, Fail> {
    let mut made = Vec::new(alloc);
    for k in 0..ROWS * COLS {
        made.push(value_at(k / COLS, k % COLS))?;
    }
    Ok(made)
}

/// A file of 1000 entries in a table of `rows` by `cols`, in no order, some of one cell: the k-th
/// stands in row `k * 7919` and column `k * 104729`, modulo the rows and columns.
pub(crate) fn scattered_text(alloc: Global, rows: u32, cols: u32) -> Result<String, Fail>
    requires some_rows { 1 ≤ rows }
    requires some_cols { 1 ≤ cols }
{
    let mut text = String::from_str(alloc, GENERAL)?;
    writeln!(text, "{rows} {cols} 1000")?;
    for k in 0..1000u32 {
        writeln!(
            text,
            "{} {} {}",
            k * 7919 % rows + 1,
            k * 104_729 % cols + 1,
            value_at(k, 0)
        )?;
    }
    Ok(text)
}

/// The cells of its table, row by row.
pub(crate) fn scattered_cells(alloc: Global, rows: u32, cols: u32) -> Result<Vec<i64>, Fail>
    requires some_rows { 1 ≤ rows }
    requires some_cols { 1 ≤ cols }
{
    let mut made = Vec::from_elem(alloc, 0i64, rows as usize * cols as usize)?;
    for k in 0..1000u32 {
        let (row, col) = (k * 7919 % rows, k * 104_729 % cols);
        if let Some(cell) = made.get_mut(row as usize * cols as usize + col as usize) {
            *cell = cell.saturating_add(value_at(k, 0));
        }
    }
    Ok(made)
}

/// The text of a banner, a size line, a comment of so many bytes, and two entries, the matrix of
/// which is 0, 56 and 0, -3. The first entry's line, of 13 bytes, begins at byte `58 + width`.
pub(crate) fn padded_text(alloc: Global, width: usize) -> Result<Vec<u8>, Fail> {
    let mut text = GENERAL.as_bytes().to_vec(alloc)?;
    text.extend_from_slice(b"2 2 2\n%")?;
    text.extend_from_slice(&Vec::from_elem(alloc, b'x', width)?)?;
    text.extend_from_slice(b"\r\n 1\t2  +0056\r\n2 2 -3\r\n")?;
    Ok(text)
}
