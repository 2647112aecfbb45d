//! Matrices whose shape is tested when the tests run, and what is seen of their cuts.

ghost use Rattle.std.specs.Prelude.{◌≡◌, ◌<◌, ◌^◌, length, IfOk};

use cla_cocode::Cut;
use cla_layout::Kind;
use cla_num::{Dense, Int, Number};
use std::alloc::Global;
use std::test::Fail;

pub(crate) type Entry = Int<47>;

/// At most so many cells may a matrix have.
pub(crate) const MOST_CELLS: u64 = 1 << 26;

/// The matrix of these integers, which stand row by row.
pub(crate) fn matrix(alloc: Global, rows: u32, cols: u32, of: &[i64]) -> Result<Dense<Entry>, Fail>
    ensures rows { IfOk result (λ m. m.rows ≡ rows) }
    ensures cols { IfOk result (λ m. m.cols ≡ cols) }
{
    let mut cells = Vec::with_capacity(alloc, of.len())?;
    for v in of {
        cells.push(Entry::of(*v).ok_or("in range")?)?;
    }
    let count = cells.len() as u64;
    if rows == 0 || cols == 0 || count > MOST_CELLS || count != rows as u64 * cols as u64 {
        return Err(Fail::new("a matrix of another shape"));
    }
    Ok(Dense::new(rows, cols, cells))
}

/// Of a cut, how many groups it has, and of the first its kind, its last column, how many columns, and its bytes.
pub(crate) type Seen = (usize, Kind, u32, usize, u64);

/// What is seen of a cut that has groups.
pub(crate) fn seen(cut: &Cut) -> Option<Seen> {
    let group = cut.groups.first()?;
    let last = group.columns.last()?;
    let groups = cut.groups.len();
    Some((groups, group.kind, *last, group.columns.len(), group.bytes))
}
