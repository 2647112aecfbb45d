//! Operators on cells, one after the other, by rules of their own.

use cla_checked_tables::{Entry, numbers};
use cla_num::CellOp;
use std::alloc::Global;
use std::test::Fail;

/// No entry is as large as this.
const LARGE: i128 = 1 << 47;

/// Cells, row by row.
#[derive(Drop)]
pub(crate) struct Cells {
    pub(crate) rows: u32,
    pub(crate) cols: u32,
    pub(crate) cells: Vec<i64>,
}

impl Cells {
    /// The cells of so many columns.
    pub(crate) fn of(alloc: Global, cols: u32, cells: &[i64]) -> Result<Cells, Fail> {
        let count = u32::try_from(cells.len())?;
        Ok(Cells {
            rows: count.checked_div(cols).ok_or("a column")?,
            cols,
            cells: Vec::from_slice(alloc, cells)?,
        })
    }

    /// Cells from -2 to 2, of which many are the same.
    pub(crate) fn few_values(alloc: Global, rows: u32, cols: u32) -> Result<Cells, Fail> {
        let mut cells = Vec::new(alloc);
        for i in 0..rows {
            for j in 0..cols {
                cells.push(i64::from((i / 2).wrapping_mul(7).wrapping_add(j) % 5) - 2)?;
            }
        }
        Ok(Cells { rows, cols, cells })
    }

    /// The cell in row i and column j.
    pub(crate) fn at(&self, i: u32, j: u32) -> Result<i64, Fail> {
        let place = i as usize * self.cols as usize + j as usize;
        Ok(*self.cells.get(place).ok_or("a cell")?)
    }

    /// The cells of these rows in these columns, row by row.
    pub(crate) fn in_rows(
        &self,
        alloc: Global,
        rows: &[u32],
        columns: &[u32],
    ) -> Result<Vec<i64>, Fail> {
        let mut items = Vec::new(alloc);
        for i in rows {
            for j in columns {
                items.push(self.at(*i, *j)?)?;
            }
        }
        Ok(items)
    }

    /// Two rows have the same cells in these columns.
    pub(crate) fn are_alike(&self, i: u32, r: u32, columns: &[u32]) -> Result<bool, Fail> {
        for j in columns {
            if self.at(i, *j)? != self.at(r, *j)? {
                return Ok(false);
            }
        }
        Ok(true)
    }

    /// The transpose.
    pub(crate) fn turned(&self, alloc: Global) -> Result<Cells, Fail> {
        let mut cells = Vec::new(alloc);
        for j in 0..self.cols {
            for i in 0..self.rows {
                cells.push(self.at(i, j)?)?;
            }
        }
        Ok(Cells {
            rows: self.cols,
            cols: self.rows,
            cells,
        })
    }

    // What `fold` makes of each row, from its first cell on.
    fn by_row(&self, alloc: Global, fold: Fold) -> Result<Vec<Entry>, Fail> {
        let mut made = Vec::new(alloc);
        for i in 0..self.rows {
            made.push(self.folded(i, fold)?)?;
        }
        numbers(alloc, &made)
    }

    // What `fold` makes of each of these lines.
    fn by_line(&self, alloc: Global, fold: Fold, lines: Lines) -> Result<Outcome, Fail> {
        match lines {
            Lines::All => {
                let flat = Cells::of(alloc, u32::try_from(self.cells.len())?, &self.cells)?;
                Ok(Outcome::Cells(1, 1, flat.by_row(alloc, fold)?))
            }
            Lines::Rows => Ok(Outcome::Cells(self.rows, 1, self.by_row(alloc, fold)?)),
            Lines::Columns => {
                let turned = self.turned(alloc)?;
                Ok(Outcome::Cells(1, self.cols, turned.by_row(alloc, fold)?))
            }
        }
    }

    // What `fold` makes of row i.
    fn folded(&self, i: u32, fold: Fold) -> Result<i64, Fail> {
        let mut value = self.at(i, 0)?;
        for j in 1..self.cols {
            value = fold.joined(value, self.at(i, j)?);
        }
        Ok(value)
    }
}

/// How two values become one.
#[derive(Clone, Copy)]
pub(crate) enum Fold {
    Sum,
    Least,
    Greatest,
}

impl Fold {
    fn joined(self, a: i64, b: i64) -> i64 {
        match self {
            Fold::Sum => a.saturating_add(b),
            Fold::Least => a.min(b),
            Fold::Greatest => a.max(b),
        }
    }
}

/// The lines of which a number each is made.
#[derive(Clone, Copy)]
pub(crate) enum Lines {
    All,
    Rows,
    Columns,
}

/// A call on a table, and what it is given.
#[derive(Clone, Copy)]
pub(crate) enum Call<'a> {
    Of(Fold, Lines),
    Chain(&'a [SlowStep]),
    Row(CellOp, &'a [i64]),
}

/// What a call answers.
#[derive(Drop)]
pub(crate) enum Outcome {
    /// A matrix of these rows, columns and cells.
    Cells(u32, u32, Vec<Entry>),

    /// A fault at this step, from 0, and this row and column, from 1.
    Fault(u32, u32, u32),
}

impl Outcome {
    /// A matrix of so many rows and these cells.
    pub(crate) fn of(alloc: Global, rows: u32, cells: &[i64]) -> Result<Outcome, Fail> {
        let count = u32::try_from(cells.len())?;
        let cols = count.checked_div(rows).ok_or("a row")?;
        Ok(Outcome::Cells(rows, cols, numbers(alloc, cells)?))
    }

    /// Both are the same cells, or the same fault.
    pub(crate) fn is(&self, other: &Outcome) -> bool {
        match (self, other) {
            (Outcome::Cells(rows, cols, cells), Outcome::Cells(height, width, others)) => {
                (*rows, *cols) == (*height, *width) && cells.as_slice() == others.as_slice()
            }
            (Outcome::Fault(op, row, col), Outcome::Fault(step, i, j)) => {
                (*op, *row, *col) == (*step, *i, *j)
            }
            _ => false,
        }
    }
}

/// What a call on these cells has to answer.
pub(crate) fn expected(alloc: Global, cells: &Cells, call: Call) -> Result<Outcome, Fail> {
    match call {
        Call::Of(fold, lines) => cells.by_line(alloc, fold, lines),
        Call::Chain(steps) => chained(alloc, cells, steps),
        Call::Row(op, row) => with_row(alloc, cells, op, row),
    }
}

/// A step of a chain.
#[derive(Clone, Copy)]
pub(crate) enum SlowStep {
    Right(CellOp, i64),
    Left(CellOp, i64),
    Neg,
    Square,
}

impl SlowStep {
    // The value in range.
    fn value(self, x: i64) -> Option<i64> {
        match self {
            SlowStep::Right(op, b) => in_range(exact(op, x, b)),
            SlowStep::Left(op, a) => in_range(exact(op, a, x)),
            SlowStep::Neg => in_range(exact(CellOp::Neg, x, x)),
            SlowStep::Square => in_range(exact(CellOp::Mul, x, x)),
        }
    }
}

// All steps on all cells, one step after the other.
fn chained(alloc: Global, cells: &Cells, steps: &[SlowStep]) -> Result<Outcome, Fail> {
    let mut values = Vec::from_slice(alloc, &cells.cells)?;
    let mut op = 0u32;
    for step in steps {
        if let Some(place) = stepped(*step, &mut values) {
            return fault(op, place, cells.cols as usize);
        }
        op = op.saturating_add(1);
    }
    Ok(Outcome::Cells(cells.rows, cells.cols, numbers(alloc, &values)?))
}

// The step on each value up to the first that has a fault, and where that stands.
fn stepped(step: SlowStep, values: &mut [i64]) -> Option<usize> {
    for place in 0..values.len() {
        match step.value(values[place]) {
            Some(value) => values[place] = value,
            None => return Some(place),
        }
    }
    None
}

// The cells with the row's number in their column.
fn with_row(alloc: Global, cells: &Cells, op: CellOp, row: &[i64]) -> Result<Outcome, Fail> {
    let mut made = Vec::new(alloc);
    let cols = cells.cols as usize;
    for place in 0..cells.cells.len() {
        let column = place.checked_rem(cols).ok_or("a column")?;
        let b = *row.get(column).ok_or("a number")?;
        match in_range(exact(op, cells.cells[place], b)) {
            Some(value) => made.push(value)?,
            None => return fault(0, place, cols),
        }
    }
    Ok(Outcome::Cells(cells.rows, cells.cols, numbers(alloc, &made)?))
}

// A fault at this step and cell.
fn fault(op: u32, place: usize, cols: usize) -> Result<Outcome, Fail> {
    let row = u32::try_from(place.checked_div(cols).ok_or("a column")?)?;
    let col = u32::try_from(place.checked_rem(cols).ok_or("a column")?)?;
    Ok(Outcome::Fault(op, row.saturating_add(1), col.saturating_add(1)))
}

// The value, if it is an entry's.
fn in_range(exact: Option<i128>) -> Option<i64> {
    let v = exact?;
    if v < LARGE && v > -LARGE {
        i64::try_from(v).ok()
    } else {
        None
    }
}

// The exact value of `a op b`; None where b is a divisor and 0.
fn exact(op: CellOp, a: i64, b: i64) -> Option<i128> {
    let (x, y) = (i128::from(a), i128::from(b));
    match op {
        CellOp::Add => Some(x.saturating_add(y)),
        CellOp::Sub => Some(x.saturating_sub(y)),
        CellOp::Mul => Some(x.saturating_mul(y)),
        CellOp::Div => quotient(x, y),
        CellOp::Mod => Some(x.saturating_sub(y.saturating_mul(quotient(x, y)?))),
        CellOp::Lt => Some(i128::from(x < y)),
        CellOp::Le => Some(i128::from(x <= y)),
        CellOp::Gt => Some(i128::from(x > y)),
        CellOp::Ge => Some(i128::from(x >= y)),
        CellOp::Eq => Some(i128::from(x == y)),
        CellOp::Ne => Some(i128::from(x != y)),
        CellOp::Neg => Some(0i128.saturating_sub(x)),
    }
}

// The quotient by floor.
fn quotient(x: i128, y: i128) -> Option<i128> {
    let towards_zero = x.checked_div(y)?;
    if x.checked_rem(y)? != 0 && (x < 0) != (y < 0) {
        return Some(towards_zero.saturating_sub(1));
    }
    Some(towards_zero)
}
