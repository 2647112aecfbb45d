//! The matrices that are measured.

ghost use Rattle.std.specs.Prelude.{◌≡◌, length, IfOk};

use crate::stop::Stop;
use crate::task::{Drawn, Task};
use cla_num::{Dense, Int, Number};
use std::alloc::Global;

/// The numbers of the matrices.
pub type Cell = Int<47>;

const MOST_CELLS: u64 = 1 << 26;

// A number that looks like chance, the same for each place each time.
fn mixed(place: u32) -> u32 {
    let first = (place ^ place >> 16).wrapping_mul(0x7feb_352d);
    let second = (first ^ first >> 15).wrapping_mul(0x846c_a68b);
    second ^ second >> 16
}

// The same, for row i and one of several draws.
fn drawn_at(i: u32, draw: u32) -> u32 {
    mixed(mixed(i).wrapping_add(draw.wrapping_mul(0x9e37_79b9)))
}

// The entry of a catalogue: of its twelve columns 0 and 6 are codes, 1, 5, 7 and 11 hang on them, 2, 3 and 9 are flags,
// 4 is a price, 8 a stock and 10 a discount.
fn catalogue_entry(i: u32, j: u32) -> u32 {
    let code = i / 1000 % 500;
    let maker = drawn_at(i, 6) % 60;
    match j % 12 {
        0 => code + 1,
        1 => mixed(code) % 40,
        2 => drawn_at(i, 2) % 2,
        3 => (drawn_at(i, 3) % 100 == 0) as u32,
        4 => drawn_at(i, 4) % 100_000 + 1,
        5 => mixed(code + 1000) % 7 * 5,
        6 => maker,
        7 => mixed(maker) % 10,
        8 => drawn_at(i, 8) % 1000,
        9 => (drawn_at(i, 9) % 3 == 0) as u32,
        10 => mixed(code) % 4 * 5,
        _ => mixed(code + 2000) % 100,
    }
}

// The entry in row i and column j.
fn entry_of(drawn: Drawn, i: u32, j: u32) -> u32 {
    match drawn {
        Drawn::Correlated => (drawn_at(i, j / 4) % 10 * (j % 4 * 2 + 3)) % 10 + j % 3,
        Drawn::Catalogue => catalogue_entry(i, j),
        Drawn::Random => drawn_at(i, j) % 1000,
        Drawn::Sparse => {
            let draw = drawn_at(i, j) % 1000;
            if draw < 20 { draw % 9 + 1 } else { 0 }
        }
    }
}

// The entries row by row.
fn cells_of(alloc: Global, task: &Task, count: u32) -> Result<Vec<Cell>, Stop>
    ensures { IfOk result (λ v. length v.items ≡ count) }
{
    let cols = task.cols.max(1);
    let mut cells = Vec::with_capacity(alloc, count as usize)?;
    for place in 0..count {
        let entry = entry_of(task.drawn, place / cols, place % cols);
        cells.push(Cell::of(i64::from(entry)).ok_or(Stop::Size)?)?;
    }
    Ok(cells)
}

/// The matrix of a task.
pub fn table_of(alloc: Global, task: &Task) -> Result<Dense<Cell>, Stop> {
    let Task { rows, cols, .. } = *task;
    if rows == 0 || cols == 0 || rows as u64 * cols as u64 > MOST_CELLS {
        return Err(Stop::Size);
    }
    let cells = cells_of(alloc, task, rows * cols)?;
    Ok(Dense::new(rows, cols, cells))
}
