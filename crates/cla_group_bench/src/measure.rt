//! The calls, and how long they take.

ghost use Rattle.std.specs.Prelude.{◌≡◌};
ghost use Rattle.cla_coded.specs.AnyGroups.{any_columns};

use crate::input::{Cell, multiples, parts_of, zeros};
use crate::task::Task;
use cla_coded::{AnyGroup, Part, Table};
use cla_group::{Group, Owned};
use cla_measuring::{Measured, Stop, sum_of_codes, sum_of_values, sum_of_wides};
use std::alloc::Global;
use std::rt::{Clock, Runtime};
use std::time::Instant;

/// How many groups of other values are made one after the other, since one alone takes too short a time.
const MADE: u32 = 16;

fn scatter(
    rt: &(impl Clock + AllocGlobal),
    task: &Task,
    group: &AnyGroup<Cell>,
) -> Result<Measured, Stop> {
    let parts = parts_of(rt.alloc(), group.tuples())?;
    let mut best = Measured::new();
    for _ in 0..task.rounds {
        let mut into = zeros(rt.alloc(), group.rows())?;
        let start = Instant::now(rt)?;
        group.scatter(&parts, &mut into);
        best.end_round(rt, start)?;
        best.sum = sum_of_wides(&into);
    }
    Ok(best)
}

fn gather(
    rt: &(impl Clock + AllocGlobal),
    task: &Task,
    group: &AnyGroup<Cell>,
) -> Result<Measured, Stop> {
    let items = multiples(rt.alloc(), group.rows(), 3)?;
    let mut best = Measured::new();
    for _ in 0..task.rounds {
        let mut into = zeros(rt.alloc(), group.tuples())?;
        let start = Instant::now(rt)?;
        group.gather(&items, &mut into);
        best.end_round(rt, start)?;
        best.sum = sum_of_wides(&into);
    }
    Ok(best)
}

// The values are made within the time.
fn with_values(
    rt: &(impl Clock + AllocGlobal),
    task: &Task,
    group: &AnyGroup<Cell>,
) -> Result<Measured, Stop>
    requires { any_columns group.now ≡ 1 }
{
    let mut best = Measured::new();
    for _ in 0..task.rounds {
        let start = Instant::now(rt)?;
        for n in 0..MADE {
            let values = multiples(rt.alloc(), group.tuples(), n)?;
            let made = group.with_values(rt.alloc(), values)?;
            if n + 1 == MADE {
                best.end_round(rt, start)?;
                best.sum = sum_of_values(&made);
            }
        }
    }
    best.nanoseconds /= MADE as u64;
    Ok(best)
}

fn skeleton(
    rt: &(impl Clock + AllocGlobal),
    task: &Task,
    table: &Table<Cell, AnyGroup<Cell>>,
) -> Result<Measured, Stop> {
    let mut best = Measured::new();
    for _ in 0..task.rounds {
        let start = Instant::now(rt)?;
        let made = table.skeleton(rt.alloc())?;
        best.end_round(rt, start)?;
        for part in &made.parts {
            best.sum = sum_of_codes(&part.codes);
        }
    }
    Ok(best)
}

// The table of one group.
fn table_of(alloc: Global, group: AnyGroup<Cell>) -> Result<Table<Cell, AnyGroup<Cell>>, Stop>
    requires { any_columns group ≡ 1 }
{
    let rows = group.rows();
    let mut columns = Vec::new(alloc);
    columns.push(0)?;
    let mut parts = Vec::new(alloc);
    parts.push(Part { columns, group })?;
    Ok(Table::new(rows, 1, false, parts))
}

/// Measures each call and prints what came of it.
pub fn measure_all(
    rt: &(impl Runtime + AllocGlobal),
    task: &Task,
    group: AnyGroup<Cell>,
) -> Result<(), Stop>
    requires { any_columns group ≡ 1 }
{
    scatter(rt, task, &group)?.print(rt, "scatter", task.rows)?;
    gather(rt, task, &group)?.print(rt, "gather", task.rows)?;
    with_values(rt, task, &group)?.print(rt, "with_values", task.rows)?;
    let table = table_of(rt.alloc(), group)?;
    skeleton(rt, task, &table)?.print(rt, "skeleton", task.rows)
}
