//! New codes for the rows that are kept when rows are dropped.

ghost use Rattle.std.specs.Prelude.{◌<◌, ◌≤◌, ℕ, length, IfOk, OnOk};
ghost use Rattle.cla_spec.specs.Matrix.{most_cells};
ghost use Rattle.cla_layout.specs.Groups.{code_of};
ghost use Rattle.cla_rows.specs.Renaming.{AreRenamed, AreNames, IsName};

use cla_num::Memory;
use std::alloc::Global;

/// New codes for rows, numbered by first row, so that every code has a row.
#[derive(Drop)]
pub struct Renaming {
    /// The new code of each row.
    pub codes: Vec<u32>,

    /// The old code of each new one.
    pub order: Vec<u32>,
}

// An old code that has no new one yet.
const NO_NAME: u32 = u32::MAX;

/// Names the codes of rows anew, in one pass over them, so that none is left without a row. The old
/// ones are below `tuples`.
pub fn renamed(alloc: Global, codes: &[u32], tuples: u32) -> Result<Renaming, Memory>
    requires below { (i : ℕ) → i < length codes.now → code_of codes.now i < tuples }
    requires few { length codes.now ≤ most_cells }
    ensures { IfOk result (λ r. AreRenamed tuples codes.now r.codes.items r.order.items) }
{
    let mut fresh = vec![in alloc; NO_NAME; tuples as usize]?;
    let mut order = Vec::new(alloc);
    let mut names = Vec::with_capacity(alloc, codes.len())?;
    for code in codes {
        names.push(name_of(*code, &mut fresh, &mut order)?)?;
    }
    Ok(Renaming {
        codes: names,
        order,
    })
}

// The new code of an old one: the one that it has, or else the next.
fn name_of(old: u32, fresh: &mut [u32], order: &mut Vec<u32>) -> Result<u32, Memory>
    requires known { old < length fresh.old }
    requires names { AreNames NO_NAME fresh.old order.old.items }
    ensures names { OnOk result (AreNames NO_NAME fresh.new order.new.items) }
    ensures name { IfOk result (λ n. IsName old order.old.items order.new.items n) }
{
    let name = fresh[old as usize];
    if name != NO_NAME {
        return Ok(name);
    }
    let name = order.len() as u32;
    order.push(old)?;
    fresh[old as usize] = name;
    Ok(name)
}
