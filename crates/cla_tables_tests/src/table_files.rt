//! Tables in files in memory.

ghost use Rattle.std.specs.Prelude.{◌≡◌, None, IfOk};

use cla_io::{CallKind, Files, Input, MemFiles};
use cla_num::{Dense, Int, Name, Number};
use cla_tables::{FileFault, TableFile, read_table};
use std::alloc::Global;
use std::collections::BTreeMap;
use std::test::Fail;

pub(crate) type Entry = Int<47>;

/// What reading a table comes to.
pub(crate) type Answer = Result<TableFile<Entry>, FileFault>;

/// The call of these files that fails: its kind, and its number from 1.
pub(crate) type Failing = Option<(CallKind, u64)>;

// The greatest limit of an input.
const MOST_BYTES: u64 = 1 << 32;

// Files of which the one named `x` holds these bytes.
fn one_file(alloc: Global, bytes: &[u8], failing: Failing) -> Result<MemFiles, Fail>
    ensures { IfOk result (λ files. (⟦<MemFiles as Files>⟧.state files).writing ≡ None) }
{
    let mut held = BTreeMap::new(alloc);
    held.insert(Name::of(alloc, "x")?, bytes.to_vec(alloc)?)?;
    let mut fail = Vec::new(alloc);
    if let Some(call) = failing {
        fail.push(call)?;
    }
    Ok(MemFiles::new(held, fail))
}

fn read_from<F: Files>(alloc: Global, files: &mut F) -> Result<Answer, Fail>
    requires { (F.state files.old).writing ≡ None }
{
    match files.begin_read("x") {
        Ok(true) => (),
        _ => return Err(Fail::new("no file to read")),
    }
    let mut input = Input::new(alloc, files, MOST_BYTES)?;
    Ok(read_table::<Entry, F>(alloc, &mut input))
}

/// What reading these bytes as a table comes to.
pub(crate) fn read_bytes(alloc: Global, bytes: &[u8], failing: Failing) -> Result<Answer, Fail> {
    let mut files = one_file(alloc, bytes, failing)?;
    read_from(alloc, &mut files)
}

/// Why these bytes are no table; `None` where they are one.
pub(crate) fn fault_of(
    alloc: Global,
    bytes: &[u8],
    failing: Failing,
) -> Result<Option<FileFault>, Fail> {
    Ok(read_bytes(alloc, bytes, failing)?.err())
}

/// Whether the matrix has these cells row by row.
pub(crate) fn has_cells(m: &Dense<Entry>, cells: &[i64]) -> bool {
    if m.cells().len() != cells.len() {
        return false;
    }
    for (cell, want) in m.cells().iter().zip(cells) {
        if Entry::of(*want) != Some(*cell) {
            return false;
        }
    }
    true
}
