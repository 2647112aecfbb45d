//! Files in memory.

ghost use Rattle.std.specs.Prelude.{◌≡◌, None, IfOk};

use cla_io::{CallKind, Files, MemFiles};
use cla_num::Name;
use std::alloc::Global;
use std::collections::BTreeMap;
use std::test::Fail;

/// Files with these names and bytes, of which these calls fail.
pub(crate) fn files_of(
    alloc: Global,
    held: &[(&str, &[u8])],
    fail: &[(CallKind, u64)],
) -> Result<MemFiles, Fail>
    ensures { IfOk result (λ files. (⟦<MemFiles as Files>⟧.state files).writing ≡ None) }
{
    let mut files = BTreeMap::new(alloc);
    for (name, bytes) in held {
        add_file(alloc, &mut files, name, bytes)?;
    }
    Ok(MemFiles::new(files, fail.to_vec(alloc)?))
}

fn add_file(
    alloc: Global,
    files: &mut BTreeMap<Name, Vec<u8>>,
    name: &str,
    bytes: &[u8],
) -> Result<(), Fail> {
    files.insert(Name::of(alloc, name)?, bytes.to_vec(alloc)?)?;
    Ok(())
}
