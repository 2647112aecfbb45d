//! Packed files in memory, which are read and written.

ghost use Rattle.std.specs.Prelude.{◌≡◌, ◌≤◌, ◌^◌, None, IfOk};

use crate::matrices::Entry;
use cla_io::{Files, Input, MemFiles, MemSink};
use cla_num::{Dense, Name};
use cla_pack::{PackFault, Packed, pack_matrix, read_packed};
use std::alloc::Global;
use std::collections::BTreeMap;
use std::test::Fail;

/// What reading a packed file comes to.
pub(crate) type Answer = Result<Packed<Entry>, PackFault>;

// Files of which the one named `x` holds these bytes.
fn one_file(alloc: Global, bytes: &[u8]) -> Result<MemFiles, Fail>
    ensures { IfOk result (λ files. (⟦<MemFiles as Files>⟧.state files).writing ≡ None) }
{
    let mut held = BTreeMap::new(alloc);
    held.insert(Name::of(alloc, "x")?, bytes.to_vec(alloc)?)?;
    Ok(MemFiles::new(held, Vec::new(alloc)))
}

fn read_from<F: Files>(alloc: Global, files: &mut F, limit: u64) -> Result<Answer, Fail>
    requires idle { (F.state files.old).writing ≡ None }
    requires least { 8 ≤ limit }
    requires most { limit ≤ 2 ^ 32 }
{
    match files.begin_read("x") {
        Ok(true) => (),
        _ => return Err(Fail::new("no file to read")),
    }
    let mut input = Input::new(alloc, files, limit)?;
    Ok(read_packed::<Entry, F>(alloc, &mut input))
}

/// What reading these bytes comes to, of which at most `limit` are taken, from 8 on.
pub(crate) fn read_bytes(alloc: Global, bytes: &[u8], limit: u64) -> Result<Answer, Fail> {
    if limit < 8 || limit > 1 << 32 {
        return Err(Fail::new("no limit of a file"));
    }
    let mut files = one_file(alloc, bytes)?;
    read_from(alloc, &mut files, limit)
}

/// Why these bytes are refused, of which at most `limit` are taken; `None` where they are not.
pub(crate) fn fault_of(alloc: Global, bytes: &[u8], limit: u64) -> Result<Option<PackFault>, Fail> {
    Ok(read_bytes(alloc, bytes, limit)?.err())
}

/// The packed file of a matrix.
pub(crate) fn packed(alloc: Global, m: &Dense<Entry>) -> Result<Vec<u8>, Fail> {
    let mut out = MemSink::new(Vec::new(alloc));
    match pack_matrix(alloc, m, &mut out) {
        Ok(()) => Ok(out.bytes().to_vec(alloc)?),
        Err(_) => Err(Fail::new("not written")),
    }
}
