//! The codes of groups.

ghost use Rattle.std.specs.Prelude.{◌≡◌, IfOk};

use cla_group::Group;
use cla_num::{Memory, Number};
use std::alloc::Global;

/// The code of each row, in one pass.
pub fn codes_of<N: Number, G: Group<N>>(alloc: Global, g: &G) -> Result<Vec<u32>, Memory>
    ensures { IfOk result (λ codes. codes.items ≡ G.codes g.now) }
{
    let mut codes = Vec::from_elem(alloc, 0, g.rows() as usize)?;
    g.read_codes(&mut codes);
    Ok(codes)
}
