//! Cuts of matrices into groups of columns.

ghost use Rattle.std.specs.Prelude.{◌≡◌, ◌<◌, ◌^◌};
ghost use Rattle.cla_grouping.specs.Grouping.{packed_size};
ghost use Rattle.cla_cocode.specs.Cuts.{cut_seen};

use cla_layout::Kind;

/// A group of columns of a matrix, its kind, and the bytes that it takes in a packed file.
#[derive(Drop)]
pub struct LayoutGroup {
    pub columns: Vec<u32>,
    pub kind: Kind,
    pub bytes: u64,
}

/// A matrix of so many rows and columns, cut into groups of columns.
#[derive(Drop)]
pub struct Cut {
    pub rows: u32,
    pub cols: u32,
    pub groups: Vec<LayoutGroup>,
}

/// The bytes of a header.
const HEADER: u64 = 20;

/// The bytes of a packed file of these groups.
pub fn size(l: &Cut) -> u64
    requires { packed_size (cut_seen l.now) < 2 ^ 64 }
    ensures { result ≡ packed_size (cut_seen l.now) }
{
    let mut total = HEADER;
    for group in &l.groups {
        total += group.bytes;
    }
    total
}
