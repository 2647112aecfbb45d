//! Skeletons of tables: their groups without the values.

ghost use Rattle.std.specs.Prelude.{◌≡◌, IfOk};
ghost use Rattle.cla_coded.specs.Skeletons.{view_of_part, part_skeleton_of};

use crate::codes::codes_of;
use crate::part::Part;
use cla_group::Group;
use cla_num::{Memory, Number};
use std::alloc::Global;

/// A part of a skeleton: the columns of a group, and the code of each row.
#[derive(Drop)]
pub struct SkeletonPart {
    pub columns: Vec<u32>,
    pub codes: Vec<u32>,
}

/// The groups of a table without their values. The rows and columns are those of the base.
#[derive(Drop)]
pub struct Skeleton {
    pub rows: u32,
    pub cols: u32,
    pub flipped: bool,
    pub parts: Vec<SkeletonPart>,
}

/// The skeleton of a part.
pub(crate) fn part_skeleton<N: Number, G: Group<N>>(
    alloc: Global,
    part: &Part<G>,
) -> Result<SkeletonPart, Memory>
    ensures { IfOk result (λ s. view_of_part s ≡ part_skeleton_of G.codes part.now) }
{
    let columns = Vec::from_slice(alloc, &part.columns)?;
    let codes = codes_of(alloc, &part.group)?;
    Ok(SkeletonPart { columns, codes })
}
