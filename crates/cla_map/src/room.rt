//! Memory for the parts that a map makes.

ghost use Rattle.std.specs.Prelude.{◌≡◌, map, IfOk};
ghost use Rattle.cla_map.specs.Rooms.{IsRoom};

use cla_coded::Part;
use cla_group::Group;
use cla_num::{Memory, Number};
use std::alloc::Global;

/// A part, its columns once more, and room for as many values as it has.
#[derive(Drop)]
pub(crate) struct Room<'a, N, G> {
    pub(crate) part: &'a Part<G>,
    pub(crate) columns: Vec<u32>,
    pub(crate) values: Vec<N>,
    ghost is: { IsRoom part.now.columns.items columns.items values.items },
}

// Room for what is made of a part.
fn room_for<'a, N: Number, G: Group<N>>(
    alloc: Global,
    part: &'a Part<G>,
) -> Result<Room<'a, N, G>, Memory>
    ensures { IfOk result (λ r. r.part.now ≡ part.now) }
{
    let columns = Vec::from_slice(alloc, &part.columns)?;
    let count = (part.group.tuples() as usize).saturating_mul(part.columns.len());
    let values = Vec::with_capacity(alloc, count)?;
    Ok(Room {
        part,
        columns,
        values,
    })
}

/// Room for what is made of these parts.
pub(crate) fn rooms_for<'a, N: Number, G: Group<N>>(
    alloc: Global,
    parts: &'a [Part<G>],
) -> Result<Vec<Room<'a, N, G>>, Memory>
    ensures { IfOk result (λ rs. map (λ r. r.part.now) rs.items ≡ parts.now) }
{
    let mut rooms = Vec::with_capacity(alloc, parts.len())?;
    for part in parts {
        let room = room_for(alloc, part)?;
        rooms.push(room)?;
    }
    Ok(rooms)
}
