//! The rows of tuples as lists of offsets.

ghost use Rattle.std.specs.Prelude.{◌≡◌, ℕ, ◌^◌, ◌<◌, List, [], length};
ghost use Rattle.cla_io.specs.InputFrame.{ReadsOn};
ghost use Rattle.cla_packed.specs.Offsets.{offsets_at};
ghost use Rattle.cla_offsets.specs.RowLists.{AreRowLists};
ghost use Rattle.cla_pack_reader.specs.ListedRows.{AreListsOf};
ghost use Rattle.cla_pack_reader.specs.Listings.{AsOffsets};
ghost use Rattle.cla_pack_reader.specs.Places.{places_of, HasReadCause};
ghost use Rattle.cla_pack_reader.specs.Segments.{IsOffsetState, GivesList};
ghost use Rattle.cla_pack_reader.specs.Walks.{at_start};

use crate::bits::Marks;
use crate::listed_rows::{ListedRows, MarkedRows};
use crate::segment::segment_of;
use crate::walk::Walk;
use cla_coded::AnyGroup;
use cla_group::Dictionary;
use cla_io::{Files, Input};
use cla_num::{Memory, Number};
use cla_offsets::Offsets;
use cla_packed::PackFault;
use cla_rows::Grouped;
use std::alloc::Global;

/// The rows of a tuple, as offsets. The answer is the row behind the first one.
fn list_of<F: Files>(
    input: &mut Input<'_, F>,
    marks: &mut Marks,
    places: &mut Vec<u32>,
    group: u32,
    floor: u64,
) -> Result<u64, PackFault>
    requires few { length marks.old < 2 ^ 31 }
    ensures size { length marks.new ≡ length marks.old }
    ensures same_reference { input.new.files.ghost_name ≡ input.old.files.ghost_name }
    ensures frame { ReadsOn (F.state input.old.files.now) (F.state input.new.files.now) }
    ensures cause { HasReadCause (F.state input.old.files.now).read_faults (F.state input.new.files.now).read_faults
        result }
    ensures exact { let start = places_of input.old.taken (F.state input.old.files.now) in
        let end = places_of input.new.taken (F.state input.new.files.now) in
        let rows = length marks.old in
        (earlier : List (List ℕ)) → IsOffsetState earlier [] marks.old places.old.items at_start floor
        → GivesList earlier marks.new places.new.items result start end (offsets_at 32768 rows group earlier) }
{
    let rows = marks.len();
    let segments = (rows + 32767) / 32768;
    let mut walk = Walk::new();
    for s in 0..segments {
        let base = s * 32768;
        let len = (rows - base).min(32768);
        match segment_of(
            input,
            marks,
            places,
            walk,
            group,
            floor,
            base,
            len,
            s + 1 == segments,
        ) {
            Ok(next) => walk = next,
            Err(fault) => return Err(fault),
        }
    }
    Ok(walk.first as u64 + 1)
}

impl ListedRows for Grouped {
    ghost listing = { AsOffsets };

    ghost are_of = { λ x rows lists. AreListsOf lists x.starts.items x.places.items };

    ghost are_coded = { λ x codes rows tuples rest first. AreRowLists codes rows tuples rest first x.starts.items
        x.places.items };

    /// It takes 4 bytes for each row that is listed and for each tuple.
    fn read<F: Files>(
        alloc: Global,
        input: &mut Input<'_, F>,
        group: u32,
        d: u32,
        rows: u32,
    ) -> Result<MarkedRows<Grouped>, PackFault> {
        let Ok(mut marks) = Marks::none(alloc, rows) else {
            return Err(PackFault::Memory);
        };
        let Ok(mut starts) = Vec::from_elem(alloc, 0, 1) else {
            return Err(PackFault::Memory);
        };
        let mut places = Vec::new(alloc);
        let mut floor = 0;
        for _t in 0..d {
            match list_of(input, &mut marks, &mut places, group, floor) {
                Ok(next) => floor = next,
                Err(fault) => return Err(fault),
            }
            match starts.push(places.len() as u32) {
                Ok(()) => (),
                Err(_) => return Err(PackFault::Memory),
            }
        }
        let listed = Grouped { starts, places };
        Ok(MarkedRows { listed, marks })
    }

    fn rest_code(&self, d: u32, first: u32) -> u32 {
        for t in 0..d {
            let begin = self.starts[t as usize];
            let row = self.places[begin as usize];
            if row > first {
                return t;
            }
        }
        d
    }

    /// An empty list is put in place r.
    fn with_rest(self, r: u32) -> Result<Grouped, Memory> {
        let Grouped { mut starts, places } = self;
        let start = starts[r as usize];
        starts.insert(r as usize, start)?;
        Ok(Grouped { starts, places })
    }

    fn group<N: Number>(
        self,
        alloc: Global,
        dictionary: Dictionary<N>,
        rows: u32,
        rest: u32,
        first: u32,
    ) -> Result<AnyGroup<N>, Memory> {
        let group = Offsets::from_lists(alloc, dictionary, rows, &self, rest, first)?;
        Ok(AnyGroup::Offsets(group))
    }
}
