//! How far the rows of a tuple were read.

ghost use Rattle.std.specs.Prelude.{◌≡◌, ℕ, ◌<◌, ◌≤◌, ◌+◌, ◌^◌, ◌-◌, ◌++◌, ◌∷◌, [], List, length};
ghost use Rattle.std.specs.List.{range_with_len};
ghost use Rattle.cla_packed.specs.Offsets.{fits_row};
ghost use Rattle.cla_pack_reader.specs.Runs.{are_apart};
ghost use Rattle.cla_pack_reader.specs.Walks.{IsState, at_start, past};

use crate::bits::Marks;

/// How far the rows of a tuple were read: whether there was one, the first of them, and the row
/// behind the last.
#[derive(Clone, Copy, Debug, Drop)]
pub(crate) struct Walk {
    pub(crate) started: bool,
    pub(crate) first: u32,
    pub(crate) next: u32,
}

impl Walk {
    /// No row was read yet.
    pub(crate) fn new() -> Walk
        ensures { result ≡ at_start }
    {
        Walk {
            started: false,
            first: 0,
            next: 0,
        }
    }

    /// The rows from `begin` to before `end` more.
    #[inline(always)]
    pub(crate) fn past(self, begin: u32, end: u32) -> Walk
        ensures { result ≡ past self begin end }
    {
        let first = if self.started { self.first } else { begin };
        Walk {
            started: true,
            first,
            next: end,
        }
    }
}

/// Whether a row may stand behind those of its tuple that were read. Rows that were read have marks.
#[inline(always)]
pub(crate) fn fits_row(marks: &Marks, walk: Walk, floor: u64, row: u32) -> bool
    requires { row < length marks.now }
    ensures { (earlier : List (List ℕ)) (so_far : List ℕ) → IsState earlier so_far marks.now walk floor →
        result ≡ fits_row earlier so_far row }
{
    if row < walk.next {
        return false;
    }
    if marks.has(row) {
        return false;
    }
    if walk.started {
        return true;
    }
    floor <= row as u64
}
