//! The columns that are in groups, as marks.

ghost use Rattle.std.specs.Prelude.{◌≡◌, ℕ, ◌+◌, ◌<◌, ◌≤◌, ◌^◌, ◌++◌, List, [], length, true, false, IfOk};
ghost use Rattle.cla_layout.specs.Groups.{code_of};
ghost use Rattle.cla_packed.specs.Codes.{has};
ghost use Rattle.cla_pack_reader.specs.Marks.{AreMarks, IsLeast};
ghost use Rattle.cla_pack_reader.specs.Taken.{HasTaken};

use crate::bits::Marks;
use cla_num::Memory;
use std::alloc::Global;

/// The columns of the groups so far: a mark for each, how many they are, and the least column that is in
/// none of them.
#[derive(Drop)]
pub(crate) struct TakenColumns {
    pub(crate) marks: Marks,
    pub(crate) count: u32,
    pub(crate) least: u32,
}

impl TakenColumns {
    /// No column of `cols` is in a group yet.
    pub(crate) fn none(alloc: Global, cols: u32) -> Result<TakenColumns, Memory>
        ensures { IfOk result (λ taken. HasTaken cols [] taken) }
    {
        let marks = Marks::none(alloc, cols)?;
        Ok(TakenColumns {
            marks,
            count: 0,
            least: 0,
        })
    }

    /// The columns of one group more.
    pub(crate) fn add(&mut self, columns: &[u32])
        requires few { length self.old.marks < 2 ^ 32 }
        requires below { (c : ℕ) → c < length columns.now → code_of columns.now c < length self.old.marks }
        requires room { length columns.now + self.old.count ≤ length self.old.marks }
        ensures { let cols = length self.old.marks in
            (before : List ℕ) → HasTaken cols before self.old → HasTaken cols (before ++ columns.now) self.new }
    {
        mark(&mut self.marks, columns);
        self.count += columns.len() as u32;
        self.least = least_unmarked(&self.marks, self.least);
    }
}

// These columns get marks.
fn mark(marks: &mut Marks, columns: &[u32])
    requires { (c : ℕ) → c < length columns.now → code_of columns.now c < length marks.old }
    ensures size { length marks.new ≡ length marks.old }
    ensures marks { (taken : List ℕ) → AreMarks (length marks.old) taken marks.old
        → AreMarks (length marks.old) (taken ++ columns.now) marks.new }
{
    for column in columns {
        marks.put(*column);
    }
}

// The least column without a mark, where each column below `from` has one.
fn least_unmarked(marks: &Marks, from: u32) -> u32
    requires few { length marks.now < 2 ^ 32 }
    ensures { (taken : List ℕ) → AreMarks (length marks.now) taken marks.now
        → ((c : ℕ) → c < from → has taken c ≡ true) → ((c : ℕ) → length marks.now ≤ c → has taken c ≡ false)
        → IsLeast taken result }
{
    for c in from..marks.len() {
        if !marks.has(c) {
            return c;
        }
    }
    from.max(marks.len())
}
