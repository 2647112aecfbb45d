//! Groups that own what they keep.

ghost use Rattle.std.specs.Prelude.{◌≡◌, ◌<◌, ◌≤◌, ◌*◌, ◌-◌, length, map, IfOk};
ghost use Rattle.cla_layout.specs.Tuples.{tuples_of};
ghost use Rattle.cla_layout.specs.Groups.{AreNumbered};
ghost use Rattle.cla_group.specs.Rows.{AreRowsFrom, ArePlaces, projected};

use crate::group::Group;
use cla_num::{Memory, Number};
use std::alloc::Global;

/// Groups of which others can be made: of some rows, of some columns, and with other values. Each
/// call is refused for want of memory alone, and leaves the group as it was.
pub trait Owned<N: Number>: Group<N> + Sized {
    /// The rows from row a to before row b. Each keeps its values, two of them have equal codes
    /// exactly where they had, and tuples that no row holds are dropped. The others are numbered by the
    /// first rows that hold them.
    fn slice_rows(&self, alloc: Global, a: u32, b: u32) -> Result<Self, Memory>
        requires some { a < b }
        requires within { b ≤ length (Self.codes self.now) }
        ensures columns { IfOk result (λ g. Self.columns g ≡ Self.columns self.now) }
        ensures rows { let width = Self.columns self.now in
            let codes = Self.codes self.now in
            let tuples = Self.dictionary self.now in
            IfOk result (λ g. AreRowsFrom a (b - a) width codes tuples (Self.codes g) (Self.dictionary g)) }
        ensures numbered { IfOk result (λ g. AreNumbered (Self.codes g) (length (Self.dictionary g))) };

    /// The same codes; each tuple keeps the values in these places, which rise.
    fn project(&self, alloc: Global, places: &[u32]) -> Result<Self, Memory>
        requires places { ArePlaces (Self.columns self.now) places.now }
        ensures columns { IfOk result (λ g. Self.columns g ≡ length places.now) }
        ensures codes { IfOk result (λ g. Self.codes g ≡ Self.codes self.now) }
        ensures dictionary { let tuples = Self.dictionary self.now in
            IfOk result (λ g. Self.dictionary g ≡ map (projected places.now) tuples) };

    /// The same codes; the tuples have these values, tuple by tuple.
    fn with_values(&self, alloc: Global, values: Vec<N>) -> Result<Self, Memory>
        requires whole { length values.items ≡ length (Self.dictionary self.now) * Self.columns self.now }
        ensures columns { IfOk result (λ g. Self.columns g ≡ Self.columns self.now) }
        ensures codes { IfOk result (λ g. Self.codes g ≡ Self.codes self.now) }
        ensures dictionary { let old = Self.dictionary self.now in
            let tuples = tuples_of (Self.columns self.now) (length old) (map N.value values.items) in
            IfOk result (λ g. Self.dictionary g ≡ tuples) };
}
