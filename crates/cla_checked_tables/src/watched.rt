//! Groups that count the calls that are made of them.

ghost use Rattle.std.specs.Prelude.{◌≡◌, ◌*◌, length, map, IfOk};
ghost use Rattle.cla_layout.specs.Tuples.{tuples_of};

use cla_group::{Group, Owned};
use cla_num::{Memory, Number, Wide};
use std::alloc::Global;
use std::cell::Cell;

/// How often groups were asked for a value, for codes of rows, to scatter and to gather.
#[derive(Clone, Copy, Debug, PartialEq, Eq)]
pub struct Taken {
    pub values: u32,
    pub codes: u32,
    pub scatters: u32,
    pub gathers: u32,
}

/// Where the calls of groups are counted.
#[derive(Drop)]
pub struct Calls {
    values: Cell<u32>,
    codes: Cell<u32>,
    scatters: Cell<u32>,
    gathers: Cell<u32>,
}

impl Calls {
    /// No call yet.
    pub fn none() -> Calls {
        Calls {
            values: Cell::new(0),
            codes: Cell::new(0),
            scatters: Cell::new(0),
            gathers: Cell::new(0),
        }
    }

    /// The calls since the last time.
    pub fn taken(&self) -> Taken {
        Taken {
            values: self.values.replace(0),
            codes: self.codes.replace(0),
            scatters: self.scatters.replace(0),
            gathers: self.gathers.replace(0),
        }
    }
}

// One more call.
fn count(cell: &Cell<u32>) {
    cell.set(cell.get().saturating_add(1));
}

/// A group, and where its calls are counted.
#[derive(Drop)]
pub struct Watched<'a, G> {
    pub group: G,
    pub calls: &'a Calls,
}

impl<'a, N: Number, G: Group<N>> Group<N> for Watched<'a, G> {
    ghost columns = { λ w. G.columns w.group };

    ghost codes = { λ w. G.codes w.group };

    ghost dictionary = { λ w. G.dictionary w.group };

    fn rows(&self) -> u32 {
        self.group.rows()
    }

    fn width(&self) -> u32 {
        self.group.width()
    }

    fn tuples(&self) -> u32 {
        self.group.tuples()
    }

    fn value(&self, k: u32, c: u32) -> N {
        count(&self.calls.values);
        self.group.value(k, c)
    }

    fn occurrences(&self, k: u32) -> u32 {
        self.group.occurrences(k)
    }

    fn first_row(&self, k: u32) -> u32 {
        self.group.first_row(k)
    }

    fn code_at(&self, i: u32) -> u32 {
        count(&self.calls.codes);
        self.group.code_at(i)
    }

    fn read_codes(&self, into: &mut [u32]) {
        count(&self.calls.codes);
        self.group.read_codes(into)
    }

    fn scatter(&self, parts: &[Wide], into: &mut [Wide]) {
        count(&self.calls.scatters);
        self.group.scatter(parts, into)
    }

    fn scatter_least(&self, parts: &[Wide], into: &mut [Wide]) {
        count(&self.calls.scatters);
        self.group.scatter_least(parts, into)
    }

    fn scatter_greatest(&self, parts: &[Wide], into: &mut [Wide]) {
        count(&self.calls.scatters);
        self.group.scatter_greatest(parts, into)
    }

    fn gather(&self, rows: &[N], into: &mut [Wide]) {
        count(&self.calls.gathers);
        self.group.gather(rows, into)
    }

    ghost laws = { λ w. G.laws w.group };
}

impl<'a, N: Number, G: Owned<N>> Owned<N> for Watched<'a, G> {
    fn slice_rows(&self, alloc: Global, a: u32, b: u32) -> Result<Self, Memory> {
        Ok(Watched {
            group: self.group.slice_rows(alloc, a, b)?,
            calls: self.calls,
        })
    }

    fn project(&self, alloc: Global, places: &[u32]) -> Result<Self, Memory> {
        Ok(Watched {
            group: self.group.project(alloc, places)?,
            calls: self.calls,
        })
    }

    fn with_values(&self, alloc: Global, values: Vec<N>) -> Result<Self, Memory>
        requires whole { length values.items ≡ length (G.dictionary self.now.group) * G.columns self.now.group }
        ensures columns { IfOk result (λ w. G.columns w.group ≡ G.columns self.now.group) }
        ensures codes { IfOk result (λ w. G.codes w.group ≡ G.codes self.now.group) }
        ensures dictionary { let old = G.dictionary self.now.group in
            let tuples = tuples_of (G.columns self.now.group) (length old) (map N.value values.items) in
            IfOk result (λ w. G.dictionary w.group ≡ tuples) }
    {
        Ok(Watched {
            group: self.group.with_values(alloc, values)?,
            calls: self.calls,
        })
    }
}
