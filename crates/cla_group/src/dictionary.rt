//! Dictionaries.

ghost use Rattle.std.specs.Prelude.{◌≡◌, ◌<◌, ◌≤◌, ◌*◌, ◌-◌, ◌/◌, ℕ, List, [], length, map, take, drop};
ghost use Rattle.std.specs.Prelude.{slice_index_or, IfOk};
ghost use Rattle.cla_layout.specs.Groups.{code_of, value_of, IsGroup};
ghost use Rattle.cla_layout.specs.Tuples.{tuples_of, AreCodes};
ghost use Rattle.cla_group.specs.Rows.{ArePlaces, projected};
ghost use Rattle.cla_layout.specs.Listed.{rest_of, numbered_rest};
ghost use Rattle.cla_group.specs.Dictionaries.{AreTuples, AreValues, in_order};

use crate::projected::keep_places;
use crate::reordered::values_in_order;
use crate::zeros::is_zero;
use cla_num::{Memory, Number};
use std::alloc::Global;
use std::marker::Model;

/// The tuples of a group: each has a value for each of its columns.
#[derive(Drop)]
pub struct Dictionary<N: Number> {
    width: u32,
    tuples: u32,
    values: Vec<N>,
}

impl<N: Number> Model for Dictionary<N> {
    ghost use Rattle.std.specs.Prelude.{length, map};
    ghost use Rattle.cla_layout.specs.Tuples.{tuples_of};
    ghost use Rattle.cla_layout.specs.Listed.{rest_of};
    ghost use Rattle.cla_group.specs.Dictionaries.{DictionaryOf, AreValues};

    ghost Value = { DictionaryOf };

    ghost view = { λ d. record { width = d.width; tuples = tuples_of d.width d.tuples (map N.value d.values.items) } };

    ghost invariant = { λ d. AreValues d.width d.tuples (length d.values.items) };
}

#[tactic(auto, using(cla_layout::proofs::Tuples::tuples_count))]
impl<N: Number> Dictionary<N> {
    /// The dictionary of these values, tuple after tuple.
    pub fn new(width: u32, tuples: u32, values: Vec<N>) -> Dictionary<N>
        requires { AreValues width tuples (length values.items) }
        ensures { result ≡ record { width = width; tuples = tuples_of width tuples (map N.value values.items) } }
    {
        Dictionary {
            width,
            tuples,
            values,
        }
    }

    /// The dictionary of a group of rows with some codes, whose tuples have these values.
    pub fn of_values(width: u32, values: Vec<N>) -> Dictionary<N>
        requires { (codes : List ℕ) × AreCodes width (length values.items / width) codes (length values.items) }
        ensures value { let tuples = tuples_of width (length values.items / width) (map N.value values.items) in
            result ≡ record { width = width; tuples = tuples } }
        ensures group { (codes : List ℕ) → AreCodes width (length values.items / width) codes (length values.items) →
            IsGroup N.BITS result.width codes result.tuples }
    {
        let tuples = (values.len() / width as usize) as u32;
        Dictionary::new(width, tuples, values)
    }

    /// How many values each tuple has.
    pub fn width(&self) -> u32
        ensures { result ≡ self.now.width }
    {
        self.width
    }

    /// How many tuples there are.
    pub fn len(&self) -> u32
        ensures count { result ≡ length self.now.tuples }
        ensures are { AreTuples N.BITS self.now.width self.now.tuples }
    {
        self.tuples
    }

    /// The value in place c of tuple k.
    pub fn value(&self, k: u32, c: u32) -> N
        requires tuple { k < length self.now.tuples }
        requires place { c < self.now.width }
        ensures { N.value result ≡ value_of self.now.tuples k c }
    {
        self.values[k as usize * self.width as usize + c as usize]
    }

    // The values of tuple k.
    fn tuple(&self, k: u32) -> &[N]
        requires { k < length self.now.tuples }
        ensures full { length result.now ≡ self.now.width }
        ensures values { map N.value result.now ≡ slice_index_or self.now.tuples k [] }
    {
        let width = self.width as usize;
        let begin = k as usize * width;
        &self.values[begin..begin + width]
    }

    /// The rest of these tuples, whichever rows have them: the first tuple of zeros, if there is one
    /// (PVLDB 9(12), section 3).
    pub fn rest(&self) -> Option<u32>
        ensures { (codes : List ℕ) → result ≡ rest_of codes self.now.tuples }
    {
        for k in 0..self.len() {
            if is_zero(self.tuple(k)) {
                return Some(k);
            }
        }
        None
    }

    /// The number of the rest; where there is none, how many tuples there are.
    pub fn rest_number(&self) -> u32
        ensures { (codes : List ℕ) → numbered_rest (length self.now.tuples) result ≡ rest_of codes self.now.tuples }
    {
        self.rest().unwrap_or(self.len())
    }

    /// The tuples keep the values in these places.
    pub fn project(&self, alloc: Global, places: &[u32]) -> Result<Dictionary<N>, Memory>
        requires { ArePlaces self.now.width places.now }
        ensures { let tuples = map (projected places.now) self.now.tuples in
            IfOk result (λ d. d ≡ record { width = length places.now; tuples = tuples }) }
    {
        let mut values = Vec::with_capacity(alloc, self.tuples as usize * places.len())?;
        for k in 0..self.len() {
            keep_places(self.tuple(k), places, &mut values)?;
        }
        Ok(Dictionary {
            width: places.len() as u32,
            tuples: self.tuples,
            values,
        })
    }

    /// The tuples that `order` names, in its order.
    pub fn reorder(&self, alloc: Global, order: &[u32]) -> Result<Dictionary<N>, Memory>
        requires within { (k : ℕ) → k < length order.now → code_of order.now k < length self.now.tuples }
        requires some { 0 < length order.now }
        requires few { length order.now ≤ length self.now.tuples }
        ensures { let tuples = in_order order.now self.now.tuples in
            IfOk result (λ d. d ≡ record { width = self.now.width; tuples = tuples }) }
    {
        let values = values_in_order(alloc, self.width, order, &self.values)?;
        Ok(Dictionary {
            width: self.width,
            tuples: order.len() as u32,
            values,
        })
    }

    /// The tuples from tuple a to before tuple b.
    pub fn slice(&self, alloc: Global, a: u32, b: u32) -> Result<Dictionary<N>, Memory>
        requires some { a < b }
        requires within { b ≤ length self.now.tuples }
        ensures value { let tuples = take (b - a) (drop a self.now.tuples) in
            IfOk result (λ d. d ≡ record { width = self.now.width; tuples = tuples }) }
        ensures are { IfOk result (λ d. AreTuples N.BITS d.width d.tuples) }
    {
        let width = self.width as usize;
        let values = &self.values[a as usize * width..b as usize * width];
        Ok(Dictionary {
            width: self.width,
            tuples: b - a,
            values: Vec::from_slice(alloc, values)?,
        })
    }

    /// The dictionary of as many tuples, with these values.
    pub fn with_values(&self, values: Vec<N>) -> Dictionary<N>
        requires { length values.items ≡ length self.now.tuples * self.now.width }
        ensures are { AreTuples N.BITS result.width result.tuples }
        ensures count { length result.tuples ≡ length self.now.tuples }
        ensures value { let tuples = tuples_of self.now.width (length self.now.tuples) (map N.value values.items) in
            result ≡ record { width = self.now.width; tuples = tuples } }
    {
        Dictionary {
            width: self.width,
            tuples: self.tuples,
            values,
        }
    }
}
