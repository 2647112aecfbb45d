//! The index itself.

ghost use Rattle.std.specs.Prelude.{◌≡◌, ℕ, ◌<◌, ◌∷◌, ◌++◌, [], length, true, false, IfOk, OnErr};
ghost use Rattle.std.specs.Prelude.{slice_index_or};

use crate::chains::{Link, bucket, make_room};
use cla_num::Memory;
use std::alloc::Global;
use std::marker::Model;

/// An index of hashes by the places at which they stand in their list. It keeps neither what was hashed nor
/// how: the caller has both, and compares. A hash takes 8 bytes, and 4 bytes each of its buckets, of which
/// there are about as many as hashes, or up to twice as many.
#[derive(Drop)]
pub struct HashIndex {
    // of each bucket, how many hashes there are up to its last one: 0 where there is none
    latest: Vec<u32>,
    links: Vec<Link>,
}

impl Model for HashIndex {
    ghost use Rattle.std.specs.Prelude.{List, ℕ};
    ghost use Rattle.cla_index.specs.Chains.{hashes_of, IsIndex};

    ghost Value = { List ℕ };

    ghost view = { λ x. hashes_of x.links.items };

    ghost invariant = { λ x. IsIndex x.latest.items x.links.items };
}

impl HashIndex {
    /// An index of no hashes.
    pub fn new(alloc: Global) -> HashIndex
        ensures { result ≡ [] }
    {
        HashIndex {
            latest: Vec::new(alloc),
            links: Vec::new(alloc),
        }
    }

    /// Whether a test passes at one of the places of a hash. It runs at no place of another hash, at the last
    /// place first, and no more once it has passed: in expected constant time.
    pub fn has<F: Fn(usize) -> bool>(&self, hash: u32, test: F) -> bool
        requires { (k : ℕ) → k < length self.now → F.pre test k }
        ensures found { result ≡ true → (k : ℕ) × (k < length self.now) × (slice_index_or self.now k 0 ≡ hash)
            × F.post test k true }
        ensures absent { result ≡ false → (k : ℕ) → k < length self.now → slice_index_or self.now k 0 ≡ hash
            → F.post test k false }
    {
        if self.latest.is_empty() {
            return false;
        }
        let mut front = self.latest[bucket(hash, self.latest.len())] as usize;
        while front > 0 {
            let link = self.links[front - 1];
            if link.hash == hash && test(front - 1) {
                return true;
            }
            front = link.earlier as usize;
        }
        false
    }

    /// Appends a hash, in amortized constant time. Where memory is wanting, the index stays as it was.
    pub fn push(&mut self, hash: u32) -> Result<(), Memory>
        requires few { length self.old < 4294967295 }
        ensures pushed { IfOk result (λ _. self.new ≡ self.old ++ hash ∷ []) }
        ensures kept { OnErr result (self.new ≡ self.old) }
    {
        make_room(&mut self.latest, &mut self.links)?;
        let bucket = bucket(hash, self.latest.len());
        let earlier = self.latest[bucket];
        self.links.push(Link { hash, earlier })?;
        self.latest[bucket] = self.links.len() as u32;
        Ok(())
    }
}
