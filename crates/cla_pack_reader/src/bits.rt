//! Marks, one bit each.

ghost use Rattle.std.specs.Prelude.{◌≡◌, ◌≢◌, ◌+◌, ◌*◌, ◌/◌, ℕ, ◌<◌, ◌==◌, ◌≤◌, ◌||◌, ◌&&◌, nat_le, nat_lt, length};
ghost use Rattle.std.specs.Prelude.{replicate, slice_index_or, slice_set, true, false, IfOk};
ghost use Rattle.std.specs.Int.{bit_at};
ghost use Rattle.cla_pack_reader.specs.Bits.{mark_in};

use cla_num::Memory;
use std::alloc::Global;
use std::marker::Model;

/// A mark or none for each of so many items, which are columns or rows. Contracts see whether each has one.
#[derive(Drop)]
pub(crate) struct Marks {
    words: Vec<u64>,
    len: u32,
}

impl Model for Marks {
    ghost use Rattle.std.specs.Prelude.{◌*◌, ◌≤◌, List, Bool, length};
    ghost use Rattle.cla_pack_reader.specs.Bits.{marks_in};

    ghost Value = { List Bool };

    ghost view = { λ m. marks_in m.words.items m.len };

    ghost invariant = { λ m. m.len ≤ 64 * length m.words.items };
}

impl Marks {
    /// None of `len` items has a mark. It takes a bit for each.
    pub(crate) fn none(alloc: Global, len: u32) -> Result<Marks, Memory>
        ensures { IfOk result (λ marks. marks ≡ replicate len false) }
    {
        let words = Vec::from_elem(alloc, 0, len.div_ceil(64) as usize)?;
        Ok(Marks { words, len })
    }

    pub(crate) fn len(&self) -> u32
        ensures { result ≡ length self.now }
    {
        self.len
    }

    /// Whether an item has a mark.
    #[inline(always)]
    pub(crate) fn has(&self, item: u32) -> bool
        requires { item < length self.now }
        ensures { result ≡ slice_index_or self.now item false }
    {
        has_bit(self.words[item as usize / 64], item % 64)
    }

    /// An item gets a mark.
    #[inline(always)]
    pub(crate) fn put(&mut self, item: u32)
        requires { item < length self.old }
        ensures { self.new ≡ slice_set self.old item true }
    {
        let place = item as usize / 64;
        self.words[place] = with_bit(self.words[place], item % 64);
    }

    /// Whether one of the items from `begin` to before `end` has a mark. It takes a step for 64 of them.
    pub(crate) fn has_any(&self, begin: u32, end: u32) -> bool
        requires order { begin ≤ end }
        requires within { end ≤ length self.now }
        ensures some { result ≡ true
            → (i : ℕ) × (begin ≤ i) × (i < end) × (slice_index_or self.now i false ≡ true) }
        ensures none { result ≡ false → (i : ℕ) → begin ≤ i → i < end → slice_index_or self.now i false ≡ false }
    {
        has_any(&self.words, begin, end)
    }

    /// The items from `begin` to before `end` get marks. It takes a step for 64 of them.
    pub(crate) fn put_all(&mut self, begin: u32, end: u32)
        requires order { begin ≤ end }
        requires within { end ≤ length self.old }
        ensures size { length self.new ≡ length self.old }
        ensures marks { (i : ℕ) → i < length self.old
            → slice_index_or self.new i false ≡ (slice_index_or self.old i false || nat_le begin i && nat_lt i end) }
    {
        put_all(&mut self.words, begin, end);
    }
}

// Whether one of the bits from `begin` to before `end` is set.
fn has_any(words: &[u64], begin: u32, end: u32) -> bool
    requires order { begin ≤ end }
    requires within { end ≤ 64 * length words.now }
    ensures some { result ≡ true → (i : ℕ) × (begin ≤ i) × (i < end) × (mark_in words.now i ≡ true) }
    ensures none { result ≡ false → (i : ℕ) → begin ≤ i → i < end → mark_in words.now i ≡ false }
{
    for place in begin / 64..end.div_ceil(64) {
        if shares_bit(words[place as usize], bits_between(begin, end, place)) {
            return true;
        }
    }
    false
}

// The bits from `begin` to before `end` are set.
fn put_all(words: &mut [u64], begin: u32, end: u32)
    requires order { begin ≤ end }
    requires within { end ≤ 64 * length words.old }
    ensures size { length words.new ≡ length words.old }
    ensures marks { (i : ℕ) → i < 64 * length words.old
        → mark_in words.new i ≡ (mark_in words.old i || nat_le begin i && nat_lt i end) }
{
    for place in begin / 64..end.div_ceil(64) {
        let index = place as usize;
        words[index] = with_bits(words[index], bits_between(begin, end, place));
    }
}

// A word's bits that stand for those from `begin` to before `end`, at this place among the words.
fn bits_between(begin: u32, end: u32, place: u32) -> u64
    requires order { begin ≤ end }
    requires before { begin / 64 ≤ place }
    requires behind { 64 * place < end }
    ensures { (k : ℕ) → k < 64
        → (bit_at result k == 1) ≡ (nat_le begin (64 * place + k) && nat_lt (64 * place + k) end) }
{
    let first = place * 64;
    let low = begin.saturating_sub(first);
    let high = (end - first).min(64);
    (u64::MAX << low) & (u64::MAX >> (64 - high))
}

// Whether two words share a bit.
fn shares_bit(word: u64, other: u64) -> bool
    ensures some { result ≡ true → (k : ℕ) × (k < 64) × (bit_at word k ≡ 1) × (bit_at other k ≡ 1) }
    ensures none { result ≡ false → (k : ℕ) → bit_at other k ≡ 1 → bit_at word k ≡ 0 }
{
    word & other != 0
}

// The bits of both.
fn with_bits(word: u64, other: u64) -> u64
    ensures { (k : ℕ) → (bit_at result k == 1) ≡ (bit_at word k == 1 || bit_at other k == 1) }
{
    word | other
}

fn has_bit(word: u64, k: u32) -> bool
    requires { k < 64 }
    ensures { result ≡ (bit_at word k == 1) }
{
    word & (1 << k) != 0
}

fn with_bit(word: u64, k: u32) -> u64
    requires { k < 64 }
    ensures set { bit_at result k ≡ 1 }
    ensures others { (i : ℕ) → i ≢ k → bit_at result i ≡ bit_at word i }
{
    word | (1 << k)
}
