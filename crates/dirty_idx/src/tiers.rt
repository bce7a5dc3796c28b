//! A set of numbers below a size, as a bit set in layers.
ghost use Rattle.std.specs.Prelude.{◌≡◌, ◌+◌, ◌-◌, ◌*◌, ◌/◌, ◌^◌, ◌<◌, ◌≤◌, true, false, length, replicate, slice_set, IfOk, MatchOption, vec_len};
ghost use Rattle.std.specs.Int.{trailing_zeros, w64};
ghost use Rattle.dirty_idx.specs.Marks.{is_marked, IsLeast, IsEmpty, without};
ghost use Rattle.dirty_idx.specs.Layers.{word_at, upper_words, bit_above, mark_bit, AreTold, AreNoneBefore, IsPut, Retells, IsFirstWord};

use std::alloc::{AllocError, Global};
use std::marker::Model;

/// The largest possible size of a set, 2^26.
pub const MOST_MARKS: u32 = 67_108_864;

/// A set of numbers below a size.
///
/// Each number has a bit in the words of the lowest layer. Each word has a bit in the layer above, which is set if and only
/// if the word has a bit set itself. The topmost layer is one word. So finding the least member reads one word of each layer,
/// and there are at most five layers.
///
/// The set also keeps a place in the lowest layer before which no word has a bit. As long as the word at this place has one,
/// the least member is found in it alone.
///
/// All layers are in one vector, the topmost first: below the word at place p are the 64 words that begin at place 64 p + 1.
/// Every layer except the lowest has room for as many words as can be below the one above it, at most 266,305 in all.
#[derive(Drop)]
pub struct Tiers {
    size: u32,
    // The number of layers above the lowest, and the number of their words.
    depth: u32,
    base: usize,
    // A place in the lowest layer. No word of that layer before it has a bit.
    from: usize,
    words: Vec<u64>,
}

impl Model for Tiers {
    ghost use Rattle.std.specs.Prelude.{List, Bool};
    ghost use Rattle.dirty_idx.specs.Layers.{marks_of, AreKept};

    ghost Value = { List Bool };

    ghost view = { λ t. marks_of t.size t.base t.words.items };

    ghost invariant = { λ t. AreKept t.size t.depth t.base t.from t.words.items };
}

// Records in the words above that the word at a place has a bit, up to a word that says so already.
fn tell_some(words: &mut Vec<u64>, at: usize)
    requires { at < vec_len words.old }
    ensures { Retells (0 < word_at words.old.items at) at words.old.items words.new.items }
{
    let mut at = at;
    while at > 0 && words[(at - 1) / 64] >> ((at - 1) % 64) & 1 == 0 {
        let up = (at - 1) / 64;
        words[up] |= 1 << ((at - 1) % 64);
        at = up;
    }
}

// Records in the words above whether the word at a place, which had a bit, still has one.
fn tell_none(words: &mut Vec<u64>, at: usize)
    requires { at < vec_len words.old }
    ensures { Retells (0 < at → bit_above words.old.items at ≡ 1) at words.old.items words.new.items }
{
    let mut at = at;
    while at > 0 && words[at] == 0 {
        let up = (at - 1) / 64;
        words[up] &= !(1 << ((at - 1) % 64));
        at = up;
    }
}

// Sets the bit of a number.
fn set_bit(words: &mut Vec<u64>, base: usize, i: usize)
    requires within { base + i / 64 < vec_len words.old }
    requires fits { vec_len words.old ≤ 64 * base + 1 }
    requires told { AreTold base 0 words.old.items }
    ensures { IsPut base i 1 words.old.items words.new.items }
{
    let at = base + i / 64;
    words[at] |= 1 << (i % 64);
    tell_some(words, at);
}

// Clears the bit of a number, which must be set.
fn clear_bit(words: &mut Vec<u64>, base: usize, i: usize)
    requires within { base + i / 64 < vec_len words.old }
    requires fits { vec_len words.old ≤ 64 * base + 1 }
    requires told { AreTold base 0 words.old.items }
    requires set { mark_bit base words.old.items i ≡ 1 }
    ensures { IsPut base i 0 words.old.items words.new.items }
{
    let at = base + i / 64;
    words[at] &= !(1 << (i % 64));
    tell_none(words, at);
}

// The place of the first word of the lowest layer that has a bit.
#[tactic(auto, using(crate::proofs::LayerLemmas::upper_within))]
fn first_word(words: &[u64], depth: u32) -> usize
    requires some { 0 < word_at words.now 0 }
    requires room { upper_words depth ≤ length words.now }
    requires few { upper_words depth ≤ 2 ^ 27 }
    requires told { AreTold (upper_words depth) 0 words.now }
    ensures { IsFirstWord depth result words.now }
{
    let mut at = 0;
    for _layer in 0..depth {
        at = 64 * at + 1 + words[at].trailing_zeros() as usize;
    }
    at
}

// The place of the first word of the lowest layer that has a bit, or nothing if none has. None before `from` has one.
fn first_from(words: &[u64], depth: u32, from: usize) -> Option<usize>
    requires few { upper_words depth ≤ 2 ^ 27 }
    requires fits { length words.now ≤ 64 * upper_words depth + 1 }
    requires told { AreTold (upper_words depth) 0 words.now }
    requires before { AreNoneBefore (upper_words depth) from words.now }
    ensures { MatchOption result (word_at words.now 0 ≡ 0) (λ at. IsFirstWord depth at words.now) }
{
    if words[from] != 0 {
        return Some(from);
    }
    if words[0] == 0 {
        return None;
    }
    Some(first_word(words, depth))
}

// The number of the lowest bit of a word of the lowest layer.
fn lowest_number(words: &[u64], base: usize, at: usize) -> u32
    requires above { base ≤ at }
    requires within { at < length words.now }
    requires few { length words.now ≤ base + 2 ^ 20 + 1 }
    ensures number { result ≡ (at - base) * 64 + trailing_zeros w64 (word_at words.now at) }
    ensures fits { word_at words.now at < 2 ^ 64 }
{
    (at - base) as u32 * 64 + words[at].trailing_zeros()
}

// The number of layers above a lowest layer of `count` words, and the number of their words.
fn layers_above(count: usize) -> (u32, usize)
    requires { count ≤ 2 ^ 21 }
    ensures above { result.1 ≡ upper_words result.0 }
    ensures few { result.1 ≤ 2 ^ 27 }
    ensures fits { count ≤ 63 * result.1 + 1 }
{
    let mut depth = 0;
    let mut base = 0;
    while 63 * base + 1 < count {
        base = 64 * base + 1;
        depth += 1;
    }
    (depth, base)
}

impl Tiers {
    /// The empty set of numbers below `size`, which is at most `MOST_MARKS`.
    ///
    /// `Err` only if memory runs out. No other call allocates memory.
    pub fn make(alloc: Global, size: u32) -> Result<Tiers, AllocError>
        requires { size ≤ MOST_MARKS }
        ensures { IfOk result (λ tiers. tiers ≡ replicate size false) }
    {
        let count = size as usize / 64 + 1;
        let (depth, base) = layers_above(count);
        let words = vec![in alloc; 0; base + count]?;
        Ok(Tiers {
            size,
            depth,
            base,
            from: base,
            words,
        })
    }

    /// Adds a number.
    pub fn mark(&mut self, i: u32)
        requires { i < length self.old }
        ensures { self.new ≡ slice_set self.old i true }
    {
        self.from = self.from.min(self.base + i as usize / 64);
        set_bit(&mut self.words, self.base, i as usize);
    }

    /// Removes a member.
    pub fn unmark(&mut self, i: u32)
        requires within { i < length self.old }
        requires member { is_marked self.old i ≡ true }
        ensures { self.new ≡ slice_set self.old i false }
    {
        clear_bit(&mut self.words, self.base, i as usize);
    }

    /// Whether a number is a member.
    pub fn has(&self, i: u32) -> bool
        requires { i < length self.now }
        ensures { result ≡ is_marked self.now i }
    {
        let i = i as usize;
        self.words[self.base + i / 64] >> (i % 64) & 1 == 1
    }

    /// The least member; `None` if and only if the set is empty. Constant time for each layer.
    pub fn first(&self) -> Option<u32>
        ensures { MatchOption result (IsEmpty self.now) (λ i. IsLeast self.now i) }
    {
        let at = first_from(&self.words, self.depth, self.from)?;
        Some(lowest_number(&self.words, self.base, at))
    }

    /// Removes the least member and returns it; `None` if and only if the set is empty.
    pub fn take_first(&mut self) -> Option<u32>
        ensures least { MatchOption result (IsEmpty self.old) (λ i. IsLeast self.old i) }
        ensures rest { self.new ≡ without self.old result }
    {
        let at = first_from(&self.words, self.depth, self.from)?;
        let first = lowest_number(&self.words, self.base, at);
        self.from = at;
        clear_bit(&mut self.words, self.base, first as usize);
        Some(first)
    }
}
