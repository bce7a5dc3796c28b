//! A cut, with its signature.
ghost use Rattle.std.specs.Prelude.{◌≡◌, ℕ, ◌<◌, ◌≤◌, ◌↔◌, false, List, [], ◌∷◌, length, MatchOption, IsTrue, IfSome, IfNone, IfOk, IfErr, insert};
ghost use Rattle.list_laws.specs.Members.{Within};
ghost use Rattle.list_laws.specs.Order.{IsAscending};
ghost use Rattle.cut_sets.specs.Unions.{put, union, subset};
ghost use Rattle.cut_sets.specs.Unions.{IsUnion};

use cut_sets::{MOST_LEAVES, is_subset, leaf_bit, signature};
use smallvec::SmallVec;
use std::alloc::Global;
use std::marker::Model;

/// A cut: at most `MOST_LEAVES` leaves, ascending and without repeats, stored in place.
///
/// It also stores their signature, a word in which bit (leaf mod 64) is set for each leaf.
#[derive(Drop)]
pub struct Cut {
    leaves: SmallVec<u32, MOST_LEAVES>,
    signature: u64,
}

impl Model for Cut {
    ghost use Rattle.std.specs.Prelude.{ℕ, List};
    ghost use Rattle.cut_enum.specs.Keeps.{IsCutLeaves};

    ghost Value = { List ℕ };

    ghost view = { λ c. c.leaves.items };

    ghost invariant = { λ c. IsCutLeaves c.leaves.items c.leaves.capacity c.signature };
}

// Where a leaf stands, or else its place among the others.
fn place_for(leaves: &[u32], x: u32) -> Result<usize, usize>
    ensures there { IfOk result (λ _. put x leaves.now ≡ leaves.now) }
    ensures within { IfErr result (λ i. i ≤ length leaves.now) }
    ensures place { IfErr result (λ i. put x leaves.now ≡ insert leaves.now i x) }
{
    for (i, y) in leaves.iter().enumerate() {
        if *y == x {
            return Ok(i);
        }
        if *y > x {
            return Err(i);
        }
    }
    Err(leaves.len())
}

// Puts a leaf among others, if it is there or there is room.
fn put_leaf(leaves: &mut SmallVec<u32, MOST_LEAVES>, x: u32, k: usize) -> bool
    requires inline { leaves.old.capacity ≡ MOST_LEAVES }
    requires few { k ≤ MOST_LEAVES }
    ensures done { IsTrue result → leaves.new.items ≡ put x leaves.old.items }
    ensures full { result ≡ false → k < length (put x leaves.old.items) }
    ensures capacity { leaves.new.capacity ≡ MOST_LEAVES }
{
    match place_for(leaves.as_slice(), x) {
        Ok(_) => true,
        Err(at) => {
            if leaves.len() >= k {
                return false;
            }
            let _done = leaves.insert(at, x);
            true
        }
    }
}

// The leaves of both, unless they are more than k. Where their signatures alone have more bits, no leaf is looked at.
fn joined(a: &Cut, b: &Cut, k: u8) -> Option<Cut>
    requires { k ≤ MOST_LEAVES }
    ensures { MatchOption result (k < length (union a.now b.now)) (λ c. (c ≡ union a.now b.now) × (length c ≤ k)) }
{
    let signature = a.signature | b.signature;
    if signature.count_ones() > k as u32 {
        return None;
    }
    let mut leaves = b.copy().leaves;
    for x in a.leaves.as_slice() {
        if !put_leaf(&mut leaves, *x, k as usize) {
            return None;
        }
    }
    if leaves.len() > k as usize {
        return None;
    }
    Some(Cut { leaves, signature })
}

/// The union of two cuts, or `None` exactly when it has more than `k` leaves.
///
/// It allocates no memory, and compares leaves at most 36 times.
pub fn merge(a: &Cut, b: &Cut, k: u8) -> Option<Cut>
    requires { k ≤ MOST_LEAVES }
    ensures some { IfSome result (λ c. IsUnion a.now b.now c × (length c ≤ k)) }
    ensures none { IfNone result ((c : List ℕ) × IsUnion a.now b.now c × (k < length c)) }
{
    // The proof needs this field's model.
    let _leaves = &b.leaves;
    joined(a, b, k)
}

// Is every leaf of a one of b? Leaves are looked at only where b's signature has every bit of a's.
fn is_part(a: &Cut, b: &Cut) -> bool
    ensures { result ≡ subset a.now b.now }
{
    if (a.signature | b.signature) != b.signature {
        return false;
    }
    is_subset(a.leaves.as_slice(), b.leaves.as_slice())
}

/// Whether `b` contains every leaf of `a`.
pub fn within(a: &Cut, b: &Cut) -> bool
    ensures { IsTrue result ↔ Within a.now b.now }
{
    is_part(a, b)
}

impl Cut {
    /// The empty cut.
    pub fn empty(alloc: Global) -> Cut
        ensures { result ≡ [] }
    {
        Cut {
            leaves: SmallVec::new(alloc),
            signature: 0,
        }
    }

    /// A cut of one leaf.
    pub fn one(alloc: Global, leaf: u32) -> Cut
        ensures { result ≡ leaf ∷ [] }
    {
        let mut leaves = SmallVec::new(alloc);
        leaves.push_reserved(leaf);
        let signature = leaf_bit(leaf);
        Cut { leaves, signature }
    }

    /// The cut of these leaves. It allocates no memory.
    pub fn of(alloc: Global, leaves: &[u32]) -> Cut
        requires few { length leaves.now ≤ MOST_LEAVES }
        requires ascending { IsAscending leaves.now }
        ensures { result ≡ leaves.now }
    {
        let signature = signature(leaves);
        let leaves = SmallVec::from_slice(alloc, leaves).unwrap();
        Cut { leaves, signature }
    }

    /// A copy of the cut. It allocates no memory.
    pub fn copy(&self) -> Cut
        ensures { result ≡ self.now }
    {
        let leaves = SmallVec::from_slice(
            *self.leaves.allocator(),
            self.leaves.as_slice(),
        ).unwrap();
        let signature = self.signature;
        Cut { leaves, signature }
    }

    /// The number of leaves, at most `MOST_LEAVES`.
    pub fn len(&self) -> usize
        ensures count { result ≡ length self.now }
        ensures few { length self.now ≤ MOST_LEAVES }
    {
        self.leaves.len()
    }

    /// Whether the cut is empty.
    pub fn is_empty(&self) -> bool
        ensures { IsTrue result ↔ (self.now ≡ []) }
    {
        self.leaves.is_empty()
    }

    /// The leaves, in ascending order.
    pub fn leaves(&self) -> &[u32]
        ensures { result.now ≡ self.now }
    {
        self.leaves.as_slice()
    }
}
