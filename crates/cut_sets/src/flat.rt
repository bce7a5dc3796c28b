//! A cut as plain data: its leaves in place, their number, and their signature.
ghost use Rattle.std.specs.Prelude.{◌≡◌, ℕ, ◌<◌, ◌≤◌, List, [], ◌∷◌, length, MatchOption, IfSome, IfNone, IsTrue, take};
ghost use Rattle.list_laws.specs.Order.{IsAscending};
ghost use Rattle.cut_sets.specs.Sets.{before as is_before};
ghost use Rattle.cut_sets.specs.Unions.{union, subset};
ghost use Rattle.cut_sets.specs.Signature.{signature_of};

use crate::limits::MOST_LEAVES;
use crate::order::comes_before;
use crate::signatures::leaf_bit;
use std::marker::Model;

/// The leaves of a cut: at most `MOST_LEAVES` nodes, ascending and without repeats. It also has their signature, a word in which
/// bit (leaf mod 64) is set for each leaf.
#[derive(Drop)]
pub struct FlatCut {
    leaves: [u32; MOST_LEAVES],
    len: u32,
    signature: u64,
}

impl Model for FlatCut {
    ghost use Rattle.std.specs.Prelude.{ℕ, List, take};
    ghost use Rattle.cut_sets.specs.Keeps.{IsFlatCut};

    ghost Value = { List ℕ };

    ghost view = { λ c. take c.len c.leaves };

    ghost invariant = { λ c. IsFlatCut c.leaves c.len c.signature };
}

impl FlatCut {
    /// The cut without leaves.
    pub fn empty() -> FlatCut
        ensures { result ≡ [] }
    {
        FlatCut {
            leaves: [0; MOST_LEAVES],
            len: 0,
            signature: 0,
        }
    }

    /// The cut of one leaf.
    pub fn one(leaf: u32) -> FlatCut
        ensures { result ≡ leaf ∷ [] }
    {
        let mut leaves = [0; MOST_LEAVES];
        leaves[0] = leaf;
        let signature = leaf_bit(leaf);
        FlatCut {
            leaves,
            len: 1,
            signature,
        }
    }

    /// The cut of these leaves, which have this signature.
    pub fn of(leaves: &[u32], signature: u64) -> FlatCut
        requires ascending { IsAscending leaves.now }
        requires few { length leaves.now ≤ MOST_LEAVES }
        requires signed { signature ≡ signature_of leaves.now }
        ensures { result ≡ leaves.now }
    {
        let mut own = [0; MOST_LEAVES];
        for (n, leaf) in leaves.iter().enumerate() {
            own[n] = *leaf;
        }
        FlatCut {
            leaves: own,
            len: leaves.len() as u32,
            signature,
        }
    }

    /// The cut of the first `len` of these numbers, which have this signature. If there are `MOST_LEAVES` numbers at all, so many
    /// are copied, which takes no loop.
    pub fn of_first(numbers: &[u32], len: usize, signature: u64) -> FlatCut
        requires inside { len ≤ length numbers.now }
        requires ascending { IsAscending (take len numbers.now) }
        requires few { len ≤ MOST_LEAVES }
        requires signed { signature ≡ signature_of (take len numbers.now) }
        ensures { result ≡ take len numbers.now }
    {
        match numbers {
            [a, b, c, d, e, f, ..] => FlatCut {
                leaves: [*a, *b, *c, *d, *e, *f],
                len: len as u32,
                signature,
            },
            _ => FlatCut::of(&numbers[..len], signature),
        }
    }

    /// The same leaves again.
    pub fn copy(&self) -> FlatCut
        ensures { result ≡ self.now }
    {
        FlatCut {
            leaves: self.leaves,
            len: self.len,
            signature: self.signature,
        }
    }

    /// The number of leaves, at most `MOST_LEAVES`.
    pub fn len(&self) -> usize
        ensures count { result ≡ length self.now }
        ensures few { length self.now ≤ MOST_LEAVES }
    {
        self.len as usize
    }

    /// The leaves, in ascending order.
    pub fn leaves(&self) -> &[u32]
        ensures leaves { result.now ≡ self.now }
        ensures few { length self.now ≤ MOST_LEAVES }
        ensures ascending { IsAscending self.now }
    {
        &self.leaves[..self.len as usize]
    }

    /// The signature of the leaves.
    pub fn signature(&self) -> u64
        ensures { result ≡ signature_of self.now }
    {
        self.signature
    }
}

// The least head of two lists, and what is left of them.
#[derive(Clone, Copy)]
struct Heads<'a> {
    least: u32,
    xs: &'a [u32],
    ys: &'a [u32],
}

// The least head of two ascending lists, if there is one.
fn least_head<'a>(xs: &'a [u32], ys: &'a [u32]) -> Option<Heads<'a>>
    requires x_up { IsAscending xs.now }
    requires y_up { IsAscending ys.now }
    ensures none { IfNone result (union xs.now ys.now ≡ []) }
    ensures some { IfSome result (λ h. union xs.now ys.now ≡ h.least ∷ union h.xs.now h.ys.now) }
    ensures x_up { IfSome result (λ h. IsAscending h.xs.now) }
    ensures y_up { IfSome result (λ h. IsAscending h.ys.now) }
{
    match xs {
        [] => match ys {
            [] => None,
            [y, y_rest @ ..] => Some(Heads {
                least: *y,
                xs,
                ys: y_rest,
            }),
        },
        [x, x_rest @ ..] => match ys {
            [] => Some(Heads {
                least: *x,
                xs: x_rest,
                ys,
            }),
            [y, y_rest @ ..] => {
                if *x < *y {
                    return Some(Heads {
                        least: *x,
                        xs: x_rest,
                        ys,
                    });
                }
                if *y < *x {
                    return Some(Heads {
                        least: *y,
                        xs,
                        ys: y_rest,
                    });
                }
                Some(Heads {
                    least: *x,
                    xs: x_rest,
                    ys: y_rest,
                })
            }
        },
    }
}

/// The union of two cuts, if it has at most `most` leaves. If the signatures of both have more bits than that, no leaf is read.
pub fn joined_within(a: &FlatCut, b: &FlatCut, most: usize) -> Option<FlatCut>
    requires { most ≤ MOST_LEAVES }
    ensures { MatchOption result (most < length (union a.now b.now)) (λ c. (c ≡ union a.now b.now) × (length c ≤ most)) }
{
    let signature = a.signature() | b.signature();
    if signature.count_ones() > most as u32 {
        return None;
    }
    let mut leaves = [0; MOST_LEAVES];
    let mut xs = a.leaves();
    let mut ys = b.leaves();
    for n in 0..most {
        match least_head(xs, ys) {
            None => {
                return Some(FlatCut {
                    leaves,
                    len: n as u32,
                    signature,
                });
            }
            Some(heads) => {
                leaves[n] = heads.least;
                xs = heads.xs;
                ys = heads.ys;
            }
        }
    }
    match least_head(xs, ys) {
        Some(_) => None,
        None => Some(FlatCut {
            leaves,
            len: most as u32,
            signature,
        }),
    }
}

/// The union of two cuts, if it has exactly `size` leaves.
pub fn joined(a: &FlatCut, b: &FlatCut, size: usize) -> Option<FlatCut>
    requires { size ≤ MOST_LEAVES }
    ensures { MatchOption result (length (union a.now b.now) ≡ size → ⊥) (λ c. (c ≡ union a.now b.now) × (length c ≡ size)) }
{
    match joined_within(a, b, size) {
        Some(cut) if cut.len() == size => Some(cut),
        _ => None,
    }
}

/// Whether every element of an ascending list is one of another.
pub fn is_subset(xs: &[u32], ys: &[u32]) -> bool
    requires x_up { IsAscending xs.now }
    requires y_up { IsAscending ys.now }
    ensures { result ≡ subset xs.now ys.now }
{
    match xs {
        [] => true,
        [x, x_rest @ ..] => match ys {
            [] => false,
            [y, y_rest @ ..] => {
                if *x < *y {
                    return false;
                }
                if *y < *x {
                    return is_subset(xs, y_rest);
                }
                is_subset(x_rest, y_rest)
            }
        },
    }
}

/// Whether every leaf of `a` is one of `b`.
pub fn is_part(a: &FlatCut, b: &FlatCut) -> bool
    ensures { result ≡ subset a.now b.now }
{
    is_subset(a.leaves(), b.leaves())
}

/// Whether `a` comes before `b`: it has fewer leaves, or as many and is lexicographically smaller.
pub fn before(a: &FlatCut, b: &FlatCut) -> bool
    ensures { result ≡ is_before a.now b.now }
{
    comes_before(a.leaves(), b.leaves())
}
