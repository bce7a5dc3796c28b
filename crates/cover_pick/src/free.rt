//! The free nodes: those above no leaf of any LUT and above no regular source.
ghost use Rattle.std.specs.Prelude.{◌≡◌, ℕ, ◌<◌, true, IfOk, length, replicate};
ghost use Rattle.list_laws.specs.Members.{In};
ghost use Rattle.aig_core.specs.Aig.{first_and, node_count, AreNormal};
ghost use Rattle.cut_sets.specs.Cuts.{CanBeLeaf};
ghost use Rattle.cover_pick.specs.declared.lut.Lut.{Lut as LutValue};
ghost use Rattle.cover_pick.specs.Work.{IsFree};
ghost use Rattle.cover_pick.specs.Free.{mark_of, unmarked, all_unmarked, AreFree, HasFreeParts};

use crate::lut::Lut;
use aig_core::{Graph, Kind};
use std::alloc::{AllocError, Global};

// The mark of a node.
pub fn is_marked(marks: &[bool], n: u32) -> bool
    ensures { result ≡ mark_of marks.now n }
{
    marks.get(n as usize).copied().unwrap_or(false)
}

// Takes the marks of some leaves.
fn bar_leaves(leaves: &[u32], marks: &mut [bool])
    requires { (m : ℕ) → In leaves.now m → m < length marks.old }
    ensures { marks.new ≡ unmarked marks.old leaves.now }
{
    for leaf in leaves {
        marks[*leaf as usize] = false;
    }
}

// A mark for each node that is no leaf of a LUT.
fn no_leaves(alloc: Global, graph: &Graph, luts: &[Lut]) -> Result<Vec<bool>, AllocError>
    requires { (t : LutValue) (m : ℕ) → In luts.now t → In t.leaves m → CanBeLeaf graph.now m }
    ensures { IfOk result (λ marks. marks.items ≡ all_unmarked (replicate (node_count graph.now) true) luts.now) }
{
    let mut marks = vec![in alloc; true; graph.len() as usize]?;
    for lut in luts {
        bar_leaves(lut.leaves.leaves(), &mut marks);
    }
    Ok(marks)
}

// Whether a node that is no leaf is free, given the marks of its fan-ins.
fn is_free(graph: &Graph, marks: &[bool], n: u32) -> bool
    requires { n < node_count graph.now }
    ensures parts { result ≡ true → HasFreeParts graph.now marks.now n }
    ensures whole { HasFreeParts graph.now marks.now n → result ≡ true }
    ensures normal { AreNormal (first_and graph.now) graph.now.pairs }
{
    let sources = graph.sources();
    if n == 0 {
        return true;
    }
    if n <= sources {
        return match graph.kind(n) {
            Kind::Regular => false,
            Kind::Parameter => true,
        };
    }
    let pair = graph.pair_at(n);
    is_marked(marks, pair.x.0 / 2) && is_marked(marks, pair.y.0 / 2)
}

// The mark of a node as a free one, given the marks of its fan-ins and its own, which it has if it is no leaf.
fn free_mark(graph: &Graph, marks: &[bool], n: u32) -> bool
    requires { n < node_count graph.now }
    ensures own { result ≡ true → mark_of marks.now n ≡ true }
    ensures parts { result ≡ true → HasFreeParts graph.now marks.now n }
    ensures whole { mark_of marks.now n ≡ true → HasFreeParts graph.now marks.now n → result ≡ true }
    ensures normal { AreNormal (first_and graph.now) graph.now.pairs }
{
    let parts = is_free(graph, marks, n);
    parts && is_marked(marks, n)
}

/// A mark for each free node of some LUTs. Time is linear in the graph and in the leaves of the LUTs.
///
/// # Errors
/// Only if memory runs out.
pub fn free_nodes(alloc: Global, graph: &Graph, luts: &[Lut]) -> Result<Vec<bool>, AllocError>
    requires { (t : LutValue) (m : ℕ) → In luts.now t → In t.leaves m → CanBeLeaf graph.now m }
    ensures only { IfOk result (λ marks. AreFree graph.now luts.now marks.items) }
    ensures all { IfOk result (λ marks. (n : ℕ) → n < node_count graph.now → IsFree graph.now luts.now n → mark_of marks.items n ≡ true) }
{
    let mut marks = no_leaves(alloc, graph, luts)?;
    for n in 0..graph.len() {
        marks[n as usize] = free_mark(graph, &marks, n);
    }
    Ok(marks)
}
