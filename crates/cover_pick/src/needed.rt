//! The marks of the needed literals.
ghost use Rattle.std.specs.Prelude.{◌≡◌, ℕ, List, ◌*◌, ◌<◌, length, Option, Some, IfOk, slice_index_or};
ghost use Rattle.aig_core.specs.Aig.{node_count};
ghost use Rattle.aig_core.specs.Roots.{lits_of, AreRoots};
ghost use Rattle.list_laws.specs.Members.{In};
ghost use Rattle.cover_pick.specs.Marks.{mark_each as each_marked, mark_leaves as leaves_marked, mark_cuts as cuts_marked, marks_of};

use crate::cuts::ChosenCuts;
use aig_core::{Graph, Lit};
use std::alloc::{AllocError, Global};

// Marks literals.
fn mark_each(lits: &[Lit], marks: &mut [bool])
    requires { (l : ℕ) → In (lits_of lits.now) l → l < length marks.old }
    ensures { marks.new ≡ each_marked marks.old (lits_of lits.now) }
{
    for lit in lits {
        marks[lit.0 as usize] = true;
    }
}

// Marks the positive literals of leaves.
fn mark_leaves(leaves: &[u32], marks: &mut [bool])
    requires { (i : ℕ) → i < length leaves.now → 2 * slice_index_or leaves.now i 0 < length marks.old }
    ensures { marks.new ≡ leaves_marked marks.old leaves.now }
{
    for m in leaves {
        marks[*m as usize * 2] = true;
    }
}

// Marks the positive literals of the leaves of all chosen cuts.
fn mark_cuts(graph: &Graph, cuts: &ChosenCuts, marks: &mut [bool])
    requires len { length cuts.now ≡ node_count graph.now }
    requires inside { (c : List ℕ) (m : ℕ) → In cuts.now (Some c) → In c m → 2 * m < length marks.old }
    ensures { marks.new ≡ cuts_marked marks.old cuts.now }
{
    for n in 0..graph.len() {
        mark_leaves(cuts.leaves(n), marks);
    }
}

// The marks of the needed literals: the roots, and the positive literals of the leaves of the chosen cuts.
pub fn needed(
    alloc: Global,
    graph: &Graph,
    cuts: &ChosenCuts,
    roots: &[Lit],
) -> Result<Vec<bool>, AllocError>
    requires roots { AreRoots graph.now (lits_of roots.now) }
    requires len { length cuts.now ≡ node_count graph.now }
    requires cuts { (c : List ℕ) (m : ℕ) → In cuts.now (Some c) → In c m → m < node_count graph.now }
    ensures { IfOk result (λ marks. marks.items ≡ marks_of graph.now (lits_of roots.now) cuts.now) }
{
    let mut marks = vec![in alloc; false; graph.len() as usize * 2]?;
    mark_each(roots, &mut marks);
    mark_cuts(graph, cuts, &mut marks);
    Ok(marks)
}
