//! How often chosen cuts use each node, and what they cost.
ghost use Rattle.std.specs.Prelude.{◌≡◌, ℕ, ◌+◌, ◌<◌, ◌^◌, false, length, IfOk, slice_index_or};
ghost use Rattle.aig_core.specs.Aig.{node_count};
ghost use Rattle.cover_pick.specs.Planned.{cut_at};
ghost use Rattle.cover_pick.specs.Counts.{count_at, count_each as each_counted, AreLeaves, AreUsed};
ghost use Rattle.cover_pick.specs.Uses.{times_in, has_cut, cost_of as the_cost_of};

use crate::cuts::ChosenCuts;
use crate::flow::count_one;
use aig_core::Graph;
use std::alloc::{AllocError, Global};

// Counts a node as a reader of its leaves.
fn count_leaves(counts: &mut [u32], leaves: &[u32])
    requires inside { (i : ℕ) → i < length leaves.now → slice_index_or leaves.now i 0 < length counts.old }
    requires room { (m : ℕ) → m < length counts.old → count_at counts.old m + times_in m leaves.now < 2 ^ 32 }
    ensures { counts.new ≡ each_counted counts.old leaves.now }
{
    for m in leaves {
        count_one(counts, *m);
    }
}

// Counts the nodes that have chosen cuts, each as a reader of its leaves.
fn count_cuts(graph: &Graph, cuts: &ChosenCuts, counts: &mut [u32])
    requires leaves { AreLeaves graph.now (cut_at cuts.now) }
    requires none { AreUsed graph.now (cut_at cuts.now) 0 counts.old }
    ensures { AreUsed graph.now (cut_at cuts.now) (node_count graph.now) counts.new }
{
    for n in 0..graph.len() {
        count_leaves(counts, cuts.leaves(n));
    }
}

// How many nodes have chosen a cut with each node as a leaf.
pub fn uses(alloc: Global, graph: &Graph, cuts: &ChosenCuts) -> Result<Vec<u32>, AllocError>
    requires { AreLeaves graph.now (cut_at cuts.now) }
    ensures { IfOk result (λ counts. AreUsed graph.now (cut_at cuts.now) (node_count graph.now) counts.items) }
{
    let mut counts = vec![in alloc; 0; graph.len() as usize]?;
    count_cuts(graph, cuts, &mut counts);
    Ok(counts)
}

// Whether each node has a chosen cut.
pub fn needed_nodes(
    alloc: Global,
    graph: &Graph,
    cuts: &ChosenCuts,
) -> Result<Vec<bool>, AllocError>
    ensures each { IfOk result (λ needed. (m : ℕ) → m < node_count graph.now → slice_index_or needed.items m false ≡ has_cut (cut_at cuts.now m)) }
    ensures len { IfOk result (λ needed. length needed.items ≡ node_count graph.now) }
{
    let mut needed = Vec::new(alloc);
    for n in 0..graph.len() {
        needed.push(cuts.is_chosen(n))?;
    }
    Ok(needed)
}

// What the LUTs of the chosen cuts cost together.
pub fn cost_of(graph: &Graph, cuts: &ChosenCuts) -> u64
    ensures { result ≡ the_cost_of graph.now (cut_at cuts.now) }
{
    let mut cost = 0;
    for n in 0..graph.len() {
        cost += cuts.price(n);
    }
    cost
}
