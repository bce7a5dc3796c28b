//! One path to a node with a label of at least 1.
ghost use Rattle.std.specs.Prelude.{◌≡◌, ℕ, ◌<◌, ◌≤◌, IfOk};
ghost use Rattle.aig_core.specs.Aig.{IsAnd};
ghost use Rattle.cut_sets.specs.Labels.{label_at, AreLeastHeights};
ghost use Rattle.cut_sets.specs.Paths.{IsPath, IsFanIn};
ghost use Rattle.flow_label.specs.Value.{IsLive};

use aig_core::Graph;
use cut_sets::NodeLabels;
use flow_label::is_live;
use std::alloc::{AllocError, Global};

// A fan-in that a regular source is at or below.
fn below(graph: &Graph, labels: &NodeLabels, v: u32) -> u32
    requires node { IsAnd graph.now v }
    requires high { 1 ≤ label_at labels.now v }
    requires least { (k : ℕ) × AreLeastHeights graph.now k (label_at labels.now) }
    ensures fan_in { IsFanIn graph.now result v }
    ensures live { IsLive graph.now (label_at labels.now) result }
    ensures lower { result < v }
{
    // The proof needs what the contract of this call says of the graph.
    let _count = graph.len();
    let pair = graph.pair_at(v);
    if is_live(graph, labels, pair.x.0 / 2) {
        return pair.x.0 / 2;
    }
    pair.y.0 / 2
}

/// A path to a node with a label of at least 1.
///
/// # Errors
/// Only if memory runs out.
pub fn path_to(
    alloc: Global,
    graph: &Graph,
    labels: &NodeLabels,
    n: u32,
) -> Result<Vec<u32>, AllocError>
    requires node { IsAnd graph.now n }
    requires high { 1 ≤ label_at labels.now n }
    requires least { (k : ℕ) × AreLeastHeights graph.now k (label_at labels.now) }
    ensures { IfOk result (λ path. IsPath graph.now n path.items) }
{
    let mut path = Vec::new(alloc);
    path.push(n)?;
    let mut v = n;
    while v > graph.sources() {
        v = below(graph, labels, v);
        path.push(v)?;
    }
    path.reverse();
    Ok(path)
}
