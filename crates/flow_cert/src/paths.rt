//! The paths that show the label of a node.
ghost use Rattle.std.specs.Prelude.{◌≡◌, ℕ, ◌≤◌, map, IfOk, OnOk};
ghost use Rattle.aig_core.specs.Aig.{node_count, IsAnd};
ghost use Rattle.cut_sets.specs.Labels.{label_at, AreLeastHeights};
ghost use Rattle.flow_label.specs.Scratch.{HasRoom};
ghost use Rattle.flow_cert.specs.Steps.{AreShowing};

use aig_core::Graph;
use cert_check::NodePath;
use cut_sets::NodeLabels;
use flow_label::{Scratch, paths_to};
use std::alloc::{AllocError, Global};

// Lists of nodes as paths of a certificate.
fn as_paths(alloc: Global, lists: Vec<Vec<u32>>) -> Result<Vec<NodePath>, AllocError>
    ensures { IfOk result (λ paths. map (λ p. p.nodes) paths.items ≡ map (λ p. p.items) lists.items) }
{
    let mut paths = Vec::new(alloc);
    for nodes in lists {
        paths.push(NodePath { line: 0, nodes })?;
    }
    Ok(paths)
}

/// K + 1 paths to a node with a label of at least 2. They share only nodes whose label is at least the node's label minus
/// one.
///
/// # Errors
/// Only if memory runs out.
pub fn showing_paths(
    alloc: Global,
    graph: &Graph,
    labels: &NodeLabels,
    n: u32,
    k: u8,
    search: &mut Scratch,
) -> Result<Vec<NodePath>, AllocError>
    requires node { IsAnd graph.now n }
    requires high { 2 ≤ label_at labels.now n }
    requires least { AreLeastHeights graph.now k (label_at labels.now) }
    requires room { HasRoom (node_count graph.now) search.old }
    ensures paths { IfOk result (λ paths. AreShowing graph.now k (label_at labels.now) n paths.items) }
    ensures room { OnOk result (HasRoom (node_count graph.now) search.new) }
{
    // The proof needs what the contract of this call says of the graph.
    let _count = graph.len();
    let height = labels.label(n);
    let lists = paths_to(alloc, graph, labels, n, height, k, search)?;
    let paths = as_paths(alloc, lists)?;
    Ok(paths)
}
