//! The step of a node.
ghost use Rattle.std.specs.Prelude.{◌≡◌, ◌≤◌, IfOk, OnOk};
ghost use Rattle.aig_core.specs.Aig.{node_count, IsAnd};
ghost use Rattle.cut_sets.specs.Labels.{label_at, AreLeastHeights};
ghost use Rattle.flow_label.specs.Scratch.{HasRoom};
ghost use Rattle.flow_cert.specs.Steps.{IsStepOf};

use crate::down::path_to;
use crate::paths::showing_paths;
use aig_core::Graph;
use cert_check::{NodePath, Step};
use cut_sets::NodeLabels;
use flow_label::Scratch;
use std::alloc::{AllocError, Global};

// The step of a node with label 1, shown by one path.
fn low_step(
    alloc: Global,
    graph: &Graph,
    labels: &NodeLabels,
    n: u32,
    k: u8,
) -> Result<Step, AllocError>
    requires node { IsAnd graph.now n }
    requires one { label_at labels.now n ≡ 1 }
    requires least { AreLeastHeights graph.now k (label_at labels.now) }
    ensures step { IfOk result (λ step. IsStepOf graph.now k (label_at labels.now) step) }
    ensures node { IfOk result (λ step. step.node ≡ n) }
{
    let nodes = path_to(alloc, graph, labels, n)?;
    let mut paths = Vec::new(alloc);
    paths.push(NodePath { line: 0, nodes })?;
    Ok(Step {
        line: 0,
        node: n,
        claim: 1,
        paths,
    })
}

/// The step of a node with a label of at least 1. It claims the label.
///
/// # Errors
/// Only if memory runs out.
pub fn step_of(
    alloc: Global,
    graph: &Graph,
    labels: &NodeLabels,
    n: u32,
    k: u8,
    search: &mut Scratch,
) -> Result<Step, AllocError>
    requires node { IsAnd graph.now n }
    requires high { 1 ≤ label_at labels.now n }
    requires least { AreLeastHeights graph.now k (label_at labels.now) }
    requires room { HasRoom (node_count graph.now) search.old }
    ensures step { IfOk result (λ step. IsStepOf graph.now k (label_at labels.now) step) }
    ensures node { IfOk result (λ step. step.node ≡ n) }
    ensures room { OnOk result (HasRoom (node_count graph.now) search.new) }
{
    let claim = labels.label(n);
    if claim == 1 {
        let step = low_step(alloc, graph, labels, n, k)?;
        return Ok(step);
    }
    let paths = showing_paths(alloc, graph, labels, n, k, search)?;
    Ok(Step {
        line: 0,
        node: n,
        claim,
        paths,
    })
}
