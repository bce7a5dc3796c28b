//! Labels and low cuts, node by node.
ghost use Rattle.std.specs.Prelude.{◌≡◌, ℕ, ◌≤◌, IfOk, OnOk};
ghost use Rattle.cut_sets.specs.Labels.{AreLeastHeights, AreLeastDepths};
ghost use Rattle.aig_core.specs.Aig.{IsAnd, node_count};
ghost use Rattle.cut_sets.specs.Labels.{label_at};
ghost use Rattle.flow_label.specs.Memory.{HasTrunks};
ghost use Rattle.flow_label.specs.Scratch.{HasRoom};
ghost use Rattle.flow_label.specs.Lows.{AreLowsOf, HasOneLow};
ghost use Rattle.flow_label.specs.Value.{label_of, low_cut_of, AreKnownTo, AreLowCuts, HasOneLabelling};

use crate::flow_labels::FlowLabels;
use crate::node::label_node;
use crate::scratch::{Scratch, new_scratch};
use crate::trunks::extend;
use aig_core::Graph;
use cut_sets::{FlatCut, MOST_LEAVES, NodeLabels};
use std::alloc::{AllocError, Global};

// How many nodes flows meet for each node until nodes are linked.
const PATIENCE: u32 = 64;

// Links nodes at one more floor, if searches have met many nodes.
fn extend_wanted(
    graph: &Graph,
    labels: &NodeLabels,
    n: u32,
    scratch: &mut Scratch,
) -> Result<(), AllocError>
    requires node { IsAnd graph.now n }
    requires known { AreKnownTo graph.now n (label_at labels.now) }
    requires low { (m : ℕ) → label_at labels.now m ≤ m }
    requires room { HasRoom (node_count graph.now) scratch.old }
    requires trunks { HasTrunks graph.now n scratch.old.trunks }
    ensures room { OnOk result (HasRoom (node_count graph.now) scratch.new) }
    ensures trunks { OnOk result (HasTrunks graph.now n scratch.new.trunks) }
{
    if scratch.search.met / PATIENCE < n {
        return Ok(());
    }
    extend(graph, labels, n, scratch)
}

/// The label of each node of a graph and a cut of that height, for LUTs of at most `k` inputs. `k` is 2 to 6.
///
/// The label of a source is 0. The label of an AND node is the least height of its cuts of at most k leaves, which is its least
/// depth in any cover (Cong and Ding 1994). The low cut of an AND node is determined by the labels and low cuts below it. No
/// cuts are enumerated.
///
/// # Errors
/// Only if memory runs out.
pub fn labels_by_flow(alloc: Global, graph: &Graph, k: u8) -> Result<FlowLabels, AllocError>
    requires least { 2 ≤ k }
    requires most { k ≤ MOST_LEAVES }
    ensures heights { IfOk result (λ labels. AreLeastHeights graph.now k (label_of labels)) }
    ensures cuts { IfOk result (λ labels. AreLowCuts graph.now k labels) }

    // No cover has a node at a lower depth than its label.
    ensures depths { IfOk result (λ labels. AreLeastDepths graph.now k (label_of labels)) }

    // A graph has one label for each node.
    ensures once { HasOneLabelling graph.now k }

    // Which cut each low cut is.
    ensures lows { IfOk result (λ labels. AreLowsOf graph.now k (label_of labels) (low_cut_of labels)) }

    // A graph has one low cut for each node.
    ensures one_low { HasOneLow graph.now k }
{
    let count = graph.len();
    let mut labels = NodeLabels::new(alloc);
    let mut cuts = Vec::new(alloc);
    let mut scratch = new_scratch(alloc, graph)?;
    for n in 0..count {
        if n <= graph.sources() {
            labels.push(0)?;
            cuts.push(FlatCut::empty())?;
        } else {
            extend_wanted(graph, &labels, n, &mut scratch)?;
            let made = label_node(graph, &labels, &cuts, n, k, &mut scratch)?;
            labels.push(made.label)?;
            cuts.push(made.cut)?;
        }
    }
    Ok(FlowLabels::make(labels, cuts))
}
