//! Labels and best cuts, node by node.
ghost use Rattle.std.specs.Prelude.{◌≡◌, ℕ, ◌<◌, ◌≤◌, List, [], length, Option, None, slice_index_or, IfOk};
ghost use Rattle.aig_core.specs.Aig.{first_and, node_count, IsAnd};
ghost use Rattle.cut_sets.specs.Rows.{row_at};
ghost use Rattle.cut_enum.specs.Table.{AreRows};
ghost use Rattle.cut_sets.specs.Labels.{height, label_at, AreLeastDepths, AreLeastHeights};
ghost use Rattle.depth_label.specs.Label.{label_of, IsCutTable, AreLabelled, HasOneLabelling};
ghost use Rattle.depth_label.specs.Fold.{IsAt, lower_of, lowest, lowest_cut};

use crate::node_labels::Labels;
use aig_core::Graph;
use cut_enum::{Cut, CutTable};
use cut_sets::NodeLabels;
use std::alloc::{AllocError, Global};

// A cut of a node, by its place, and its height.
#[derive(Clone, Copy)]
struct Low {
    place: u32,
    height: u32,
}

// The lower of the best cut so far and a later one; the first if both are equally low.
fn lower(labels: &NodeLabels, table: &CutTable, n: u32, best: Option<Low>, i: u32) -> Option<Low>
    requires { i < length (row_at table.now n) }
    ensures { (o : Option (List ℕ)) → IsAt (label_at labels.now) (row_at table.now n) best o → IsAt (label_at labels.now) (row_at table.now n) result (lower_of (label_at labels.now) o (slice_index_or (row_at table.now n) i [])) }
{
    let height = labels.cut_height(table.leaves(n, i));
    match best {
        None => Some(Low { place: i, height }),
        Some(b) => {
            if height < b.height {
                return Some(Low { place: i, height });
            }
            Some(b)
        }
    }
}

// The first among the lowest cuts of a node.
fn lowest_of(labels: &NodeLabels, table: &CutTable, n: u32) -> Option<Low>
    ensures { IsAt (label_at labels.now) (row_at table.now n) result (lowest (label_at labels.now) None (row_at table.now n)) }
{
    let mut best = None;
    for i in 0..table.count(n) {
        best = lower(labels, table, n, best, i);
    }
    best
}

// The best cut of a node, and its height.
#[derive(Drop)]
struct Best {
    cut: Cut,
    height: u32,
}

// The empty cut of a source.
fn without_leaves(alloc: Global) -> Best
    ensures cut { result.cut ≡ [] }
    ensures height { result.height ≡ 0 }
{
    Best {
        cut: Cut::empty(alloc),
        height: 0,
    }
}

// The best cut of the next node, and its height, which is the label of the node.
fn best_cut(alloc: Global, graph: &Graph, table: &CutTable, labels: &NodeLabels, n: u32) -> Best
    ensures source { n < first_and graph.now → result.cut ≡ [] }
    ensures node { IsAnd graph.now n → result.cut ≡ lowest_cut (label_at labels.now) (row_at table.now n) }
    ensures height { result.height ≡ height (label_at labels.now) result.cut }
{
    if n <= graph.sources() {
        return without_leaves(alloc);
    }
    match lowest_of(labels, table, n) {
        None => without_leaves(alloc),
        Some(low) => Best {
            cut: table.cut(n, low.place),
            height: low.height,
        },
    }
}

/// The label and the best cut of each node of a graph, given the table of its minimal cuts.
///
/// The label of a source is 0. The label of an AND node is the least height of its minimal cuts, which is its least depth in
/// any cover (Cong and Ding 1994). Goes through the nodes in ascending order, and looks at each cut once.
///
/// # Errors
///
/// Only if memory runs out.
pub fn labels(alloc: Global, graph: &Graph, table: &CutTable) -> Result<Labels, AllocError>
    requires { IsCutTable graph.now table.now }
    ensures ok { IfOk result (λ labels. AreLabelled graph.now table.now labels) }

    // The table of cuts has exactly one labelling.
    ensures once { HasOneLabelling graph.now table.now }

    // A label is the least height of all cuts, minimal or not.
    ensures heights { IfOk result (λ labels. (k : ℕ) → AreRows graph.now k (node_count graph.now) table.now → AreLeastHeights graph.now k (label_of labels)) }

    // No cover has a node at a lower depth than its label.
    ensures least { IfOk result (λ labels. (k : ℕ) → AreRows graph.now k (node_count graph.now) table.now → AreLeastDepths graph.now k (label_of labels)) }
{
    let mut labels = NodeLabels::new(alloc);
    let mut best = Vec::new(alloc);
    for n in 0..graph.len() {
        let Best { cut, height } = best_cut(alloc, graph, table, &labels, n);
        labels.push(height)?;
        best.push(cut)?;
    }
    Ok(Labels::make(labels, best))
}
