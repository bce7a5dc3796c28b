//! The laws of bounded sets.
ghost use Rattle.cut_sets.specs.Labels.{label_at, AreLeastHeights};
ghost use Rattle.bounded_cuts.specs.Making.{AreLows, low_in};
ghost use Rattle.bounded_cuts.specs.Sets.{AreOfUse, AreOnce};

use aig_core::Graph;
use cut_sets::{FlatCut, NodeLabels};

/// The laws of the sets of a graph, for all counts of readers and all favoured nodes: there is one set for each node, and sets
/// serve, since each has cuts of its node alone, one of which is as low as the label.
///
/// The call does nothing: its contract is the law.
pub fn set_laws(graph: &Graph, k: u8, labels: &NodeLabels, lows: &[FlatCut])
    requires labels { AreLeastHeights graph.now k (label_at labels.now) }
    requires lows { AreLows graph.now k (label_at labels.now) lows.now }
    ensures once { AreOnce graph.now k (label_at labels.now) (low_in lows.now) }
    ensures serves { AreOfUse graph.now k (label_at labels.now) (low_in lows.now) }
{
    // The contract of this call says that the graph's pairs are normal.
    let _count = graph.len();
}
