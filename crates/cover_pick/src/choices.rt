//! What cuts are chosen from.
use aig_core::{Graph, Lit};
use cut_sets::{CutRows, NodeLabels};

/// What cuts are chosen from, and for which roots.
#[derive(Clone, Copy)]
pub struct Choices<'a> {
    /// The graph.
    pub graph: &'a Graph,
    /// The cuts of each node.
    pub rows: &'a CutRows,
    /// The least height of each node's cuts.
    pub labels: &'a NodeLabels,
    /// The literals that need LUTs.
    pub roots: &'a [Lit],
}
