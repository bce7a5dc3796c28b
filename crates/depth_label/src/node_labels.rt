//! The labels of a graph's nodes.
ghost use Rattle.std.specs.Prelude.{◌≡◌, ◌+◌, ◌<◌, ◌^◌, [], length, slice_index_or};
ghost use Rattle.cut_sets.specs.Labels.{height as height_of};
ghost use Rattle.cut_sets.specs.Rows.{row_at};

use cut_enum::{Cut, CutTable};
use cut_sets::NodeLabels;
use std::marker::Model;

/// The label and the best cut of each node.
#[derive(Drop)]
pub struct Labels {
    labels: NodeLabels,
    best: Vec<Cut>,
}

impl Model for Labels {
    ghost use Rattle.depth_label.specs.Label.{LabelsValue};

    ghost Value = { LabelsValue };

    ghost view = { λ a. record { labels = a.labels; best = a.best.items } };
}

impl Labels {
    ghost use Rattle.depth_label.specs.Label.{LabelsValue, label_of, best_of};

    // The labels and the best cuts of these nodes.
    pub(crate) fn make(labels: NodeLabels, best: Vec<Cut>) -> Labels
        ensures { result ≡ record { labels = labels; best = best.items } }
    {
        Labels { labels, best }
    }

    /// The labels alone.
    pub fn node_labels(&self) -> &NodeLabels
        ensures { result.now ≡ self.now.labels }
    {
        &self.labels
    }

    /// The labels alone, without the best cuts.
    pub fn into_node_labels(self) -> NodeLabels
        ensures { result ≡ self.labels }
    {
        self.labels
    }

    /// The label of a node: 0 for a source, otherwise the least height of its minimal cuts. Past the last node it is 0.
    ///
    /// Constant time.
    pub fn label(&self, n: u32) -> u32
        ensures value { result ≡ label_of self.now n }
        ensures small { 1 + result < 2 ^ 32 }
    {
        self.labels.label(n)
    }

    /// The best cut of an AND node: the least height; among these the fewest leaves; among these the lexicographically least.
    /// Empty for any other node.
    pub fn best(&self, n: u32) -> Cut
        ensures { result ≡ best_of self.now n }
    {
        match self.best.get(n as usize) {
            None => Cut::empty(*self.best.allocator()),
            Some(cut) => cut.copy(),
        }
    }

    /// The height of a cut: 0 if it is empty, otherwise one more than the greatest label of its leaves.
    pub fn cut_height(&self, cut: &Cut) -> u32
        ensures { result ≡ height_of (label_of self.now) cut.now }
    {
        self.labels.cut_height(cut.leaves())
    }

    /// The height of cut `i` of node `n` in the table of cuts.
    pub fn height(&self, table: &CutTable, n: u32, i: u32) -> u32
        requires { i < length (row_at table.now n) }
        ensures { result ≡ height_of (label_of self.now) (slice_index_or (row_at table.now n) i []) }
    {
        self.labels.cut_height(table.leaves(n, i))
    }
}
