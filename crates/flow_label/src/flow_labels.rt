//! Labels and low cuts.
ghost use Rattle.std.specs.Prelude.{◌≡◌, ◌+◌, ◌<◌, ◌^◌};

use cut_sets::{FlatCut, NodeLabels};
use std::marker::Model;

/// The label and a low cut of each node.
#[derive(Drop)]
pub struct FlowLabels {
    labels: NodeLabels,
    cuts: Vec<FlatCut>,
}

impl Model for FlowLabels {
    ghost use Rattle.flow_label.specs.Value.{FlowValue};

    ghost Value = { FlowValue };

    ghost view = { λ a. record { labels = a.labels; cuts = a.cuts.items } };
}

impl FlowLabels {
    ghost use Rattle.flow_label.specs.Value.{FlowValue, label_of, low_cut_of};

    // These labels and low cuts.
    pub(crate) fn make(labels: NodeLabels, cuts: Vec<FlatCut>) -> FlowLabels
        ensures { result ≡ record { labels = labels; cuts = cuts.items } }
    {
        FlowLabels { labels, cuts }
    }

    /// The labels alone.
    pub fn labels(&self) -> &NodeLabels
        ensures { result.now ≡ self.now.labels }
    {
        &self.labels
    }

    /// The labels alone, without the low cuts.
    pub fn into_labels(self) -> NodeLabels
        ensures { result ≡ self.labels }
    {
        self.labels
    }

    /// The label of a node: 0 for a source, otherwise the least height of its cuts. Past the last node it is 0.
    ///
    /// Constant time.
    pub fn label(&self, n: u32) -> u32
        ensures value { result ≡ label_of self.now n }
        ensures small { 1 + result < 2 ^ 32 }
    {
        self.labels.label(n)
    }

    /// The low cut of an AND node: a cut whose height is the node's label. Empty for any other node.
    ///
    /// Constant time.
    pub fn low_cut(&self, n: u32) -> &[u32]
        ensures { result.now ≡ low_cut_of self.now n }
    {
        match self.cuts.get(n as usize) {
            Some(cut) => cut.leaves(),
            None => &[],
        }
    }

    /// The low cut of each node, for all nodes in order. That of a source is empty.
    ///
    /// Constant time.
    pub fn low_cuts(&self) -> &[FlatCut]
        ensures { result.now ≡ self.now.cuts }
    {
        &self.cuts
    }
}
