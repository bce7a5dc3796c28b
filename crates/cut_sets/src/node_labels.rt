//! A label for each node, and the height of a cut.
ghost use Rattle.std.specs.Prelude.{◌≡◌, ◌+◌, ◌<◌, ◌^◌, [], ◌∷◌, ◌++◌, OnOk, OnErr};
ghost use Rattle.cut_sets.specs.Labels.{greatest, height, label_at, AreSmall};

use std::alloc::{AllocError, Global};
use std::marker::Model;

/// A label for each node, in ascending order of the nodes.
#[derive(Drop)]
pub struct NodeLabels {
    labels: Vec<u32>,
}

impl Model for NodeLabels {
    ghost use Rattle.std.specs.Prelude.{ℕ, List};
    ghost use Rattle.cut_sets.specs.Labels.{AreSmall};

    ghost Value = { List ℕ };

    ghost view = { λ a. a.labels.items };

    ghost invariant = { λ a. AreSmall a.labels.items };
}

impl NodeLabels {
    /// Labels of no nodes.
    pub fn new(alloc: Global) -> NodeLabels
        ensures { result ≡ [] }
    {
        NodeLabels {
            labels: Vec::new(alloc),
        }
    }

    /// Adds the label of the next node.
    ///
    /// # Errors
    /// Only if memory runs out. The labels are then as before.
    pub fn push(&mut self, label: u32) -> Result<(), AllocError>
        requires { 1 + label < 2 ^ 32 }
        ensures ok { OnOk result (self.new ≡ self.old ++ label ∷ []) }
        ensures err { OnErr result (self.new ≡ self.old) }
    {
        self.labels.push(label)?;
        Ok(())
    }

    /// The label of a node. Past the last node it is 0.
    ///
    /// Constant time.
    pub fn label(&self, n: u32) -> u32
        ensures value { result ≡ label_at self.now n }
        ensures small { 1 + result < 2 ^ 32 }
    {
        label_in(&self.labels, n)
    }

    /// The greatest label of the leaves, and 0 without leaves.
    pub fn greatest(&self, leaves: &[u32]) -> u32
        ensures value { result ≡ greatest (label_at self.now) leaves.now }
        ensures small { 1 + result < 2 ^ 32 }
    {
        greatest_label(&self.labels, leaves)
    }

    /// The height of a cut: 0 if it is empty, otherwise one more than the greatest label of its leaves.
    pub fn cut_height(&self, leaves: &[u32]) -> u32
        ensures { result ≡ height (label_at self.now) leaves.now }
    {
        match leaves {
            [] => 0,
            _ => 1 + self.greatest(leaves),
        }
    }
}

// The label of a node, and 0 past the last one.
fn label_in(labels: &[u32], n: u32) -> u32
    ensures { result ≡ label_at labels.now n }
{
    labels.get(n as usize).copied().unwrap_or(0)
}

// The greatest label of the leaves.
fn greatest_label(labels: &[u32], leaves: &[u32]) -> u32
    requires { AreSmall labels.now }
    ensures value { result ≡ greatest (label_at labels.now) leaves.now }
    ensures small { 1 + result < 2 ^ 32 }
{
    let mut most = 0;
    for m in leaves {
        most = most.max(label_in(labels, *m));
    }
    most
}
