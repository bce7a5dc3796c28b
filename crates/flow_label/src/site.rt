//! The node to which paths are sought, with the data that the search reads.
ghost use Rattle.std.specs.Prelude.{◌≡◌, ◌==◌, ◌⊎◌, ℕ, ◌<◌, ◌≤◌, ◌+◌, ◌^◌, length, nat_lt, slice_index, true, false};
ghost use Rattle.aig_core.specs.Aig.{node_count, IsAnd};
ghost use Rattle.cut_sets.specs.Labels.{label_at};
ghost use Rattle.cut_sets.specs.Paths.{IsFanIn};
ghost use Rattle.flow_label.specs.Value.{IsLive};
ghost use Rattle.flow_label.specs.Net.{IsNet, IsOpen, net_on, net_of, is_inner, is_linked, AreEnds};
ghost use Rattle.flow_label.specs.Links.{first_owner};

use crate::live::is_live;
use crate::scratch::ConeWalk;
use crate::stamped::Stamped;
use aig_core::Graph;
use cut_sets::NodeLabels;
use std::marker::Model;

/// The two fan-ins of a node. `near` is nearer to a regular source.
#[derive(Clone, Copy)]
pub struct FanIns {
    pub far: u32,
    pub near: u32,
}

/// Down to where paths are sought: the floor, and for each node up to which floor it stays linked.
#[derive(Clone, Copy)]
pub struct Ground<'a> {
    pub floor: u32,
    pub until: &'a [u32],
}

/// The node, its graph with the labels, the height that is in question, and the results of the walk down from the node: the
/// readers and the ends. `steps` has for each node the fewest steps down to a regular source, and orders the search.
#[derive(Drop)]
pub struct Site<'a> {
    graph: &'a Graph,
    labels: &'a NodeLabels,
    node: u32,
    height: u32,
    readers: &'a Stamped,
    ends: &'a [u32],
    steps: &'a [u32],
    floor: u32,
    until: &'a [u32],
}

impl<'a> Model for Site<'a> {
    ghost use Rattle.flow_label.specs.Net.{SiteValue, net_on, IsSite};

    ghost Value = { SiteValue };

    ghost view = { λ s. record { graph = s.graph.now; labels = s.labels.now; node = s.node; height = s.height; readers = s.readers.now; floor = s.floor; until = s.until.now } };

    ghost invariant = { λ s. IsSite (net_on s.graph.now s.labels.now s.node s.height s.readers.now s.floor s.until.now) s.ends.now };
}

impl<'a> Site<'a> {
    /// A site: a node with what the walk met, and the ground.
    pub fn make(
        graph: &'a Graph,
        labels: &'a NodeLabels,
        node: u32,
        height: u32,
        walk: &'a ConeWalk,
        steps: &'a [u32],
        ground: Ground<'a>,
    ) -> Site<'a>
        requires net { IsNet (net_on graph.now labels.now node height walk.now.readers ground.floor ground.until.now) }
        requires ends { AreEnds (net_on graph.now labels.now node height walk.now.readers ground.floor ground.until.now) walk.now.ends.items }
        ensures { result ≡ record { graph = graph.now; labels = labels.now; node = node; height = height; readers = walk.now.readers; floor = ground.entry.floor; until = ground.entry.until.now } }
    {
        Site {
            graph,
            labels,
            node,
            height,
            readers: &walk.readers,
            ends: &walk.ends,
            steps,
            floor: ground.floor,
            until: ground.until,
        }
    }

    /// The node. The contract also says what every site keeps.
    pub fn node(&self) -> u32
        ensures is { result ≡ self.now.node }
        ensures net { IsNet (net_of self.now) }
        ensures small { node_count self.now.graph ≤ 2 ^ 30 }
    {
        // The proof needs what the contract of this call says of the graph.
        let _count = self.graph.len();
        self.node
    }

    /// The number of nodes of the graph.
    pub fn count(&self) -> u32
        ensures is { result ≡ node_count self.now.graph }
    {
        self.graph.len()
    }

    /// Whether the label of m is at least two less than the height.
    pub fn is_low(&self, m: u32) -> bool
        ensures { result ≡ nat_lt (label_at self.now.labels m + 1) self.now.height }
    {
        self.labels.label(m) + 1 < self.height
    }

    /// Whether m is a low AND node between the floor and the node, and not free.
    pub fn is_inner(&self, m: u32) -> bool
        ensures { result ≡ is_inner self.now m }
    {
        m > self.floor && m < self.node && self.is_low(m) && self.labels.label(m) > 0
    }

    /// Whether paths start at regular sources alone.
    pub fn is_full(&self) -> bool
        ensures { result ≡ (self.now.floor == length self.now.graph.kinds) }
    {
        self.floor == self.graph.sources()
    }

    // Whether m is linked at the floor, if it is at or below it.
    fn is_linked(&self, m: u32) -> bool
        ensures { result ≡ is_linked self.now.graph self.now.floor self.now.until m }
    {
        self.is_full() || self.floor <= self.until.get(m as usize).copied().unwrap_or(0)
    }

    /// Whether a path may pass m: a regular source is at or below it, and it is above the floor or linked.
    pub fn is_open(&self, m: u32) -> bool
        requires { m < node_count self.now.graph }
        ensures yes { result ≡ true → IsOpen (net_of self.now) m }
        ensures no { result ≡ false → IsOpen (net_of self.now) m → ⊥ }
    {
        self.is_live(m) && (m > self.floor || self.is_linked(m))
    }

    /// The node that has chosen m before the first path is added: an inner node has chosen itself; 0 means none.
    pub fn first_owner(&self, m: u32) -> u32
        ensures { result ≡ first_owner self.now m }
    {
        if self.is_inner(m) { m } else { 0 }
    }

    /// The node that first read m; 0 means none.
    pub fn reader(&self, m: u32) -> u32
        ensures { result ≡ slice_index self.now.readers m }
    {
        self.readers.get(m)
    }

    /// Whether a regular source is at or below m.
    pub fn is_live(&self, m: u32) -> bool
        requires { m < node_count self.now.graph }
        ensures yes { result ≡ true → IsLive self.now.graph (label_at self.now.labels) m }
        ensures no { result ≡ false → IsLive self.now.graph (label_at self.now.labels) m → ⊥ }
    {
        is_live(self.graph, self.labels, m)
    }

    // The steps from m down to a regular source.
    fn steps(&self, m: u32) -> u32 {
        self.steps.get(m as usize).copied().unwrap_or(0)
    }

    /// The fan-ins of an AND node.
    pub fn fan_ins(&self, a: u32) -> FanIns
        requires { IsAnd self.now.graph a }
        ensures far { IsFanIn self.now.graph result.far a }
        ensures near { IsFanIn self.now.graph result.near a }
        ensures all { (m : ℕ) → IsFanIn self.now.graph m a → (m ≡ result.far) ⊎ (m ≡ result.near) }
        ensures below { result.far < a }
        ensures near_below { result.near < a }
    {
        let pair = self.graph.pair_at(a);
        let x = pair.x.0 / 2;
        let y = pair.y.0 / 2;
        if self.steps(x) < self.steps(y) {
            return FanIns { far: y, near: x };
        }
        FanIns { far: x, near: y }
    }

    /// The low nodes that were met on the walk down.
    pub fn ends(&self) -> &[u32]
        ensures { AreEnds (net_of self.now) result.now }
    {
        self.ends
    }
}
