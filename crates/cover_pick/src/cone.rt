//! The own nodes of a LUT, and the nodes that are counted once which its cone meets.
ghost use Rattle.std.specs.Prelude.{◌≡◌, ℕ, ◌+◌, ◌/◌, ◌<◌, ◌≤◌, ◌^◌, length, OnOk, IfOk};
ghost use Rattle.aig_core.specs.Aig.{first_and, node_count, AreNormal};
ghost use Rattle.cover_pick.specs.Cone.{is_stop as ends_way, stamp_at, once_in, reach as reached_by, reach_both as reached_both, AreClosed, MeetsCone, HasOwn};

use crate::free::is_marked;
use aig_core::{Graph, Pair};
use std::alloc::{AllocError, Global};
use std::marker::Model;

/// A search below a node: a stamp for each node, the nodes reached so far, and which nodes that are counted once were met by
/// this search or by an earlier one.
#[derive(Drop)]
pub struct Search {
    stamps: Vec<u32>,
    reached: Vec<u32>,
    met: Vec<bool>,
}

impl Model for Search {
    ghost use Rattle.cover_pick.specs.Cone.{SearchValue};

    ghost Value = { SearchValue };

    ghost view = { λ s. record { stamps = s.stamps.items; reached = s.reached.items; met = s.met.items } };
}

// Whether the search stops at a node: it is a source or a leaf.
fn is_stop(graph: &Graph, leaves: &[u32], n: u32) -> bool
    ensures { result ≡ ends_way graph.now leaves.now n }
{
    n < 1 + graph.sources() || leaves.contains(&n)
}

impl Search {
    ghost use Rattle.std.specs.Prelude.{[], false, replicate};
    ghost use Rattle.cover_pick.specs.Cone.{SearchValue};

    // A search of a graph in which no node is stamped or met.
    pub fn start(alloc: Global, graph: &Graph) -> Result<Search, AllocError>
        ensures none { IfOk result (λ s. s ≡ record { stamps = replicate (node_count graph.now) 0; reached = []; met = replicate (node_count graph.now) false }) }
        ensures small { node_count graph.now ≤ 2 ^ 30 }
        ensures normal { AreNormal (first_and graph.now) graph.now.pairs }
    {
        let stamps = vec![in alloc; 0; graph.len() as usize]?;
        let met = vec![in alloc; false; graph.len() as usize]?;
        Ok(Search {
            stamps,
            reached: Vec::new(alloc),
            met,
        })
    }

    // Adds a node, unless the search stops there or it is stamped. It stops at a node that is counted once, which is met.
    fn reach(
        &mut self,
        graph: &Graph,
        once: &[bool],
        leaves: &[u32],
        stamp: u32,
        n: u32,
    ) -> Result<(), AllocError>
        requires node { n < length self.old.stamps }
        requires met { n < length self.old.met }
        ensures { OnOk result (self.new ≡ reached_by graph.now once.now leaves.now stamp self.old n) }
    {
        if is_stop(graph, leaves, n) {
            return Ok(());
        }
        if is_marked(once, n) {
            self.met[n as usize] = true;
            return Ok(());
        }
        if self.stamps[n as usize] == stamp {
            return Ok(());
        }
        self.reached.push(n)?;
        self.stamps[n as usize] = stamp;
        Ok(())
    }

    // The number of nodes reached.
    fn count(&self) -> usize
        ensures { result ≡ length self.now.reached }
    {
        self.reached.len()
    }

    // The node at a place among those reached.
    fn node(&self, i: usize) -> u32
        requires { i < length self.now.reached }
        ensures { result ≡ stamp_at self.now.reached i }
    {
        self.reached[i]
    }

    // Forgets the nodes reached.
    fn forget(&mut self)
        ensures { self.new ≡ record { stamps = self.old.stamps; reached = []; met = self.old.met } }
    {
        self.reached.clear();
    }

    // Adds the fan-ins of an AND node.
    fn reach_fan_ins(
        &mut self,
        graph: &Graph,
        once: &[bool],
        leaves: &[u32],
        stamp: u32,
        pair: Pair,
    ) -> Result<(), AllocError>
        requires x { pair.x.0 / 2 < length self.old.stamps }
        requires y { pair.y.0 / 2 < length self.old.stamps }
        requires met { length self.old.met ≡ length self.old.stamps }
        ensures { OnOk result (self.new ≡ reached_both graph.now once.now leaves.now stamp self.old pair) }
    {
        self.reach(graph, once, leaves, stamp, pair.x.0 / 2)?;
        self.reach(graph, once, leaves, stamp, pair.y.0 / 2)?;
        Ok(())
    }

    /// The number of own nodes of a node above some leaves: those that can be reached from it, itself included, without passing
    /// a leaf or a node that is counted once. The nodes of the last kind at which the search stops are met.
    ///
    /// Time is linear in this number. No node may have this stamp yet.
    pub fn cone_size(
        &mut self,
        graph: &Graph,
        once: &[bool],
        leaves: &[u32],
        top: u32,
        stamp: u32,
    ) -> Result<usize, AllocError>
        requires closed { AreClosed graph.now once.now }
        requires len { length self.old.stamps ≡ node_count graph.now }
        requires top { top < node_count graph.now }
        requires fresh { (n : ℕ) → stamp_at self.old.stamps n < stamp }
        requires met { length self.old.met ≡ node_count graph.now }
        requires once { (m : ℕ) → once_in self.old.met m → once_in once.now m }
        ensures size { IfOk result (HasOwn graph.now once.now leaves.now top) }
        ensures few { IfOk result (λ size. size ≤ node_count graph.now) }
        ensures len { OnOk result (length self.new.stamps ≡ node_count graph.now) }
        ensures stamps { OnOk result ((n : ℕ) → stamp_at self.new.stamps n ≤ stamp) }
        ensures met { OnOk result (MeetsCone graph.now once.now leaves.now top self.old.met self.new.met) }
    {
        // The proof needs what the contract of this call says of the graph.
        let _count = graph.len();
        self.forget();
        self.reach(graph, once, leaves, stamp, top)?;
        let mut next = 0;
        while next < self.count() {
            let pair = graph.pair_at(self.node(next));
            self.reach_fan_ins(graph, once, leaves, stamp, pair)?;
            next += 1;
        }
        Ok(self.count())
    }

    // The marks of the nodes that were met.
    pub fn into_met(self) -> Vec<bool>
        ensures { result.items ≡ self.met }
    {
        self.met
    }
}
