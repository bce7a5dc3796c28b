//! The cone of a LUT as a graph for a walk, and its postorder. The walk stops at nodes whose literals are kept.
ghost use Rattle.std.specs.Prelude.{◌≡◌, ◌<◌, OnOk};
ghost use Rattle.aig_core.specs.Aig.{first_and, node_count, AreNormal};
ghost use Rattle.cover_pick.specs.Cone.{is_stop as ends_way};
ghost use Rattle.bit_fun.specs.ConeFunctions.{cone_edge, ends_at, IsConeOrder};

use crate::marks::is_marked;
use aig_core::Graph;
use depth_first::{Edge, Successors, Walk};
use std::alloc::AllocError;

// Whether a node is the constant, a source or a leaf.
fn is_stop(graph: &Graph, leaves: &[u32], n: u32) -> bool
    ensures stops { result ≡ ends_way graph.now leaves.now n }
    ensures normal { AreNormal (first_and graph.now) graph.now.pairs }
{
    n < 1 + graph.sources() || leaves.contains(&n)
}

// Whether the walk stops at a node: it is the constant, a source or a leaf, or its literal is kept.
fn is_end(graph: &Graph, leaves: &[u32], kept: &[bool], n: u32) -> bool
    ensures ends { result ≡ ends_at graph.now leaves.now kept.now n }
    ensures normal { AreNormal (first_and graph.now) graph.now.pairs }
{
    is_stop(graph, leaves, n) || is_marked(kept, n)
}

// The part of a graph above some leaves and the nodes whose literals are kept.
#[derive(Drop)]
struct Cone<'a> {
    graph: &'a Graph,
    leaves: &'a [u32],
    kept: &'a [bool],
}

// The edge to a node.
fn edge(graph: &Graph, leaves: &[u32], kept: &[bool], n: u32) -> Edge<()>
    ensures { result ≡ cone_edge graph.now leaves.now kept.now n }
{
    if is_end(graph, leaves, kept, n) {
        Edge::Pass
    } else {
        Edge::Node(n)
    }
}

impl Successors for Cone<'_> {
    ghost use Rattle.cover_pick.specs.Work.{IsInner};
    ghost use Rattle.bit_fun.specs.ConeFunctions.{cone_edges};

    type Stop = ();

    ghost is_node = { λ cone n. IsInner cone.graph.now cone.leaves.now n };

    ghost edges = { λ cone n. cone_edges cone.graph.now cone.leaves.now cone.kept.now n };

    fn successor(&self, node: u32, place: usize) -> Option<Edge<()>> {
        let pair = self.graph.pair_at(node);
        match place {
            0 => Some(edge(self.graph, self.leaves, self.kept, pair.x.0 / 2)),
            1 => Some(edge(self.graph, self.leaves, self.kept, pair.y.0 / 2)),
            _ => None,
        }
    }
}

// Walks the cone of a node above some leaves and the nodes whose literals are kept, from a cleared walk. The cone is empty if
// the walk stops at the node itself.
pub fn walk_cone(
    graph: &Graph,
    leaves: &[u32],
    kept: &[bool],
    top: u32,
    walk: &mut Walk,
) -> Result<(), AllocError>
    requires top { top < node_count graph.now }
    requires count { walk.old.count ≡ node_count graph.now }
    ensures order { OnOk result (IsConeOrder graph.now leaves.now kept.now top walk.new.order) }
    ensures count { walk.new.count ≡ walk.old.count }
{
    walk.clear();
    if is_end(graph, leaves, kept, top) {
        return Ok(());
    }
    let cone = Cone {
        graph,
        leaves,
        kept,
    };
    let _end = walk.visit(&cone, top)?;
    Ok(())
}
