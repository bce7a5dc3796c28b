//! Edges, and the trait of a graph that can be walked.
ghost use Rattle.std.specs.Prelude.{◌≡◌, ℕ, ◌+◌, ◌<◌, ◌^◌, List, IsSome, slice_get};
ghost use Rattle.depth_first.specs.declared.edge.Edge.{Edge};

/// Where an edge leads, or why it leads nowhere.
#[derive(Drop)]
pub enum Edge<S> {
    /// To a node.
    Node(u32),
    /// Nowhere: it ends the walk, for this reason.
    Stop(S),
    /// Nowhere: the walk ignores it.
    Pass,
}

/// Why a walk ended before all nodes were visited.
#[derive(Drop)]
pub enum End<S> {
    /// An edge leads back to this node, which is on the current path.
    Loop(u32),
    /// An edge of the last node of the path is a stop.
    Stop(S),
}

/// A graph that can be walked: the edges of each node, from left to right.
pub trait Successors {
    /// Why an edge ends a walk.
    type Stop: Drop;

    /// Whether this number is a node.
    ghost is_node: { Self → ℕ → Type 0 };

    /// The edges of a node, from left to right.
    ghost edges: { Self → ℕ → List (Edge Self.Stop) };

    /// The edge of a node at a place, counted from 0; `None` past the last edge.
    fn successor(&self, node: u32, place: usize) -> Option<Edge<Self::Stop>>
        requires { is_node self.now node }
        ensures edge { result ≡ slice_get (edges self.now node) place }
        ensures room { IsSome result → place + 1 < 2 ^ 64 };
}
