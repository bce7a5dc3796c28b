//! The public walk. Walks from several starts share its marks.
ghost use Rattle.std.specs.Prelude.{◌≡◌, ◌↔◌, [], All, IsTrue, reverse, IfOk, OnErr};
ghost use Rattle.list_laws.specs.Members.{In};
ghost use Rattle.depth_first.specs.Frames.{first_of};
ghost use Rattle.depth_first.specs.Edges.{AreNodes, successors, ways_from};
ghost use Rattle.depth_first.specs.Order.{IsSettled};
ghost use Rattle.depth_first.specs.Walk.{Visited, VisitedAll, from_node};

use crate::edge::{End, Successors};
use crate::frames::{Frames, forget};
use crate::run::{visit_each, visit_from};
use std::alloc::{AllocError, Global};
use std::marker::Model;

/// A depth-first walk over numbered nodes. It keeps the nodes in the order in which they were entered, the finished nodes in
/// the order in which they were left, and the path on which an end was found.
#[derive(Drop)]
pub struct Walk {
    frames: Frames,
}

impl Model for Walk {
    ghost use Rattle.std.specs.Prelude.{length};
    ghost use Rattle.depth_first.specs.Frames.{AreMarks, path_of};
    ghost use Rattle.depth_first.specs.Walk.{WalkValue};

    ghost Value = { WalkValue };

    ghost view = { λ w. record { count = length w.frames.marks; begun = w.frames.begun; order = w.frames.order; path = path_of w.frames.stack } };

    ghost invariant = { λ w. AreMarks w.frames.marks w.frames.begun w.frames.order (path_of w.frames.stack) };
}

impl Walk {
    /// A walk over the nodes below `count`, none of them done. Time is linear in `count`.
    ///
    /// # Errors
    /// Only if memory runs out.
    pub fn make(alloc: Global, count: usize) -> Result<Walk, AllocError>
        ensures { IfOk result (λ w. w ≡ record { count = count; begun = []; order = []; path = [] }) }
    {
        let frames = Frames::make(alloc, count)?;
        Ok(Walk { frames })
    }

    /// Walks depth first, from left to right, from a start. Skips nodes that are done.
    ///
    /// `None`: all that the start reaches is done, and is in `order` and `begun`. `Some`: the first end that the walk
    /// reaches, which is a stop or a node that is already on the path; `path` has the path. The stack is in memory. Time is
    /// linear in the number of edges that are looked at.
    ///
    /// # Errors
    /// Only if memory runs out. The walk is then unchanged.
    pub fn visit<G: Successors>(
        &mut self,
        graph: &G,
        start: u32,
    ) -> Result<Option<End<G::Stop>>, AllocError>
        requires nodes { AreNodes (G.is_node graph.now) (successors (G.edges graph.now)) self.old.count }
        requires here { G.is_node graph.now start }
        requires settled { IsSettled (ways_from (G.edges graph.now)) self.old.order }
        requires path { self.old.path ≡ [] }
        ensures ok { IfOk result (λ found. Visited (G.edges graph.now) self.old self.new start found) }
        ensures err { OnErr result (self.new ≡ self.old) }
        ensures count { self.new.count ≡ self.old.count }
    {
        visit_from(graph, &mut self.frames, start)
    }

    /// Walks from several starts in turn, as `visit` does, up to the first end.
    ///
    /// # Errors
    /// Only if memory runs out. The walk is then unchanged.
    pub fn visit_all<G: Successors>(
        &mut self,
        graph: &G,
        starts: &[u32],
    ) -> Result<Option<End<G::Stop>>, AllocError>
        requires nodes { AreNodes (G.is_node graph.now) (successors (G.edges graph.now)) self.old.count }
        requires here { All (λ start. G.is_node graph.now start) starts.now }
        requires settled { IsSettled (ways_from (G.edges graph.now)) self.old.order }
        requires path { self.old.path ≡ [] }
        ensures ok { IfOk result (λ found. VisitedAll (G.edges graph.now) self.old self.new starts.now found) }
        ensures err { OnErr result (self.new ≡ self.old) }
        ensures count { self.new.count ≡ self.old.count }
    {
        visit_each(graph, &mut self.frames, starts)
    }

    /// The nodes that were entered, in the order in which they were entered.
    pub fn begun(&self) -> &[u32]
        ensures { reverse result.now ≡ self.now.begun }
    {
        self.frames.begun()
    }

    /// The nodes that are done, in the order in which they were left.
    pub fn order(&self) -> &[u32]
        ensures { reverse result.now ≡ self.now.order }
    {
        self.frames.order()
    }

    /// The last node of the path on which an end was found.
    pub fn last(&self) -> Option<u32>
        ensures { result ≡ first_of self.now.path }
    {
        match self.frames.top() {
            None => None,
            Some(frame) => Some(frame.node),
        }
    }

    /// Whether a node is on the path on which an end was found. Constant time.
    pub fn is_on_path(&self, node: u32) -> bool
        ensures { IsTrue result ↔ In self.now.path node }
    {
        self.frames.is_on_path(node)
    }

    /// The path on which an end was found, beginning at the start.
    ///
    /// # Errors
    /// Only if memory runs out.
    pub fn path(&self, alloc: Global) -> Result<Vec<u32>, AllocError>
        ensures { IfOk result (λ path. reverse path.items ≡ self.now.path) }
    {
        let mut path = Vec::new(alloc);
        for frame in self.frames.stack() {
            path.push(frame.node)?;
        }
        Ok(path)
    }

    /// The path on which an end was found, beginning at `node`.
    ///
    /// # Errors
    /// Only if memory runs out.
    pub fn path_from(&self, alloc: Global, node: u32) -> Result<Vec<u32>, AllocError>
        ensures { IfOk result (λ nodes. nodes.items ≡ from_node node self.now.path) }
    {
        let mut nodes = Vec::new(alloc);
        for frame in self.frames.stack() {
            if node == frame.node {
                nodes.clear();
            }
            nodes.push(frame.node)?;
        }
        Ok(nodes)
    }

    /// Forgets which nodes are done, and the path. Time is linear in the number of nodes that were entered.
    pub fn clear(&mut self)
        ensures { self.new ≡ record { count = self.old.count; begun = []; order = []; path = [] } }
    {
        forget(&mut self.frames);
    }
}
