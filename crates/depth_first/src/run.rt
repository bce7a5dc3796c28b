//! The walk over a graph's edges.
ghost use Rattle.std.specs.Prelude.{◌≡◌, ◌<◌, ℕ, All, Some, length, IfOk, OnOk, OnErr};
ghost use Rattle.list_laws.specs.Members.{In};
ghost use Rattle.depth_first.specs.Edges.{AreNodes, successors};
ghost use Rattle.depth_first.specs.Frames.{AreKept, HasGrown, first_of, taken_back};
ghost use Rattle.depth_first.specs.Steps.{IsEdgeWithin, Followed, IsGoing, Stepped, Ran, CanVisit, seen};
ghost use Rattle.depth_first.specs.Walk.{Visited, VisitedAll};

use crate::edge::{Edge, End, Successors};
use crate::frames::{Frame, Frames, Mark, take_back};
use std::alloc::AllocError;

// Follows an edge. A new node is pushed onto the path; a node of the path or a stop is the end.
fn follow<S: Drop>(frames: &mut Frames, edge: Edge<S>) -> Result<Option<End<S>>, AllocError>
    requires { IsEdgeWithin edge (length frames.old.marks) }
    ensures ok { IfOk result (λ found. Followed frames.old edge frames.new found) }
    ensures err { OnErr result (frames.new ≡ frames.old) }
{
    match edge {
        Edge::Pass => Ok(None),
        Edge::Stop(reason) => Ok(Some(End::Stop(reason))),
        Edge::Node(n) => match frames.mark(n) {
            Mark::New => {
                frames.enter(n)?;
                Ok(None)
            }
            Mark::OnPath => Ok(Some(End::Loop(n))),
            Mark::Done => Ok(None),
        },
    }
}

// One step of the walk: follows the next edge of the last node of the path, or leaves that node.
fn step<G: Successors>(
    graph: &G,
    frames: &mut Frames,
    frame: Frame,
) -> Result<Option<End<G::Stop>>, AllocError>
    requires nodes { AreNodes (G.is_node graph.now) (successors (G.edges graph.now)) (length frames.old.marks) }
    requires going { IsGoing (G.edges graph.now) (G.is_node graph.now) frames.old }
    requires top { first_of frames.old.stack ≡ Some frame }
    ensures ok { IfOk result (λ found. Stepped (G.edges graph.now) (G.is_node graph.now) frames.old frames.new found) }
    ensures kept { AreKept frames.old frames.new }
    ensures grown { HasGrown frames.old frames.new }
{
    match graph.successor(frame.node, frame.place) {
        None => {
            frames.finish(frame.node)?;
            Ok(None)
        }
        Some(edge) => {
            frames.advance(frame);
            let found = follow(frames, edge)?;
            Ok(found)
        }
    }
}

// Continues the walk until the stack is empty or an end is found.
fn run<G: Successors>(graph: &G, frames: &mut Frames) -> Result<Option<End<G::Stop>>, AllocError>
    requires nodes { AreNodes (G.is_node graph.now) (successors (G.edges graph.now)) (length frames.old.marks) }
    requires going { IsGoing (G.edges graph.now) (G.is_node graph.now) frames.old }
    ensures ok { IfOk result (λ found. Ran (G.edges graph.now) (G.is_node graph.now) frames.old frames.new found) }
    ensures kept { AreKept frames.old frames.new }
    ensures grown { HasGrown frames.old frames.new }
{
    while let Some(frame) = frames.top() {
        let found = step(graph, frames, frame)?;
        if found.is_some() {
            return Ok(found);
        }
    }
    Ok(None)
}

// Walks from a start, unless it is done, as far as memory suffices.
fn go_from<G: Successors>(
    graph: &G,
    frames: &mut Frames,
    start: u32,
) -> Result<Option<End<G::Stop>>, AllocError>
    requires ready { CanVisit (G.edges graph.now) (G.is_node graph.now) frames.old }
    requires here { G.is_node graph.now start }
    ensures ok { IfOk result (λ found. Visited (G.edges graph.now) (seen frames.old) (seen frames.new) start found) }
    ensures kept { AreKept frames.old frames.new }
    ensures grown { HasGrown frames.old frames.new }
{
    match frames.mark(start) {
        Mark::New => {
            frames.enter(start)?;
            let found = run(graph, frames)?;
            Ok(found)
        }
        Mark::OnPath => Ok(None),
        Mark::Done => Ok(None),
    }
}

// What a walk found. If memory ran out, only so many nodes stay entered and done, and none is on the path.
fn or_take_back<S: Drop>(
    frames: &mut Frames,
    begun: usize,
    order: usize,
    found: Result<Option<End<S>>, AllocError>,
) -> Result<Option<End<S>>, AllocError>
    requires { (n : ℕ) → In frames.old.begun n → n < length frames.old.marks }
    ensures found { result ≡ found }
    ensures ok { OnOk result (frames.new ≡ frames.old) }
    ensures err { OnErr result (frames.new ≡ taken_back begun order frames.old) }
{
    if found.is_err() {
        take_back(frames, begun, order);
    }
    found
}

// Walks from a start, unless it is done. If memory runs out, nothing has changed.
pub(crate) fn visit_from<G: Successors>(
    graph: &G,
    frames: &mut Frames,
    start: u32,
) -> Result<Option<End<G::Stop>>, AllocError>
    requires ready { CanVisit (G.edges graph.now) (G.is_node graph.now) frames.old }
    requires here { G.is_node graph.now start }
    ensures ok { IfOk result (λ found. Visited (G.edges graph.now) (seen frames.old) (seen frames.new) start found) }
    ensures err { OnErr result (seen frames.new ≡ seen frames.old) }
    ensures kept { AreKept frames.old frames.new }
{
    let begun = frames.begun_count();
    let order = frames.done_count();
    let found = go_from(graph, frames, start);
    or_take_back(frames, begun, order, found)
}

// Walks from several starts in turn, up to the first end, as far as memory suffices.
fn go_all<G: Successors>(
    graph: &G,
    frames: &mut Frames,
    starts: &[u32],
) -> Result<Option<End<G::Stop>>, AllocError>
    requires ready { CanVisit (G.edges graph.now) (G.is_node graph.now) frames.old }
    requires here { All (λ start. G.is_node graph.now start) starts.now }
    ensures ok { IfOk result (λ found. VisitedAll (G.edges graph.now) (seen frames.old) (seen frames.new) starts.now found) }
    ensures kept { AreKept frames.old frames.new }
    ensures grown { HasGrown frames.old frames.new }
{
    for &start in starts {
        let found = go_from(graph, frames, start)?;
        if found.is_some() {
            return Ok(found);
        }
    }
    Ok(None)
}

// Walks from several starts in turn, up to the first end. If memory runs out, nothing has changed.
pub(crate) fn visit_each<G: Successors>(
    graph: &G,
    frames: &mut Frames,
    starts: &[u32],
) -> Result<Option<End<G::Stop>>, AllocError>
    requires ready { CanVisit (G.edges graph.now) (G.is_node graph.now) frames.old }
    requires here { All (λ start. G.is_node graph.now start) starts.now }
    ensures ok { IfOk result (λ found. VisitedAll (G.edges graph.now) (seen frames.old) (seen frames.new) starts.now found) }
    ensures err { OnErr result (seen frames.new ≡ seen frames.old) }
    ensures kept { AreKept frames.old frames.new }
{
    let begun = frames.begun_count();
    let order = frames.done_count();
    let found = go_all(graph, frames, starts);
    or_take_back(frames, begun, order, found)
}
