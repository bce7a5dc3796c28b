//! Loops of covers, and the order of the covers, by their depth-first walk.
ghost use Rattle.std.specs.Prelude.{◌≡◌, All, ◌<◌, ◌≤◌, ◌^◌, map, length, slice_get, IfOk, ℕ, List, [], ◌∷◌, ◌++◌, reverse, IfErr, OnOk};
ghost use Rattle.std.specs.List.{range_with_len};
ghost use Rattle.blif_flat.specs.Bodies.Conditions.{AreCoversOf};
ghost use Rattle.blif_flat.specs.{InRange, IsReady, Searched, IsFound, In, OrMemory, FlatNet as NetValue, OutPort as OutPortValue, IsDriven, AreInstances, PostsAll, LoopWalk, IsLoop, AreCounted, AreWrittenAt};
ghost use Rattle.blif_flat.specs.{inputs_at, edge_of, refusal_of, is_cover, most_weight, paths_of, places_at, cover_numbers, cover_reads, root_numbers};

use crate::circuit::instances::{Gate, Instance};
use crate::field::written::written_cover;
use crate::flat_err::FlatErr;
use depth_first::{Edge, End, Successors, Walk};
use netlist::{FlatCover, FlatLatch, FlatNet, Library, OutPort};
use std::alloc::{AllocError, Global};
use tl_fault::{Name, Names};

/// The result of a walk.
#[derive(Drop)]
pub(crate) enum Found {
    /// The covers of a loop. Each reads the next, and the last reads the first.
    Loop(Vec<u32>),
    /// The covers that the roots reach, each after the covers that it reads.
    Order(Vec<u32>),
}

// The inputs of a cover.
fn inputs_of(covers: &[FlatCover], n: u32) -> &[FlatNet]
    requires { n < length covers.now }
    ensures { result.now ≡ inputs_at (slice_get covers.now n) }
{
    let cover: &FlatCover = &covers[n as usize];
    cover.inputs.as_slice()
}

// The edge to the driver of a net.
fn edge(net: FlatNet) -> Edge<()>
    ensures { result ≡ edge_of net }
{
    match net {
        FlatNet::Input(_) => Edge::Pass,
        FlatNet::Latch(_) => Edge::Pass,
        FlatNet::Cover(n) => Edge::Node(n),
    }
}

// The covers as a graph: each one leads to those that drive its inputs.
#[derive(Drop)]
struct Reads<'a> {
    covers: &'a [FlatCover],
}

impl Successors for Reads<'_> {
    ghost use Rattle.blif_flat.specs.Bodies.FieldSteps.{cover_edges};

    type Stop = ();

    ghost is_node = { λ graph n. n < length graph.covers.now };

    ghost edges = { λ graph n. cover_edges graph.covers.now n };

    fn successor(&self, node: u32, place: usize) -> Option<Edge<()>> {
        let inputs = inputs_of(self.covers, node);
        match inputs.get(place) {
            None => None,
            Some(net) => Some(edge(*net)),
        }
    }
}

// The numbers below a count.
fn numbers_below(alloc: Global, count: u32) -> Result<Vec<u32>, AllocError>
    ensures { IfOk result (λ numbers. numbers.items ≡ range_with_len 0 count) }
{
    (0..count).collect(alloc)
}

// Walks from several covers in turn: the covers of the first loop that is closed, if one is.
fn find_loop(
    alloc: Global,
    covers: &[FlatCover],
    walk: &mut Walk,
    starts: &[u32],
) -> Result<Option<Vec<u32>>, AllocError>
    requires range { InRange covers.now }
    requires here { All (λ start. start < length covers.now) starts.now }
    requires ready { IsReady covers.now walk.old }
    ensures { IfOk result (λ found. Searched covers.now walk.old walk.new starts.now found) }
{
    match walk.visit_all(&Reads { covers }, starts)? {
        None => Ok(None),
        Some(End::Stop(())) => unreachable!(),
        Some(End::Loop(cover)) => {
            let nodes = walk.path_from(alloc, cover)?;
            Ok(Some(nodes))
        }
    }
}

/// Walks the covers depth first, left to right, from the roots and then from all covers in order. If a cover on the path is met
/// again, the result is the first such loop, else the order of the covers that the roots reach.
///
/// The time is linear in the covers' inputs. The stack is kept in memory. `Err` only if memory runs out.
pub(crate) fn walk_covers(
    alloc: Global,
    covers: &[FlatCover],
    roots: &[u32],
) -> Result<Found, AllocError>
    requires range { InRange covers.now }
    requires here { All (λ root. root < length covers.now) roots.now }
    requires few { length covers.now < 2 ^ 32 }
    ensures { IfOk result (λ found. IsFound covers.now roots.now found) }
{
    let mut walk = Walk::make(alloc, covers.len())?;
    if let Some(nodes) = find_loop(alloc, covers, &mut walk, roots)? {
        return Ok(Found::Loop(nodes));
    }
    let order = Vec::from_slice(alloc, walk.order())?;
    let all = numbers_below(alloc, covers.len() as u32)?;
    if let Some(nodes) = find_loop(alloc, covers, &mut walk, &all)? {
        return Ok(Found::Loop(nodes));
    }
    Ok(Found::Order(order))
}

// Adds the cover that drives a net, if one does.
fn add_cover(covers: &mut Vec<u32>, net: FlatNet) -> Result<(), AllocError>
    ensures { OnOk result ((nets : List NetValue) → covers.new.items ++ cover_numbers nets ≡ covers.old.items ++ cover_numbers (net ∷ nets)) }
{
    match net {
        FlatNet::Input(_) => Ok(()),
        FlatNet::Latch(_) => Ok(()),
        FlatNet::Cover(n) => {
            covers.push(n)?;
            Ok(())
        }
    }
}

// The covers among the nets of the outputs.
fn output_roots(alloc: Global, outputs: &[OutPort]) -> Result<Vec<u32>, AllocError>
    ensures { IfOk result (λ roots. roots.items ≡ cover_numbers (map (λ (o : OutPortValue). o.net) outputs.now)) }
{
    let mut roots = Vec::new(alloc);
    for port in outputs {
        add_cover(&mut roots, port.net)?;
    }
    Ok(roots)
}

// The covers among the nets of the outputs, and then among those of the latch inputs.
fn all_roots(
    alloc: Global,
    outputs: &[OutPort],
    latches: &[FlatLatch],
) -> Result<Vec<u32>, AllocError>
    ensures { IfOk result (λ roots. roots.items ≡ root_numbers (map (λ (o : OutPortValue). o.net) outputs.now) latches.now) }
{
    let mut roots = output_roots(alloc, outputs)?;
    for latch in latches {
        add_cover(&mut roots, latch.input)?;
    }
    Ok(roots)
}

// The nets of several covers, as they are written.
fn written_covers(
    alloc: Global,
    library: &Library,
    instances: &[Instance],
    gates: &[Gate],
    numbers: &[u32],
) -> Result<Vec<Name>, AllocError>
    requires instances { AreInstances library.now instances.now }
    requires gates { AreCoversOf library.now instances.now gates.now }
    requires here { (number : ℕ) → In numbers.now number → number < length gates.now }
    ensures { IfOk result (λ texts. AreWrittenAt library.now (places_at library.now is_cover (paths_of instances.now)) numbers.now texts.items) }
{
    let mut texts = Vec::new(alloc);
    for &number in numbers {
        let text = written_cover(alloc, library, instances, gates, number)?;
        texts.push(text)?;
    }
    Ok(texts)
}

/// The covers that the roots reach, in depth-first postorder, left to right. The roots are the outputs and then the latch
/// inputs. All arguments belong to the library. The time is linear in the covers' inputs.
///
/// # Errors
/// `Loop` with the nets of the first loop of covers. `Memory` if memory runs out.
pub(crate) fn cover_order(
    alloc: Global,
    library: &Library,
    instances: &[Instance],
    gates: &[Gate],
    covers: &[FlatCover],
    latches: &[FlatLatch],
    outputs: &[OutPort],
) -> Result<Vec<u32>, FlatErr>
    requires driven { IsDriven library.now }
    requires instances { AreInstances library.now instances.now }
    requires gates { AreCoversOf library.now instances.now gates.now }
    requires walked { AreCounted library.now (paths_of instances.now) (map (λ (o : OutPortValue). o.net) outputs.now) covers.now latches.now }
    requires few { length covers.now ≤ most_weight }
    ensures clean { IfOk result (λ order. LoopWalk library.now None) }
    ensures order { IfOk result (λ order. PostsAll (cover_reads covers.now) []
        (root_numbers (map (λ (o : OutPortValue). o.net) outputs.now) latches.now) (reverse order.items)) }
    ensures err { IfErr result (OrMemory refusal_of (IsLoop library.now)) }
{
    let roots = all_roots(alloc, outputs, latches)?;
    match walk_covers(alloc, covers, &roots)? {
        Found::Order(order) => Ok(order),
        Found::Loop(nodes) => {
            let texts = written_covers(alloc, library, instances, gates, &nodes)?;
            Err(FlatErr::Loop(Names::make(texts)))
        }
    }
}
