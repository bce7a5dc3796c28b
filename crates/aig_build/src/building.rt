//! The graph of a whole flat circuit.
ghost use Rattle.std.specs.Prelude.{◌≡◌, ℕ, ◌+◌, ◌<◌, ◌≤◌, ◌^◌, List, [], ◌++◌, length, map, replicate, Err, IfOk, OnOk, IfErr};
ghost use Rattle.list_laws.specs.Members.{In};
ghost use Rattle.tl_fault.specs.OrMemory.{OrMemory};
ghost use Rattle.tl_text.specs.Once.{AreOnce};
ghost use Rattle.netlist.specs.WellFormed.{IsWellFormed};
ghost use Rattle.netlist.specs.declared.flat.OutPort.{OutPort as OutPortValue};
ghost use Rattle.netlist.specs.declared.flat.FlatLatch.{FlatLatch as FlatLatchValue};
ghost use Rattle.netlist.specs.Bounds.{IsWithinBounds};
ghost use Rattle.netlist.specs.Flat.{IsFlat};
ghost use Rattle.netlist.specs.FlatCycle.{HasCycles};
ghost use Rattle.netlist.specs.Flattened.{HasValues};
ghost use Rattle.netlist.specs.Sound.{IsSound};
ghost use Rattle.param_list.specs.Parameters.{AreParameters};
ghost use Rattle.aig_core.specs.declared.lit.Kind.TheVariants.{Regular, Parameter};
ghost use Rattle.aig_core.specs.Aig.{IsLit, first_and};
ghost use Rattle.aig_core.specs.And.{with_pairs};
ghost use Rattle.aig_core.specs.Roots.{roots_of, AreRoots};
ghost use Rattle.aig_build.specs.declared.TheConstants.{MOST_NODES};
ghost use Rattle.aig_build.specs.NetlistGraph.{source_kinds, IsGraphOf, HasTooManyNodes, HasOneGraph};
ghost use Rattle.aig_build.specs.NetlistCycle.{HasSourceCycles};
ghost use Rattle.aig_build.specs.Refusals.{refusal_of};
ghost use Rattle.aig_build.specs.Walked.{net_lit, with_cover, start_nets, source_aig, gate_of, order_of, root_lits, HoldsNets, IsHeld};

use crate::MOST_NODES;
use crate::build_err::BuildErr;
use crate::cover::{Scratch, make_into};
use crate::net_lits::{NetLits, fill, start};
use aig_core::{AigErr, Graph, Kind, Lit, Roots};
use netlist::{Flat, FlatLatch, Library, OutPort, flat_law};
use param_list::Params;
use std::alloc::{AllocError, Global};
use tl_text::{Digest, TextKey};

// Adds `count` sources of a kind.
fn push_kinds(kinds: &mut Vec<Kind>, kind: Kind, count: usize) -> Result<(), AllocError>
    ensures { OnOk result (kinds.new.items ≡ kinds.old.items ++ replicate count kind) }
{
    for _i in 0..count {
        kinds.push(kind)?;
    }
    Ok(())
}

// The kinds of the sources: the regular inputs, the parameters and the latches.
fn kinds_of(
    alloc: Global,
    regular: usize,
    params: usize,
    latches: usize,
) -> Result<Vec<Kind>, AllocError>
    ensures { IfOk result (λ kinds. kinds.items ≡ replicate regular Regular ++ (replicate params Parameter ++ replicate latches Regular)) }
{
    let mut kinds = Vec::new(alloc);
    push_kinds(&mut kinds, Kind::Regular, regular)?;
    push_kinds(&mut kinds, Kind::Parameter, params)?;
    push_kinds(&mut kinds, Kind::Regular, latches)?;
    Ok(kinds)
}

// The key of the library's text and the names of the parameters, which determine the nodes.
fn nodes_key(library: &Library, params: &Params) -> TextKey {
    let mut digest = Digest::behind(library.key());
    for param in params.list.as_slice() {
        digest.add(param.name.bytes());
    }
    digest.key()
}

// The graph with the sources and no AND node, which can hold `most` AND nodes. Their pairs are hashed under this key.
fn source_graph(
    alloc: Global,
    key: TextKey,
    flat: &Flat,
    params: &Params,
    nets: &NetLits,
    most: u32,
) -> Result<Graph, AllocError>
    requires few { length flat.now.inputs < 2 ^ 27 }
    requires few_latches { length flat.now.latches < 2 ^ 27 }
    requires once { AreOnce flat.now.inputs }
    requires params { AreParameters flat.now params.now.list }
    requires start { nets.now ≡ start_nets flat.now params.now.list }
    requires most { most ≤ 2 ^ 29 }
    ensures { IfOk result (λ g. g ≡ source_aig flat.now params.now.list most) }
{
    let params = params.list.len();
    let regular = nets.first_latch() as usize - 1 - params;
    let kinds = kinds_of(alloc, regular, params, flat.latches.len())?;
    Graph::keyed(alloc, key, kinds, most)
}

// Builds the cover at a place over the literals of the nets that it reads.
fn make_at(
    graph: &mut Graph,
    library: &Library,
    flat: &Flat,
    k: u32,
    nets: &mut NetLits,
    inputs: &mut Vec<Lit>,
    scratch: &mut Scratch,
) -> Result<(), AigErr>
    requires formed { IsWellFormed library.now }
    requires bounds { IsWithinBounds library.now flat.now }
    requires there { k < length flat.now.covers }
    requires holds { HoldsNets flat.now graph.old nets.old }
    ensures pairs { OnOk result (graph.new ≡ with_pairs graph.old (gate_of library.now flat.now graph.old nets.old k).pairs) }
    ensures nets { OnOk result (nets.new ≡ with_cover nets.old k (record { 0 = (gate_of library.now flat.now graph.old nets.old k).lit })) }
    ensures holds { OnOk result (HoldsNets flat.now graph.new nets.new) }
    ensures full { result ≡ Err AigErr.Full → graph.old.max < length (gate_of library.now flat.now graph.old nets.old k).pairs }
{
    let flat_cover = &flat.covers[k as usize];
    fill(inputs, nets, &flat_cover.inputs)?;
    let lit = make_into(graph, flat_cover.cover(library), inputs, scratch)?;
    nets.set_cover(k, lit);
    Ok(())
}

// Builds the covers in the flat circuit's order, each once.
fn make_covers(
    alloc: Global,
    graph: &mut Graph,
    library: &Library,
    flat: &Flat,
    nets: &mut NetLits,
) -> Result<(), AigErr>
    requires formed { IsWellFormed library.now }
    requires bounds { IsWithinBounds library.now flat.now }
    requires holds { HoldsNets flat.now graph.old nets.old }
    ensures pairs { OnOk result (graph.new ≡ with_pairs graph.old (order_of library.now flat.now graph.old nets.old flat.now.order).pairs) }
    ensures nets { OnOk result (nets.new ≡ (order_of library.now flat.now graph.old nets.old flat.now.order).nets) }
    ensures holds { OnOk result (HoldsNets flat.now graph.new nets.new) }
    ensures full { result ≡ Err AigErr.Full → graph.old.max < length (order_of library.now flat.now graph.old nets.old flat.now.order).pairs }
{
    let mut inputs = Vec::new(alloc);
    let mut scratch = Scratch::new(alloc);
    for k in &flat.order {
        make_at(graph, library, flat, *k, nets, &mut inputs, &mut scratch)?;
    }
    Ok(())
}

// The literals of the outputs.
fn output_lits(alloc: Global, nets: &NetLits, ports: &[OutPort]) -> Result<Vec<Lit>, AllocError>
    requires { (port : OutPortValue) → In ports.now port → IsHeld nets.now port.net }
    ensures { IfOk result (λ lits. lits.items ≡ map (λ (port : OutPortValue). net_lit nets.now port.net) ports.now) }
{
    let mut lits = Vec::with_capacity(alloc, ports.len())?;
    for port in ports {
        lits.push(nets.of(port.net))?;
    }
    Ok(lits)
}

// The literals of the latches' inputs, their next states.
fn next_lits(alloc: Global, nets: &NetLits, latches: &[FlatLatch]) -> Result<Vec<Lit>, AllocError>
    requires { (latch : FlatLatchValue) → In latches.now latch → IsHeld nets.now latch.input }
    ensures { IfOk result (λ lits. lits.items ≡ map (λ (latch : FlatLatchValue). net_lit nets.now latch.input) latches.now) }
{
    let mut lits = Vec::with_capacity(alloc, latches.len())?;
    for latch in latches {
        lits.push(nets.of(latch.input))?;
    }
    Ok(lits)
}

// The literals of the roots.
fn roots(alloc: Global, flat: &Flat, nets: &NetLits) -> Result<Roots, AllocError>
    requires outputs { (port : OutPortValue) → In flat.now.outputs port → IsHeld nets.now port.net }
    requires latches { (latch : FlatLatchValue) → In flat.now.latches latch → IsHeld nets.now latch.input }
    ensures { IfOk result (λ roots. roots ≡ root_lits flat.now nets.now) }
{
    let outputs = output_lits(alloc, nets, &flat.outputs)?;
    let next = next_lits(alloc, nets, &flat.latches)?;
    Ok(Roots { outputs, next })
}

// The graph and its roots, unless it is too large.
fn make_netlist(
    alloc: Global,
    library: &Library,
    flat: &Flat,
    params: &Params,
    most: u32,
) -> Result<(Graph, Roots), AigErr>
    requires formed { IsWellFormed library.now }
    requires bounds { IsWithinBounds library.now flat.now }
    requires values { HasValues library.now flat.now }
    requires cycles { HasCycles library.now flat.now }
    requires params { AreParameters flat.now params.now.list }
    requires most { most ≤ 2 ^ 29 }
    ensures graph { IfOk result (λ made. IsGraphOf library.now flat.now params.now.list most made.0 made.1) }
    ensures lits { IfOk result (λ made. AreRoots made.0 (roots_of made.1)) }
    ensures cycles { IfOk result (λ made. HasSourceCycles library.now flat.now params.now.list made.0 made.1) }
    ensures full { result ≡ Err AigErr.Full → HasTooManyNodes library.now flat.now params.now.list most }
{
    let mut nets = start(alloc, flat, params)?;
    let key = nodes_key(library, params);
    let mut graph = source_graph(alloc, key, flat, params, &nets, most)?;
    make_covers(alloc, &mut graph, library, flat, &mut nets)?;
    let roots = roots(alloc, flat, &nets)?;
    Ok((graph, roots))
}

/// The graph of a flat circuit and its roots, with at most [`MOST_NODES`] AND nodes: [`build_within`] this limit.
///
/// # Errors
/// [`BuildErr::TooManyNodes`] if and only if the graph has more than [`MOST_NODES`] AND nodes; `Memory` if memory runs out.
pub fn build(
    alloc: Global,
    library: &Library,
    flat: &Flat,
    params: &Params,
) -> Result<(Graph, Roots), BuildErr>
    requires sound { IsSound library.now }
    requires flat { IsFlat library.now flat.now }
    requires bounds { IsWithinBounds library.now flat.now }
    requires params { AreParameters flat.now params.now.list }
    ensures graph { IfOk result (λ made. IsGraphOf library.now flat.now params.now.list MOST_NODES made.0 made.1) }
    ensures lits { IfOk result (λ made. AreRoots made.0 (roots_of made.1)) }
    ensures cycles { IfOk result (λ made. HasSourceCycles library.now flat.now params.now.list made.0 made.1) }
    ensures err { IfErr result (OrMemory refusal_of (λ e. HasTooManyNodes library.now flat.now params.now.list MOST_NODES)) }
    ensures one { HasOneGraph library.now flat.now params.now.list }
{
    build_within(alloc, library, flat, params, MOST_NODES)
}

/// The graph of a flat circuit and its roots: the outputs, and then the inputs of the latches.
///
/// The sources are the regular inputs in their order, the parameters in the order of their list, and the latches. The nodes
/// are those that result from building the roots in order, each signal again at every use and no AND twice
/// (`specs/NetlistGraph.antt`). Exactly one such list exists. Whatever values fit the graph, the roots have the outputs and
/// the next states of the source circuit's clock cycle. A cover that no root reaches isn't built.
///
/// Each cover is built once. So time is linear in the cells of the covers reached, apart from the lookup of each product, and
/// the stack doesn't grow with the circuit.
///
/// # Errors
/// [`BuildErr::TooManyNodes`] if and only if the graph has more than `most` AND nodes; `Memory` if memory runs out.
pub fn build_within(
    alloc: Global,
    library: &Library,
    flat: &Flat,
    params: &Params,
    most: u32,
) -> Result<(Graph, Roots), BuildErr>
    requires sound { IsSound library.now }
    requires flat { IsFlat library.now flat.now }
    requires bounds { IsWithinBounds library.now flat.now }
    requires params { AreParameters flat.now params.now.list }
    requires most { most ≤ 2 ^ 29 }
    ensures graph { IfOk result (λ made. IsGraphOf library.now flat.now params.now.list most made.0 made.1) }
    ensures lits { IfOk result (λ made. AreRoots made.0 (roots_of made.1)) }
    ensures cycles { IfOk result (λ made. HasSourceCycles library.now flat.now params.now.list made.0 made.1) }
    ensures err { IfErr result (OrMemory refusal_of (λ e. HasTooManyNodes library.now flat.now params.now.list most)) }
    ensures one { HasOneGraph library.now flat.now params.now.list }
{
    flat_law(library, flat);
    match make_netlist(alloc, library, flat, params, most) {
        Ok(made) => Ok(made),
        Err(AigErr::Full) => Err(BuildErr::TooManyNodes),
        Err(AigErr::Memory) => Err(BuildErr::Memory),
    }
}
