//! The nodes of a pack file.
ghost use Rattle.std.specs.Prelude.{◌≡◌, ◌+◌, ◌^◌, ◌≤◌, ◌<◌, ◌||◌, ◌∷◌, [], ◌++◌, length, replicate, true, false, Ok, Err, IfOk, IfErr, OnOk};
ghost use Rattle.std.specs.List.{list_any};
ghost use Rattle.tl_fault.specs.OrMemory.{OrMemory};
ghost use Rattle.tl_text.specs.declared.limits.TheConstants.{MOST_PARAMETERS};
ghost use Rattle.aig_core.specs.Aig.{node_count};
ghost use Rattle.aig_core.specs.And.{is_pair, with_pairs};
ghost use Rattle.aig_core.specs.declared.lit.Kind.TheVariants.{Parameter};
ghost use Rattle.ppc_pack.specs.declared.pack.TheConstants.{MOST_PACK_BYTES, MOST_PACK_NODES as MOST};
ghost use Rattle.ppc_file.specs.Fields.{is_bad_pair as is_bad, node_at};
ghost use Rattle.ppc_file.specs.Fronts.{in_params, in_nodes};
ghost use Rattle.ppc_file.specs.PackFile.{IsPackFault};
ghost use Rattle.ppc_file.specs.Reading.{StandsAt};
ghost use Rattle.ppc_file.specs.Refusals.{refusal_of};

use crate::field::{fan_ins, is_bad_pair, node_count as count_field};
use crate::number::offset;
use crate::pack_err::PackErr;
use crate::version::Version;
use aig_core::{AigErr, Graph, Kind, Pair};
use ppc_pack::{MOST_PACK_NODES, PackParam};
use std::alloc::Global;
use tl_text::TextKey;

// A graph with these parameters as sources, and no node yet, for a file of this key.
fn graph_over(alloc: Global, key: TextKey, params: &[PackParam]) -> Result<Graph, PackErr>
    requires { length params.now ≤ MOST_PARAMETERS }
    ensures graph { IfOk result (λ g. g ≡ record { kinds = replicate (length params.now) Parameter; pairs = []; max = MOST }) }
    ensures fault { IfErr result (λ e. e ≡ PackErr.Memory) }
{
    let kinds = vec![in alloc; Kind::Parameter; params.len()]?;
    let graph = Graph::keyed(alloc, key, kinds, MOST_PACK_NODES)?;
    Ok(graph)
}

// Adds the node with these fan-ins. The field at this offset is refused if they can't be the fan-ins of the next node, or if
// an earlier node has this pair. The graph has room for one more node.
fn add_node(graph: &mut Graph, pair: Pair, at: u32) -> Result<(), PackErr>
    requires few { node_count graph.old < 2 ^ 30 }
    requires room { length graph.old.pairs < graph.old.max }
    ensures new { OnOk result ((is_bad (node_count graph.old) pair || list_any (is_pair pair.x.0 pair.y.0) graph.old.pairs) ≡ false) }
    ensures graph { OnOk result (graph.new ≡ with_pairs graph.old (graph.old.pairs ++ pair ∷ [])) }
    ensures fault { IfErr result (OrMemory refusal_of (λ e. (e ≡ PackErr.BadNode at) × ((is_bad (node_count graph.old) pair || list_any (is_pair pair.x.0 pair.y.0) graph.old.pairs) ≡ true))) }
{
    let node = graph.len();
    if is_bad_pair(node, pair) {
        return Err(PackErr::BadNode(at));
    }
    let lit = match graph.and(pair.x, pair.y) {
        Ok(lit) => lit,
        Err(AigErr::Memory) => return Err(PackErr::Memory),
        Err(AigErr::Full) => unreachable!(),
    };
    if lit.0 != 2 * node {
        return Err(PackErr::BadNode(at));
    }
    Ok(())
}

// Reads the next node and adds it to the graph. Returns its fan-ins, and the bytes after them.
fn read_node<'a>(
    version: Version,
    total: u32,
    graph: &mut Graph,
    rest: &'a [u8],
) -> Result<(Pair, &'a [u8]), PackErr>
    requires few { node_count graph.old < 2 ^ 30 }
    requires room { length graph.old.pairs < graph.old.max }
    ensures node { IfOk result (λ x. node_at total version (node_count graph.old) graph.old.pairs rest.now ≡ Ok (x.0, x.1.now)) }
    ensures graph { IfOk result (λ x. graph.new ≡ with_pairs graph.old (graph.old.pairs ++ x.0 ∷ [])) }
    ensures fault { IfErr result (OrMemory refusal_of (λ e. node_at total version (node_count graph.old) graph.old.pairs rest.now ≡ Err e)) }
{
    let (pair, behind) = fan_ins(version, total, graph.len(), rest)?;
    add_node(graph, pair, offset(total, rest))?;
    Ok((pair, behind))
}

// As many nodes as the file states, and the bytes after them.
fn read_each<'a>(
    version: Version,
    params: &[PackParam],
    count: u32,
    graph: Graph,
    file: &[u8],
    rest: &'a [u8],
) -> Result<(Graph, &'a [u8]), PackErr>
    requires short { length file.now ≤ MOST_PACK_BYTES }
    requires graph { graph ≡ record { kinds = replicate (length params.now) Parameter; pairs = []; max = MOST } }
    requires stands { StandsAt file.now (in_nodes version params.now count []) rest.now }
    ensures stands { IfOk result (λ x. StandsAt file.now (in_nodes version params.now (length x.0.pairs) x.0.pairs) x.1.now) }
    ensures graph { IfOk result (λ x. x.0 ≡ record { kinds = replicate (length params.now) Parameter; pairs = x.0.pairs; max = MOST }) }
    ensures fault { IfErr result (OrMemory refusal_of (IsPackFault file.now)) }
{
    let total = file.len() as u32;
    let mut graph = graph;
    let mut rest = rest;
    for _ in 0..count {
        let (_pair, behind) = read_node(version, total, &mut graph, rest)?;
        rest = behind;
    }
    Ok((graph, rest))
}

// The nodes of a file of this key, which follow its parameters, as a graph over these, and the bytes after them. Time and memory are
// linear in their bytes, on average over the hashes.
pub(crate) fn read_nodes<'a>(
    alloc: Global,
    key: TextKey,
    version: Version,
    params: &[PackParam],
    file: &[u8],
    rest: &'a [u8],
) -> Result<(Graph, &'a [u8]), PackErr>
    requires short { length file.now ≤ MOST_PACK_BYTES }
    requires stands { StandsAt file.now (in_params version (length params.now) params.now) rest.now }
    ensures stands { IfOk result (λ x. StandsAt file.now (in_nodes version params.now (length x.0.pairs) x.0.pairs) x.1.now) }
    ensures graph { IfOk result (λ x. x.0 ≡ record { kinds = replicate (length params.now) Parameter; pairs = x.0.pairs; max = MOST }) }
    ensures fault { IfErr result (OrMemory refusal_of (IsPackFault file.now)) }
{
    let (count, rest) = count_field(version, file.len() as u32, rest)?;
    let graph = graph_over(alloc, key, params)?;
    read_each(version, params, count, graph, file, rest)
}
