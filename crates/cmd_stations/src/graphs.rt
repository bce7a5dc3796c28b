//! The graph of a source circuit.
ghost use Rattle.std.specs.Prelude.{◌≡◌, ◌≤◌, false, length, IfOk, IfErr, OnOk};
ghost use Rattle.tl_fault.specs.OrMemory.{OrMemory};
ghost use Rattle.tl_text.specs.declared.logical_lines.TheConstants.{MOST_BYTES};
ghost use Rattle.aig_core.specs.Aig.{first_and, AreNormal};
ghost use Rattle.aig_core.specs.Roots.{AreRoots, roots_of};
ghost use Rattle.aig_build.specs.NetlistGraph.{IsGraphOf, HasTooManyNodes, HasOneGraph};
ghost use Rattle.aig_build.specs.NetlistCycle.{HasSourceCycles};
ghost use Rattle.aig_build.specs.Refusals.{refusal_of};
ghost use Rattle.cmd_base.specs.Walk.{Told, Explains, KeepsFiles};
ghost use Rattle.cmd_stations.specs.declared.limits.TheConstants.{GRAPH_ROOM};
ghost use Rattle.cmd_stations.specs.Source.{source_seen, IsBuildingSettled, source_reading};
ghost use Rattle.cmd_stations.specs.Stops.{Stops};
ghost use Rattle.cmd_stations.specs.Mapped.{ToGraph, IsBuilt, IsUnbuilt, most_nodes};
ghost use Rattle.cmd_stations.specs.Tables.{IsReadSource, IsBuiltSource, ComesToGraph};

use crate::limits::{GRAPH_ROOM, most_nodes};
use crate::params::read_source;
use crate::source::Source;
use crate::stop::Stop;
use crate::words::SourceWords;
use aig_build::{BuildErr, build_within};
use aig_core::{Graph, Roots};
use cmd_base::{File, Outcome};
use cover_pick::Rule;
use std::alloc::Global;
use tl_io::Shelf;

/// A source circuit with its graph, and the graph's roots.
#[derive(Drop)]
pub struct BuiltSource {
    pub source: Source,
    pub graph: Graph,
    pub roots: Roots,
}

// The number of AND nodes of a graph.
fn and_nodes(graph: &Graph) -> u32
    ensures count { result ≡ length graph.now.pairs }
    ensures room { length graph.now.pairs ≤ graph.now.max }
    ensures normal { AreNormal (first_and graph.now) graph.now.pairs }
{
    graph.len() - 1 - graph.sources()
}

// The graph of a source circuit, and its roots.
pub(crate) fn source_graph(
    alloc: Global,
    rule: Rule,
    source: &Source,
) -> Result<(Graph, Roots), BuildErr>
    requires read { IsReadSource source.now }
    ensures graph { IfOk result (λ made. IsGraphOf source.now.netlist.library source.now.netlist.flat source.now.params.list GRAPH_ROOM made.0 made.1) }
    ensures lits { IfOk result (λ made. AreRoots made.0 (roots_of made.1)) }
    ensures cycles { IfOk result (λ made. HasSourceCycles source.now.netlist.library source.now.netlist.flat source.now.params.list made.0 made.1) }
    ensures nodes { IfOk result (λ made. length made.0.pairs ≤ most_nodes rule) }
    ensures room { IfOk result (λ made. length made.0.pairs ≤ GRAPH_ROOM) }
    ensures normal { IfOk result (λ made. AreNormal (first_and made.0) made.0.pairs) }
    ensures err { IfErr result (OrMemory refusal_of (λ e. HasTooManyNodes source.now.netlist.library source.now.netlist.flat source.now.params.list (most_nodes rule))) }
    ensures one { HasOneGraph source.now.netlist.library source.now.netlist.flat source.now.params.list }
{
    let netlist = &source.netlist;
    let (graph, roots) = build_within(
        alloc,
        &netlist.library,
        &netlist.flat,
        &source.params,
        GRAPH_ROOM,
    )?;
    if most_nodes(rule) < and_nodes(&graph) {
        drop(graph);
        drop(roots);
        return Err(BuildErr::TooManyNodes);
    }
    Ok((graph, roots))
}

// The graph of a source circuit, and its roots, or why there is none.
fn build_source(alloc: Global, rule: Rule, source: &Source) -> Result<(Graph, Roots), Stop>
    requires read { IsReadSource source.now }
    ensures built { IfOk result (λ made. IsBuilt rule source.now made.0 made.1) }
    ensures cycles { IfOk result (λ made. HasSourceCycles source.now.netlist.library source.now.netlist.flat source.now.params.list made.0 made.1) }
    ensures lits { IfOk result (λ made. AreRoots made.0 (roots_of made.1)) }
    ensures normal { IfOk result (λ made. AreNormal (first_and made.0) made.0.pairs) }
    ensures err { IfErr result (Stops (IsUnbuilt rule source.now)) }
    ensures settled { IsBuildingSettled rule source.now }
{
    let made = source_graph(alloc, rule, source)?;
    Ok(made)
}

/// Reads a source circuit, and builds its graph.
///
/// # Errors
/// The outcome of the command, which ends here.
pub fn read_graph<S: Shelf>(
    alloc: Global,
    words: &SourceWords,
    shelf: &mut S,
) -> Result<BuiltSource, Outcome>
    ensures built { IfOk result IsBuiltSource }
    ensures comes { IfOk result (λ b. Told (S.seen shelf.old).files (λ files. ComesToGraph files (source_seen words.now) b)) }
    ensures given { OnOk result ((S.seen shelf.new).given ≤ MOST_BYTES) }
    ensures err { IfErr result (Explains (source_reading ToGraph (source_seen words.now)) (S.seen shelf.old) (S.seen shelf.new)) }
    ensures keeps { KeepsFiles (S.seen shelf.old) (S.seen shelf.new) }
    ensures not_writing { (S.seen shelf.new).is_writing ≡ false }
{
    let source = match read_source(alloc, words, shelf) {
        Ok(source) => source,
        Err(outcome) => return Err(outcome),
    };
    match build_source(alloc, words.rule, &source) {
        Ok((graph, roots)) => Ok(BuiltSource {
            source,
            graph,
            roots,
        }),
        Err(stop) => {
            drop(source);
            Err(stop.at(File::Netlist))
        }
    }
}
