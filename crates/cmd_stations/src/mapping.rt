//! The mapping of a source circuit to LUTs.
ghost use Rattle.std.specs.Prelude.{◌≡◌, ◌≤◌, length, IfOk, IfErr, MatchResult};
ghost use Rattle.tl_fault.specs.OrMemory.{OrMemory};
ghost use Rattle.aig_core.specs.Aig.{first_and, AreNormal};
ghost use Rattle.aig_core.specs.Roots.{AreRoots, roots_of};
ghost use Rattle.aig_build.specs.NetlistGraph.{IsGraphOf, HasTooManyNodes, HasOneGraph, source_kinds};
ghost use Rattle.aig_build.specs.NetlistCycle.{HasSourceCycles};
ghost use Rattle.aig_build.specs.Refusals.{refusal_of};
ghost use Rattle.cut_sets.specs.declared.limits.TheConstants.{MOST_LEAVES};
ghost use Rattle.cover_pick.specs.declared.rule.Rule.TheVariants.{FewestLeaves, LeastCost};
ghost use Rattle.cover_pick.specs.Template.{TemplateValue};
ghost use Rattle.lut_sim.specs.Playable.{IsPlayable};
ghost use Rattle.cmd_stations.specs.declared.limits.TheConstants.{GRAPH_ROOM};
ghost use Rattle.cmd_stations.specs.Stops.{Stops};
ghost use Rattle.cmd_stations.specs.SourceCircuit.{shape_of};
ghost use Rattle.cmd_stations.specs.Mapped.{IsChosen, IsLeastMapping, IsUnchosen, IsUnmapped};
ghost use Rattle.cmd_stations.specs.Source.{IsGraphSettled, IsMappingSettled};
ghost use Rattle.cmd_stations.specs.Tables.{HasTables, IsReadSource, AreMade, AreTables};

use crate::graphs::source_graph;
use crate::source::Source;
use crate::stop::Stop;
use crate::tables::SourceTables;
use aig_core::{Graph, Roots};
use bit_fun::functions;
use cover_pick::{Rule, Template, pick, pick_compact};
use cut_enum::enumerate;
use depth_label::labels;
use flow_label::labels_by_flow;
use lut_sim::Shape;
use std::alloc::{AllocError, Global};

// The template over the cuts of the fewest leaves, from the table of all minimal cuts.
fn choose_fewest(alloc: Global, graph: &Graph, roots: &Roots, k: u8) -> Result<Template, Stop>
    requires least { 2 ≤ k }
    requires most { k ≤ MOST_LEAVES }
    requires roots { AreRoots graph.now (roots_of roots.now) }
    ensures chosen { IfOk result (λ t. IsChosen FewestLeaves graph.now k roots.now t) }
    ensures least { IfOk result (λ t. IsLeastMapping graph.now k roots.now t) }
    ensures err { IfErr result (Stops (IsUnchosen FewestLeaves graph.now k roots.now)) }
    ensures settled { MatchResult result (λ _. IsGraphSettled FewestLeaves graph.now k roots.now) (Stops (λ _. IsGraphSettled FewestLeaves graph.now k roots.now)) }
{
    let table = enumerate(alloc, graph, k)?;
    let labels = labels(alloc, graph, &table)?;
    let picked = pick(alloc, graph, roots, &table, &labels);
    drop(labels);
    drop(table);
    let template = picked?;
    Ok(template)
}

// The template over the cuts of the least cost, from bounded sets over labels by flow.
fn choose_cheapest(alloc: Global, graph: &Graph, roots: &Roots, k: u8) -> Result<Template, Stop>
    requires least { 2 ≤ k }
    requires most { k ≤ MOST_LEAVES }
    requires roots { AreRoots graph.now (roots_of roots.now) }
    requires nodes { length graph.now.pairs ≤ GRAPH_ROOM }
    ensures chosen { IfOk result (λ t. IsChosen LeastCost graph.now k roots.now t) }
    ensures least { IfOk result (λ t. IsLeastMapping graph.now k roots.now t) }
    ensures err { IfErr result (Stops (IsUnchosen LeastCost graph.now k roots.now)) }
    ensures settled { MatchResult result (λ _. IsGraphSettled LeastCost graph.now k roots.now) (Stops (λ _. IsGraphSettled LeastCost graph.now k roots.now)) }
{
    let labels = labels_by_flow(alloc, graph, k)?;
    let picked = pick_compact(alloc, graph, k, roots, labels.labels(), labels.low_cuts());
    drop(labels);
    let template = picked?;
    Ok(template)
}

// The template of a graph that a rule chooses.
fn choose(alloc: Global, rule: Rule, graph: &Graph, roots: &Roots, k: u8) -> Result<Template, Stop>
    requires least { 2 ≤ k }
    requires most { k ≤ MOST_LEAVES }
    requires roots { AreRoots graph.now (roots_of roots.now) }
    requires nodes { length graph.now.pairs ≤ GRAPH_ROOM }
    ensures chosen { IfOk result (λ t. IsChosen rule graph.now k roots.now t) }
    ensures least { IfOk result (λ t. IsLeastMapping graph.now k roots.now t) }
    ensures err { IfErr result (Stops (IsUnchosen rule graph.now k roots.now)) }
    ensures settled { MatchResult result (λ _. IsGraphSettled rule graph.now k roots.now) (Stops (λ _. IsGraphSettled rule graph.now k roots.now)) }
{
    match rule {
        Rule::FewestLeaves => choose_fewest(alloc, graph, roots, k),
        Rule::LeastCost => choose_cheapest(alloc, graph, roots, k),
    }
}

// The shape of a graph's sources: the latches, the parameters, and the other inputs.
fn source_shape(graph: &Graph, source: &Source) -> Shape
    requires { graph.now.kinds ≡ source_kinds source.now.netlist.flat source.now.params.list }
    ensures value { result ≡ shape_of source.now }

    // A template of the graph can be played.
    ensures playable { (t : TemplateValue) → HasTables source.now graph.now t → IsPlayable t result }
{
    let sources = graph.sources();
    let params = source.params.list.len() as u32;
    let latches = source.netlist.flat.latches.len() as u32;
    Shape::new(sources - params - latches, params, latches)
}

// The LUTs of a graph according to its template.
fn tabulate(
    alloc: Global,
    source: &Source,
    graph: &Graph,
    template: Template,
) -> Result<SourceTables, AllocError>
    requires read { IsReadSource source.now }
    requires normal { AreNormal (first_and graph.now) graph.now.pairs }
    requires tables { HasTables source.now graph.now template }
    requires nodes { length graph.now.pairs ≤ GRAPH_ROOM }
    ensures template { IfOk result (λ t. t.template ≡ template) }
    ensures made { IfOk result (AreMade source.now) }
{
    let pack = functions(alloc, graph, &template, &source.params)?;
    let shape = source_shape(graph, source);
    Ok(SourceTables {
        template,
        pack,
        shape,
    })
}

/// Maps a source circuit to LUTs of at most `k` inputs with the least depth. The rule chooses their cuts.
///
/// # Errors
/// `Refused` for the first limit that its graph exceeds; `Memory` if memory runs out.
pub fn map_source(alloc: Global, rule: Rule, source: &Source, k: u8) -> Result<SourceTables, Stop>
    requires least { 2 ≤ k }
    requires most { k ≤ MOST_LEAVES }
    requires read { IsReadSource source.now }
    ensures tables { IfOk result (AreTables rule source.now k) }
    ensures err { IfErr result (Stops (IsUnmapped rule source.now k)) }
    ensures settled { MatchResult result (λ _. IsMappingSettled rule source.now k) (Stops (λ _. IsMappingSettled rule source.now k)) }
{
    let (graph, roots) = source_graph(alloc, rule, source)?;
    let template = choose(alloc, rule, &graph, &roots, k)?;
    let made = tabulate(alloc, source, &graph, template);
    drop(graph);
    drop(roots);
    let tables = made?;
    Ok(tables)
}
