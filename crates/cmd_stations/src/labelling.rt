//! The labels of the nodes of a source circuit's graph.
ghost use Rattle.std.specs.Prelude.{◌≡◌, ◌≤◌, false, IfOk, IfErr, OnOk, MatchResult};
ghost use Rattle.tl_text.specs.declared.logical_lines.TheConstants.{MOST_BYTES};
ghost use Rattle.cut_sets.specs.declared.limits.TheConstants.{MOST_LEAVES};
ghost use Rattle.cmd_base.specs.Walk.{Told, Explains, KeepsFiles};
ghost use Rattle.cmd_stations.specs.Source.{source_seen, IsLabellingSettled, source_reading};
ghost use Rattle.cmd_stations.specs.Stops.{Stops};
ghost use Rattle.cut_sets.specs.Labels.{label_at, AreLeastHeights};
ghost use Rattle.cmd_stations.specs.Mapped.{AreLabelsBy, HasManyCutsBy, HasOneLimit, ToLabels, IsBuilt, IsUnlabelled};
ghost use Rattle.cmd_stations.specs.Tables.{IsReadSource, IsLabelledSource, ComesToLabels};
ghost use Rattle.aig_core.specs.Aig.{first_and, AreNormal};
ghost use Rattle.aig_core.specs.Roots.{AreRoots, roots_of};
ghost use Rattle.aig_build.specs.NetlistCycle.{HasSourceCycles};

use crate::graphs::{BuiltSource, source_graph};
use crate::params::read_source;
use crate::source::Source;
use crate::stop::Stop;
use crate::words::SourceWords;
use aig_core::{Graph, Roots};
use cmd_base::{File, Outcome};
use cover_pick::Rule;
use cut_enum::enumerate;
use cut_sets::NodeLabels;
use depth_label::labels;
use flow_label::labels_by_flow;
use std::alloc::Global;
use tl_io::Shelf;

/// A source circuit with its graph, and with the labels of the graph's nodes.
#[derive(Drop)]
pub struct LabelledSource {
    pub built: BuiltSource,
    pub labels: NodeLabels,
}

// A graph with its roots, and the labels of its nodes.
#[derive(Drop)]
struct LabelledGraph {
    graph: Graph,
    roots: Roots,
    labels: NodeLabels,
}

// The labels of a graph's nodes: from the table of all minimal cuts for the rule of the fewest leaves, and otherwise by flow.
fn label_graph(alloc: Global, rule: Rule, graph: &Graph, k: u8) -> Result<NodeLabels, Stop>
    requires least { 2 ≤ k }
    requires most { k ≤ MOST_LEAVES }
    ensures labelled { IfOk result (λ labels. AreLabelsBy rule graph.now k labels) }
    ensures heights { IfOk result (λ labels. AreLeastHeights graph.now k (label_at labels)) }
    ensures err { IfErr result (Stops (λ r. HasManyCutsBy rule graph.now k r)) }
    ensures settled { MatchResult result (λ _. HasOneLimit rule graph.now k) (Stops (λ _. HasOneLimit rule graph.now k)) }
{
    match rule {
        Rule::FewestLeaves => {
            let table = enumerate(alloc, graph, k)?;
            let labels = labels(alloc, graph, &table)?;
            drop(table);
            Ok(labels.into_node_labels())
        }
        Rule::LeastCost => {
            let labels = labels_by_flow(alloc, graph, k)?;
            Ok(labels.into_labels())
        }
    }
}

// The graph of a source circuit, labelled.
fn label_source(alloc: Global, rule: Rule, source: &Source, k: u8) -> Result<LabelledGraph, Stop>
    requires least { 2 ≤ k }
    requires most { k ≤ MOST_LEAVES }
    requires read { IsReadSource source.now }
    ensures built { IfOk result (λ l. IsBuilt rule source.now l.graph l.roots) }
    ensures cycles { IfOk result (λ l. HasSourceCycles source.now.netlist.library source.now.netlist.flat source.now.params.list l.graph l.roots) }
    ensures lits { IfOk result (λ l. AreRoots l.graph (roots_of l.roots)) }
    ensures normal { IfOk result (λ l. AreNormal (first_and l.graph) l.graph.pairs) }
    ensures labelled { IfOk result (λ l. AreLabelsBy rule l.graph k l.labels) }
    ensures heights { IfOk result (λ l. AreLeastHeights l.graph k (label_at l.labels)) }
    ensures err { IfErr result (Stops (IsUnlabelled rule source.now k)) }
    ensures settled { MatchResult result (λ _. IsLabellingSettled rule source.now k) (Stops (λ _. IsLabellingSettled rule source.now k)) }
{
    let (graph, roots) = source_graph(alloc, rule, source)?;
    let labels = label_graph(alloc, rule, &graph, k)?;
    Ok(LabelledGraph {
        graph,
        roots,
        labels,
    })
}

/// Reads a source circuit, builds its graph, and labels the nodes.
///
/// # Errors
/// The outcome of the command, which ends here.
pub fn read_labelled<S: Shelf>(
    alloc: Global,
    words: &SourceWords,
    shelf: &mut S,
) -> Result<LabelledSource, Outcome>
    requires least { 2 ≤ words.now.k }
    requires most { words.now.k ≤ MOST_LEAVES }
    ensures labelled { IfOk result (IsLabelledSource words.now.rule words.now.k) }
    ensures comes { IfOk result (λ l. Told (S.seen shelf.old).files (λ files. ComesToLabels files (source_seen words.now) l)) }
    ensures given { OnOk result ((S.seen shelf.new).given ≤ MOST_BYTES) }
    ensures err { IfErr result (Explains (source_reading ToLabels (source_seen words.now)) (S.seen shelf.old) (S.seen shelf.new)) }
    ensures keeps { KeepsFiles (S.seen shelf.old) (S.seen shelf.new) }
    ensures not_writing { (S.seen shelf.new).is_writing ≡ false }
{
    let source = match read_source(alloc, words, shelf) {
        Ok(source) => source,
        Err(outcome) => return Err(outcome),
    };
    match label_source(alloc, words.rule, &source, words.k) {
        Ok(
            LabelledGraph {
                graph,
                roots,
                labels,
            },
        ) => Ok(LabelledSource {
            built: BuiltSource {
                source,
                graph,
                roots,
            },
            labels,
        }),
        Err(stop) => {
            drop(source);
            Err(stop.at(File::Netlist))
        }
    }
}
