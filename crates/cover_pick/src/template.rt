//! The chosen template, and the public calls.
ghost use Rattle.std.specs.Prelude.{◌≡◌, ◌*◌, ◌≤◌, ℕ, length, IfOk, IfErr};
ghost use Rattle.aig_core.specs.Roots.{lits_of, roots_of, AreRoots};
ghost use Rattle.depth_label.specs.Label.{label_of, IsCutTable, AreLabelled};
ghost use Rattle.tl_fault.specs.OrMemory.{OrMemory};
ghost use Rattle.cover_pick.specs.Refusals.{refusal_of};
ghost use Rattle.cut_sets.specs.Labels.{label_at, AreLeastHeights};
ghost use Rattle.cut_sets.specs.declared.limits.TheConstants.{MOST_CUTS, MOST_LEAVES};
ghost use Rattle.bounded_cuts.specs.Making.{AreLows, low_in};
ghost use Rattle.bounded_cuts.specs.Sets.{places};
ghost use Rattle.cover_pick.specs.Rounds.{Rows, Sets};
ghost use Rattle.cover_pick.specs.Work.{IsLight};
ghost use Rattle.cover_pick.specs.Template.{IsTemplate, AreTimely, IsTooMuch};
ghost use Rattle.cover_pick.specs.Laws.{EachHasLeast, EachMaps, EachTemplate, HasLeast, IsNotBothLightAndNot, HasOneTemplate, IsRefused, Maps};
ghost use Rattle.cover_pick.specs.Picked.{ArePicked, CanMakeSets, CanPickFewest, GivesPicked, GivesTemplate, IsPicked};

use crate::choices::Choices;
use crate::cuts::cuts_by;
use crate::light::apart_tables;
use crate::lut::{Lut, PickErr};
use crate::makings::cheapest_tables;
use crate::rule::Rule;
use crate::tables::LutList;
use crate::target::target;
use aig_core::{Graph, Lit, Roots};
use bounded_cuts::set_laws;
use cut_enum::CutTable;
use cut_sets::{FlatCut, NodeLabels};
use depth_label::Labels;
use std::alloc::{AllocError, Global};
use std::marker::Model;

/// The LUTs of the needed literals, the literals of the roots, the sum of the LUTs' bits, and the depth at the roots.
#[derive(Drop)]
pub struct Template {
    pub luts: Vec<Lut>,
    pub outputs: Vec<Lit>,
    pub next: Vec<Lit>,
    pub bits: u32,
    pub depth: u32,
}

impl Model for Template {
    ghost use Rattle.cover_pick.specs.Template.{TemplateValue};

    ghost Value = { TemplateValue };

    ghost view = { λ t. record { luts = t.luts.items; outputs = t.outputs.items; next = t.next.items; bits = t.bits; depth = t.depth } };
}

// All roots in order.
fn all_roots(alloc: Global, roots: &Roots) -> Result<Vec<Lit>, AllocError>
    ensures { IfOk result (λ all. lits_of all.items ≡ roots_of roots.now) }
{
    let mut all = Vec::new(alloc);
    all.extend_from_slice(&roots.outputs)?;
    all.extend_from_slice(&roots.next)?;
    Ok(all)
}

// The LUTs of the needed literals over the cuts of the fewest leaves, unless their work exceeds the limit.
fn fewest_tables(
    alloc: Global,
    graph: &Graph,
    table: &CutTable,
    labels: &Labels,
    roots: &[Lit],
) -> Result<LutList, PickErr>
    requires { CanPickFewest graph.now table.now labels.now (lits_of roots.now) }
    ensures { ArePicked (Rows table.now) graph.now (label_of labels.now) (lits_of roots.now) result }
{
    // The contract of this call says that the graph's pairs are normal, which the least depth needs.
    let _count = graph.len();
    let labels = labels.node_labels();
    let rule = Rule::FewestLeaves;
    let choices = Choices {
        graph,
        rows: table.rows(),
        labels,
        roots,
    };
    let cuts = cuts_by(alloc, rule, &choices, &[])?;
    apart_tables(alloc, graph, &cuts, roots)
}

// The template of these LUTs.
fn template_of(
    alloc: Global,
    graph: &Graph,
    labels: &NodeLabels,
    roots: &Roots,
    all: &[Lit],
    made: LutList,
) -> Result<Template, AllocError>
    requires all { lits_of all.now ≡ roots_of roots.now }
    requires roots { AreRoots graph.now (roots_of roots.now) }
    ensures template { IfOk result (GivesTemplate graph.now (label_at labels.now) roots.now made) }
    ensures luts { IfOk result (λ t. t.luts ≡ made.luts) }
{
    let depth = target(graph, labels, all);
    let outputs = Vec::from_slice(alloc, &roots.outputs)?;
    let next = Vec::from_slice(alloc, &roots.next)?;
    Ok(Template {
        luts: made.luts,
        outputs,
        next,
        bits: made.bits,
        depth,
    })
}

// The template of the LUTs that were picked.
fn template_for(
    alloc: Global,
    graph: &Graph,
    labels: &NodeLabels,
    roots: &Roots,
    all: &[Lit],
    picked: Result<LutList, PickErr>,
) -> Result<Template, PickErr>
    requires all { lits_of all.now ≡ roots_of roots.now }
    requires roots { AreRoots graph.now (roots_of roots.now) }
    ensures { GivesPicked graph.now (label_at labels.now) roots.now picked result }
{
    let made = picked?;
    let template = template_of(alloc, graph, labels, roots, all, made)?;
    Ok(template)
}

// The template over the cuts of the fewest leaves.
fn fewest_template(
    alloc: Global,
    graph: &Graph,
    roots: &Roots,
    table: &CutTable,
    labels: &Labels,
) -> Result<Template, PickErr>
    requires { CanPickFewest graph.now table.now labels.now (roots_of roots.now) }
    ensures { IsPicked (Rows table.now) graph.now (label_of labels.now) roots.now result }
{
    let all = all_roots(alloc, roots)?;
    let picked = fewest_tables(alloc, graph, table, labels, &all);
    template_for(alloc, graph, labels.node_labels(), roots, &all, picked)
}

// The template over the cuts of the least cost.
fn compact_template(
    alloc: Global,
    graph: &Graph,
    k: u8,
    roots: &Roots,
    labels: &NodeLabels,
    lows: &[FlatCut],
) -> Result<Template, PickErr>
    requires sets { CanMakeSets graph.now k labels.now lows.now }
    requires roots { AreRoots graph.now (roots_of roots.now) }
    ensures { IsPicked (Sets k (low_in lows.now)) graph.now (label_at labels.now) roots.now result }
{
    let all = all_roots(alloc, roots)?;
    let picked = cheapest_tables(alloc, graph, k, labels, lows, &all);
    template_for(alloc, graph, labels, roots, &all, picked)
}

/// The template of a graph for the roots by the rule of the fewest leaves, with the least depth that the cuts of the graph allow.
///
/// The target is the greatest level over the roots: the label of an AND root, 1 for a complemented regular source, and 0 for
/// any other root. The AND nodes are visited in descending order. The node of a root is required at the target. If a node is
/// required at depth r, the leaves of its chosen cut are required at r - 1. The chosen cut is one of the minimal cuts with a
/// height of at most the required depth, so a node off the critical path takes a cheaper LUT (Cong and Ding 1994, with the
/// area recovery by required depths of later mappers): one with the fewest leaves, then the least height, then the
/// lexicographically least.
///
/// Each root and each leaf of a chosen cut has a LUT, except positive regular sources, which are wires.
///
/// # Errors
///
/// `Work` if and only if the work exceeds `MOST_WORK`. The work is the sum over the LUTs of their bits times one more than
/// the number of AND nodes that they compute. `Memory` if memory runs out.
///
/// # Complexity
///
/// The minimal cuts of a needed node are read once, up to the first with more leaves than the chosen one. Each AND node in the
/// cone of a LUT is read once for that LUT. So the table of cuts and the work bound the time; at most the limit and one more
/// cone of the work is counted.
pub fn pick(
    alloc: Global,
    graph: &Graph,
    roots: &Roots,
    table: &CutTable,
    labels: &Labels,
) -> Result<Template, PickErr>
    requires table { IsCutTable graph.now table.now }
    requires labels { AreLabelled graph.now table.now labels.now }
    requires roots { AreRoots graph.now (roots_of roots.now) }
    ensures template { IfOk result (λ t. IsTemplate (Rows table.now) graph.now (label_of labels.now) roots.now t) }
    ensures timely { IfOk result (λ t. AreTimely (Rows table.now) graph.now (label_of labels.now) (roots_of roots.now) t.luts) }

    // Exactly one template exists. It maps the graph with the least depth over all covers, whatever the call returns.
    ensures mapping { EachMaps table.now graph.now (label_of labels.now) roots.now }
    ensures least { EachHasLeast table.now graph.now (label_of labels.now) roots.now }
    ensures once { HasOneTemplate (Rows table.now) graph.now (label_of labels.now) roots.now }

    // The limit on the work, in both directions.
    ensures light { IfOk result (λ t. IsLight (Rows table.now) graph.now t.luts) }
    ensures work { IfErr result (OrMemory refusal_of (λ _. IsTooMuch (Rows table.now) graph.now (label_of labels.now) (roots_of roots.now))) }
    ensures excluded { IsNotBothLightAndNot (Rows table.now) graph.now (label_of labels.now) roots.now }
    ensures too_much { IsTooMuch (Rows table.now) graph.now (label_of labels.now) (roots_of roots.now) → IsRefused result }
{
    // The contract of this call says that the graph's pairs are normal, which the least depth needs.
    let _count = graph.len();
    fewest_template(alloc, graph, roots, table, labels)
}

/// The template of a graph for the roots by the rule of the least cost, over bounded sets of cuts, for LUTs of at most `k` inputs.
///
/// Required depths are those of [`pick`]. The chosen cut is one of the node's set with a height of at most the required depth,
/// and of these one with the least cost, then the fewest leaves, then the lexicographically least. A cut of m leaves costs 2^m
/// plus the flows of its leaves, without those that a root or the chosen cut of a node above needs. The *flow* of an AND node is
/// the least over its set of 256 + 2^m plus the flows of the leaves, at most 2^40, divided by a count of its readers (by 1 if it
/// is 0) and rounded down (the area flow of Manohararajah, Brown and Vranesic, 2006).
///
/// The sets are made twice (crate `bounded_cuts`), and each time six rounds give a cover each. The first three take flows over
/// all cuts, the other three only over the cuts of the least height, at most their node's label. The first round of each three
/// counts the readers as the sets do, and each later one the chosen cuts in the cover before it that have the node as a leaf. A
/// cover costs 256 + 2^m for each chosen cut of m leaves. The first sets are for the fan-outs; the second ones for the uses in
/// the first of the least cost of the six covers, whose nodes cost nothing in the sets' last taking. The first of the least cost
/// of all twelve covers is taken.
///
/// # Errors
///
/// `Work` if and only if the work exceeds `MOST_WORK`. A *free* node is above no leaf of a LUT and above no regular source: only
/// parameters and constants are below it. The work is the sum over the LUTs of their bits times one more than the number of AND
/// nodes that they compute and that aren't free, plus 1 for each free AND node that some LUT computes. `Memory` if memory runs
/// out.
///
/// # Complexity
///
/// Linear in the graph for a given `k`, but for the work of the LUTs: a set has at most 2k + 4 cuts. A round with the same counts
/// as the one before it is left out. Each AND node in the cone of a LUT that isn't free is read once for that LUT, and each free
/// one once in all. At most the limit and one more cone of the work is counted.
pub fn pick_compact(
    alloc: Global,
    graph: &Graph,
    k: u8,
    roots: &Roots,
    labels: &NodeLabels,
    lows: &[FlatCut],
) -> Result<Template, PickErr>
    requires least { 2 ≤ k }
    requires few { k ≤ MOST_LEAVES }
    requires labels { AreLeastHeights graph.now k (label_at labels.now) }
    requires lows { AreLows graph.now k (label_at labels.now) lows.now }
    requires room { places k * length graph.now.pairs ≤ MOST_CUTS }
    requires roots { AreRoots graph.now (roots_of roots.now) }
    ensures template { IfOk result (λ t. IsTemplate (Sets k (low_in lows.now)) graph.now (label_at labels.now) roots.now t) }
    ensures timely { IfOk result (λ t. AreTimely (Sets k (low_in lows.now)) graph.now (label_at labels.now) (roots_of roots.now) t.luts) }

    // Exactly one template exists. It maps the graph with the least depth over all covers, whatever the call returns.
    ensures mapping { EachTemplate (Sets k (low_in lows.now)) graph.now (label_at labels.now) roots.now (Maps graph.now k roots.now) }
    ensures least { EachTemplate (Sets k (low_in lows.now)) graph.now (label_at labels.now) roots.now (HasLeast graph.now k roots.now) }
    ensures once { HasOneTemplate (Sets k (low_in lows.now)) graph.now (label_at labels.now) roots.now }

    // The limit on the work, in both directions.
    ensures light { IfOk result (λ t. IsLight (Sets k (low_in lows.now)) graph.now t.luts) }
    ensures work { IfErr result (OrMemory refusal_of (λ _. IsTooMuch (Sets k (low_in lows.now)) graph.now (label_at labels.now) (roots_of roots.now))) }
    ensures excluded { IsNotBothLightAndNot (Sets k (low_in lows.now)) graph.now (label_at labels.now) roots.now }
    ensures too_much { IsTooMuch (Sets k (low_in lows.now)) graph.now (label_at labels.now) (roots_of roots.now) → IsRefused result }
{
    // The proof needs what the contract of this call says of the graph.
    let _count = graph.len();
    // The contract of this call says that a graph has one set for each node, and that sets serve.
    set_laws(graph, k, labels, lows);
    compact_template(alloc, graph, k, roots, labels, lows)
}
