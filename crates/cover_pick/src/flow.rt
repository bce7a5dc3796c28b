//! The flows of the nodes over some counts of their readers, for the rule of the least cost.
ghost use Rattle.std.specs.Prelude.{◌≡◌, ℕ, ◌<◌, ◌≤◌, ◌+◌, ◌*◌, ◌/◌, ◌^◌, [], length, slice_index_or, IfOk};
ghost use Rattle.aig_core.specs.Aig.{first_and, node_count};
ghost use Rattle.cut_sets.specs.Rows.{row_at};
ghost use Rattle.cut_sets.specs.Labels.{label_at};
ghost use Rattle.bounded_cuts.specs.declared.limits.TheConstants.{MOST_FLOW};
ghost use Rattle.bounded_cuts.specs.Flow.{cut_flow as the_cut_flow, least_flow as the_least_flow, node_flow as the_node_flow, allowed_row};
ghost use Rattle.cover_pick.specs.Flow.{allowed_flow as the_allowed_flow, flows_by as the_flows_by};
ghost use Rattle.cover_pick.specs.Ruled.{AreCapped};
ghost use Rattle.cover_pick.specs.Counts.{AreCounted, count_at, count_one as one_counted, count_pair as pair_counted};
ghost use Rattle.cover_pick.specs.Planned.{AreFlows};

use crate::cost::cut_cost;
use aig_core::{Graph, Pair};
use bounded_cuts::{MOST_FLOW, Scope, TABLE_PRICE};
use cut_sets::{CutRows, NodeLabels};
use std::alloc::{AllocError, Global};

// Adds one to the fan-out of a node.
pub fn count_one(counts: &mut [u32], m: u32)
    requires inside { m < length counts.old }
    requires room { count_at counts.old m + 1 < 2 ^ 32 }
    ensures { counts.new ≡ one_counted counts.old m }
{
    counts[m as usize] += 1;
}

// Counts an AND node in the fan-out of its fan-ins.
fn count_pair(counts: &mut [u32], pair: Pair)
    requires x { pair.x.0 / 2 < length counts.old }
    requires y { pair.y.0 / 2 < length counts.old }
    requires room { (m : ℕ) → count_at counts.old m + 2 < 2 ^ 32 }
    ensures { counts.new ≡ pair_counted counts.old pair }
{
    count_one(counts, pair.x.0 / 2);
    count_one(counts, pair.y.0 / 2);
}

// Counts all AND nodes in the fan-out of their fan-ins.
fn count_pairs(graph: &Graph, counts: &mut [u32])
    requires { AreCounted graph.now (first_and graph.now) counts.old }
    ensures { AreCounted graph.now (node_count graph.now) counts.new }
{
    for n in graph.sources() + 1..graph.len() {
        count_pair(counts, graph.pair_at(n));
    }
}

// The fan-out of each node: the number of AND nodes that read it.
pub fn fan_outs(alloc: Global, graph: &Graph) -> Result<Vec<u32>, AllocError>
    ensures { IfOk result (λ counts. AreCounted graph.now (node_count graph.now) counts.items) }
{
    let mut counts = vec![in alloc; 0; graph.len() as usize]?;
    count_pairs(graph, &mut counts);
    Ok(counts)
}

// The count of a node.
fn count_of(counts: &[u32], n: u32) -> u32
    ensures { result ≡ count_at counts.now n }
{
    counts.get(n as usize).copied().unwrap_or(0)
}

// What the LUT of a cut and all LUTs below it cost.
fn cut_flow(rows: &CutRows, flows: &[u64], n: u32, i: u32) -> u64
    requires inside { i < length (row_at rows.now n) }
    requires capped { AreCapped flows.now }
    ensures { result ≡ the_cut_flow flows.now (slice_index_or (row_at rows.now n) i []) }
{
    TABLE_PRICE + cut_cost(rows, flows, &[], n, i)
}

// The same of an allowed cut, and the most of any other.
fn allowed_flow(
    rows: &CutRows,
    labels: &NodeLabels,
    scope: Scope,
    flows: &[u64],
    n: u32,
    i: u32,
) -> u64
    requires inside { i < length (row_at rows.now n) }
    requires capped { AreCapped flows.now }
    ensures { result ≡ the_allowed_flow scope (label_at labels.now) n flows.now (slice_index_or (row_at rows.now n) i []) }
{
    match scope {
        Scope::AnyHeight => cut_flow(rows, flows, n, i),
        Scope::LeastHeight => {
            if labels.cut_height(rows.leaves(n, i)) > labels.label(n) {
                return MOST_FLOW;
            }
            cut_flow(rows, flows, n, i)
        }
    }
}

// The least flow through an allowed cut of a node.
fn least_flow(rows: &CutRows, labels: &NodeLabels, scope: Scope, flows: &[u64], n: u32) -> u64
    requires { AreCapped flows.now }
    ensures { result ≡ the_least_flow flows.now (allowed_row scope (label_at labels.now) (label_at labels.now n) (row_at rows.now n)) }
{
    let mut least = MOST_FLOW;
    for i in 0..rows.count(n) {
        least = least.min(allowed_flow(rows, labels, scope, flows, n, i));
    }
    least
}

// The flow of a node over those of the nodes below it.
fn node_flow(
    graph: &Graph,
    rows: &CutRows,
    labels: &NodeLabels,
    scope: Scope,
    count: u32,
    flows: &[u64],
    n: u32,
) -> u64
    requires { AreCapped flows.now }
    ensures value { result ≡ the_node_flow graph.now scope (label_at labels.now) rows.now (λ _. count) flows.now n }
    ensures capped { result ≤ MOST_FLOW }
{
    if n <= graph.sources() {
        return 0;
    }
    least_flow(rows, labels, scope, flows, n) / count.max(1) as u64
}

// The flow of each node over the allowed cuts, for some counts.
pub fn flows_by(
    alloc: Global,
    graph: &Graph,
    rows: &CutRows,
    labels: &NodeLabels,
    scope: Scope,
    counts: &[u32],
) -> Result<Vec<u64>, AllocError>
    ensures value { IfOk result (λ flows. flows.items ≡ the_flows_by graph.now rows.now (label_at labels.now) scope (count_at counts.now)) }
    ensures fit { IfOk result (λ flows. AreFlows graph.now flows.items) }
{
    let mut flows = Vec::new(alloc);
    for n in 0..graph.len() {
        let flow = node_flow(graph, rows, labels, scope, count_of(counts, n), &flows, n);
        flows.push(flow)?;
    }
    Ok(flows)
}
