//! The required depths of the needed nodes, and the places of their chosen cuts.
ghost use Rattle.std.specs.Prelude.{◌≡◌, ℕ, ◌+◌, ◌-◌, ◌/◌, ◌<◌, ◌≤◌, length, Option, Some, None, IfOk, slice_index_or};
ghost use Rattle.aig_core.specs.Aig.{first_and, node_count, AreNormal, IsAnd};
ghost use Rattle.aig_core.specs.Roots.{lits_of, AreRoots};
ghost use Rattle.cut_sets.specs.Rows.{row_at};
ghost use Rattle.cut_sets.specs.Labels.{label_at};
ghost use Rattle.cover_pick.specs.Served.{IsServing};
ghost use Rattle.cover_pick.specs.Choices.{ArePlacesBy, CanChoose};
ghost use Rattle.cover_pick.specs.Ruled.{AreCapped, found_in, choice_by};
ghost use Rattle.cover_pick.specs.Required.{need, least_of as the_least, require as with_required, require_each as with_each_required, visit as visited, walk_by as walked, require_root as with_root, require_roots as with_roots};
ghost use Rattle.cover_pick.specs.Places.{cut_of, found_for, ArePlacedFrom};

use crate::choice::choose;
use crate::choices::Choices;
use crate::rule::Rule;
use crate::target::target;
use aig_core::{Graph, Lit};
use cut_sets::{CutRows, NodeLabels};
use std::alloc::{AllocError, Global};

// The lesser of a depth and another one that may be missing.
fn least_of(best: Option<u32>, r: u32) -> Option<u32>
    ensures { result ≡ the_least best r }
{
    match best {
        None => Some(r),
        Some(b) => Some(b.min(r)),
    }
}

// Lowers the required depth of a node to `r`.
fn require(reqs: &mut [Option<u32>], m: u32, r: u32)
    requires { m < length reqs.old }
    ensures { reqs.new ≡ with_required reqs.old m r }
{
    reqs[m as usize] = least_of(reqs[m as usize], r);
}

// Lowers the required depth of each leaf to `r`.
fn require_each(reqs: &mut [Option<u32>], leaves: &[u32], r: u32)
    requires { (i : ℕ) → i < length leaves.now → slice_index_or leaves.now i 0 < length reqs.old }
    ensures { reqs.new ≡ with_each_required reqs.old leaves.now r }
{
    for m in leaves {
        require(reqs, *m, r);
    }
}

// Chooses the cut of a needed node, requires its leaves one level lower than the node, and returns the place of the cut.
fn visit(
    rule: Rule,
    graph: &Graph,
    rows: &CutRows,
    labels: &NodeLabels,
    flows: &[u64],
    reqs: &mut [Option<u32>],
    n: u32,
) -> Option<u32>
    requires serving { IsServing rule graph.now (label_at labels.now) rows.now }
    requires capped { AreCapped flows.now }
    requires node { IsAnd graph.now n }
    requires len { length reqs.old ≡ node_count graph.now }
    ensures reqs { reqs.new ≡ visited (choice_by rule rows.now (label_at labels.now) flows.now reqs.old) n (need reqs.old n) reqs.old }
    ensures above { (m : ℕ) → n ≤ m → need reqs.new m ≡ need reqs.old m }
    ensures best { cut_of (row_at rows.now n) result ≡ found_for (found_in rule (label_at labels.now) flows.now reqs.old (row_at rows.now n)) (need reqs.old n) }
    ensures inside { (i : ℕ) → result ≡ Some i → i < length (row_at rows.now n) }
{
    let r = reqs[n as usize]?;
    let place = choose(rule, rows, labels, flows, reqs, n, r)?;
    require_each(reqs, rows.leaves(n, place), r.saturating_sub(1));
    Some(place)
}

// Visits the AND nodes in descending order, and sets the places of their chosen cuts.
fn walk(
    rule: Rule,
    graph: &Graph,
    rows: &CutRows,
    labels: &NodeLabels,
    flows: &[u64],
    reqs: &mut [Option<u32>],
    places: &mut [Option<u32>],
)
    requires serving { IsServing rule graph.now (label_at labels.now) rows.now }
    requires capped { AreCapped flows.now }
    requires len { length reqs.old ≡ node_count graph.now }
    requires places { ArePlacedFrom rule graph.now rows.now labels.now flows.now reqs.old reqs.old (node_count graph.now) places.old }
    ensures reqs { reqs.new ≡ walked (choice_by rule rows.now (label_at labels.now) flows.now) (first_and graph.now) (length graph.now.pairs) reqs.old }
    ensures places { ArePlacedFrom rule graph.now rows.now labels.now flows.now reqs.old reqs.new (first_and graph.now) places.new }
{
    let first = graph.sources() + 1;
    let count = graph.len() - first;
    for i in 0..count {
        let n = first + (count - 1 - i);
        places[n as usize] = visit(rule, graph, rows, labels, flows, reqs, n);
    }
}

// Requires the node of a root at the target, if it is an AND node.
fn require_root(graph: &Graph, root: Lit, t: u32, reqs: &mut [Option<u32>])
    requires { root.0 / 2 < length reqs.old }
    ensures { reqs.new ≡ with_root (first_and graph.now) t reqs.old root.0 }
{
    let n = root.0 / 2;
    if n > graph.sources() {
        require(reqs, n, t);
    }
}

// Requires the nodes of the roots at the target.
fn require_roots(graph: &Graph, roots: &[Lit], t: u32, reqs: &mut [Option<u32>])
    requires len { length reqs.old ≡ node_count graph.now }
    requires roots { AreRoots graph.now (lits_of roots.now) }
    ensures { reqs.new ≡ with_roots (first_and graph.now) t reqs.old (lits_of roots.now) }
{
    for root in roots {
        require_root(graph, *root, t, reqs);
    }
}

// The places of the cuts that are chosen by some flows for the needed AND nodes, among the cuts of each.
pub fn chosen_places(
    alloc: Global,
    rule: Rule,
    choices: &Choices,
    flows: &[u64],
) -> Result<Vec<Option<u32>>, AllocError>
    requires can { CanChoose rule choices.now }
    requires capped { AreCapped flows.now }
    ensures places { IfOk result (λ places. ArePlacesBy rule choices.now flows.now places.items) }
    ensures normal { IfOk result (λ _. AreNormal (first_and choices.now.graph.now) choices.now.graph.now.pairs) }
{
    let graph = choices.graph;
    let t = target(graph, choices.labels, choices.roots);
    let mut depths = vec![in alloc; None; graph.len() as usize]?;
    let mut places = vec![in alloc; None; graph.len() as usize]?;
    require_roots(graph, choices.roots, t, &mut depths);
    walk(
        rule,
        graph,
        choices.rows,
        choices.labels,
        flows,
        &mut depths,
        &mut places,
    );
    Ok(places)
}
