//! The label and the low cut of one node.
ghost use Rattle.std.specs.Prelude.{◌≡◌, ℕ, ◌<◌, ◌≤◌, ◌+◌, ◌^◌, IfOk, IfSome, OnOk, length};
ghost use Rattle.aig_core.specs.Aig.{node_count, IsAnd};
ghost use Rattle.cut_sets.specs.Labels.{label_at};
ghost use Rattle.flow_label.specs.Barriers.{IsAnswer};
ghost use Rattle.flow_label.specs.Labelled.{IsLabelled, AreLabelledTo};
ghost use Rattle.flow_label.specs.LowCuts.{IsLowerCut, HasLowWith};
ghost use Rattle.flow_label.specs.Parts.{low_at, IsOwnPart, IsLowPart, IsGreatest, IsFanInCut};
ghost use Rattle.flow_label.specs.Scratch.{HasRoom};
ghost use Rattle.flow_label.specs.Memory.{HasTrunks, KeepsTrunks};

use crate::live::is_live;
use crate::question::low_cut_of;
use crate::scratch::Scratch;
use aig_core::Graph;
use cut_sets::{FlatCut, MOST_LEAVES, NodeLabels, joined_within};
use std::alloc::AllocError;

/// A label and a cut of that height.
#[derive(Drop)]
pub struct Labelled {
    pub label: u32,
    pub cut: FlatCut,
}

// A fan-in as a cut: nothing if it is free, otherwise itself.
fn own_part(graph: &Graph, labels: &NodeLabels, m: u32) -> FlatCut
    requires { m < node_count graph.now }
    ensures { IsOwnPart graph.now (label_at labels.now) m result }
{
    if is_live(graph, labels, m) {
        FlatCut::one(m)
    } else {
        FlatCut::empty()
    }
}

// The part of a fan-in in a cut of labels below p: the fan-in itself if its label is below p, otherwise its low cut.
fn low_part(graph: &Graph, labels: &NodeLabels, cuts: &[FlatCut], m: u32, p: u32) -> FlatCut
    requires { m < node_count graph.now }
    ensures { IsLowPart graph.now (label_at labels.now) (low_at cuts.now) p m result }
{
    if labels.label(m) < p {
        return own_part(graph, labels, m);
    }
    match cuts.get(m as usize) {
        Some(cut) => cut.copy(),
        None => FlatCut::empty(),
    }
}

// A cut of the node of labels below p, the greatest label of its fan-ins: the join of their low parts, if it has at most k
// leaves, and otherwise what the flow finds, if there is one.
fn lower_cut(
    graph: &Graph,
    labels: &NodeLabels,
    cuts: &[FlatCut],
    n: u32,
    p: u32,
    k: u8,
    scratch: &mut Scratch,
) -> Result<Option<FlatCut>, AllocError>
    requires few { k ≤ MOST_LEAVES }
    requires node { IsAnd graph.now n }
    requires labelled { AreLabelledTo graph.now k n (record { labels = labels.now; cuts = cuts.now }) }
    requires greatest { IsGreatest graph.now (label_at labels.now) n p }
    requires some { 1 ≤ p }
    requires room { HasRoom (node_count graph.now) scratch.old }
    requires trunks { HasTrunks graph.now n scratch.old.trunks }
    ensures answer { IfOk result (IsAnswer graph.now k n (p + 1) (label_at labels.now)) }
    ensures low { IfOk result (λ answer. IfSome answer (λ cut. IsLowerCut graph.now k (label_at labels.now) (low_at cuts.now) n p cut)) }
    ensures room { OnOk result (HasRoom (node_count graph.now) scratch.new) }
    ensures trunks { KeepsTrunks scratch.old.trunks scratch.new.trunks }
{
    // The proof needs what the contract of this call says of the graph.
    let _count = graph.len();
    let pair = graph.pair_at(n);
    let x = low_part(graph, labels, cuts, pair.x.0 / 2, p);
    let y = low_part(graph, labels, cuts, pair.y.0 / 2, p);
    if let Some(cut) = joined_within(&x, &y, usize::from(k)) {
        return Ok(Some(cut));
    }
    low_cut_of(graph, labels, n, p + 1, k, scratch)
}

// The fan-ins that aren't free, as a cut.
fn fan_in_cut(graph: &Graph, labels: &NodeLabels, n: u32) -> FlatCut
    requires { IsAnd graph.now n }
    ensures { IsFanInCut graph.now (label_at labels.now) n result }
{
    // The proof needs what the contract of this call says of the graph.
    let _count = graph.len();
    let pair = graph.pair_at(n);
    let x = own_part(graph, labels, pair.x.0 / 2);
    let y = own_part(graph, labels, pair.y.0 / 2);
    match joined_within(&x, &y, MOST_LEAVES) {
        Some(cut) => cut,
        None => unreachable!(),
    }
}

// The greater label of the fan-ins.
fn greatest_label(graph: &Graph, labels: &NodeLabels, n: u32) -> u32
    requires { IsAnd graph.now n }
    ensures greatest { IsGreatest graph.now (label_at labels.now) n result }
    ensures small { 1 + result < 2 ^ 32 }
{
    let pair = graph.pair_at(n);
    let x = labels.label(pair.x.0 / 2);
    let y = labels.label(pair.y.0 / 2);
    if x < y { y } else { x }
}

/// The label and the low cut of an AND node, given those of the nodes below. With p as the greatest label of the fan-ins, the
/// label is p if a cut of at most k leaves has only labels below p. Otherwise it is p + 1, and the low cut is the fan-ins that
/// aren't free. Without such a fan-in it is 0, and the cut is empty.
///
/// # Errors
/// Only if memory runs out.
pub fn label_node(
    graph: &Graph,
    labels: &NodeLabels,
    cuts: &[FlatCut],
    n: u32,
    k: u8,
    scratch: &mut Scratch,
) -> Result<Labelled, AllocError>
    requires least { 2 ≤ k }
    requires few { k ≤ MOST_LEAVES }
    requires node { IsAnd graph.now n }
    requires labelled { AreLabelledTo graph.now k n (record { labels = labels.now; cuts = cuts.now }) }
    requires room { HasRoom (node_count graph.now) scratch.old }
    requires trunks { HasTrunks graph.now n scratch.old.trunks }
    ensures labelled { IfOk result (λ made. IsLabelled graph.now k n (label_at labels.now) made.label made.cut) }
    ensures low { IfOk result (λ made. HasLowWith graph.now k (label_at labels.now) (low_at cuts.now) n made.label made.cut) }
    ensures room { OnOk result (HasRoom (node_count graph.now) scratch.new) }
    ensures trunks { KeepsTrunks scratch.old.trunks scratch.new.trunks }
{
    // The proof needs what the contract of this call says of the graph.
    let _count = graph.len();
    let p = greatest_label(graph, labels, n);
    if p > 0 {
        if let Some(cut) = lower_cut(graph, labels, cuts, n, p, k, scratch)? {
            return Ok(Labelled { label: p, cut });
        }
    }
    let cut = fan_in_cut(graph, labels, n);
    let label = if cut.len() == 0 { 0 } else { p + 1 };
    Ok(Labelled { label, cut })
}
