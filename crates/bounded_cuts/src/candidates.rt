//! The candidates of a node: unions of what its fan-ins hand on, and its low cut if no union is as low as its label.
ghost use Rattle.std.specs.Prelude.{◌≡◌, ℕ, List, ◌+◌, ◌<◌, ◌≤◌, ◌/◌, ◌^◌, ◌++◌, ◌∷◌, [], length, true, false, Some, IfOk, OnOk};
ghost use Rattle.aig_core.specs.Aig.{first_and, node_count, pair_of, IsAnd};
ghost use Rattle.cut_sets.specs.Cuts.{Blocks, IsCut};
ghost use Rattle.cut_sets.specs.Labels.{label_at, AreLeastHeights};
ghost use Rattle.cut_sets.specs.Rows.{row_at};
ghost use Rattle.cut_sets.specs.declared.limits.TheConstants.{MOST_LEAVES};
ghost use Rattle.list_laws.specs.Members.{In};
ghost use Rattle.bounded_cuts.specs.Candidates.{AreCandidates, HandsOn, IsLive, one_union, unions, unions_with};
ghost use Rattle.bounded_cuts.specs.Taking.{cuts_of};
ghost use Rattle.bounded_cuts.specs.Worths.{AddsLow, AllCounted, AreBounded, AreCounted, ArePricedBy, label_in};

use crate::price::{Candidate, Prices};
use aig_core::{Graph, Kind, Pair};
use cut_sets::{CutRows, FlatCut, MOST_LEAVES, NodeLabels, joined_within};
use std::alloc::{AllocError, Global};

/// Working memory for the candidates of one node, allocated once for all nodes.
#[derive(Drop)]
pub struct Candidates {
    /// The candidates, in order.
    pub all: Vec<Candidate>,
    x_front: Vec<FlatCut>,
    y_front: Vec<FlatCut>,
}

// Appends a node's set.
fn push_set(front: &mut Vec<FlatCut>, rows: &CutRows, m: u32) -> Result<(), AllocError>
    ensures { OnOk result (front.new.items ≡ front.old.items ++ row_at rows.now m) }
{
    for i in 0..rows.count(m) {
        front.push(rows.cut(m, i))?;
    }
    Ok(())
}

// Whether a node costs nothing: it is the constant or a parameter, or an AND node of label 0.
fn is_free(graph: &Graph, labels: &NodeLabels, m: u32) -> bool
    requires { m < node_count graph.now }
    ensures free { result ≡ true → (k : ℕ) → AreLeastHeights graph.now k (label_at labels.now) → Blocks graph.now [] m }
    ensures live { result ≡ false → (k : ℕ) → AreLeastHeights graph.now k (label_at labels.now) → IsLive graph.now m }
{
    if m == 0 {
        return true;
    }
    // The proof needs what the contract of this call says of the graph.
    let _count = graph.len();
    if m > graph.sources() {
        return labels.label(m) == 0;
    }
    match graph.kind(m) {
        Kind::Regular => false,
        Kind::Parameter => true,
    }
}

// What a node hands on to its readers.
fn fill_front(
    front: &mut Vec<FlatCut>,
    graph: &Graph,
    labels: &NodeLabels,
    rows: &CutRows,
    m: u32,
) -> Result<(), AllocError>
    requires inside { m < node_count graph.now }
    requires sources { (s : ℕ) → s < first_and graph.now → row_at rows.now s ≡ [] }
    requires few { length (row_at rows.now m) ≤ 16 }
    ensures hands { OnOk result ((k : ℕ) → AreLeastHeights graph.now k (label_at labels.now) → HandsOn graph.now rows.now m front.new.items) }
    ensures few { OnOk result (length front.new.items ≤ 17) }
{
    front.clear();
    if is_free(graph, labels, m) {
        front.push(FlatCut::empty())?;
        return Ok(());
    }
    front.push(FlatCut::one(m))?;
    push_set(front, rows, m)
}

// Appends the union of two cuts with its costs, if it has few enough leaves.
fn push_union(
    all: &mut Vec<Candidate>,
    prices: &Prices,
    k: u8,
    c: &FlatCut,
    d: &FlatCut,
) -> Result<(), AllocError>
    requires few { k ≤ MOST_LEAVES }
    requires bounded { AreBounded prices.now.worths.now }
    requires c_counted { AreCounted prices.now.worths.now c.now }
    requires d_counted { AreCounted prices.now.worths.now d.now }
    ensures cuts { OnOk result (cuts_of all.new.items ≡ cuts_of all.old.items ++ one_union k c.now d.now) }
    ensures priced { OnOk result (ArePricedBy prices.now.worths.now all.old.items → ArePricedBy prices.now.worths.now all.new.items) }
{
    if let Some(cut) = joined_within(c, d, usize::from(k)) {
        all.push(prices.price(cut))?;
    }
    Ok(())
}

// Appends the unions of a cut and each of some others.
fn push_unions_with(
    all: &mut Vec<Candidate>,
    prices: &Prices,
    k: u8,
    c: &FlatCut,
    front: &[FlatCut],
) -> Result<(), AllocError>
    requires few { k ≤ MOST_LEAVES }
    requires bounded { AreBounded prices.now.worths.now }
    requires c_counted { AreCounted prices.now.worths.now c.now }
    requires front_counted { AllCounted prices.now.worths.now front.now }
    ensures cuts { OnOk result (cuts_of all.new.items ≡ cuts_of all.old.items ++ unions_with k c.now front.now) }
    ensures priced { OnOk result (ArePricedBy prices.now.worths.now all.old.items → ArePricedBy prices.now.worths.now all.new.items) }
{
    for d in front {
        push_union(all, prices, k, c, d)?;
    }
    Ok(())
}

// Appends the unions of a cut of each list.
fn push_unions(
    all: &mut Vec<Candidate>,
    prices: &Prices,
    k: u8,
    x_front: &[FlatCut],
    y_front: &[FlatCut],
) -> Result<(), AllocError>
    requires few { k ≤ MOST_LEAVES }
    requires bounded { AreBounded prices.now.worths.now }
    requires x_counted { AllCounted prices.now.worths.now x_front.now }
    requires y_counted { AllCounted prices.now.worths.now y_front.now }
    ensures cuts { OnOk result (cuts_of all.new.items ≡ cuts_of all.old.items ++ unions k x_front.now y_front.now) }
    ensures priced { OnOk result (ArePricedBy prices.now.worths.now all.old.items → ArePricedBy prices.now.worths.now all.new.items) }
{
    for c in x_front {
        push_unions_with(all, prices, k, c, y_front)?;
    }
    Ok(())
}

// Whether one of the candidates is as low as the label.
fn has_low(all: &[Candidate], label: u32) -> bool
    ensures yes { result ≡ true → (c : Candidate) × In all.now c × (c.height ≤ label) }
    ensures no { result ≡ false → (c : Candidate) → In all.now c → label < c.height }
{
    for candidate in all {
        if candidate.height <= label {
            return true;
        }
    }
    false
}

// Appends the low cut if no candidate is as low as the label.
fn push_low(
    all: &mut Vec<Candidate>,
    prices: &Prices,
    label: u32,
    low: FlatCut,
) -> Result<(), AllocError>
    requires bounded { AreBounded prices.now.worths.now }
    requires counted { AreCounted prices.now.worths.now low }
    ensures low { OnOk result (AddsLow label low all.old.items all.new.items) }
    ensures priced { OnOk result (ArePricedBy prices.now.worths.now all.old.items → ArePricedBy prices.now.worths.now all.new.items) }
    ensures few { OnOk result (length all.new.items ≤ length all.old.items + 1) }
{
    if !has_low(all, label) {
        all.push(prices.price(low))?;
    }
    Ok(())
}

impl Candidates {
    /// No candidates.
    pub fn new(alloc: Global) -> Candidates {
        Candidates {
            all: Vec::new(alloc),
            x_front: Vec::new(alloc),
            y_front: Vec::new(alloc),
        }
    }

    /// The candidates of a node with this pair, label and low cut.
    ///
    /// # Errors
    /// Only if memory runs out.
    pub fn fill(
        &mut self,
        graph: &Graph,
        prices: &Prices,
        rows: &CutRows,
        k: u8,
        n: u32,
        low: FlatCut,
    ) -> Result<(), AllocError>
        requires few { k ≤ MOST_LEAVES }
        requires bounded { AreBounded prices.now.worths.now }
        requires node { IsAnd graph.now n }
        requires labels { AreLeastHeights graph.now k (label_at prices.now.labels.now) }
        requires count { length prices.now.worths.now ≡ n }
        requires known { (m : ℕ) → m < n → label_in prices.now.worths.now m ≡ label_at prices.now.labels.now m }
        requires low { AreCounted prices.now.worths.now low }
        requires sources { (s : ℕ) → s < first_and graph.now → row_at rows.now s ≡ [] }
        requires cuts { (m : ℕ) (c : List ℕ) → IsAnd graph.now m → m < n → In (row_at rows.now m) c → IsCut graph.now k m c }
        requires rows { (m : ℕ) → length (row_at rows.now m) ≤ 16 }
        ensures are { OnOk result (AreCandidates graph.now k (label_at prices.now.labels.now) low rows.now n (cuts_of self.new.all.items)) }
        ensures priced { OnOk result (ArePricedBy prices.now.worths.now self.new.all.items) }
        ensures few { OnOk result (length self.new.all.items ≤ 290) }
    {
        // The proof needs what the contract of this call says of the graph.
        let _count = graph.len();
        let pair = graph.pair_at(n);
        self.all.clear();
        fill_front(&mut self.x_front, graph, prices.labels, rows, pair.x.0 / 2)?;
        fill_front(&mut self.y_front, graph, prices.labels, rows, pair.y.0 / 2)?;
        push_unions(&mut self.all, prices, k, &self.x_front, &self.y_front)?;
        push_low(&mut self.all, prices, prices.labels.label(n), low)
    }
}
