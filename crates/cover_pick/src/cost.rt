//! The rule of the least cost: what a cut costs if some nodes are needed already, and the cheapest cut.
ghost use Rattle.std.specs.Prelude.{◌≡◌, ◌⊎◌, ◌↔◌, true, ℕ, ◌+◌, ◌*◌, ◌<◌, ◌≤◌, ◌^◌, List, [], length, Option, Some, None, IfSome, sum_by, slice_index_or};
ghost use Rattle.cut_sets.specs.declared.limits.TheConstants.{MOST_LEAVES};
ghost use Rattle.cut_sets.specs.Rows.{row_at};
ghost use Rattle.cut_sets.specs.Labels.{height, label_at};
ghost use Rattle.cut_sets.specs.Sets.{before};
ghost use Rattle.bounded_cuts.specs.declared.limits.TheConstants.{MOST_FLOW};
ghost use Rattle.bounded_cuts.specs.Flow.{flow_at};
ghost use Rattle.cover_pick.specs.Required.{need as need_of};
ghost use Rattle.cover_pick.specs.Ruled.{AreCapped, IsCheapestOffer, IsFirstOf, TakesCheaper, TakesCheaperLow, leaf_cost as the_leaf_cost, cut_cost as the_cut_cost};

use crate::tables::table_bits;
use cut_sets::{CutRows, NodeLabels, comes_before};

// A cut of a node by its place, with its cost.
#[derive(Clone, Copy)]
pub struct Offer {
    pub place: u32,
    pub cost: u64,
}

// The cost of a leaf: 0 if it is needed already.
fn leaf_cost(flows: &[u64], reqs: &[Option<u32>], m: u32) -> u64
    requires { AreCapped flows.now }
    ensures value { result ≡ the_leaf_cost flows.now reqs.now m }
    ensures capped { result ≤ MOST_FLOW }
{
    match reqs.get(m as usize).copied().unwrap_or(None) {
        None => flows.get(m as usize).copied().unwrap_or(0),
        Some(_) => 0,
    }
}

// The sum of the costs of leaves.
fn leaves_cost(flows: &[u64], reqs: &[Option<u32>], leaves: &[u32]) -> u64
    requires capped { AreCapped flows.now }
    requires few { length leaves.now ≤ MOST_LEAVES }
    ensures value { result ≡ sum_by (the_leaf_cost flows.now reqs.now) leaves.now }
    ensures small { result ≤ MOST_LEAVES * MOST_FLOW }
{
    let mut cost = 0;
    for m in leaves {
        cost += leaf_cost(flows, reqs, *m);
    }
    cost
}

// The cost of a cut: the bits of its LUT plus the costs of its leaves.
pub fn cut_cost(rows: &CutRows, flows: &[u64], reqs: &[Option<u32>], n: u32, i: u32) -> u64
    requires inside { i < length (row_at rows.now n) }
    requires capped { AreCapped flows.now }
    ensures value { result ≡ the_cut_cost flows.now reqs.now (slice_index_or (row_at rows.now n) i []) }
    ensures small { result ≤ 2 ^ 44 }
{
    let bits = table_bits(rows.leaves(n, i).len()) as u64;
    bits + leaves_cost(flows, reqs, rows.leaves(n, i))
}

// Whether a cut of this cost is chosen before the best cut so far: it costs less, or as much and comes before it in the order of
// cuts.
fn comes_first(rows: &CutRows, n: u32, i: u32, cost: u64, best: Offer) -> bool
    requires inside { i < length (row_at rows.now n) }
    requires best { best.place < length (row_at rows.now n) }
    ensures { result ≡ true ↔ IsFirstOf (row_at rows.now n) i cost best }
{
    if cost == best.cost {
        return comes_before(rows.leaves(n, i), rows.leaves(n, best.place));
    }
    cost < best.cost
}

// The cheaper of the best cut so far and another one.
fn cheaper(
    rows: &CutRows,
    flows: &[u64],
    reqs: &[Option<u32>],
    n: u32,
    best: Option<Offer>,
    i: u32,
) -> Option<Offer>
    requires inside { i < length (row_at rows.now n) }
    requires best { IfSome best (λ b. b.place < length (row_at rows.now n)) }
    requires capped { AreCapped flows.now }
    ensures { TakesCheaper (the_cut_cost flows.now reqs.now) (row_at rows.now n) i best result }
{
    let cost = cut_cost(rows, flows, reqs, n, i);
    match best {
        Some(b) if !comes_first(rows, n, i, cost, b) => Some(b),
        _ => Some(Offer { place: i, cost }),
    }
}

// The cheaper of the best cut so far and another one, ignoring the other one if it is too high.
fn cheaper_low(
    rows: &CutRows,
    labels: &NodeLabels,
    flows: &[u64],
    reqs: &[Option<u32>],
    n: u32,
    r: u32,
    best: Option<Offer>,
    i: u32,
) -> Option<Offer>
    requires inside { i < length (row_at rows.now n) }
    requires best { IfSome best (λ b. b.place < length (row_at rows.now n)) }
    requires capped { AreCapped flows.now }
    ensures { TakesCheaperLow (the_cut_cost flows.now reqs.now) (label_at labels.now) r (row_at rows.now n) i best result }
{
    if labels.cut_height(rows.leaves(n, i)) > r {
        return best;
    }
    cheaper(rows, flows, reqs, n, best, i)
}

// The cheapest cut of a node for a required depth, if one is low enough.
pub fn cheapest(
    rows: &CutRows,
    labels: &NodeLabels,
    flows: &[u64],
    reqs: &[Option<u32>],
    n: u32,
    r: u32,
) -> Option<Offer>
    requires { AreCapped flows.now }
    ensures { IsCheapestOffer (the_cut_cost flows.now reqs.now) (label_at labels.now) r (row_at rows.now n) result }
{
    let mut best = None;
    for i in 0..rows.count(n) {
        best = cheaper_low(rows, labels, flows, reqs, n, r, best, i);
    }
    best
}
