//! The rule of the fewest leaves: the choice of a cut for a node with a required depth.
ghost use Rattle.std.specs.Prelude.{◌≡◌, ℕ, ◌<◌, ◌≤◌, true, List, [], length, Option, Some, None, slice_index_or};
ghost use Rattle.cut_sets.specs.Sets.{IsOrdered};
ghost use Rattle.cut_sets.specs.Rows.{row_at};
ghost use Rattle.cut_sets.specs.Labels.{height, label_at};
ghost use Rattle.cover_pick.specs.declared.rule.Rule.TheVariants.{FewestLeaves};
ghost use Rattle.cover_pick.specs.Ruled.{IsAt, IsShorter, TakesBetter, fewest as the_fewest, found_in, AreCapped};
ghost use Rattle.cover_pick.specs.Places.{cut_of};

use crate::cost::cheapest;
use crate::rule::Rule;
use cut_sets::{CutRows, NodeLabels};

// A cut of a node by its place, with its number of leaves and its height.
#[derive(Clone, Copy)]
struct Candidate {
    place: u32,
    len: usize,
    height: u32,
}

// The candidate at a place.
fn candidate_at(labels: &NodeLabels, rows: &CutRows, n: u32, i: u32) -> Candidate
    requires { i < length (row_at rows.now n) }
    ensures place { result.place ≡ i }
    ensures len { result.len ≡ length (slice_index_or (row_at rows.now n) i []) }
    ensures height { result.height ≡ height (label_at labels.now) (slice_index_or (row_at rows.now n) i []) }
{
    let len = rows.leaves(n, i).len();
    let height = labels.cut_height(rows.leaves(n, i));
    Candidate {
        place: i,
        len,
        height,
    }
}

// The better of the best cut so far and a later one, which has at least as many leaves.
fn better(
    labels: &NodeLabels,
    rows: &CutRows,
    n: u32,
    r: u32,
    best: Option<Candidate>,
    i: u32,
) -> Option<Candidate>
    requires { i < length (row_at rows.now n) }
    ensures { TakesBetter (label_at labels.now) r (row_at rows.now n) i best result }
{
    let candidate = candidate_at(labels, rows, n, i);
    match best {
        None => {
            if candidate.height > r {
                return None;
            }
            Some(candidate)
        }
        Some(b) => {
            if candidate.len == b.len && candidate.height < b.height {
                return Some(candidate);
            }
            Some(b)
        }
    }
}

// Whether the best cut so far has fewer leaves than `len`.
fn has_fewer(best: Option<Candidate>, len: usize) -> bool
    ensures { result ≡ true → IsShorter best len }
{
    match best {
        None => false,
        Some(b) => b.len < len,
    }
}

// The best cut of a node for a required depth, if one is low enough. Stops at the first cut with more leaves than the best
// one.
fn fewest(labels: &NodeLabels, rows: &CutRows, n: u32, r: u32) -> Option<Candidate>
    requires { IsOrdered (row_at rows.now n) }
    ensures { IsAt (label_at labels.now) (row_at rows.now n) result (the_fewest (label_at labels.now) r None (row_at rows.now n)) }
{
    let mut best = None;
    for i in 0..rows.count(n) {
        if has_fewer(best, rows.leaves(n, i).len()) {
            return best;
        }
        best = better(labels, rows, n, r, best, i);
    }
    best
}

// The place of the cut chosen for a node and its required depth, if one is low enough.
pub fn choose(
    rule: Rule,
    rows: &CutRows,
    labels: &NodeLabels,
    flows: &[u64],
    reqs: &[Option<u32>],
    n: u32,
    r: u32,
) -> Option<u32>
    requires ordered { rule ≡ FewestLeaves → IsOrdered (row_at rows.now n) }
    requires capped { AreCapped flows.now }
    ensures cut { cut_of (row_at rows.now n) result ≡ found_in rule (label_at labels.now) flows.now reqs.now (row_at rows.now n) r }
    ensures inside { (i : ℕ) → result ≡ Some i → i < length (row_at rows.now n) }
{
    match rule {
        Rule::FewestLeaves => match fewest(labels, rows, n, r) {
            None => None,
            Some(best) => Some(best.place),
        },
        Rule::LeastCost => match cheapest(rows, labels, flows, reqs, n, r) {
            None => None,
            Some(best) => Some(best.place),
        },
    }
}
