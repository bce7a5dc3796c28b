//! Six rounds over rows of cuts: the first of six covers of the least cost.
ghost use Rattle.std.specs.Prelude.{◌≡◌, ℕ, true, length, IfOk};
ghost use Rattle.cover_pick.specs.declared.rule.Rule.TheVariants.{LeastCost};
ghost use Rattle.cover_pick.specs.Choices.{AreCutsBy, CanChoose, flows_over, three_over, six_over};
ghost use Rattle.cover_pick.specs.Planned.{cheaper_cuts};

use crate::choices::Choices;
use crate::cuts::{ChosenCuts, cuts_by};
use crate::flow::flows_by;
use crate::rule::Rule;
use crate::uses::{cost_of, uses};
use aig_core::Graph;
use bounded_cuts::Scope;
use std::alloc::{AllocError, Global};

// A round: the cuts that are chosen by the flows over some counts.
fn round<'a>(
    alloc: Global,
    choices: &Choices<'a>,
    scope: Scope,
    counts: &[u32],
) -> Result<ChosenCuts<'a>, AllocError>
    requires { CanChoose LeastCost choices.now }
    ensures { IfOk result (AreCutsBy LeastCost choices.now (flows_over choices.now scope counts.now)) }
{
    let flows = flows_by(
        alloc,
        choices.graph,
        choices.rows,
        choices.labels,
        scope,
        counts,
    )?;
    cuts_by(alloc, Rule::LeastCost, choices, &flows)
}

// The cheaper of two covers, the first one where both cost the same.
pub fn cheaper<'a>(graph: &Graph, first: ChosenCuts<'a>, second: ChosenCuts<'a>) -> ChosenCuts<'a>
    ensures value { result ≡ cheaper_cuts graph.now first.entry second.entry }
    ensures len { (k : ℕ) → length first.entry ≡ k → length second.entry ≡ k → length result ≡ k }
{
    if cost_of(graph, &second) < cost_of(graph, &first) {
        return second;
    }
    first
}

// Are two lists of counts the same?
fn are_same(counts: &[u32], others: &[u32]) -> bool
    ensures { result ≡ true → counts.now ≡ others.now }
{
    counts == others
}

// The first of the least cost of three rounds, the first over these counts and each later one over the uses in the cover
// before it. A cover is a function of the counts alone: so where the counts have not changed, the next rounds would give
// the same cover again, which comes later and costs no less, and they are not made.
fn three_rounds<'a>(
    alloc: Global,
    choices: &Choices<'a>,
    scope: Scope,
    counts: &[u32],
) -> Result<ChosenCuts<'a>, AllocError>
    requires { CanChoose LeastCost choices.now }
    ensures { IfOk result (AreCutsBy LeastCost choices.now (three_over choices.now scope counts.now)) }
{
    let graph = choices.graph;
    let first = round(alloc, choices, scope, counts)?;
    let used = uses(alloc, graph, &first)?;
    if are_same(&used, counts) {
        return Ok(first);
    }
    let second = round(alloc, choices, scope, &used)?;
    let used_next = uses(alloc, graph, &second)?;
    let best = cheaper(graph, first, second);
    if are_same(&used_next, &used) {
        return Ok(best);
    }
    let third = round(alloc, choices, scope, &used_next)?;
    Ok(cheaper(graph, best, third))
}

/// The first of the least cost of three rounds over all cuts and three over the cuts of the least height, both from these
/// counts on.
///
/// # Errors
/// Only if memory runs out.
pub fn six_rounds<'a>(
    alloc: Global,
    choices: &Choices<'a>,
    counts: &[u32],
) -> Result<ChosenCuts<'a>, AllocError>
    requires { CanChoose LeastCost choices.now }
    ensures { IfOk result (AreCutsBy LeastCost choices.now (six_over choices.now counts.now)) }
{
    let any = three_rounds(alloc, choices, Scope::AnyHeight, counts)?;
    let low = three_rounds(alloc, choices, Scope::LeastHeight, counts)?;
    Ok(cheaper(choices.graph, any, low))
}
