//! A set of cuts for each AND node.
ghost use Rattle.std.specs.Prelude.{◌≡◌, ℕ, ◌<◌, ◌≤◌, ◌^◌, ◌+◌, ◌*◌, ◌++◌, ◌∷◌, [], length, map, IfOk, OnOk};
ghost use Rattle.list_laws.specs.Members.{In};
ghost use Rattle.bounded_cuts.specs.declared.limits.TheConstants.{MOST_FLOW};
ghost use Rattle.bounded_cuts.specs.Flow.{least_flow as the_least_flow};
ghost use Rattle.bounded_cuts.specs.Taking.{ArePriced, Pricing, cuts_at, low_cuts_at};

use crate::limits::MOST_FLOW;
use crate::price::Candidate;
use cut_sets::FlatCut;
use std::alloc::AllocError;

// The cuts at some places.
pub fn copy_cuts(
    candidates: &[Candidate],
    taken: &[u32],
    set: &mut Vec<FlatCut>,
) -> Result<(), AllocError>
    requires { (j : ℕ) → In taken.now j → j < length candidates.now }
    ensures { OnOk result (set.new.items ≡ cuts_at candidates.now taken.now) }
{
    set.clear();
    for i in taken {
        set.push(candidates[*i as usize].cut.copy())?;
    }
    Ok(())
}

// The least flow of the cuts at some places.
pub fn least_flow(candidates: &[Candidate], taken: &[u32]) -> u64
    requires { (j : ℕ) → In taken.now j → j < length candidates.now }
    ensures value { (p : Pricing) → ArePriced p candidates.now → result ≡ the_least_flow p.flows (cuts_at candidates.now taken.now) }
    ensures capped { result ≤ MOST_FLOW }
{
    let mut least = MOST_FLOW;
    for i in taken {
        least = least.min(candidates[*i as usize].flow);
    }
    least
}

// The least flow of those that are as low as the label, over flows through such cuts.
pub fn least_low_flow(candidates: &[Candidate], taken: &[u32], label: u32) -> u64
    requires { (j : ℕ) → In taken.now j → j < length candidates.now }
    ensures value { (p : Pricing) → ArePriced p candidates.now → result ≡ the_least_flow p.lows (low_cuts_at p label candidates.now taken.now) }
    ensures capped { result ≤ MOST_FLOW }
{
    let mut least = MOST_FLOW;
    for i in taken {
        least = least.min(low_flow_of(&candidates[*i as usize], label));
    }
    least
}

// The flow of a candidate that is as low as the label, and the most of a higher one.
fn low_flow_of(candidate: &Candidate, label: u32) -> u64
    ensures high { label < candidate.now.height → result ≡ MOST_FLOW }
    ensures low { candidate.now.height ≤ label → result ≡ candidate.now.low_flow }
{
    if candidate.height > label {
        return MOST_FLOW;
    }
    candidate.low_flow
}
