//! What nodes count as leaves of cuts.
ghost use Rattle.std.specs.Prelude.{◌≡◌, ℕ, ◌+◌, ◌*◌, ◌<◌, ◌≤◌, ◌^◌, length, sum_by};
ghost use Rattle.cut_sets.specs.Labels.{greatest};
ghost use Rattle.cut_sets.specs.declared.limits.TheConstants.{MOST_LEAVES};
ghost use Rattle.bounded_cuts.specs.declared.limits.TheConstants.{MOST_FLOW};
ghost use Rattle.bounded_cuts.specs.Worths.{AreBounded, AreCounted, flow_in, label_in, low_flow_in, paid_in, worth_at};

use crate::limits::MOST_FLOW;
use cut_sets::MOST_LEAVES;

/// What a node counts as a leaf: all that the price of a cut needs to know of it, side by side in memory.
#[derive(Clone, Copy)]
pub struct Worth {
    /// Its label.
    pub label: u32,
    /// Its flow through all cuts.
    pub flow: u64,
    /// Its flow through cuts of the least height.
    pub low_flow: u64,
    /// Its flow through all cuts, and 0 if it is favoured.
    pub paid: u64,
}

// What a node counts.
fn worth_of(worths: &[Worth], m: u32) -> Worth
    requires { m < length worths.now }
    ensures { result ≡ worth_at worths.now m }
{
    worths[m as usize]
}

// What some leaves count together: their greatest label, and the sums of their flows.
pub fn together(worths: &[Worth], leaves: &[u32]) -> Worth
    requires bounded { AreBounded worths.now }
    requires few { length leaves.now ≤ MOST_LEAVES }
    requires counted { AreCounted worths.now leaves.now }
    ensures label { result.label ≡ greatest (label_in worths.now) leaves.now }
    ensures flow { result.flow ≡ sum_by (flow_in worths.now) leaves.now }
    ensures low_flow { result.low_flow ≡ sum_by (low_flow_in worths.now) leaves.now }
    ensures paid { result.paid ≡ sum_by (paid_in worths.now) leaves.now }
    ensures small { 1 + result.label < 2 ^ 32 }
    ensures flow_small { result.flow ≤ MOST_LEAVES * MOST_FLOW }
    ensures low_flow_small { result.low_flow ≤ MOST_LEAVES * MOST_FLOW }
    ensures paid_small { result.paid ≤ MOST_LEAVES * MOST_FLOW }
{
    let mut label = 0;
    let mut flow = 0;
    let mut low_flow = 0;
    let mut paid = 0;
    for m in leaves {
        let worth = worth_of(worths, *m);
        label = label.max(worth.label);
        flow += worth.flow;
        low_flow += worth.low_flow;
        paid += worth.paid;
    }
    Worth {
        label,
        flow,
        low_flow,
        paid,
    }
}
