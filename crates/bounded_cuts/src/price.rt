//! What a cut costs.
ghost use Rattle.std.specs.Prelude.{◌≡◌, ℕ, ◌+◌, ◌≤◌, ◌^◌};
ghost use Rattle.cut_sets.specs.declared.limits.TheConstants.{MOST_LEAVES};
ghost use Rattle.bounded_cuts.specs.Worths.{AreBounded, AreCounted, IsPricedBy};

use crate::limits::TABLE_PRICE;
use crate::worths::{Worth, together};
use cut_sets::{FlatCut, MOST_LEAVES, NodeLabels};

/// A cut with its height, and what it costs: over the flows through all cuts, over those through cuts of the least height, and
/// over the former where favoured leaves cost nothing.
#[derive(Drop)]
pub struct Candidate {
    /// The cut.
    pub cut: FlatCut,
    /// Its height.
    pub height: u32,
    /// Its cost over the flows through all cuts.
    pub flow: u64,
    /// Its cost over the flows through cuts of the least height.
    pub low_flow: u64,
    /// Its cost over the flows through all cuts, where favoured leaves cost nothing.
    pub paid: u64,
}

/// What cuts of a node are priced by.
#[derive(Clone, Copy)]
pub struct Prices<'a> {
    /// The label of each node.
    pub labels: &'a NodeLabels,
    /// What each node below counts as a leaf.
    pub worths: &'a [Worth],
}

// The cost of a LUT with this many leaves: its price and its bits.
fn lut_cost(leaves: usize) -> u64
    requires { leaves ≤ MOST_LEAVES }
    ensures value { result ≡ TABLE_PRICE + 2 ^ leaves }
    ensures small { result ≤ TABLE_PRICE + 2 ^ MOST_LEAVES }
{
    TABLE_PRICE + (1 << leaves)
}

impl<'a> Prices<'a> {
    /// A cut with its height and its costs.
    pub fn price(&self, cut: FlatCut) -> Candidate
        requires bounded { AreBounded self.now.worths.now }
        requires counted { AreCounted self.now.worths.now cut }
        ensures cut { result.cut ≡ cut }
        ensures priced { IsPricedBy self.now.worths.now result }
    {
        let leaves = cut.leaves();
        let own = lut_cost(leaves.len());
        let sums = together(self.worths, leaves);
        let height = match leaves {
            [] => 0,
            _ => 1 + sums.label,
        };
        Candidate {
            cut,
            height,
            flow: own + sums.flow,
            low_flow: own + sums.low_flow,
            paid: own + sums.paid,
        }
    }
}
