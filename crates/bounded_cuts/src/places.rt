//! The places of a node's set among its candidates: three takings.
ghost use Rattle.std.specs.Prelude.{◌≡◌, ℕ, ◌<◌, ◌≤◌, [], length, replicate, false, IfOk, OnOk};
ghost use Rattle.cut_sets.specs.declared.limits.TheConstants.{MOST_LEAVES};
ghost use Rattle.bounded_cuts.specs.declared.limits.TheConstants.{PLACE_BOUND};
ghost use Rattle.bounded_cuts.specs.Taking.{CanTake, HaveSmallCosts, ArePlaced, Pricing, cuts_of};
ghost use Rattle.bounded_cuts.specs.Sets.{places};
ghost use Rattle.list_laws.specs.Members.{In};

use crate::price::Candidate;
use crate::taking::{Order, take};
use cut_sets::MOST_LEAVES;
use std::alloc::{AllocError, Global};

/// Working memory for takings, allocated once for all nodes.
#[derive(Drop)]
pub struct Taking {
    looked: Vec<bool>,
    keys: Vec<u64>,
    /// The places of the set among the candidates, in the order in which they were taken.
    pub taken: Vec<u32>,
}

// No place was looked at.
fn begin(looked: &mut Vec<bool>, taken: &mut Vec<u32>, count: usize) -> Result<(), AllocError>
    ensures looked { OnOk result (looked.new.items ≡ replicate count false) }
    ensures taken { OnOk result (taken.new.items ≡ []) }
{
    taken.clear();
    looked.clear();
    looked.resize(count, false)?;
    Ok(())
}

/// How many cuts a set for LUTs of at most `k` inputs has at most.
pub fn most_places(k: u8) -> usize
    requires { k ≤ MOST_LEAVES }
    ensures value { result ≡ places k }
    ensures small { result ≤ 16 }
{
    2 * usize::from(k) + 4
}

// Takes the places of a node's set, where nothing was looked at.
fn take_three(
    label: u32,
    k: u8,
    candidates: &[Candidate],
    looked: &mut [bool],
    taken: &mut Vec<u32>,
    keys: &mut Vec<u64>,
) -> Result<(), AllocError>
    requires few { k ≤ MOST_LEAVES }
    requires count { length candidates.now ≤ PLACE_BOUND }
    requires small { HaveSmallCosts candidates.now }
    requires looked { looked.old ≡ replicate (length candidates.now) false }
    requires taken { taken.old.items ≡ [] }
    ensures inside { OnOk result ((j : ℕ) → In taken.new.items j → j < length candidates.now) }
    ensures placed { OnOk result ((p : Pricing) → CanTake p label candidates.now → ArePlaced p k label (cuts_of candidates.now) taken.new.items) }
{
    let most = most_places(k);
    take(
        Order::LeastHeight,
        label,
        candidates,
        most / 2,
        looked,
        taken,
        keys,
    )?;
    let short = taken.len() + most / 4;
    take(
        Order::FewestLeaves,
        label,
        candidates,
        short,
        looked,
        taken,
        keys,
    )?;
    take(
        Order::LeastCost,
        label,
        candidates,
        most,
        looked,
        taken,
        keys,
    )?;
    Ok(())
}

impl Taking {
    /// Nothing is taken.
    pub fn new(alloc: Global) -> Taking {
        Taking {
            looked: Vec::new(alloc),
            keys: Vec::new(alloc),
            taken: Vec::new(alloc),
        }
    }

    /// Takes the places of a node's set. The least height of its cuts is its label.
    ///
    /// # Errors
    /// Only if memory runs out.
    pub fn take_places(
        &mut self,
        label: u32,
        k: u8,
        candidates: &[Candidate],
    ) -> Result<(), AllocError>
        requires few { k ≤ MOST_LEAVES }
        requires count { length candidates.now ≤ PLACE_BOUND }
        requires small { HaveSmallCosts candidates.now }
        ensures inside { OnOk result ((j : ℕ) → In self.new.taken.items j → j < length candidates.now) }
        ensures placed { OnOk result ((p : Pricing) → CanTake p label candidates.now → ArePlaced p k label (cuts_of candidates.now) self.new.taken.items) }
    {
        begin(&mut self.looked, &mut self.taken, candidates.len())?;
        take_three(
            label,
            k,
            candidates,
            &mut self.looked,
            &mut self.taken,
            &mut self.keys,
        )
    }
}
