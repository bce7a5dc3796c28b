//! Which calls of an in-memory object fail.
ghost use Rattle.std.specs.Prelude.{◌≡◌, IfOk};

use std::alloc::{AllocError, Global};
use std::marker::Model;

/// The numbers of the calls that fail, counted from 0, and the number of the next call.
#[derive(Drop)]
pub struct FaultPlan {
    fails: Vec<u64>,
    calls: u64,
}

impl Model for FaultPlan {
    ghost use Rattle.tl_io.specs.FaultPlan.{Plan};

    ghost Value = { Plan };

    ghost view = { λ plan. record { fails = plan.fails.items; calls = plan.calls } };
}

impl FaultPlan {
    ghost use Rattle.tl_io.specs.FaultPlan.{fails_next, after_call};

    pub fn make(alloc: Global, fails: &[u64]) -> Result<FaultPlan, AllocError>
        ensures { IfOk result (λ plan. plan ≡ record { fails = fails.now; calls = 0 }) }
    {
        let fails = Vec::from_slice(alloc, fails)?;
        Ok(FaultPlan { fails, calls: 0 })
    }

    /// Counts a call, and returns whether it fails.
    pub fn next_call_fails(&mut self) -> bool
        ensures listed { result ≡ fails_next self.old }
        ensures counted { self.new ≡ after_call self.old }
    {
        let listed = self.fails.contains(&self.calls);
        self.calls = self.calls.saturating_add(1);
        listed
    }
}
