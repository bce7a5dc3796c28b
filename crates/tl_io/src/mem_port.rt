//! A configuration port in memory.
ghost use Rattle.std.specs.Prelude.{◌≡◌, ◌↔◌, [], IfOk, IsErr, IsTrue, slice_get, Some};
ghost use Rattle.tl_io.specs.Port.{Writes, IsCounted};

use crate::fault_plan::FaultPlan;
use crate::{ConfigPort, Failed, Write};
use std::alloc::{AllocError, Global};
use std::marker::Model;

/// A configuration port in memory that holds a fixed number of writes and fails at chosen calls.
#[derive(Drop)]
pub struct MemPort {
    writes: Vec<Write>,
    room: usize,
    plan: FaultPlan,
    faults: u64,
}

impl Model for MemPort {
    ghost use Rattle.std.specs.Prelude.{◌≤◌, vec_capacity};
    ghost use Rattle.tl_io.specs.MemPort.{PortValue};

    ghost Value = { PortValue };

    ghost view = { λ port. record { log = port.writes.items; room = port.room; plan = port.plan; faults = port.faults } };

    ghost invariant = { λ port. port.room ≤ vec_capacity port.writes };
}

impl MemPort {
    /// Creates a port that accepts this many writes. The calls of `write` are numbered from 0. A call fails if its number
    /// is in `fails`.
    ///
    /// # Errors
    /// `AllocError` if there is no memory for the writes or the numbers.
    pub fn make(alloc: Global, room: usize, fails: &[u64]) -> Result<MemPort, AllocError>
        ensures { IfOk result (λ port. port ≡ record { log = []; room = room; plan = record { fails = fails.now; calls = 0 }; faults = 0 }) }
    {
        let writes = Vec::with_capacity(alloc, room)?;
        let plan = FaultPlan::make(alloc, fails)?;
        Ok(MemPort {
            writes,
            room,
            plan,
            faults: 0,
        })
    }

    /// Returns the accepted writes.
    pub fn log(&self) -> &[Write]
        ensures { result.now ≡ self.now.log }
    {
        &self.writes
    }
}

impl ConfigPort for MemPort {
    ghost use Rattle.tl_io.specs.MemPort.{port_in_memory, fails_write, after_write};

    ghost port_seen = { λ port. port_in_memory port };

    fn write(&mut self, address: u32, bit: bool) -> Result<(), Failed>
        ensures writes { Writes (port_in_memory self.old) (record { address = address; bit = bit }) (port_in_memory self.new) result }
        ensures counted { IsCounted (port_in_memory self.new) }
        ensures exact { IsErr result ↔ IsTrue (fails_write self.old) }
        ensures after { self.new ≡ after_write self.old (record { address = address; bit = bit }) }
    {
        let listed = self.plan.next_call_fails();
        if listed || self.room <= self.writes.len() {
            self.faults = self.faults.saturating_add(1);
            return Err(Failed);
        }
        let _ = self.writes.push(Write { address, bit });
        Ok(())
    }

    fn logged(&self, i: usize) -> Option<Write> {
        self.writes.get(i).copied()
    }

    fn faults(&self) -> u64 {
        self.faults
    }
}
