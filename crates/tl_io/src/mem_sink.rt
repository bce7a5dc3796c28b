//! A sink in memory.
ghost use Rattle.std.specs.Prelude.{◌≡◌, ◌-◌, ◌^◌, ◌≤◌, ◌↔◌, [], IfOk, IsErr, IsTrue};
ghost use Rattle.std.proofs.Common.{rules};
ghost use Rattle.tl_io.specs.Sink.{IsPut};

use crate::fault_plan::FaultPlan;
use crate::{Failed, Sink};
use std::alloc::{AllocError, Global};
use std::marker::Model;

/// A sink in memory that holds a fixed number of bytes and fails at chosen calls.
#[derive(Drop)]
pub struct MemSink {
    held: Vec<u8>,
    room: usize,
    plan: FaultPlan,
    faults: u64,
}

impl Model for MemSink {
    ghost use Rattle.std.specs.Prelude.{◌≤◌, vec_capacity, vec_len};
    ghost use Rattle.tl_io.specs.MemSink.{SinkValue};

    ghost Value = { SinkValue };

    ghost view = { λ sink. record { bytes = sink.held.items; room = sink.room; plan = sink.plan; faults = sink.faults } };

    ghost invariant = { λ sink. (sink.room ≤ vec_capacity sink.held) × (vec_len sink.held ≤ sink.room) };
}

impl MemSink {
    /// Creates an empty sink that can hold this many bytes. The calls of `put` are numbered from 0. A call fails if its
    /// number is in `fails` and its piece isn't empty.
    ///
    /// # Errors
    /// `AllocError` if there is no memory for the bytes or the numbers.
    pub fn make(alloc: Global, room: usize, fails: &[u64]) -> Result<MemSink, AllocError>
        ensures { IfOk result (λ sink. sink ≡ record { bytes = []; room = room; plan = record { fails = fails.now; calls = 0 }; faults = 0 }) }
    {
        let held = Vec::with_capacity(alloc, room)?;
        let plan = FaultPlan::make(alloc, fails)?;
        Ok(MemSink {
            held,
            room,
            plan,
            faults: 0,
        })
    }

    /// Returns the bytes so far.
    pub fn bytes(&self) -> &[u8]
        ensures { result.now ≡ self.now.bytes }
    {
        &self.held
    }
}

impl Sink for MemSink {
    ghost use Rattle.tl_io.specs.MemSink.{sink_in_memory, fails_put, after_put};

    ghost seen = { sink_in_memory };

    fn put(&mut self, piece: &[u8]) -> Result<(), Failed>
        ensures put { IsPut (sink_in_memory self.old) piece.now (sink_in_memory self.new) result }
        ensures exact { IsErr result ↔ IsTrue (fails_put self.old piece.now) }
        ensures after { self.new ≡ after_put self.old piece.now }
    {
        let listed = self.plan.next_call_fails();
        if piece.len() > self.room - self.held.len() {
            self.faults = self.faults.saturating_add(1);
            return Err(Failed);
        }
        if listed && !piece.is_empty() {
            let half = &piece[..piece.len() / 2];
            let _ = self.held.extend_from_slice(half);
            self.faults = self.faults.saturating_add(1);
            return Err(Failed);
        }
        let _ = self.held.extend_from_slice(piece);
        Ok(())
    }

    ghost faults_end = { λ sink. Prim.search rules };
}
