//! The device's configuration, and the addresses at which it differs from the requested configuration.
ghost use Rattle.std.specs.Prelude.{◌≡◌, ◌+◌, ◌<◌, ◌≤◌, Bool, not, List, [], ◌∷◌, ◌++◌, length, take, replicate, slice_set, false, IfOk};
ghost use Rattle.tl_io.specs.Writes.{written};
ghost use Rattle.ppc_pack.specs.declared.pack.TheConstants.{MOST_PACK_BITS};
ghost use Rattle.lut_sim.specs.Cycle.{IsTableCycle, IsOnlyTableCycle};
ghost use Rattle.spec_core.specs.Differences.{config_bit, differences};
ghost use Rattle.pace_core.specs.Backlog.{IsBehind, IsLate, IsTurn, AreTurns, IsCaughtUp};

use aig_core::Steps;
use late_device::LateDevice;
use lut_sim::Sim;
use std::alloc::{AllocError, Global};
use std::marker::Model;
use std::sync::ledger::Ledger;
use tl_io::Write;

/// A device with a mark at each address at which it is behind, the number of these marks, and the writes of the last tick that
/// waited. There is room for one write per address. A [`Pacer`](crate::Pacer) plays a circuit over it; a host without a circuit takes
/// it alone.
#[derive(Drop)]
pub struct Backlog {
    device: LateDevice,
    waiting: u32,
    writes: Vec<Write>,
}

impl Model for Backlog {
    ghost use Rattle.std.specs.Prelude.{vec_capacity};
    ghost use Rattle.pace_core.specs.Backlog.{BacklogValue, HasRoom};

    ghost Value = { BacklogValue };

    ghost view = { λ b. record { config = b.device.config; marks = b.device.marks; waiting = b.waiting; writes = b.writes.items; looks = b.device.looks } };

    ghost invariant = { λ b. HasRoom b.device.config (vec_capacity b.writes) };
}

impl Backlog {
    /// Creates a device that has this configuration, so that it isn't behind.
    ///
    /// Returns `Err` only if memory runs out. No other call allocates.
    pub fn make(alloc: Global, config: &[bool]) -> Result<Backlog, AllocError>
        requires { length config.now ≤ MOST_PACK_BITS }
        ensures { IfOk result (λ b. b ≡ record { config = config.now; marks = replicate (length config.now) false; waiting = 0; writes = []; looks = 0 }) }
    {
        let device = LateDevice::make(alloc, config)?;
        let writes = Vec::with_capacity(alloc, config.len())?;
        Ok(Backlog {
            device,
            waiting: 0,
            writes,
        })
    }

    /// The number of bits of the device.
    pub(crate) fn bits(&self) -> u32
        ensures { result ≡ length self.now.config }
    {
        self.device.len()
    }

    /// The writes of the last tick that waited.
    pub fn writes(&self) -> &[Write]
        ensures { result.now ≡ self.now.writes }
    {
        &self.writes
    }

    /// The number of addresses at which the device is behind.
    pub fn waiting(&self) -> u32
        ensures { result ≡ self.now.waiting }
    {
        self.waiting
    }

    /// Plays a clock cycle of a circuit under the device's configuration.
    pub(crate) fn cycle(&self, sim: &mut Sim, inputs: &[bool])
        requires config { length self.now.config ≡ sim.old.template.bits }
        requires inputs { length inputs.now ≡ sim.old.shape.regular }
        ensures cycle { IsTableCycle sim.old.template sim.old.shape self.now.config inputs.now sim.old.states sim.new.outputs sim.new.states }
        ensures only { IsOnlyTableCycle sim.old.template sim.old.shape self.now.config inputs.now sim.old.states sim.new.outputs sim.new.states }
        ensures template { sim.new.template ≡ sim.old.template }
        ensures shape { sim.new.shape ≡ sim.old.shape }
    {
        self.device.cycle(sim, inputs);
    }

    // Changes the wanted bit at an address: the device is behind there now, or no longer. It is one look.
    fn turn<L: Ledger>(&mut self, write: Write, steps: &mut Steps<L>)
        requires { IsTurn self.old write }
        ensures behind { (from : List Bool) → IsBehind self.old from → write.address < length from → config_bit from write.address ≡ not write.bit → IsBehind self.new (slice_set from write.address write.bit) }
        ensures config { self.new.config ≡ self.old.config }
        ensures writes { self.new.writes ≡ self.old.writes }
        ensures looks { self.new.looks ≡ self.old.looks + 1 }
        ensures cost { steps.new ≡ steps.old + 1 }
    {
        let address = write.address;
        if self.device.is_behind(address, steps) {
            self.device.unmark(address);
            self.waiting -= 1;
        } else {
            self.device.mark(address);
            self.waiting += 1;
        }
    }

    /// Requests another configuration, given by the bits that differ from the one requested before. It looks once at each of their
    /// addresses.
    pub fn ask<L: Ledger>(&mut self, changed: &[Write], steps: &mut Steps<L>)
        requires { AreTurns self.old changed.now }
        ensures behind { (from to : List Bool) → IsBehind self.old from → changed.now ≡ differences from to → length from ≡ length to → IsBehind self.new to }
        ensures config { self.new.config ≡ self.old.config }
        ensures writes { self.new.writes ≡ self.old.writes }
        ensures looks { self.new.looks ≡ self.old.looks + length changed.now }
        ensures cost { steps.new ≡ steps.old + length changed.now }
    {
        for write in changed {
            self.turn(*write, steps);
        }
    }

    // Appends a write, for which there is room.
    fn note(&mut self, write: Write)
        requires { length self.old.writes < length self.old.config }
        ensures { self.new ≡ record self.old { writes = self.old.writes ++ write ∷ [] } }
    {
        let _ = self.writes.push(write);
    }

    // Sends the wanted bit to the least address at which the device is behind. It is one look.
    fn catch_up_once<L: Ledger>(&mut self, steps: &mut Steps<L>)
        requires late { IsLate self.old }
        requires some { 0 < self.old.waiting }
        requires room { length self.old.writes < length self.old.config }
        ensures caught { (wanted : List Bool) → IsBehind self.old wanted → IsCaughtUp wanted self.old self.new }
        ensures count { length self.new.writes ≡ length self.old.writes + 1 }
        ensures fewer { self.new.waiting < self.old.waiting }
        ensures looks { self.new.looks ≡ self.old.looks + 1 }
        ensures cost { steps.new ≡ steps.old + 1 }
    {
        if let Some(write) = self.device.send(steps) {
            self.waiting -= 1;
            self.note(write);
        }
    }

    /// Writes the first `rate` bits at which the device is behind, or all if there are fewer. It looks once at each of their
    /// addresses.
    pub fn catch_up<L: Ledger>(&mut self, rate: u32, steps: &mut Steps<L>)
        requires { IsLate self.old }
        ensures writes { (wanted : List Bool) → IsBehind self.old wanted → self.new.writes ≡ take rate (differences self.old.config wanted) }
        ensures config { (wanted : List Bool) → IsBehind self.old wanted → self.new.config ≡ written self.old.config (take rate (differences self.old.config wanted)) }
        ensures behind { (wanted : List Bool) → IsBehind self.old wanted → IsBehind self.new wanted }
        ensures looks { self.new.looks ≡ self.old.looks + length self.new.writes }
        ensures cost { steps.new ≡ steps.old + length self.new.writes }
    {
        self.writes.clear();
        while self.waiting > 0 && (self.writes.len() as u64) < rate as u64 {
            self.catch_up_once(steps);
        }
    }
}
