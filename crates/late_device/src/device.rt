//! The device and its marks.
ghost use Rattle.std.specs.Prelude.{◌≡◌, ◌+◌, ◌<◌, ◌≤◌, true, false, not, length, replicate, IfOk, IfSome, MatchOption};
ghost use Rattle.list_laws.specs.Digits.{bit_in};
ghost use Rattle.dirty_idx.specs.Marks.{is_marked, IsLeast, IsEmpty};
ghost use Rattle.lut_sim.specs.Cycle.{IsTableCycle, IsOnlyTableCycle};
ghost use Rattle.late_device.specs.Late.{looked, with_mark, sent};

use aig_core::Steps;
use dirty_idx::{MOST_MARKS, Tally, Tiers};
use lut_sim::Sim;
use std::alloc::{AllocError, Global};
use std::marker::Model;
use std::sync::ledger::Ledger;
use tl_io::Write;

/// A configuration with marks at some of its addresses, and the number of looks at addresses, which takes no bytes at run time.
#[derive(Drop)]
pub struct LateDevice {
    config: Vec<bool>,
    marks: Tiers,
    looks: Tally,
}

impl Model for LateDevice {
    ghost use Rattle.late_device.specs.Late.{LateValue};
    ghost use Rattle.late_device.specs.Keeps.{Keeps};

    ghost Value = { LateValue };

    ghost view = { λ d. record { config = d.config.items; marks = d.marks; looks = d.looks.total } };

    ghost invariant = { λ d. Keeps d.config.items d.marks };
}

impl LateDevice {
    /// Creates a device with this configuration and no marks.
    ///
    /// Returns `Err` only if memory runs out. No other call allocates.
    pub fn make(alloc: Global, config: &[bool]) -> Result<LateDevice, AllocError>
        requires { length config.now ≤ MOST_MARKS }
        ensures { IfOk result (λ d. d ≡ record { config = config.now; marks = replicate (length config.now) false; looks = 0 }) }
    {
        let marks = Tiers::make(alloc, config.len() as u32)?;
        let config = Vec::from_slice(alloc, config)?;
        Ok(LateDevice {
            config,
            marks,
            looks: Tally::start(),
        })
    }

    /// The number of bits of the configuration.
    pub fn len(&self) -> u32
        ensures { result ≡ length self.now.config }
    {
        self.config.len() as u32
    }

    /// Whether an address is marked. It is one look.
    pub fn is_behind<L: Ledger>(&mut self, address: u32, steps: &mut Steps<L>) -> bool
        requires { address < length self.old.config }
        ensures marked { result ≡ is_marked self.old.marks address }
        ensures device { self.new ≡ looked self.old }
        ensures cost { steps.new ≡ steps.old + 1 }
    {
        steps.tick();
        self.looks.add();
        self.marks.has(address)
    }

    /// Marks an address.
    pub fn mark(&mut self, address: u32)
        requires { address < length self.old.config }
        ensures { self.new ≡ with_mark self.old address true }
    {
        self.marks.mark(address);
    }

    /// Removes the mark of an address.
    pub fn unmark(&mut self, address: u32)
        requires { is_marked self.old.marks address ≡ true }
        ensures { self.new ≡ with_mark self.old address false }
    {
        self.marks.unmark(address);
    }

    /// Inverts the bit at the least marked address, removes its mark, and returns the write. Returns `None` exactly if no address
    /// is marked. It is one look.
    pub fn send<L: Ledger>(&mut self, steps: &mut Steps<L>) -> Option<Write>
        ensures least { MatchOption result (IsEmpty self.old.marks) (λ write. IsLeast self.old.marks write.address) }
        ensures bit { IfSome result (λ write. write.bit ≡ not (bit_in self.old.config write.address)) }
        ensures device { self.new ≡ sent self.old result }
        ensures cost { steps.new ≡ steps.old + 1 }
    {
        steps.tick();
        self.looks.add();
        let address = self.marks.take_first()?;
        let bit = !self.config[address as usize];
        self.config[address as usize] = bit;
        Some(Write { address, bit })
    }

    /// Plays a clock cycle of a circuit under the whole configuration, as [`Sim::cycle`] does.
    pub fn cycle(&self, sim: &mut Sim, inputs: &[bool])
        requires config { length self.now.config ≡ sim.old.template.bits }
        requires inputs { length inputs.now ≡ sim.old.shape.regular }
        ensures cycle { IsTableCycle sim.old.template sim.old.shape self.now.config inputs.now sim.old.states sim.new.outputs sim.new.states }
        ensures only { IsOnlyTableCycle sim.old.template sim.old.shape self.now.config inputs.now sim.old.states sim.new.outputs sim.new.states }
        ensures template { sim.new.template ≡ sim.old.template }
        ensures shape { sim.new.shape ≡ sim.old.shape }
    {
        sim.cycle(&self.config, inputs);
    }
}
