//! The configuration of a device, and the writes of the last event.
ghost use Rattle.std.specs.Prelude.{◌≡◌, ◌<◌, ◌≤◌, [], length, replicate, false, IfOk};
ghost use Rattle.dirty_idx.specs.Marks.{is_marked};
ghost use Rattle.spec_core.specs.Differences.{config_bit, differs_at};
ghost use Rattle.spec_core.specs.Sweep.{bits_under};
ghost use Rattle.spec_core.specs.Keeps.{with_write, IsSent};

use crate::evaluation::Evaluation;
use std::alloc::{AllocError, Global};
use std::marker::Model;
use tl_io::Write;

// The bits of a device, and the writes sent to it since the last call of `clear`, with room for one write of each bit.
#[derive(Drop)]
pub(crate) struct Device {
    config: Vec<bool>,
    writes: Vec<Write>,
}

impl Model for Device {
    ghost use Rattle.std.specs.Prelude.{◌≤◌, length, vec_capacity};
    ghost use Rattle.spec_core.specs.Keeps.{DeviceValue};

    ghost Value = { DeviceValue };

    ghost view = { λ d. record { config = d.config.items; writes = d.writes.items } };

    ghost invariant = { λ d. length d.config.items ≤ vec_capacity d.writes };
}

impl Device {
    // A device with these bits. `Err` only if memory runs out. No other call allocates memory.
    pub(crate) fn make(alloc: Global, config: Vec<bool>) -> Result<Device, AllocError>
        ensures { IfOk result (λ d. d ≡ record { config = config.items; writes = [] }) }
    {
        let writes = Vec::with_capacity(alloc, config.len())?;
        Ok(Device { config, writes })
    }

    pub(crate) fn config(&self) -> &[bool]
        ensures { result.now ≡ self.now.config }
    {
        &self.config
    }

    pub(crate) fn writes(&self) -> &[Write]
        ensures { result.now ≡ self.now.writes }
    {
        &self.writes
    }

    // Forgets the writes.
    pub(crate) fn clear(&mut self)
        ensures { self.new ≡ record self.old { writes = [] } }
    {
        self.writes.clear();
    }

    // Writes a bit.
    pub(crate) fn write(&mut self, address: u32, bit: bool)
        requires address { address < length self.old.config }
        requires room { length self.old.writes < length self.old.config }
        ensures { self.new ≡ with_write self.old address bit }
    {
        self.config[address as usize] = bit;
        let _ = self.writes.push(Write { address, bit });
    }

    // Writes the bits at the marked addresses, with their values under those of the nodes.
    pub(crate) fn write_marked(&mut self, evaluation: &mut Evaluation)
        requires cleared { self.old.writes ≡ [] }
        requires bits { length self.old.config ≡ length evaluation.old.pack.bits }
        requires marks { length evaluation.old.now.addresses ≡ length evaluation.old.pack.bits }
        ensures sent { IsSent (is_marked evaluation.old.now.addresses) (bits_under evaluation.old.pack evaluation.old.now.values) self.old self.new }
        ensures taken { evaluation.new ≡ record evaluation.old { now = record evaluation.old.now { addresses = replicate (length evaluation.old.pack.bits) false } } }
    {
        while let Some(address) = evaluation.take_address() {
            self.write(address, evaluation.bit(address));
        }
    }

    // Writes the bits that differ from their values under those of the nodes.
    pub(crate) fn write_differing(&mut self, evaluation: &Evaluation)
        requires cleared { self.old.writes ≡ [] }
        requires bits { length self.old.config ≡ length evaluation.now.pack.bits }
        ensures sent { IsSent (differs_at self.old.config (bits_under evaluation.now.pack evaluation.now.now.values)) (bits_under evaluation.now.pack evaluation.now.now.values) self.old self.new }
    {
        for address in 0..evaluation.bits() {
            let bit = evaluation.bit(address);
            if self.config[address as usize] != bit {
                self.write(address, bit);
            }
        }
    }
}
