//! The specialiser: a pack, the values of its nodes, and the configuration of the device.
ghost use Rattle.std.specs.Prelude.{◌≡◌, ◌+◌, ◌<◌, ◌≤◌, Bool, List, [], length, IfOk};
ghost use Rattle.tl_io.specs.Assigns.{AreAssigned};
ghost use Rattle.tl_io.specs.Writes.{AreAscending, AreBitsOf};
ghost use Rattle.ppc_pack.specs.Pack.{IsConf, HasOneConf, inits_of};
ghost use Rattle.spec_core.specs.Events.{IsSet, IsUpset, IsScrub};
ghost use Rattle.spec_core.specs.Sweep.{bits_under};
ghost use Rattle.spec_core.specs.Touched.{IsWithinTouched};

use crate::device::Device;
use crate::evaluation::Evaluation;
use aig_core::Steps;
use ppc_pack::{MOST_PACK_BITS, Pack};
use std::alloc::{AllocError, Global};
use std::marker::Model;
use std::sync::ledger::Ledger;
use tl_io::{Assign, Write};

/// A pack for given values of its parameters, with the configuration of the device and the writes of the last event.
#[derive(Drop)]
pub struct Specialiser {
    evaluation: Evaluation,
    device: Device,
}

impl Model for Specialiser {
    ghost use Rattle.spec_core.specs.Specialiser.{SpecialiserValue};
    ghost use Rattle.spec_core.specs.Keeps.{Keeps, params_in};

    ghost Value = { SpecialiserValue };

    ghost view = { λ s. record { pack = s.evaluation.pack; state = record { params = params_in s.evaluation.pack s.evaluation.now.values; config = s.device.config }; writes = s.device.writes; reads = s.evaluation.reads } };

    ghost invariant = { λ s. Keeps s.evaluation s.device };
}

// A device that has the configuration of an evaluation, and no writes.
fn device_of(alloc: Global, evaluation: &Evaluation) -> Result<Device, AllocError>
    ensures { IfOk result (λ d. d ≡ record { config = bits_under evaluation.now.pack evaluation.now.now.values; writes = [] }) }
{
    let config = evaluation.config(alloc)?;
    Device::make(alloc, config)
}

impl Specialiser {
    /// The pack at its initial values, with their configuration on the device, and no writes.
    ///
    /// Evaluates the pack once, and allocates all the memory that events need. `Err` only if it runs out.
    pub fn make(alloc: Global, pack: Pack) -> Result<Specialiser, AllocError>
        ensures pack { IfOk result (λ s. s.pack ≡ pack) }
        ensures params { IfOk result (λ s. s.state.params ≡ inits_of pack.params) }
        ensures config { IfOk result (λ s. IsConf pack (inits_of pack.params) s.state.config) }
        ensures writes { IfOk result (λ s. s.writes ≡ []) }
        ensures unread { IfOk result (λ s. s.reads ≡ 0) }

        // For any values of the parameters exactly one configuration exists.
        ensures one { (given : List Bool) → length given ≡ length pack.params → HasOneConf pack given }
    {
        let evaluation = Evaluation::make(alloc, pack)?;
        let device = device_of(alloc, &evaluation)?;
        Ok(Specialiser { evaluation, device })
    }

    /// Gives new values to parameters, each at most once.
    ///
    /// The writes are the bits in which the configurations specialised from scratch before and after differ, ascending. Only
    /// nodes with a changed fan-in are read, each once.
    pub fn change<L: Ledger>(&mut self, assigns: &[Assign], steps: &mut Steps<L>)
        requires assigns { AreAssigned (length self.old.state.params) assigns.now }
        ensures pack { self.new.pack ≡ self.old.pack }
        ensures set { IsSet self.old.pack assigns.now self.old.state self.new.writes self.new.state }
        ensures cost { IsWithinTouched self.old.pack.graph self.old.state.params self.new.state.params steps.old steps.new }

        // All reads of pairs are steps of this counter.
        ensures counted { self.new.reads + steps.old ≡ self.old.reads + steps.new }

        // If no bit was upset before, none is upset after.
        ensures steady { IsConf self.old.pack self.old.state.params self.old.state.config → IsConf self.old.pack self.new.state.params self.new.state.config }
    {
        self.device.clear();
        self.evaluation.change(assigns, steps);
        self.device.write_marked(&mut self.evaluation);
    }

    /// Flips the configuration bit at an address, as a fault does.
    pub fn upset(&mut self, address: u32)
        requires { address < length self.old.state.config }
        ensures pack { self.new.pack ≡ self.old.pack }
        ensures unread { self.new.reads ≡ self.old.reads }
        ensures upset { IsUpset address self.old.state self.new.writes self.new.state }
    {
        let bit = self.device.config()[address as usize];
        self.device.clear();
        self.device.write(address, !bit);
    }

    /// Sets every upset bit right. Time is linear in the number of all bits.
    pub fn scrub(&mut self)
        ensures pack { self.new.pack ≡ self.old.pack }
        ensures unread { self.new.reads ≡ self.old.reads }
        ensures scrub { IsScrub self.old.pack self.old.state self.new.writes self.new.state }

        // No bit is upset.
        ensures right { IsConf self.old.pack self.new.state.params self.new.state.config }
    {
        self.device.clear();
        self.device.write_differing(&self.evaluation);
    }

    /// The writes of the last change, upset or scrub, ascending; none before the first.
    pub fn writes(&self) -> &[Write]
        ensures value { result.now ≡ self.now.writes }
        ensures ascending { AreAscending self.now.writes }
        ensures bits { AreBitsOf self.now.state.config self.now.writes }
    {
        self.device.writes()
    }

    /// The configuration of the device, in the order of the addresses.
    pub fn image(&self) -> &[bool]
        ensures value { result.now ≡ self.now.state.config }
        ensures len { length self.now.state.config ≡ length self.now.pack.bits }
        ensures few { length self.now.pack.bits ≤ MOST_PACK_BITS }
    {
        self.device.config()
    }

    /// The values of the parameters, in their order.
    pub fn values(&self) -> &[bool]
        ensures value { result.now ≡ self.now.state.params }
        ensures len { length self.now.state.params ≡ length self.now.pack.params }
    {
        self.evaluation.params()
    }
}
