//! The host: a pack whose parameters change.
ghost use Rattle.std.specs.Prelude.{◌≡◌, ◌+◌, ◌<◌, Bool, List, [], length, IfOk, OnOk, OnErr};
ghost use Rattle.tl_io.specs.Sink.{IsPut};
ghost use Rattle.tl_io.specs.Writes.{writes_from};
ghost use Rattle.port_bank.specs.Seen.{bank_seen};
ghost use Rattle.port_bank.specs.Send.{Plays};
ghost use Rattle.port_bank.specs.Image.{Holds, KeepsHolding};
ghost use Rattle.port_bank.specs.Moves.{IsLeft, KeepsPlaces, LosesPlace};
ghost use Rattle.ppc_pack.specs.Pack.{IsConf, HasOneConf, inits_of};
ghost use Rattle.run_text.specs.EventValue.{event_value};
ghost use Rattle.run_text.specs.Lines.{header_line, bits_header_line, cycle_line};
ghost use Rattle.spec_core.specs.Differences.{write_of};
ghost use Rattle.spec_core.specs.Specialiser.{SpecialiserValue};
ghost use Rattle.run_core.specs.Events.{FitsPack, IsOfHost, IsHostEvent, IsHostPlayed, IsWithinSteps, IsSteady, host_line};
ghost use Rattle.run_core.specs.Ends.{HasSent, HasLost, IsSent, LeavesPorts, PutsLine, HasPlaces, StillHolds};

use crate::step_err::StepErr;
use aig_core::Steps;
use port_bank::{PortBank, PortFault};
use ppc_pack::Pack;
use run_text::{
    Event, LineBuf, put_bits_header, put_cycle, put_header, put_image, put_scrub, put_set,
    put_upset,
};
use spec_core::Specialiser;
use std::alloc::{AllocError, Global};
use std::marker::Model;
use std::sync::ledger::Ledger;
use tl_io::{ConfigPort, Failed, Sink, Write};

/// A pack whose parameters change, with a buffer for lines.
#[derive(Drop)]
pub struct Host {
    specialiser: Specialiser,
    buf: LineBuf,
}

impl Model for Host {
    ghost use Rattle.spec_core.specs.Specialiser.{SpecialiserValue};
    ghost use Rattle.run_core.specs.Keeps.{KeepsHost};

    ghost Value = { SpecialiserValue };

    ghost view = { λ h. h.specialiser };

    ghost invariant = { λ h. KeepsHost h.specialiser };
}

// The write of the configuration bit at an address.
fn write_at(config: &[bool], address: u32) -> Write
    requires { address < length config.now }
    ensures { result ≡ write_of config.now address }
{
    Write {
        address,
        bit: config[address as usize],
    }
}

impl Host {
    /// The pack at its initial values, with their configuration. Allocates all the memory that events need. `Err` only if it
    /// runs out.
    pub fn make(alloc: Global, pack: Pack) -> Result<Host, AllocError>
        ensures pack { IfOk result (λ host. host.pack ≡ pack) }
        ensures params { IfOk result (λ host. host.state.params ≡ inits_of pack.params) }
        ensures config { IfOk result (λ host. IsConf pack (inits_of pack.params) host.state.config) }
        ensures writes { IfOk result (λ host. host.writes ≡ []) }

        // For any values of the parameters exactly one configuration exists.
        ensures one { (given : List Bool) → length given ≡ length pack.params → HasOneConf pack given }
    {
        let specialiser = Specialiser::make(alloc, pack)?;
        let buf = LineBuf::make(alloc)?;
        Ok(Host { specialiser, buf })
    }

    // Plays an event. A cycle changes nothing here.
    pub(crate) fn play<L: Ledger>(&mut self, event: &Event, steps: &mut Steps<L>)
        requires fits { FitsPack self.old.pack (event_value event.now) }
        ensures played { IsHostPlayed (event_value event.now) self.old self.new }
        ensures steps { IsWithinSteps (event_value event.now) self.old self.new steps.old steps.new }
        ensures counted { self.new.reads + steps.old ≡ self.old.reads + steps.new }
        ensures steady { IsSteady (event_value event.now) self.old self.new }
    {
        match event {
            Event::Set(assigns) => self.specialiser.change(assigns, steps),
            Event::Upset(address) => self.specialiser.upset(*address),
            Event::Scrub => self.specialiser.scrub(),
            Event::Cycle(_) => {}
            Event::Image => {}
        }
    }

    // Sends the writes of an event that was played.
    pub(crate) fn send<P: ConfigPort>(
        &self,
        event: &Event,
        bank: &mut PortBank<P>,
    ) -> Result<(), PortFault>
        ensures sent { OnOk result (HasSent (event_value event.now) self.now (bank_seen P.port_seen bank.old) (bank_seen P.port_seen bank.new)) }
        ensures lost { OnErr result (HasLost (event_value event.now) self.now (bank_seen P.port_seen bank.old) (bank_seen P.port_seen bank.new)) }
        ensures holds { OnOk result ((before : SpecialiserValue) → IsHostEvent (event_value event.now) before self.now
            → Holds before.state.config (bank_seen P.port_seen bank.old) → Holds self.now.state.config (bank_seen P.port_seen bank.new)) }
        ensures left { IsLeft (bank_seen P.port_seen bank.old) (bank_seen P.port_seen bank.new) result }
        ensures places { OnOk result (KeepsPlaces (bank_seen P.port_seen bank.old) (bank_seen P.port_seen bank.new)) }
        ensures lost_place { OnErr result (LosesPlace (bank_seen P.port_seen bank.old) (bank_seen P.port_seen bank.new)) }
    {
        match event {
            Event::Set(_) | Event::Upset(_) | Event::Scrub => self.send_writes(bank),
            Event::Cycle(_) | Event::Image => Ok(()),
        }
    }

    // Sends the writes of the last event that had some.
    fn send_writes<P: ConfigPort>(&self, bank: &mut PortBank<P>) -> Result<(), PortFault>
        ensures plays { Plays self.now.state.config self.now.writes (bank_seen P.port_seen bank.old) (bank_seen P.port_seen bank.new) result }
        ensures holds { OnOk result (KeepsHolding self.now.state.config self.now.writes (bank_seen P.port_seen bank.old) (bank_seen P.port_seen bank.new)) }
        ensures left { IsLeft (bank_seen P.port_seen bank.old) (bank_seen P.port_seen bank.new) result }
        ensures places { OnOk result (KeepsPlaces (bank_seen P.port_seen bank.old) (bank_seen P.port_seen bank.new)) }
        ensures lost_place { OnErr result (LosesPlace (bank_seen P.port_seen bank.old) (bank_seen P.port_seen bank.new)) }
    {
        bank.send(self.specialiser.writes(), self.specialiser.image())
    }

    // Writes the line of an event that was played. A cycle has none here.
    pub(crate) fn put<O: Sink>(&mut self, event: &Event, out: &mut O) -> Result<(), Failed>
        requires { FitsPack self.old.pack (event_value event.now) }
        ensures same { self.new ≡ self.old }
        ensures put { IsPut (O.seen out.old) (host_line (event_value event.now) self.old) (O.seen out.new) result }
    {
        let buf = &mut self.buf;
        match event {
            Event::Set(_) => put_set(self.specialiser.writes(), buf, out),
            Event::Upset(address) => {
                let write = write_at(self.specialiser.image(), *address);
                put_upset(write, buf, out)
            }
            Event::Scrub => put_scrub(self.specialiser.writes(), buf, out),
            Event::Image => put_image(self.specialiser.image(), buf, out),
            Event::Cycle(_) => Ok(()),
        }
    }

    /// Writes the line `bits BITS`: the number of configuration bits of the pack. Allocates no memory.
    ///
    /// # Errors
    /// `Failed` only if the count of faults of `out` rose. A prefix of the line is then written.
    pub fn put_bits_header<O: Sink>(&mut self, out: &mut O) -> Result<(), Failed>
        ensures same { self.new ≡ self.old }
        ensures put { IsPut (O.seen out.old) (bits_header_line (length self.old.pack.bits)) (O.seen out.new) result }
    {
        let bits = self.specialiser.image().len() as u32;
        put_bits_header(bits, &mut self.buf, out)
    }

    // Writes the header line of a machine with this host.
    pub(crate) fn put_header<O: Sink>(
        &mut self,
        luts: u32,
        depth: u32,
        out: &mut O,
    ) -> Result<(), Failed>
        ensures same { self.new ≡ self.old }
        ensures put { IsPut (O.seen out.old) (header_line luts (length self.old.pack.bits) depth) (O.seen out.new) result }
    {
        let bits = self.specialiser.image().len() as u32;
        put_header(luts, bits, depth, &mut self.buf, out)
    }

    // Writes the line of a cycle with these outputs and states.
    pub(crate) fn put_cycle<O: Sink>(
        &mut self,
        outputs: &[bool],
        states: &[bool],
        out: &mut O,
    ) -> Result<(), Failed>
        ensures same { self.new ≡ self.old }
        ensures put { IsPut (O.seen out.old) (cycle_line outputs.now states.now) (O.seen out.new) result }
    {
        put_cycle(outputs, states, &mut self.buf, out)
    }

    // Writes the whole configuration to a bank.
    pub(crate) fn load<P: ConfigPort>(&self, bank: &mut PortBank<P>) -> Result<(), PortFault>
        ensures plays { Plays self.now.state.config (writes_from 0 self.now.state.config) (bank_seen P.port_seen bank.old) (bank_seen P.port_seen bank.new) result }
        ensures holds { OnOk result (Holds self.now.state.config (bank_seen P.port_seen bank.new)) }
        ensures left { IsLeft (bank_seen P.port_seen bank.old) (bank_seen P.port_seen bank.new) result }
        ensures places { OnOk result (KeepsPlaces (bank_seen P.port_seen bank.old) (bank_seen P.port_seen bank.new)) }
        ensures lost_place { OnErr result (LosesPlace (bank_seen P.port_seen bank.old) (bank_seen P.port_seen bank.new)) }
    {
        bank.load(self.specialiser.image())
    }

    // The configuration, in the order of the addresses.
    pub(crate) fn image(&self) -> &[bool]
        ensures value { result.now ≡ self.now.state.config }
        ensures len { length self.now.state.config ≡ length self.now.pack.bits }
    {
        self.specialiser.image()
    }

    // The writes of the last event that had some.
    pub(crate) fn writes(&self) -> &[Write]
        ensures { result.now ≡ self.now.writes }
    {
        self.specialiser.writes()
    }

    /// Plays an event, sends its writes, and writes its line. The state is the one after the event, whatever the call
    /// returns.
    ///
    /// # Errors
    /// [`StepErr::PortFault`] if a region lost its port while no spare was left. No byte of the line was then written.
    /// [`StepErr::WriteFault`] only if the sink's count of faults rose. The whole send was then made, and a prefix of the
    /// line written.
    pub fn step<O: Sink, P: ConfigPort, L: Ledger>(
        &mut self,
        event: &Event,
        out: &mut O,
        bank: &mut PortBank<P>,
        steps: &mut Steps<L>,
    ) -> Result<(), StepErr>
        requires fits { FitsPack self.old.pack (event_value event.now) }
        requires host { IsOfHost (event_value event.now) }
        ensures played { IsHostPlayed (event_value event.now) self.old self.new }
        ensures steps { IsWithinSteps (event_value event.now) self.old self.new steps.old steps.new }
        ensures counted { self.new.reads + steps.old ≡ self.old.reads + steps.new }
        ensures sent { IsSent (event_value event.now) self.new (bank_seen P.port_seen bank.old) (bank_seen P.port_seen bank.new) result }
        ensures put { PutsLine (host_line (event_value event.now) self.new) (O.seen out.old) (O.seen out.new) result }

        // Spares replaced the ports that failed, so each region still has its port; or one region has none.
        ensures left { LeavesPorts (bank_seen P.port_seen bank.old) (bank_seen P.port_seen bank.new) result }
        ensures places { HasPlaces (bank_seen P.port_seen bank.old) (bank_seen P.port_seen bank.new) result }
        ensures holds { StillHolds self.old self.new (bank_seen P.port_seen bank.old) (bank_seen P.port_seen bank.new) result }

        // If no bit was upset, a change leaves none upset. A scrub always leaves none upset.
        ensures steady { IsSteady (event_value event.now) self.old self.new }
    {
        self.play(event, steps);
        self.send(event, bank)?;
        self.put(event, out)?;
        Ok(())
    }
}
