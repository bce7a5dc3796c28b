//! The machine: a host, and the circuit that the clock plays under its configuration.
ghost use Rattle.std.specs.Prelude.{◌≡◌, ◌+◌, ◌≤◌, Bool, List, [], false, length, replicate, IfOk, OnOk, OnErr, Ok, Err};
ghost use Rattle.tl_io.specs.Sink.{IsPut};
ghost use Rattle.port_bank.specs.Seen.{bank_seen};
ghost use Rattle.port_bank.specs.Image.{Holds};
ghost use Rattle.ppc_pack.specs.Pack.{IsConf, HasOneConf, inits_of};
ghost use Rattle.lut_sim.specs.Playable.{IsPlayable};
ghost use Rattle.run_text.specs.EventValue.{event_value};
ghost use Rattle.run_text.specs.Lines.{header_line};
ghost use Rattle.run_core.specs.Events.{FitsPack, FitsShape, IsPlayed, IsClockEvent, HasOneCycle, IsWithinSteps, IsSteady, event_line};
ghost use Rattle.run_core.specs.Ends.{IsLoaded, IsSent, LeavesPorts, PutsLine, HasPlaces, StillHolds};

use crate::host::Host;
use crate::step_err::StepErr;
use aig_core::Steps;
use cover_pick::Template;
use lut_sim::{Shape, Sim};
use port_bank::PortBank;
use ppc_pack::Pack;
use run_text::Event;
use std::alloc::{AllocError, Global};
use std::marker::Model;
use std::sync::ledger::Ledger;
use tl_io::{ConfigPort, Failed, Sink, Write};

/// A mapped circuit whose host changes parameters while its clock ticks.
#[derive(Drop)]
pub struct Machine {
    host: Host,
    sim: Sim,
    // The numbers of the header: the number of LUTs, and their depth.
    luts: u32,
    depth: u32,
}

impl Model for Machine {
    ghost use Rattle.run_core.specs.Events.{MachineValue};
    ghost use Rattle.run_core.specs.Keeps.{Keeps};

    ghost Value = { MachineValue };

    ghost view = { λ m. record { host = m.host; sim = m.sim } };

    ghost invariant = { λ m. Keeps m.host m.sim m.luts m.depth };
}

impl Machine {
    /// A circuit of LUTs whose latches are at `inits`, and the pack of its bits at the initial values, with their
    /// configuration. Allocates all the memory that events need. `Err` only if it runs out.
    pub fn make(
        alloc: Global,
        template: Template,
        pack: Pack,
        shape: Shape,
        inits: &[bool],
    ) -> Result<Machine, AllocError>
        requires playable { IsPlayable template shape }
        requires inits { length inits.now ≡ shape.latches }
        requires bits { length pack.bits ≡ template.bits }
        requires params { length pack.params ≡ shape.params }
        ensures pack { IfOk result (λ machine. machine.host.pack ≡ pack) }
        ensures params { IfOk result (λ machine. machine.host.state.params ≡ inits_of pack.params) }
        ensures config { IfOk result (λ machine. IsConf pack (inits_of pack.params) machine.host.state.config) }
        ensures writes { IfOk result (λ machine. machine.host.writes ≡ []) }
        ensures sim { IfOk result (λ machine. machine.sim
            ≡ record { template = template; shape = shape; outputs = replicate (length template.outputs) false; states = inits.now }) }

        // For any values of the parameters exactly one configuration exists.
        ensures one { (given : List Bool) → length given ≡ length pack.params → HasOneConf pack given }
    {
        let luts = shape.table_count(&template);
        let depth = template.depth;
        let host = Host::make(alloc, pack)?;
        let sim = Sim::make(alloc, template, shape, inits)?;
        Ok(Machine {
            host,
            sim,
            luts,
            depth,
        })
    }

    /// Writes the header line: the number of LUTs, the number of their bits, and their depth.
    ///
    /// # Errors
    /// [`StepErr::WriteFault`] only if the sink's count of faults rose. A prefix of the line is then written.
    pub fn header<O: Sink>(&mut self, out: &mut O) -> Result<(), StepErr>
        ensures same { self.new ≡ self.old }
        ensures put { IsPut (O.seen out.old)
            (header_line (length self.old.sim.template.luts) self.old.sim.template.bits self.old.sim.template.depth) (O.seen out.new) result }
        ensures err { OnErr result (result ≡ Err StepErr.WriteFault) }
    {
        self.host.put_header(self.luts, self.depth, out)?;
        Ok(())
    }

    /// Writes the whole configuration to the bank's ports.
    ///
    /// # Errors
    /// [`StepErr::PortFault`] if a region lost its port while no spare was left.
    pub fn load<P: ConfigPort>(&mut self, bank: &mut PortBank<P>) -> Result<(), StepErr>
        ensures same { self.new ≡ self.old }
        ensures loaded { IsLoaded self.old.host.state.config (bank_seen P.port_seen bank.old) (bank_seen P.port_seen bank.new) result }
        ensures holds { OnOk result (Holds self.old.host.state.config (bank_seen P.port_seen bank.new)) }
        ensures left { LeavesPorts (bank_seen P.port_seen bank.old) (bank_seen P.port_seen bank.new) result }
        ensures places { HasPlaces (bank_seen P.port_seen bank.old) (bank_seen P.port_seen bank.new) result }
    {
        self.host.load(bank)?;
        Ok(())
    }

    /// Plays an event, sends its writes, and writes its line. The state is the one after the event, whatever the call
    /// returns.
    ///
    /// # Errors
    /// [`StepErr::PortFault`] if a region lost its port while no spare was left. No byte of the line was then written.
    /// [`StepErr::WriteFault`] only if the sink's count of faults rose. The whole send was then made, and a prefix of the
    /// line written.
    pub fn step<O: Sink, P: ConfigPort, L: Ledger>(
        &mut self,
        event: &Event,
        out: &mut O,
        bank: &mut PortBank<P>,
        steps: &mut Steps<L>,
    ) -> Result<(), StepErr>
        requires pack { FitsPack self.old.host.pack (event_value event.now) }
        requires shape { FitsShape self.old.sim.shape (event_value event.now) }
        ensures played { IsPlayed (event_value event.now) self.old self.new }
        ensures steps { IsWithinSteps (event_value event.now) self.old.host self.new.host steps.old steps.new }
        ensures counted { self.new.host.reads + steps.old ≡ self.old.host.reads + steps.new }
        ensures sent { IsSent (event_value event.now) self.new.host (bank_seen P.port_seen bank.old) (bank_seen P.port_seen bank.new) result }
        ensures put { PutsLine (event_line (event_value event.now) self.new) (O.seen out.old) (O.seen out.new) result }

        // Spares replaced the ports that failed, so each region still has its port; or one region has none.
        ensures left { LeavesPorts (bank_seen P.port_seen bank.old) (bank_seen P.port_seen bank.new) result }
        ensures places { HasPlaces (bank_seen P.port_seen bank.old) (bank_seen P.port_seen bank.new) result }
        ensures holds { StillHolds self.old.host self.new.host (bank_seen P.port_seen bank.old) (bank_seen P.port_seen bank.new) result }

        // If no bit was upset, a change leaves none upset. A scrub always leaves none upset.
        ensures steady { IsSteady (event_value event.now) self.old.host self.new.host }
    {
        self.play(event, steps);
        self.host.send(event, bank)?;
        self.put(event, out)?;
        Ok(())
    }

    /// Plays an event. Doesn't send its writes or write its line. It can't fail.
    pub fn play<L: Ledger>(&mut self, event: &Event, steps: &mut Steps<L>)
        requires pack { FitsPack self.old.host.pack (event_value event.now) }
        requires shape { FitsShape self.old.sim.shape (event_value event.now) }
        ensures played { IsPlayed (event_value event.now) self.old self.new }
        ensures steps { IsWithinSteps (event_value event.now) self.old.host self.new.host steps.old steps.new }
        ensures counted { self.new.host.reads + steps.old ≡ self.old.host.reads + steps.new }
        ensures steady { IsSteady (event_value event.now) self.old.host self.new.host }
    {
        self.host.play(event, steps);
        self.tick(event);
    }

    /// The writes of the last change, upset or scrub, ascending; none before the first.
    pub fn writes(&self) -> &[Write]
        ensures { result.now ≡ self.now.host.writes }
    {
        self.host.writes()
    }

    /// The outputs of the last cycle, in order; all false before the first.
    pub fn outputs(&self) -> &[bool]
        ensures { result.now ≡ self.now.sim.outputs }
    {
        self.sim.outputs()
    }

    // Ticks the clock if the event is a cycle, under the host's configuration.
    fn tick(&mut self, event: &Event)
        requires { FitsShape self.old.sim.shape (event_value event.now) }
        ensures host { self.new.host ≡ self.old.host }
        ensures template { self.new.sim.template ≡ self.old.sim.template }
        ensures shape { self.new.sim.shape ≡ self.old.sim.shape }
        ensures clock { IsClockEvent (event_value event.now) self.old.host.state.config self.old.sim self.new.sim }
        ensures one { HasOneCycle (event_value event.now) self.old.host.state.config self.old.sim self.new.sim }
    {
        match event {
            Event::Cycle(inputs) => self.sim.cycle(self.host.image(), inputs),
            Event::Set(_) | Event::Upset(_) | Event::Scrub | Event::Image => {}
        }
    }

    // Writes the line of an event that was played.
    fn put<O: Sink>(&mut self, event: &Event, out: &mut O) -> Result<(), Failed>
        requires { FitsPack self.old.host.pack (event_value event.now) }
        ensures same { self.new ≡ self.old }
        ensures put { IsPut (O.seen out.old) (event_line (event_value event.now) self.old) (O.seen out.new) result }
    {
        match event {
            Event::Cycle(_) => {
                let sim = &self.sim;
                self.host.put_cycle(sim.outputs(), sim.states(), out)
            }
            Event::Set(_) | Event::Upset(_) | Event::Scrub | Event::Image => {
                self.host.put(event, out)
            }
        }
    }
}
