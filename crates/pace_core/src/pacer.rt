//! The machine at a limited rate.
ghost use Rattle.std.specs.Prelude.{◌≡◌, ◌+◌, ◌≤◌, ◌<◌, ℕ, Bool, List, [], false, length, replicate, IfOk};
ghost use Rattle.tl_io.specs.Assigns.{AreAssigned};
ghost use Rattle.tl_io.specs.Sink.{IsPut};
ghost use Rattle.ppc_pack.specs.Pack.{IsConf, HasOneConf, inits_of};
ghost use Rattle.lut_sim.specs.Playable.{IsPlayable};
ghost use Rattle.run_text.specs.Lines.{header_line};
ghost use Rattle.spec_core.specs.Differences.{differences};
ghost use Rattle.spec_core.specs.Events.{IsSet};
ghost use Rattle.pace_core.specs.EventValue.{pace_value};
ghost use Rattle.pace_core.specs.Pace.{Shown, asked, shown_line, IsAsked, IsTicked, IsPaced, FitsPacer};
ghost use Rattle.pace_core.specs.Stalls.{HasStalls};
ghost use Rattle.pace_core.specs.Cost.{IsWithinAsk, IsWithinTick, IsWithinChange};

use crate::backlog::Backlog;
use crate::event::PaceEvent;
use aig_core::Steps;
use cover_pick::Template;
use lut_sim::{Shape, Sim};
use ppc_pack::Pack;
use run_text::{LineBuf, put_ask, put_cycle, put_header, put_wait};
use spec_core::{Changer, Specialiser};
use std::alloc::{AllocError, Global};
use std::marker::Model;
use std::sync::ledger::Ledger;
use tl_io::{Assign, Failed, Sink};

/// A mapped circuit with a script's requested parameter values, whose configuration port takes `rate` bits per tick.
#[derive(Drop)]
pub struct Pacer {
    // The values that were requested last, with their configuration.
    specialiser: Changer,
    backlog: Backlog,
    sim: Sim,
    buf: LineBuf,
    rate: u32,
    // The numbers of the header: LUTs and depth.
    luts: u32,
    depth: u32,
}

impl Model for Pacer {
    ghost use Rattle.std.specs.Prelude.{◌+◌};
    ghost use Rattle.pace_core.specs.Pace.{PacerValue};
    ghost use Rattle.pace_core.specs.Keeps.{Keeps};

    ghost Value = { PacerValue };

    ghost view = { λ p. record { pack = p.specialiser.pack; params = p.specialiser.state.params; config = p.backlog.config; sim = p.sim; rate = p.rate; looks = p.specialiser.reads + p.backlog.looks } };

    ghost invariant = { λ p. Keeps p.specialiser p.backlog p.sim p.rate p.luts p.depth };
}

// The pack at the listed values, and a device that has their configuration.
fn at_inits(alloc: Global, pack: Pack) -> Result<(Changer, Backlog), AllocError>
    ensures pack { IfOk result (λ made. made.0.pack ≡ pack) }
    ensures params { IfOk result (λ made. made.0.state.params ≡ inits_of pack.params) }
    ensures config { IfOk result (λ made. IsConf pack (inits_of pack.params) made.0.state.config) }
    ensures unread { IfOk result (λ made. made.0.reads ≡ 0) }
    ensures device { IfOk result (λ made. made.1 ≡ record { config = made.0.state.config; marks = replicate (length made.0.state.config) false; waiting = 0; writes = []; looks = 0 }) }
    ensures one { (given : List Bool) → length given ≡ length pack.params → HasOneConf pack given }
{
    let specialiser = Specialiser::make(alloc, pack)?;
    let backlog = Backlog::make(alloc, specialiser.image())?;
    Ok((Changer::over(specialiser), backlog))
}

// The player of the circuit with its latches at `inits`, and the buffer of its lines.
fn player(
    alloc: Global,
    template: Template,
    shape: Shape,
    inits: &[bool],
) -> Result<(Sim, LineBuf), AllocError>
    requires playable { IsPlayable template shape }
    requires inits { length inits.now ≡ shape.latches }
    ensures { IfOk result (λ made. made.0 ≡ record { template = template; shape = shape; outputs = replicate (length template.outputs) false; states = inits.now }) }
{
    let sim = Sim::make(alloc, template, shape, inits)?;
    let buf = LineBuf::make(alloc)?;
    Ok((sim, buf))
}

impl Pacer {
    /// Creates a circuit with its latches at `inits`, the pack at the listed values, and their configuration on the device. The
    /// port takes `rate` bits per tick, at least one.
    ///
    /// It allocates all the memory that events need, and returns `Err` only if memory runs out.
    pub fn make(
        alloc: Global,
        template: Template,
        pack: Pack,
        shape: Shape,
        inits: &[bool],
        rate: u32,
    ) -> Result<Pacer, AllocError>
        requires playable { IsPlayable template shape }
        requires inits { length inits.now ≡ shape.latches }
        requires bits { length pack.bits ≡ template.bits }
        requires params { length pack.params ≡ shape.params }
        requires rate { 1 ≤ rate }
        ensures pack { IfOk result (λ pacer. pacer.pack ≡ pack) }
        ensures params { IfOk result (λ pacer. pacer.params ≡ inits_of pack.params) }
        ensures config { IfOk result (λ pacer. IsConf pack (inits_of pack.params) pacer.config) }
        ensures sim { IfOk result (λ pacer. pacer.sim ≡ record { template = template; shape = shape; outputs = replicate (length template.outputs) false; states = inits.now }) }
        ensures rate { IfOk result (λ pacer. pacer.rate ≡ rate) }
        ensures looks { IfOk result (λ pacer. pacer.looks ≡ 0) }

        // Under any values of the parameters there is one configuration, and no other.
        ensures one { (given : List Bool) → length given ≡ length pack.params → HasOneConf pack given }
    {
        let luts = shape.table_count(&template);
        let depth = template.depth;
        let (specialiser, backlog) = at_inits(alloc, pack)?;
        let (sim, buf) = player(alloc, template, shape, inits)?;
        Ok(Pacer {
            specialiser,
            backlog,
            sim,
            buf,
            rate,
            luts,
            depth,
        })
    }

    /// Puts the header line: the number of LUTs, the number of configuration bits, and the depth.
    ///
    /// # Errors
    /// `Failed` only if the sink's count of faults rose. Then the sink has a prefix of the line.
    pub fn header<O: Sink>(&mut self, out: &mut O) -> Result<(), Failed>
        ensures same { self.new ≡ self.old }
        ensures put { IsPut (O.seen out.old) (header_line (length self.old.sim.template.luts) self.old.sim.template.bits self.old.sim.template.depth) (O.seen out.new) result }
    {
        let bits = self.backlog.bits();
        put_header(self.luts, bits, self.depth, &mut self.buf, out)
    }

    // Requests values of parameters.
    fn ask<L: Ledger>(&mut self, assigns: &[Assign], steps: &mut Steps<L>)
        requires { AreAssigned (length self.old.pack.params) assigns.now }
        ensures asked { (count : ℕ) → ((wanted : List Bool) → IsConf self.new.pack self.new.params wanted → count ≡ length (differences self.new.config wanted)) → IsAsked assigns.now self.old self.new (asked count) }
        ensures cost { IsWithinAsk self.old self.new steps.old steps.new }
        ensures counted { self.new.looks + steps.old ≡ self.old.looks + steps.new }
    {
        self.specialiser.change(assigns, steps);
        self.backlog.ask(self.specialiser.writes(), steps);
    }

    // Lets the clock tick: a cycle if the device isn't behind, and otherwise a wait.
    fn tick<O: Sink, L: Ledger>(
        &mut self,
        values: &[bool],
        out: &mut O,
        steps: &mut Steps<L>,
    ) -> Result<(), Failed>
        requires { length values.now ≡ self.old.sim.shape.regular }
        ensures ticked { (shown : Shown) × IsTicked values.now self.old self.new shown × IsPut (O.seen out.old) (shown_line shown) (O.seen out.new) result }
        ensures cost { IsWithinTick self.old steps.old steps.new }
        ensures counted { self.new.looks + steps.old ≡ self.old.looks + steps.new }
    {
        if self.backlog.waiting() == 0 {
            self.backlog.cycle(&mut self.sim, values);
            put_cycle(self.sim.outputs(), self.sim.states(), &mut self.buf, out)
        } else {
            self.backlog.catch_up(self.rate, steps);
            put_wait(self.backlog.writes(), &mut self.buf, out)
        }
    }

    /// Plays an event and puts its line. The state is the one after the event, also at `Err`. It doesn't allocate.
    ///
    /// An ask reads at most the nodes of the pack with a fan-in whose value changes, and looks at most once at each address whose
    /// wanted bit changes. A tick looks at most once at each address that it writes. Each reading of a node's pair and each look
    /// at an address is a step of `steps`.
    ///
    /// # Errors
    /// `Failed` only if the sink's count of faults rose. Then the sink has a prefix of the line.
    pub fn step<O: Sink, L: Ledger>(
        &mut self,
        event: &PaceEvent,
        out: &mut O,
        steps: &mut Steps<L>,
    ) -> Result<(), Failed>
        requires { FitsPacer self.old (pace_value event.now) }
        ensures paced { (shown : Shown) × IsPaced (pace_value event.now) self.old self.new shown × IsPut (O.seen out.old) (shown_line shown) (O.seen out.new) result }
        ensures cost { IsWithinChange (pace_value event.now) self.old self.new steps.old steps.new }
        ensures counted { self.new.looks + steps.old ≡ self.old.looks + steps.new }
    {
        match event {
            PaceEvent::Ask(assigns) => {
                self.ask(assigns, steps);
                put_ask(self.backlog.waiting(), &mut self.buf, out)
            }
            PaceEvent::Tick(values) => self.tick(values, out, steps),
        }
    }

    /// The number of addresses at which the device differs from the configuration of the values that were requested last.
    pub fn waiting(&self) -> u32
        ensures count { (wanted : List Bool) → IsConf self.now.pack self.now.params wanted → result ≡ length (differences self.now.config wanted) }

        // Whatever ticks come next, the tick with the number i waits if i times the rate is below this number, and is a cycle
        // otherwise.
        ensures stalls { HasStalls self.now result }
    {
        self.backlog.waiting()
    }
}
