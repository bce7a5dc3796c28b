//! Playing a job.
ghost use Rattle.std.specs.Prelude.{◌≡◌, ◌≤◌, ◌<◌, ◌+◌, length, map, Err};
ghost use Rattle.tl_io.specs.Causes.{Rose};
ghost use Rattle.run_text.specs.EventValue.{event_values};
ghost use Rattle.port_bank.specs.Image.{Holds};
ghost use Rattle.port_bank.specs.Seen.{bank_seen};
ghost use Rattle.cmd_run.specs.Run.Ends.{HaveFailed};
ghost use Rattle.cmd_run.specs.Run.Ready.{CanPlay, PlaysEvents, PlaysAll, PlaysOut, IsServed};

use crate::run::prepare::Ready;
use crate::run::words::PortCounts;
use aig_core::Steps;
use port_bank::PortBank;
use run_core::{Machine, StepErr};
use run_text::Event;
use std::alloc::Global;
use std::marker::Brand;
use std::mem;
use std::sync::ledger::{Blank, Ledger};
use tl_io::{ConfigPort, Sink};

// Plays events, with a counter of the steps that their changes of parameters take.
fn play_with<O: Sink, P: ConfigPort, L: Ledger>(
    machine: &mut Machine,
    events: &[Event],
    out: &mut O,
    bank: &mut PortBank<P>,
    blank: Blank,
) -> Result<(), StepErr>
    requires name { blank.name ≡ L.name }
    requires parts { blank.parts ≡ L.parts }
    requires some { 0 < L.parts }
    requires can_play { CanPlay (event_values events.now) machine.old }
    requires holds { Holds machine.old.host.state.config (bank_seen P.port_seen bank.old) }
    ensures ends { PlaysEvents machine.old events.now (bank_seen P.port_seen bank.old) (bank_seen P.port_seen bank.new) (O.seen out.old) (O.seen out.new) result }
    ensures later { (O.seen out.old).faults ≤ (O.seen out.new).faults }
    ensures cause { result ≡ Err StepErr.WriteFault → Rose (O.seen out.old).faults (O.seen out.new).faults }
{
    let mut steps = Steps::<L>::start(blank);
    for event in events {
        machine.step(event, out, bank, &mut steps)?;
    }
    Ok(())
}

// Plays events.
fn play_events<O: Sink, P: ConfigPort>(
    machine: &mut Machine,
    events: &[Event],
    out: &mut O,
    bank: &mut PortBank<P>,
) -> Result<(), StepErr>
    requires can_play { CanPlay (event_values events.now) machine.old }
    requires holds { Holds machine.old.host.state.config (bank_seen P.port_seen bank.old) }
    ensures ends { PlaysEvents machine.old events.now (bank_seen P.port_seen bank.old) (bank_seen P.port_seen bank.new) (O.seen out.old) (O.seen out.new) result }
    ensures later { (O.seen out.old).faults ≤ (O.seen out.new).faults }
    ensures cause { result ≡ Err StepErr.WriteFault → Rose (O.seen out.old).faults (O.seen out.new).faults }
{
    play_with::<O, P, Brand>(machine, events, out, bank, Blank::new(1))
}

// Writes the header, loads the ports, and plays events.
fn play_all<O: Sink, P: ConfigPort>(
    machine: &mut Machine,
    events: &[Event],
    out: &mut O,
    bank: &mut PortBank<P>,
) -> Result<(), StepErr>
    requires can_play { CanPlay (event_values events.now) machine.old }
    ensures ends { PlaysAll machine.old events.now (bank_seen P.port_seen bank.old) (bank_seen P.port_seen bank.new) (O.seen out.old) (O.seen out.new) result }
    ensures cause { result ≡ Err StepErr.WriteFault → Rose (O.seen out.old).faults (O.seen out.new).faults }
{
    machine.header(out)?;
    machine.load(bank)?;
    play_events(machine, events, out, bank)
}

/// Plays a job: writes its header, loads the serving ports, and for each event plays it, sends its writes and writes its
/// line.
///
/// # Errors
/// `WriteFault` only if the count of faults of `out` rose. `PortFault` only if all the spares and one more port failed.
pub fn play<O: Sink, P: ConfigPort>(
    alloc: Global,
    ready: &mut Ready,
    counts: PortCounts,
    out: &mut O,
    ports: &mut Vec<P>,
) -> Result<(), StepErr>
    requires can_play { CanPlay (event_values ready.old.events.items) ready.old.machine }
    requires within { counts.serving + counts.spares ≤ length ports.old.items }
    ensures ends { PlaysOut counts ready.old (O.seen out.old) (O.seen out.new) (map P.port_seen ports.old.items) (map P.port_seen ports.new.items) result }
    ensures cause { result ≡ Err StepErr.WriteFault → Rose (O.seen out.old).faults (O.seen out.new).faults }
    ensures served { IsServed counts (map P.port_seen ports.old.items) (map P.port_seen ports.new.items) result }
    ensures failed { result ≡ Err StepErr.PortFault → HaveFailed counts (map P.port_seen ports.old.items) (map P.port_seen ports.new.items) }
{
    let handed_in = mem::replace(ports, Vec::new(alloc));
    let mut bank = PortBank::make(handed_in, counts.serving, counts.spares);
    let result = play_all(&mut ready.machine, &ready.events, out, &mut bank);
    *ports = bank.release();
    result
}
