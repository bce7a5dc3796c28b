//! Playing a script on a pack.
ghost use Rattle.std.specs.Prelude.{◌≡◌, ◌<◌, length};
ghost use Rattle.tl_io.specs.Causes.{HasCause};
ghost use Rattle.run_text.specs.EventValue.{event_values};
ghost use Rattle.port_bank.specs.Seen.{bank_seen};
ghost use Rattle.cmd_pack.specs.BitsReady.{CanPlay, EventsEnd, PlayEndsAnywhere};

use crate::bits::prepare::ReadyScript;
use aig_core::Steps;
use port_bank::PortBank;
use run_core::Host;
use run_text::Event;
use std::marker::Brand;
use std::sync::ledger::{Blank, Ledger};
use tl_io::{ConfigPort, Failed, Sink};

// Plays events over a bank without serving ports, with a counter of the steps that their changes of parameters take.
fn play_with<O: Sink, P: ConfigPort, L: Ledger>(
    host: &mut Host,
    events: &[Event],
    out: &mut O,
    bank: &mut PortBank<P>,
    blank: Blank,
) -> Result<(), Failed>
    requires name { blank.name ≡ L.name }
    requires parts { blank.parts ≡ L.parts }
    requires some { 0 < L.parts }
    requires can_play { CanPlay host.old.pack (event_values events.now) }
    requires no_ports { length (bank_seen P.port_seen bank.old).serving ≡ 0 }
    ensures ends { EventsEnd host.old (event_values events.now) (O.seen out.old).bytes (O.seen out.new).bytes result }
    ensures cause { HasCause (O.seen out.old).faults (O.seen out.new).faults result }
{
    let mut steps = Steps::<L>::start(blank);
    for event in events {
        match host.step(event, out, bank, &mut steps) {
            Ok(()) => {}
            Err(_) => return Err(Failed),
        }
    }
    Ok(())
}

// Plays events over a bank without serving ports.
fn play_events<O: Sink, P: ConfigPort>(
    host: &mut Host,
    events: &[Event],
    out: &mut O,
    bank: &mut PortBank<P>,
) -> Result<(), Failed>
    requires can_play { CanPlay host.old.pack (event_values events.now) }
    requires no_ports { length (bank_seen P.port_seen bank.old).serving ≡ 0 }
    ensures ends { EventsEnd host.old (event_values events.now) (O.seen out.old).bytes (O.seen out.new).bytes result }
    ensures cause { HasCause (O.seen out.old).faults (O.seen out.new).faults result }
{
    play_with::<O, P, Brand>(host, events, out, bank, Blank::new(1))
}

/// Plays a script over a bank without serving ports: writes the header, and for each event plays it and writes its line.
///
/// # Errors
/// `Failed` only if the count of faults of `out` rose.
pub fn play<O: Sink, P: ConfigPort>(
    ready: &mut ReadyScript,
    out: &mut O,
    bank: &mut PortBank<P>,
) -> Result<(), Failed>
    requires can_play { CanPlay ready.old.host.pack (event_values ready.old.events.items) }
    requires no_ports { length (bank_seen P.port_seen bank.old).serving ≡ 0 }
    ensures ends { PlayEndsAnywhere ready.old.host (event_values ready.old.events.items) (O.seen out.old) (O.seen out.new) result }
    ensures cause { HasCause (O.seen out.old).faults (O.seen out.new).faults result }
{
    ready.host.put_bits_header(out)?;
    play_events(&mut ready.host, &ready.events, out, bank)
}
