//! Plays a job.
ghost use Rattle.std.specs.Prelude.{◌≡◌, ◌<◌};
ghost use Rattle.tl_io.specs.Causes.{HasCause};
ghost use Rattle.pace_core.specs.EventValue.{pace_values};
ghost use Rattle.cmd_pace.specs.Ready.{CanPace, EventsEnd, PlayEnd};

use crate::prepare::ReadyPace;
use aig_core::Steps;
use pace_core::{PaceEvent, Pacer};
use std::marker::Brand;
use std::sync::ledger::{Blank, Ledger};
use tl_io::{Failed, Sink};

// Plays events, with a counter of the steps that they take.
fn play_with<O: Sink, L: Ledger>(
    pacer: &mut Pacer,
    events: &[PaceEvent],
    out: &mut O,
    blank: Blank,
) -> Result<(), Failed>
    requires name { blank.name ≡ L.name }
    requires parts { blank.parts ≡ L.parts }
    requires some { 0 < L.parts }
    requires can_pace { CanPace (pace_values events.now) pacer.old }
    ensures ends { EventsEnd pacer.old (pace_values events.now) (O.seen out.old).bytes (O.seen out.new).bytes result }
    ensures cause { HasCause (O.seen out.old).faults (O.seen out.new).faults result }
{
    let mut steps = Steps::<L>::start(blank);
    for event in events {
        pacer.step(event, out, &mut steps)?;
    }
    Ok(())
}

// Plays events.
fn play_events<O: Sink>(pacer: &mut Pacer, events: &[PaceEvent], out: &mut O) -> Result<(), Failed>
    requires { CanPace (pace_values events.now) pacer.old }
    ensures ends { EventsEnd pacer.old (pace_values events.now) (O.seen out.old).bytes (O.seen out.new).bytes result }
    ensures cause { HasCause (O.seen out.old).faults (O.seen out.new).faults result }
{
    play_with::<O, Brand>(pacer, events, out, Blank::new(1))
}

/// Plays a job: puts its header, then plays each event and puts its line.
///
/// # Errors
/// `Failed` only if the count of faults of `out` rose.
pub fn play<O: Sink>(ready: &mut ReadyPace, out: &mut O) -> Result<(), Failed>
    requires { CanPace (pace_values ready.old.events.items) ready.old.pacer }
    ensures ends { PlayEnd ready.old.pacer (pace_values ready.old.events.items) (O.seen out.old).bytes (O.seen out.new).bytes result }
    ensures cause { HasCause (O.seen out.old).faults (O.seen out.new).faults result }
{
    ready.pacer.header(out)?;
    play_events(&mut ready.pacer, &ready.events, out)
}
