//! Playing a generated case.
ghost use Rattle.std.specs.Prelude.{◌≡◌, ◌<◌};
ghost use Rattle.run_text.specs.EventValue.{event_values};
ghost use Rattle.cmd_run.specs.GenCommand.Totals.{Totals, IsSmall};
ghost use Rattle.cmd_run.specs.Run.Ready.{CanPlay};

use crate::gen_command::totals::{CaseTotals, with_event};
use crate::run::prepare::Ready;
use aig_core::Steps;
use run_core::Machine;
use run_text::Event;
use std::marker::Brand;
use std::sync::ledger::{Blank, Ledger};

// Plays events, with a counter of the steps that their changes of parameters take, and returns their totals.
fn play_with<L: Ledger>(machine: &mut Machine, events: &[Event], blank: Blank) -> CaseTotals
    requires name { blank.name ≡ L.name }
    requires parts { blank.parts ≡ L.parts }
    requires some { 0 < L.parts }
    requires can_play { CanPlay (event_values events.now) machine.old }
    requires small { IsSmall (event_values events.now) machine.old }
    ensures { Totals machine.old (event_values events.now) result.writes result.total machine.new }
{
    let mut steps = Steps::<L>::start(blank);
    let mut totals = CaseTotals {
        writes: 0,
        total: 0,
    };
    for event in events {
        machine.play(event, &mut steps);
        totals = with_event(totals, event, machine);
    }
    totals
}

// Plays events, and returns their totals.
fn play_events(machine: &mut Machine, events: &[Event]) -> CaseTotals
    requires can_play { CanPlay (event_values events.now) machine.old }
    requires small { IsSmall (event_values events.now) machine.old }
    ensures { Totals machine.old (event_values events.now) result.writes result.total machine.new }
{
    play_with::<Brand>(machine, events, Blank::new(1))
}

/// Plays a case, and returns the totals of its events.
pub fn play_case(ready: &mut Ready) -> CaseTotals
    requires can_play { CanPlay (event_values ready.old.events.items) ready.old.machine }
    requires small { IsSmall (event_values ready.old.events.items) ready.old.machine }
    ensures { Totals ready.old.machine (event_values ready.old.events.items) result.writes result.total ready.new.machine }
{
    play_events(&mut ready.machine, &ready.events)
}
