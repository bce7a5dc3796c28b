//! Scripts at a limited rate.
ghost use Rattle.std.specs.Prelude.{◌≡◌, ◌≤◌, ℕ, length, Some, IfOk, IfErr};
ghost use Rattle.std.specs.Option.{option_map};
ghost use Rattle.list_laws.specs.Members.{In};
ghost use Rattle.tl_fault.specs.OrMemory.{OrMemory};
ghost use Rattle.tl_text.specs.Once.{AreOnce};
ghost use Rattle.tl_text.specs.declared.limits.TheConstants.{MOST_PARAMETERS};
ghost use Rattle.tl_text.specs.declared.logical_lines.TheConstants.{MOST_BYTES};
ghost use Rattle.run_text.specs.EventValue.{event_value, event_values};
ghost use Rattle.run_text.specs.ScriptRefusals.{refusal_of};
ghost use Rattle.run_text.specs.ScriptText.{IsScriptFault};
ghost use Rattle.pace_core.specs.EventValue.{PaceValue, pace_value, pace_values, pace_of, asks_and_ticks, Fits};
ghost use Rattle.pace_core.specs.PaceText.{IsPaceScript, HasOneReading};

use crate::event::PaceEvent;
use run_text::{Event, Forms, ScriptErr, ScriptNames, read_script};
use std::alloc::{AllocError, Global};

// The event of a line, and `None` for a form that has no word.
fn pace_event(event: Event) -> Option<PaceEvent>
    ensures { option_map (λ (e : PaceEvent). pace_value e) result ≡ pace_of (event_value event) }
{
    match event {
        Event::Set(assigns) => Some(PaceEvent::Ask(assigns)),
        Event::Cycle(values) => Some(PaceEvent::Tick(values)),
        Event::Upset(_) => None,
        Event::Scrub => None,
        Event::Image => None,
    }
}

/// The asks and ticks of a script's events, in their order: each set becomes an ask and each cycle a tick. A script with the words
/// `ask` and `tick` has no other events.
///
/// Returns `Err` only if memory runs out.
pub fn pace_events(alloc: Global, read: Vec<Event>) -> Result<Vec<PaceEvent>, AllocError>
    ensures { IfOk result (λ events. pace_values events.items ≡ asks_and_ticks (event_values read.items)) }
{
    let mut events = Vec::with_capacity(alloc, read.len())?;
    for event in read {
        if let Some(event) = pace_event(event) {
            events.push(event)?;
        }
    }
    Ok(events)
}

/// Reads a script at a limited rate. Each line is an event: `ask` with words `NAME=BIT`, or `tick` with a string of one `0` or
/// `1` for each regular input, or `-`. Each event fits the names that are given. The names of the parameters differ.
///
/// Time and memory are linear in the text and in the names of the parameters, on average over the hashes.
///
/// # Errors
/// The text's first refusal, as [`read_script`] reports it: T1 and T2 of its physical lines, and otherwise L7, S1, S2, S3 or S4 of
/// the first logical line that has one. `Memory` if memory runs out. A text is one script or has one refusal, and not both.
pub fn read_pace(
    alloc: Global,
    text: &[u8],
    names: &ScriptNames,
) -> Result<Vec<PaceEvent>, ScriptErr>
    requires forms { names.now.forms ≡ Forms.Pace }
    requires short { length text.now ≤ MOST_BYTES }
    requires few { length names.now.params ≤ MOST_PARAMETERS }
    requires once { AreOnce names.now.params }
    ensures events { IfOk result (λ events. IsPaceScript names.now text.now (pace_values events.items)) }
    ensures fit { (width : ℕ) → names.now.width ≡ Some width → IfOk result (λ events. (event : PaceValue) → In (pace_values events.items) event → Fits (length names.now.params) width event) }
    ensures fault { IfErr result (OrMemory refusal_of (IsScriptFault names.now text.now)) }
    ensures one_reading { HasOneReading names.now text.now }
{
    let read = read_script(alloc, text, names)?;
    let events = pace_events(alloc, read)?;
    Ok(events)
}
