//! The lines of a script.
ghost use Rattle.std.specs.Prelude.{◌≡◌, ◌≤◌, length, map, IfOk, IfErr};
ghost use Rattle.tl_text.specs.declared.limits.TheConstants.{MOST_PARAMETERS};
ghost use Rattle.tl_fault.specs.OrMemory.{OrMemory};
ghost use Rattle.tl_text.specs.LineValue.{AreLinesIn, words_line};
ghost use Rattle.tl_text.specs.Once.{AreOnce};
ghost use Rattle.run_text.specs.EventValue.{event_values};
ghost use Rattle.run_text.specs.ScriptText.{AreEventsOf, IsFirstRefusal};
ghost use Rattle.run_text.specs.ScriptRefusals.{refusal_of};

use crate::event::{Event, ScriptNames};
use crate::script_err::ScriptErr;
use crate::script_line::read_line;
use std::alloc::Global;
use tl_text::{Line, NameIndex, TextKey};

// The events of lines, given an index of the names of the parameters.
fn read_each(
    alloc: Global,
    text: &[u8],
    lines: &[Line],
    names: &ScriptNames,
    params: &NameIndex,
) -> Result<Vec<Event>, ScriptErr>
    requires within { AreLinesIn text.now lines.now }
    requires few { length params.now ≤ MOST_PARAMETERS }
    requires same { params.now ≡ names.now.params }
    ensures events { IfOk result (λ events. AreEventsOf names.now (map (words_line text.now) lines.now) (event_values events.items)) }
    ensures fault { IfErr result (OrMemory refusal_of (IsFirstRefusal names.now (map (words_line text.now) lines.now))) }
{
    let mut events = Vec::new(alloc);
    for line in lines {
        let event = read_line(alloc, text, line, names, params, events.len())?;
        events.push(event)?;
    }
    Ok(events)
}

/// The events of the lines of a text. Time is linear in the text and in the names of the parameters, on average over the
/// hashes.
///
/// # Errors
/// The refusal of the first line that has one; `Memory` if memory runs out.
pub(crate) fn read_lines(
    alloc: Global,
    text: &[u8],
    lines: &[Line],
    names: &ScriptNames,
) -> Result<Vec<Event>, ScriptErr>
    requires within { AreLinesIn text.now lines.now }
    requires few { length names.now.params ≤ MOST_PARAMETERS }
    requires once { AreOnce names.now.params }
    ensures events { IfOk result (λ events. AreEventsOf names.now (map (words_line text.now) lines.now) (event_values events.items)) }
    ensures fault { IfErr result (OrMemory refusal_of (IsFirstRefusal names.now (map (words_line text.now) lines.now))) }
{
    let params = NameIndex::of_with(alloc, TextKey::of(text), &names.params)?;
    read_each(alloc, text, lines, names, &params)
}
