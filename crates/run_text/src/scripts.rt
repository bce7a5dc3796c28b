//! Reading a whole script.
ghost use Rattle.std.specs.Prelude.{◌≡◌, ◌≤◌, length, Ok, IfOk, IfErr};
ghost use Rattle.list_laws.specs.Members.{In};
ghost use Rattle.tl_text.specs.declared.limits.TheConstants.{MOST_PARAMETERS};
ghost use Rattle.tl_fault.specs.OrMemory.{OrMemory};
ghost use Rattle.tl_text.specs.Once.{AreOnce};
ghost use Rattle.tl_text.specs.declared.logical_lines.TheConstants.{MOST_BYTES};
ghost use Rattle.run_text.specs.EventValue.{EventValue, event_values};
ghost use Rattle.run_text.specs.Fits.{Fits};
ghost use Rattle.run_text.specs.ScriptText.{script_err, IsScript, IsScriptFault, HasOneReading};
ghost use Rattle.run_text.specs.ScriptRefusals.{refusal_of};

use crate::event::{Event, ScriptNames};
use crate::script_err::ScriptErr;
use crate::script_lines::read_lines;
use std::alloc::Global;
use tl_text::{TextErr, lines};

// The refusal of a script that stands for this fault of its lines.
fn lines_err(error: TextErr) -> ScriptErr
    ensures { result ≡ script_err error }
{
    match error {
        TextErr::BadByte(line) => ScriptErr::BadByte(line),
        TextErr::TrailingSlash(line) => ScriptErr::TrailingSlash(line),
        TextErr::Memory => ScriptErr::Memory,
    }
}

/// The events of a script, one line each: `set` and words `NAME=BIT`, each split at its last `=`; `cycle` and a string with a
/// `0` or `1` for each regular input, or `-`; `upset` and an address; `scrub`; `image`. With [`Forms::Pace`] the words are
/// `ask` instead of `set` and `tick` instead of `cycle`, and the others don't exist. Each event fits `names`. The names of
/// the parameters differ.
///
/// Time and memory are linear in the text and in the names of the parameters, on average over the hashes.
///
/// # Errors
/// The first refusal of the text, by `specs/ScriptText.antt`: T1 and T2 of its physical lines; otherwise that of the first
/// logical line that has one. Within a line the order is L7, S1, S6, S2, S3 and S4 word by word, S5. `Memory` if memory runs
/// out. A text is one script or has one refusal, and not both.
pub fn read_script(alloc: Global, text: &[u8], names: &ScriptNames) -> Result<Vec<Event>, ScriptErr>
    requires short { length text.now ≤ MOST_BYTES }
    requires few { length names.now.params ≤ MOST_PARAMETERS }
    requires once { AreOnce names.now.params }
    ensures events { IfOk result (λ events. IsScript names.now text.now (event_values events.items)) }
    ensures fit { IfOk result (λ events. (event : EventValue) → In (event_values events.items) event → Fits names.now event) }
    ensures fault { IfErr result (OrMemory refusal_of (IsScriptFault names.now text.now)) }
    ensures one_reading { HasOneReading names.now text.now }
{
    match lines(alloc, text) {
        Ok(found) => read_lines(alloc, text, &found, names),
        Err(error) => Err(lines_err(error)),
    }
}
