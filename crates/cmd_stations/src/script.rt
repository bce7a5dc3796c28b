//! Reading a script.
ghost use Rattle.std.specs.Prelude.{◌≤◌, length, IfOk, IfErr, OnOk, map};
ghost use Rattle.list_laws.specs.Members.{In};
ghost use Rattle.tl_text.specs.Once.{AreOnce};
ghost use Rattle.tl_text.specs.declared.logical_lines.TheConstants.{MOST_BYTES};
ghost use Rattle.tl_text.specs.declared.limits.TheConstants.{MOST_PARAMETERS};
ghost use Rattle.tl_io.specs.Shelf.{Files};
ghost use Rattle.run_text.specs.EventValue.{EventValue, event_values};
ghost use Rattle.run_text.specs.Fits.{Fits};
ghost use Rattle.run_text.specs.ScriptText.{IsScript, HasOneReading};
ghost use Rattle.cmd_base.specs.Walk.{Told, Explains, KeepsFiles};
ghost use Rattle.cmd_stations.specs.Stops.{Stops};
ghost use Rattle.cmd_stations.specs.Texts.{IsScriptRefusal};
ghost use Rattle.cmd_stations.specs.Script.{HasScript, IsScriptSettled, script_reading};

use crate::files::read_file;
use crate::stop::Stop;
use cmd_base::{File, Outcome};
use run_text::{Event, ScriptNames, read_script};
use std::alloc::Global;
use tl_io::Shelf;

/// The events of a text, which may use these names.
///
/// # Errors
/// `Refused` with the refusal of the text; `Memory` if memory runs out.
pub fn list_events(alloc: Global, text: &[u8], names: &ScriptNames) -> Result<Vec<Event>, Stop>
    requires short { length text.now ≤ MOST_BYTES }
    requires few { length names.now.params ≤ MOST_PARAMETERS }
    requires once { AreOnce names.now.params }
    ensures events { IfOk result (λ events. IsScript names.now text.now (event_values events.items)) }
    ensures fit { IfOk result (λ events. (event : EventValue) → In (event_values events.items) event → Fits names.now event) }
    ensures err { IfErr result (Stops (IsScriptRefusal names.now text.now)) }
    ensures one { HasOneReading names.now text.now }
{
    let events = read_script(alloc, text, names)?;
    Ok(events)
}

/// Reads a script file, which may use these names.
///
/// # Errors
/// The outcome of the command, which ends here.
pub fn read_script_file<S: Shelf>(
    alloc: Global,
    name: &str,
    names: &ScriptNames,
    shelf: &mut S,
) -> Result<Vec<Event>, Outcome>
    requires few { length names.now.params ≤ MOST_PARAMETERS }
    requires once { AreOnce names.now.params }
    ensures script { IfOk result (λ events. Told (S.seen shelf.old).files (λ files. HasScript files name.now names.now (event_values events.items))) }
    ensures fit { IfOk result (λ events. (event : EventValue) → In (event_values events.items) event → Fits names.now event) }
    ensures settled { OnOk result (Told (S.seen shelf.old).files (λ files. IsScriptSettled files name.now names.now)) }
    ensures given { OnOk result ((S.seen shelf.new).given ≤ MOST_BYTES) }
    ensures err { IfErr result (Explains (script_reading name.now names.now) (S.seen shelf.old) (S.seen shelf.new)) }
    ensures keeps { KeepsFiles (S.seen shelf.old) (S.seen shelf.new) }
{
    let text = match read_file(alloc, name, File::Script, shelf) {
        Ok(text) => text,
        Err(outcome) => return Err(outcome),
    };
    match list_events(alloc, &text, names) {
        Ok(events) => Ok(events),
        Err(stop) => Err(stop.at(File::Script)),
    }
}
