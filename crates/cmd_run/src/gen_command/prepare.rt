//! Preparing a generated case. Its texts are read like the files of `run`.
ghost use Rattle.std.specs.Prelude.{◌≡◌, ◌≤◌, length, codes, IfOk, IfErr, OnOk};
ghost use Rattle.list_laws.specs.Members.{In};
ghost use Rattle.tl_text.specs.declared.logical_lines.TheConstants.{MOST_BYTES};
ghost use Rattle.tl_io.specs.Shelf.{Files, ShelfSeen};
ghost use Rattle.run_text.specs.EventValue.{EventValue, event_values};
ghost use Rattle.run_text.specs.Fits.{Fits};
ghost use Rattle.cover_pick.specs.declared.rule.Rule.{Rule as RuleValue};
ghost use Rattle.cmd_base.specs.Walk.{Explains};
ghost use Rattle.cmd_stations.specs.Script.{HasScript, IsScriptSettled, script_reading};
ghost use Rattle.cmd_stations.specs.Tables.{IsReadSource, AreMade, AreTables, ComesPast};
ghost use Rattle.cmd_run.specs.Run.Job.{run_reading};
ghost use Rattle.cmd_run.specs.Run.Ready.{CanPlay, IsReadyFor};
ghost use Rattle.cmd_run.specs.GenCommand.Case.{HasDigits, case_words, case_files};
ghost use Rattle.cmd_run.specs.GenCommand.Texts.{HaveSource, ComesCase, OfCase, OfScript, StopsIn, StopsSource, case_names};
ghost use Rattle.cmd_run.specs.GenCommand.Verdict.{gen_reading};

use crate::gen_command::words::GenWords;
use crate::run::prepare::{Ready, make_ready};
use cmd_base::{File, Outcome};
use cmd_stations::{
    MappedSource, Scripted, Source, list_events, list_params, map_source, mapped_names,
    read_netlist,
};
use cover_pick::Rule;
use gen_case::multiplier;
use run_text::{Event, Forms};
use std::alloc::Global;

// The maximal number of LUT inputs.
const TABLE_SIZE: u8 = 4;

// The source circuit of a case's texts.
fn read_case(alloc: Global, netlist_text: Vec<u8>, params_text: &[u8]) -> Result<Source, Outcome>
    requires netlist { length netlist_text.items ≤ MOST_BYTES }
    requires params { length params_text.now ≤ MOST_BYTES }
    ensures read { IfOk result IsReadSource }
    ensures comes { IfOk result (λ source. (rule : RuleValue) (files : Files) → HaveSource files netlist_text.items params_text.now → ComesCase rule files source) }
    ensures err { IfErr result (λ o. (rule : RuleValue) (files : Files) → HaveSource files netlist_text.items params_text.now → StopsSource rule files o) }
{
    let netlist = match read_netlist(alloc, netlist_text) {
        Ok(netlist) => netlist,
        Err(stop) => return Err(stop.at(File::Netlist)),
    };
    match list_params(alloc, params_text, &netlist) {
        Ok(params) => Ok(Source { netlist, params }),
        Err(stop) => Err(stop.at(File::Params)),
    }
}

// The source circuit of a case's texts, mapped.
fn map_case(
    alloc: Global,
    rule: Rule,
    netlist_text: Vec<u8>,
    params_text: &[u8],
) -> Result<MappedSource, Outcome>
    requires netlist { length netlist_text.items ≤ MOST_BYTES }
    requires params { length params_text.now ≤ MOST_BYTES }
    ensures read { IfOk result (λ m. IsReadSource m.source) }
    ensures tables { IfOk result (λ m. AreTables rule m.source 4 m.tables) }
    ensures comes { IfOk result (λ m. (files : Files) → HaveSource files netlist_text.items params_text.now → ComesPast files (case_words rule).source m) }
    ensures err { IfErr result (λ o. (files : Files) → HaveSource files netlist_text.items params_text.now → StopsSource rule files o) }
{
    let source = match read_case(alloc, netlist_text, params_text) {
        Ok(source) => source,
        Err(outcome) => return Err(outcome),
    };
    match map_source(alloc, rule, &source, TABLE_SIZE) {
        Ok(tables) => Ok(MappedSource { source, tables }),
        Err(stop) => Err(stop.at(File::Netlist)),
    }
}

// The events of a case's script.
fn case_events(
    alloc: Global,
    script_text: &[u8],
    mapped: &MappedSource,
) -> Result<Vec<Event>, Outcome>
    requires short { length script_text.now ≤ MOST_BYTES }
    requires read { IsReadSource mapped.now.source }
    requires tables { AreMade mapped.now.source mapped.now.tables }
    ensures script { IfOk result (λ es. OfScript script_text.now (λ files. HasScript files (codes "script") (case_names mapped.now) (event_values es.items))) }
    ensures fit { IfOk result (λ events. (event : EventValue) → In (event_values events.items) event → Fits (case_names mapped.now) event) }
    ensures settled { OnOk result (OfScript script_text.now (λ files. IsScriptSettled files (codes "script") (case_names mapped.now))) }
    ensures err { IfErr result (λ o. OfScript script_text.now (λ files. StopsIn (script_reading (codes "script") (case_names mapped.now)) files o)) }
{
    let names = match mapped_names(alloc, Forms::Run, mapped) {
        Ok(names) => names,
        Err(_) => return Err(Outcome::Memory),
    };
    match list_events(alloc, script_text, &names) {
        Ok(events) => Ok(events),
        Err(stop) => Err(stop.at(File::Script)),
    }
}

// The prepared job of a case's texts.
fn ready_case(
    alloc: Global,
    rule: Rule,
    netlist_text: Vec<u8>,
    params_text: &[u8],
    script_text: &[u8],
) -> Result<Ready, Outcome>
    requires netlist { length netlist_text.items ≤ MOST_BYTES }
    requires params { length params_text.now ≤ MOST_BYTES }
    requires script { length script_text.now ≤ MOST_BYTES }
    ensures ready { IfOk result (λ r. CanPlay (event_values r.events.items) r.machine) }
    ensures prepared { IfOk result (λ r. OfCase netlist_text.items params_text.now script_text.now (λ files. IsReadyFor files (case_words rule) r)) }
    ensures err { IfErr result (λ o. OfCase netlist_text.items params_text.now script_text.now (λ files. StopsIn (run_reading (case_words rule)) files o)) }
{
    let mapped = match map_case(alloc, rule, netlist_text, params_text) {
        Ok(mapped) => mapped,
        Err(outcome) => return Err(outcome),
    };
    let events = match case_events(alloc, script_text, &mapped) {
        Ok(events) => events,
        Err(outcome) => {
            drop(mapped);
            return Err(outcome);
        }
    };
    match make_ready(alloc, Scripted { mapped, events }) {
        Ok(ready) => Ok(ready),
        Err(_) => Err(Outcome::Memory),
    }
}

/// Generates the case for the arguments, reads and maps it, and allocates all the memory that its events need.
///
/// # Errors
/// The outcome of the command: the first refusal of the texts, or out of memory.
pub fn prepare_case(alloc: Global, words: &GenWords) -> Result<Ready, Outcome>
    requires { HasDigits words.now }
    ensures ready { IfOk result (λ r. CanPlay (event_values r.events.items) r.machine) }
    ensures prepared { IfOk result (IsReadyFor (case_files words.now) (case_words words.now.rule)) }
    ensures err { IfErr result (λ o. (old new : ShelfSeen) → Explains (gen_reading words.now) old new o) }
{
    match multiplier(alloc, words.digits, words.seed) {
        Ok(case) => ready_case(alloc, words.rule, case.netlist, &case.params, &case.script),
        Err(_) => Err(Outcome::Memory),
    }
}
