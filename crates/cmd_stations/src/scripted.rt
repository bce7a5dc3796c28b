//! A mapped source circuit with the events of its script.
ghost use Rattle.std.specs.Prelude.{◌≡◌, ◌≤◌, IfOk, IfErr, OnOk};
ghost use Rattle.list_laws.specs.Members.{In};
ghost use Rattle.tl_text.specs.declared.logical_lines.TheConstants.{MOST_BYTES};
ghost use Rattle.run_text.specs.EventValue.{EventValue, event_values};
ghost use Rattle.run_text.specs.Fits.{Fits};
ghost use Rattle.cmd_base.specs.Walk.{Told, Explains, KeepsFiles};
ghost use Rattle.cmd_stations.specs.Source.{IsTableSize};
ghost use Rattle.cmd_stations.specs.Script.{names_in, HasScript, IsScriptSettled, script_reading, scripted_seen, scripted_reading};
ghost use Rattle.cmd_stations.specs.Tables.{IsReadSource, AreMade, AreTables, ComesScripted};

use crate::mapped::{MappedSource, read_mapped};
use crate::packs::script_names;
use crate::script::read_script_file;
use crate::words::SourceWords;
use cmd_base::Outcome;
use run_text::{Event, Forms, ScriptNames};
use std::alloc::{AllocError, Global};
use tl_io::Shelf;

/// The arguments that name a source circuit and its script, and the words with which the script's lines begin.
#[derive(Clone, Copy)]
pub struct ScriptedWords<'a> {
    pub source: SourceWords<'a>,
    pub script: &'a str,
    pub forms: Forms,
}

/// A mapped source circuit with the events of its script.
#[derive(Drop)]
pub struct Scripted {
    pub mapped: MappedSource,
    pub events: Vec<Event>,
}

/// What the script of a mapped source circuit may name.
///
/// `Err` only if memory runs out.
pub fn mapped_names(
    alloc: Global,
    forms: Forms,
    mapped: &MappedSource,
) -> Result<ScriptNames, AllocError>
    requires { AreMade mapped.now.source mapped.now.tables }
    ensures { IfOk result (λ names. names ≡ names_in forms mapped.now.source mapped.now.tables.template.bits) }
{
    let tables = &mapped.tables;
    let names = script_names(alloc, forms, &tables.pack, Some(tables.shape.regular))?;
    Ok(names)
}

// Reads the script of a mapped source circuit.
fn read_events<S: Shelf>(
    alloc: Global,
    words: &ScriptedWords,
    mapped: &MappedSource,
    shelf: &mut S,
) -> Result<Vec<Event>, Outcome>
    requires read { IsReadSource mapped.now.source }
    requires tables { AreMade mapped.now.source mapped.now.tables }
    ensures script { IfOk result (λ events. Told (S.seen shelf.old).files (λ files. HasScript files words.now.script.now (names_in words.now.forms mapped.now.source mapped.now.tables.template.bits) (event_values events.items))) }
    ensures fit { IfOk result (λ events. (event : EventValue) → In (event_values events.items) event → Fits (names_in words.now.forms mapped.now.source mapped.now.tables.template.bits) event) }
    ensures settled { OnOk result (Told (S.seen shelf.old).files (λ files. IsScriptSettled files words.now.script.now (names_in words.now.forms mapped.now.source mapped.now.tables.template.bits))) }
    ensures given { OnOk result ((S.seen shelf.new).given ≤ MOST_BYTES) }
    ensures err { IfErr result (Explains (script_reading words.now.script.now (names_in words.now.forms mapped.now.source mapped.now.tables.template.bits)) (S.seen shelf.old) (S.seen shelf.new)) }
    ensures keeps { KeepsFiles (S.seen shelf.old) (S.seen shelf.new) }
{
    match mapped_names(alloc, words.forms, mapped) {
        Ok(names) => read_script_file(alloc, words.script, &names, shelf),
        Err(_) => Err(Outcome::Memory),
    }
}

/// Reads and maps a source circuit, and reads its script.
///
/// # Errors
/// The outcome of the command, which ends here.
#[tactic(auto, using(cmd_base::proofs::EndLemmas::keeps_past))]
pub fn read_scripted<S: Shelf>(
    alloc: Global,
    words: &ScriptedWords,
    shelf: &mut S,
) -> Result<Scripted, Outcome>
    requires { IsTableSize words.now.source.k }
    ensures read { IfOk result (λ s. IsReadSource s.mapped.source) }
    ensures tables { IfOk result (λ s. AreTables words.now.source.rule s.mapped.source words.now.source.k s.mapped.tables) }
    ensures comes { IfOk result (λ s. Told (S.seen shelf.old).files (λ files. ComesScripted files (scripted_seen words.now) s)) }
    ensures fit { IfOk result (λ s. (event : EventValue) → In (event_values s.events.items) event → Fits (names_in words.now.forms s.mapped.source s.mapped.tables.template.bits) event) }
    ensures given { OnOk result ((S.seen shelf.new).given ≤ MOST_BYTES) }
    ensures err { IfErr result (Explains (scripted_reading (scripted_seen words.now)) (S.seen shelf.old) (S.seen shelf.new)) }
    ensures keeps { KeepsFiles (S.seen shelf.old) (S.seen shelf.new) }
{
    let mapped = match read_mapped(alloc, &words.source, shelf) {
        Ok(mapped) => mapped,
        Err(outcome) => return Err(outcome),
    };
    match read_events(alloc, words, &mapped, shelf) {
        Ok(events) => Ok(Scripted { mapped, events }),
        Err(outcome) => {
            drop(mapped);
            Err(outcome)
        }
    }
}
