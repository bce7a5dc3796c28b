//! Preparing the job of `bits`.
ghost use Rattle.std.specs.Prelude.{◌≡◌, ◌≤◌, IfOk, IfErr, OnOk};
ghost use Rattle.list_laws.specs.Members.{In};
ghost use Rattle.tl_text.specs.declared.logical_lines.TheConstants.{MOST_BYTES};
ghost use Rattle.run_text.specs.EventValue.{EventValue, event_values};
ghost use Rattle.run_text.specs.Fits.{Fits};
ghost use Rattle.cmd_base.specs.Walk.{Told, Explains, KeepsFiles};
ghost use Rattle.cmd_stations.specs.Packs.{pack_names};
ghost use Rattle.cmd_stations.specs.Script.{HasScript, IsScriptSettled, script_reading};
ghost use Rattle.cmd_pack.specs.Bits.{bits_seen, bits_reading};
ghost use Rattle.cmd_pack.specs.BitsReady.{CanPlay, IsReady, IsReadyFor};

use crate::bits::words::BitsWords;
use cmd_base::Outcome;
use cmd_stations::{read_pack, read_script_file, script_names};
use ppc_pack::Pack;
use run_core::Host;
use run_text::{Event, Forms};
use std::alloc::{AllocError, Global};
use tl_io::Shelf;

/// A script that is ready to be played on a pack: all its memory is allocated.
#[derive(Drop)]
pub struct ReadyScript {
    pub host: Host,
    pub events: Vec<Event>,
}

// Reads the script of a pack.
fn read_events<S: Shelf>(
    alloc: Global,
    words: &BitsWords,
    pack: &Pack,
    shelf: &mut S,
) -> Result<Vec<Event>, Outcome>
    ensures script { IfOk result (λ es. Told (S.seen shelf.old).files (λ fs. HasScript fs words.now.script.now (pack_names pack.now) (event_values es.items))) }
    ensures fit { IfOk result (λ events. (event : EventValue) → In (event_values events.items) event → Fits (pack_names pack.now) event) }
    ensures settled { OnOk result (Told (S.seen shelf.old).files (λ files. IsScriptSettled files words.now.script.now (pack_names pack.now))) }
    ensures given { OnOk result ((S.seen shelf.new).given ≤ MOST_BYTES) }
    ensures err { IfErr result (Explains (script_reading words.now.script.now (pack_names pack.now)) (S.seen shelf.old) (S.seen shelf.new)) }
    ensures keeps { KeepsFiles (S.seen shelf.old) (S.seen shelf.new) }
{
    match script_names(alloc, Forms::Run, pack, None) {
        Ok(names) => read_script_file(alloc, words.script, &names, shelf),
        Err(_) => Err(Outcome::Memory),
    }
}

// Allocates all the memory that a pack's events need.
fn make_ready(alloc: Global, pack: Pack, events: Vec<Event>) -> Result<ReadyScript, AllocError>
    ensures { IfOk result (IsReady pack (event_values events.items)) }
{
    match Host::make(alloc, pack) {
        Ok(host) => Ok(ReadyScript { host, events }),
        Err(error) => {
            drop(events);
            Err(error)
        }
    }
}

/// Reads the files of a job in the order of work, and allocates all the memory that its events need.
///
/// # Errors
/// The outcome of the command: the first refusal, a read fault, or out of memory.
#[tactic(auto, using(cmd_base::proofs::EndLemmas::keeps_past))]
pub fn prepare<S: Shelf>(
    alloc: Global,
    words: &BitsWords,
    shelf: &mut S,
) -> Result<ReadyScript, Outcome>
    ensures ready { IfOk result (λ r. CanPlay r.host.pack (event_values r.events.items)) }
    ensures prepared { IfOk result (λ r. Told (S.seen shelf.old).files (λ files. IsReadyFor files (bits_seen words.now) r)) }
    ensures given { OnOk result ((S.seen shelf.new).given ≤ MOST_BYTES) }
    ensures err { IfErr result (Explains (bits_reading (bits_seen words.now)) (S.seen shelf.old) (S.seen shelf.new)) }
    ensures keeps { KeepsFiles (S.seen shelf.old) (S.seen shelf.new) }
{
    let pack = match read_pack(alloc, words.pack, shelf) {
        Ok(pack) => pack,
        Err(outcome) => return Err(outcome),
    };
    let events = match read_events(alloc, words, &pack, shelf) {
        Ok(events) => events,
        Err(outcome) => {
            drop(pack);
            return Err(outcome);
        }
    };
    match make_ready(alloc, pack, events) {
        Ok(ready) => Ok(ready),
        Err(_) => Err(Outcome::Memory),
    }
}
