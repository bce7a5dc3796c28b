//! Prepares a job of `pace`.
ghost use Rattle.std.specs.Prelude.{◌≡◌, ◌≤◌, IfOk, IfErr, OnOk};
ghost use Rattle.tl_text.specs.declared.logical_lines.TheConstants.{MOST_BYTES};
ghost use Rattle.run_text.specs.EventValue.{event_values};
ghost use Rattle.pace_core.specs.EventValue.{pace_values, asks_and_ticks};
ghost use Rattle.cmd_base.specs.Walk.{Told, Explains, KeepsFiles};
ghost use Rattle.cmd_stations.specs.Script.{scripted_reading};
ghost use Rattle.cmd_stations.specs.Tables.{IsReadSource, AreMade};
ghost use Rattle.cmd_pace.specs.Job.{pace_seen, scripted_of, IsInRange};
ghost use Rattle.cmd_pace.specs.Ready.{CanPace, StartsAt, IsReadyFor};

use crate::words::{PaceWords, scripted};
use cmd_base::Outcome;
use cmd_stations::{MappedSource, Scripted, Source, SourceTables, latch_inits, read_scripted};
use pace_core::{PaceEvent, Pacer, pace_events};
use std::alloc::{AllocError, Global};
use tl_io::Shelf;

/// A prepared job. All its memory is allocated.
#[derive(Drop)]
pub struct ReadyPace {
    pub pacer: Pacer,
    pub events: Vec<PaceEvent>,
}

// The initial machine of a source circuit's LUTs.
fn start_pacer(
    alloc: Global,
    source: &Source,
    tables: SourceTables,
    rate: u32,
) -> Result<Pacer, AllocError>
    requires read { IsReadSource source.now }
    requires tables { AreMade source.now tables }
    requires rate { 1 ≤ rate }
    ensures { IfOk result (StartsAt source.now tables.template rate) }
{
    let states = latch_inits(alloc, source)?;
    let pacer = Pacer::make(
        alloc,
        tables.template,
        tables.pack,
        tables.shape,
        &states,
        rate,
    )?;
    Ok(pacer)
}

// The machine and the asks and ticks of a mapped source circuit with its script.
fn make_ready(alloc: Global, scripted: Scripted, rate: u32) -> Result<ReadyPace, AllocError>
    requires read { IsReadSource scripted.mapped.source }
    requires tables { AreMade scripted.mapped.source scripted.mapped.tables }
    requires rate { 1 ≤ rate }
    ensures start { IfOk result (λ r. StartsAt scripted.mapped.source scripted.mapped.tables.template rate r.pacer) }
    ensures events { IfOk result (λ r. pace_values r.events.items ≡ asks_and_ticks (event_values scripted.events.items)) }
{
    let Scripted { mapped, events } = scripted;
    let events = match pace_events(alloc, events) {
        Ok(events) => events,
        Err(error) => {
            drop(mapped);
            return Err(error);
        }
    };
    let MappedSource { source, tables } = mapped;
    let started = start_pacer(alloc, &source, tables, rate);
    drop(source);
    let pacer = started?;
    Ok(ReadyPace { pacer, events })
}

/// Reads and maps the files of a job in the order of work, and allocates all the memory that its events need.
///
/// # Errors
/// The outcome of the command: the first refusal, a read fault, or out of memory.
pub fn prepare<S: Shelf>(
    alloc: Global,
    words: &PaceWords,
    shelf: &mut S,
) -> Result<ReadyPace, Outcome>
    requires { IsInRange words.now }
    ensures ready { IfOk result (λ r. CanPace (pace_values r.events.items) r.pacer) }
    ensures prepared { IfOk result (λ r. Told (S.seen shelf.old).files (λ files. IsReadyFor files (pace_seen words.now) r)) }
    ensures given { OnOk result ((S.seen shelf.new).given ≤ MOST_BYTES) }
    ensures err { IfErr result (Explains (scripted_reading (scripted_of (pace_seen words.now))) (S.seen shelf.old) (S.seen shelf.new)) }
    ensures keeps { KeepsFiles (S.seen shelf.old) (S.seen shelf.new) }
{
    let read = match read_scripted(alloc, &scripted(words), shelf) {
        Ok(read) => read,
        Err(outcome) => return Err(outcome),
    };
    match make_ready(alloc, read, words.rate) {
        Ok(ready) => Ok(ready),
        Err(_) => Err(Outcome::Memory),
    }
}
