//! Preparing the job of `run`.
ghost use Rattle.std.specs.Prelude.{◌≡◌, ◌≤◌, IfOk, IfErr, OnOk};
ghost use Rattle.tl_text.specs.declared.logical_lines.TheConstants.{MOST_BYTES};
ghost use Rattle.tl_io.specs.Shelf.{Files};
ghost use Rattle.cut_sets.specs.declared.limits.TheConstants.{MOST_LEAVES};
ghost use Rattle.run_text.specs.EventValue.{event_values};
ghost use Rattle.cmd_base.specs.Walk.{Told, Explains, KeepsFiles};
ghost use Rattle.cmd_stations.specs.Tables.{IsReadSource, AreMade};
ghost use Rattle.cmd_run.specs.Run.Job.{run_seen, run_reading};
ghost use Rattle.cmd_run.specs.Run.Ready.{CanPlay, StartsOn, IsReadyFor};

use crate::run::words::{RunWords, scripted};
use cmd_base::Outcome;
use cmd_stations::{MappedSource, Scripted, Source, SourceTables, latch_inits, read_scripted};
use run_core::Machine;
use run_text::Event;
use std::alloc::{AllocError, Global};
use tl_io::Shelf;

/// A job that is ready to be played: all its memory is allocated.
#[derive(Drop)]
pub struct Ready {
    pub machine: Machine,
    pub events: Vec<Event>,
}

// The machine of a source circuit's LUTs, in its initial state.
fn start_machine(
    alloc: Global,
    source: &Source,
    tables: SourceTables,
) -> Result<Machine, AllocError>
    requires read { IsReadSource source.now }
    requires tables { AreMade source.now tables }
    ensures { IfOk result (StartsOn source.now tables.template) }
{
    let states = latch_inits(alloc, source)?;
    let machine = Machine::make(alloc, tables.template, tables.pack, tables.shape, &states)?;
    Ok(machine)
}

/// The job of a mapped source circuit and its script.
///
/// `Err` only if memory runs out.
pub fn make_ready(alloc: Global, scripted: Scripted) -> Result<Ready, AllocError>
    requires read { IsReadSource scripted.mapped.source }
    requires tables { AreMade scripted.mapped.source scripted.mapped.tables }
    ensures start { IfOk result (λ r. StartsOn scripted.mapped.source scripted.mapped.tables.template r.machine) }
    ensures events { IfOk result (λ r. r.events.items ≡ scripted.events.items) }
{
    let Scripted { mapped, events } = scripted;
    let MappedSource { source, tables } = mapped;
    let started = start_machine(alloc, &source, tables);
    drop(source);
    let machine = started?;
    Ok(Ready { machine, events })
}

/// Reads and maps the files of a job in the order of work, and allocates all the memory that its events need.
///
/// # Errors
/// The outcome of the command: the first refusal, a read fault, or out of memory.
pub fn prepare<S: Shelf>(alloc: Global, words: &RunWords, shelf: &mut S) -> Result<Ready, Outcome>
    requires least { 2 ≤ words.now.source.k }
    requires most { words.now.source.k ≤ MOST_LEAVES }
    ensures ready { IfOk result (λ r. CanPlay (event_values r.events.items) r.machine) }
    ensures prepared { IfOk result (λ r. Told (S.seen shelf.old).files (λ files. IsReadyFor files (run_seen words.now) r)) }
    ensures given { OnOk result ((S.seen shelf.new).given ≤ MOST_BYTES) }
    ensures err { IfErr result (Explains (run_reading (run_seen words.now)) (S.seen shelf.old) (S.seen shelf.new)) }
    ensures keeps { KeepsFiles (S.seen shelf.old) (S.seen shelf.new) }
{
    let read = match read_scripted(alloc, &scripted(words), shelf) {
        Ok(read) => read,
        Err(outcome) => return Err(outcome),
    };
    match make_ready(alloc, read) {
        Ok(ready) => Ok(ready),
        Err(_) => Err(Outcome::Memory),
    }
}
