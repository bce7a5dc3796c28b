//! The command `gen`.
ghost use Rattle.std.specs.Prelude.{◌≡◌, [], ◌∷◌};
ghost use Rattle.std.specs.List.{concat};
ghost use Rattle.tl_io.specs.Causes.{Rose};
ghost use Rattle.tl_io.specs.Sink.{IsPut};
ghost use Rattle.run_text.specs.EventValue.{event_values};
ghost use Rattle.cmd_base.specs.Walk.{HasLaws};
ghost use Rattle.cmd_stations.specs.Machine.{machine_header};
ghost use Rattle.cmd_run.specs.Run.Ready.{CanPlay, IsReadyFor};
ghost use Rattle.cmd_run.specs.GenCommand.Case.{HasDigits, case_words, case_files};
ghost use Rattle.cmd_run.specs.GenCommand.Verdict.{gen_walk, GenEnds};

use crate::gen_command::lines::{first_line, last_line};
use crate::gen_command::play::play_case;
use crate::gen_command::prepare::prepare_case;
use crate::gen_command::words::GenWords;
use crate::run::prepare::Ready;
use cmd_base::Outcome;
use run_core::{Machine, StepErr};
use std::alloc::Global;
use tl_io::Sink;

// Writes a line, the header line of a machine, and another line.
fn put_lines<O: Sink>(
    machine: &mut Machine,
    first: &str,
    last: &str,
    out: &mut O,
) -> Result<(), StepErr>
    ensures { IsPut (O.seen out.old) (concat (first.now ∷ machine_header machine.old ∷ last.now ∷ [])) (O.seen out.new) result }
{
    out.put(first.as_bytes())?;
    machine.header(out)?;
    out.put(last.as_bytes())?;
    Ok(())
}

// Plays a case that is ready, and prints its lines.
fn play_out<O: Sink>(alloc: Global, words: &GenWords, ready: &mut Ready, out: &mut O) -> Outcome
    requires digits { HasDigits words.now }
    requires can_play { CanPlay (event_values ready.old.events.items) ready.old.machine }
    requires prepared { IsReadyFor (case_files words.now) (case_words words.now.rule) ready.old }
    ensures { GenEnds words.now (O.seen out.old) (O.seen out.new) result }
{
    let totals = play_case(ready);
    let first = match first_line(alloc, words) {
        Ok(line) => line,
        Err(_) => return Outcome::Memory,
    };
    let last = match last_line(alloc, totals) {
        Ok(line) => line,
        Err(_) => return Outcome::Memory,
    };
    match put_lines(&mut ready.machine, first.as_str(), last.as_str(), out) {
        Ok(()) => Outcome::Done,
        Err(_) => Outcome::WriteFault,
    }
}

/// Runs the command: maps a generated multiplier, plays its hundred rounds, and prints their totals.
///
/// All memory is allocated before the first byte of `out`. [`Outcome::Memory`] only if memory runs out: the totals of a
/// generated case always fit their types.
pub fn gen_job<O: Sink>(alloc: Global, words: &GenWords, out: &mut O) -> Outcome
    requires { HasDigits words.now }
    ensures ends { GenEnds words.now (O.seen out.old) (O.seen out.new) result }
    ensures laws { HasLaws (gen_walk words.now) }
{
    match prepare_case(alloc, words) {
        Ok(mut ready) => {
            let outcome = play_out(alloc, words, &mut ready, out);
            drop(ready);
            outcome
        }
        Err(outcome) => outcome,
    }
}
