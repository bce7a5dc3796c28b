//! The command `run`.
ghost use Rattle.std.specs.Prelude.{◌≡◌, ◌≤◌, ◌+◌, length};
ghost use Rattle.tl_io.specs.Causes.{Rose};
ghost use Rattle.cmd_base.specs.Walk.{HasLaws};
ghost use Rattle.cmd_run.specs.Run.Job.{run_seen, IsInRange};
ghost use Rattle.cmd_run.specs.Run.Verdict.{run_walk, JobEnds};
ghost use Rattle.cmd_run.specs.Run.Ready.{played_outcome};

use crate::run::play::play;
use crate::run::prepare::prepare;
use crate::run::words::RunWords;
use cmd_base::Outcome;
use run_core::StepErr;
use std::alloc::Global;
use tl_io::{ConfigPort, Shelf, Sink};

// The outcome of a job that was played.
fn outcome_of(played: Result<(), StepErr>) -> Outcome
    ensures { result ≡ played_outcome played }
{
    match played {
        Ok(()) => Outcome::Done,
        Err(StepErr::WriteFault) => Outcome::WriteFault,
        Err(StepErr::PortFault) => Outcome::PortFault,
    }
}

/// Runs the command: maps a source circuit, and plays a script on it.
pub fn run_job<S: Shelf, O: Sink, P: ConfigPort>(
    alloc: Global,
    words: &RunWords,
    shelf: &mut S,
    out: &mut O,
    ports: &mut Vec<P>,
) -> Outcome
    requires { IsInRange (length ports.old.items) words.now }
    ensures ends { JobEnds P.port_seen words.now (S.seen shelf.old) (S.seen shelf.new) (O.seen out.old) (O.seen out.new) ports.old.items ports.new.items result }
    ensures files { (S.seen shelf.new).files ≡ (S.seen shelf.old).files }
    ensures laws { HasLaws (run_walk (run_seen words.now)) }
{
    match prepare(alloc, words, shelf) {
        Ok(mut ready) => {
            let played = play(alloc, &mut ready, words.ports, out, ports);
            drop(ready);
            outcome_of(played)
        }
        Err(outcome) => outcome,
    }
}
