//! The command `pace`.
ghost use Rattle.std.specs.Prelude.{◌≡◌};
ghost use Rattle.cmd_base.specs.Walk.{PortlessEnds, HasLaws};
ghost use Rattle.cmd_pace.specs.Job.{pace_seen, IsInRange};
ghost use Rattle.cmd_pace.specs.Verdict.{pace_walk};

use crate::play::play;
use crate::prepare::prepare;
use crate::words::PaceWords;
use cmd_base::Outcome;
use std::alloc::Global;
use tl_io::{Shelf, Sink};

/// Runs the command: maps a source circuit and plays a script of asks and ticks on it.
pub fn pace_job<S: Shelf, O: Sink>(
    alloc: Global,
    words: &PaceWords,
    shelf: &mut S,
    out: &mut O,
) -> Outcome
    requires { IsInRange words.now }
    ensures ends { PortlessEnds (pace_walk (pace_seen words.now)) (S.seen shelf.old) (S.seen shelf.new) (O.seen out.old) (O.seen out.new) result }
    ensures files { (S.seen shelf.new).files ≡ (S.seen shelf.old).files }
    ensures laws { HasLaws (pace_walk (pace_seen words.now)) }
{
    let mut ready = match prepare(alloc, words, shelf) {
        Ok(ready) => ready,
        Err(outcome) => return outcome,
    };
    let played = play(&mut ready, out);
    drop(ready);
    match played {
        Ok(()) => Outcome::Done,
        Err(_) => Outcome::WriteFault,
    }
}
