//! The command `bits`.
ghost use Rattle.std.specs.Prelude.{◌≡◌};
ghost use Rattle.cmd_base.specs.Walk.{PortlessEnds, HasLaws};
ghost use Rattle.cmd_pack.specs.Bits.{bits_seen, bits_walk};

use crate::bits::play::play;
use crate::bits::prepare::prepare;
use crate::bits::words::BitsWords;
use cmd_base::Outcome;
use port_bank::PortBank;
use std::alloc::Global;
use tl_io::{ConfigPort, Shelf, Sink};

/// Runs the command: plays a host script on a pack, with an empty bank of ports of this type.
pub fn bits_job<S: Shelf, O: Sink, P: ConfigPort>(
    alloc: Global,
    words: &BitsWords,
    shelf: &mut S,
    out: &mut O,
) -> Outcome
    ensures ends { PortlessEnds (bits_walk (bits_seen words.now)) (S.seen shelf.old) (S.seen shelf.new) (O.seen out.old) (O.seen out.new) result }
    ensures files { (S.seen shelf.new).files ≡ (S.seen shelf.old).files }
    ensures laws { HasLaws (bits_walk (bits_seen words.now)) }
{
    let mut ready = match prepare(alloc, words, shelf) {
        Ok(ready) => ready,
        Err(outcome) => return outcome,
    };
    let mut bank = PortBank::make(Vec::<P>::new(alloc), 0, 0);
    let played = play(&mut ready, out, &mut bank);
    drop(bank);
    drop(ready);
    Outcome::of_writing(played)
}
