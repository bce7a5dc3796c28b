//! Plays what no contract says of the stages below the commands, and prints what came of it.
//!
//! - `pairs.rt` makes each pair of 1,500 sources twice. A graph that searched its nodes for a pair one by one would compare
//!   some 10^12 pairs, and wouldn't end in the time that a program has.
//! - `small.rt` lists the cuts of two small graphs, which were found by hand, and the values of one of them.
//! - `texts.rt` reads scripts at a limited rate, and writes packs in version 1. No command makes these calls.
//! - `changes.rt` makes 4,000,000 changes of a pack with 60,000 nodes, each of which reads one of them. Reading all of them at
//!   each change wouldn't end in that time either.
#![tactic(auto)]

mod changes;
mod pairs;
mod small;
mod stop;
mod texts;

use crate::changes::play_changes;
use crate::pairs::make_pairs;
use crate::small::{list_cuts, list_values};
use crate::stop::StageStop;
use crate::texts::{list_events, list_packs};
use std::process::ExitCode;

fn play(rt: &HostRuntime) -> Result<(), StageStop> {
    make_pairs(rt)?;
    list_cuts(rt)?;
    list_values(rt)?;
    list_events(rt)?;
    list_packs(rt)?;
    play_changes(rt)
}

fn main(rt: HostRuntime) -> ExitCode {
    match play(&rt) {
        Ok(()) => ExitCode::from(0),
        Err(StageStop::Refused) => ExitCode::from(3),
        Err(StageStop::Outside) => ExitCode::from(6),
        Err(StageStop::Memory) => ExitCode::from(8),
    }
}
