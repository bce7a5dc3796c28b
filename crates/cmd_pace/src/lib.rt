//! The command `pace`: it maps a source circuit and plays a script of asks and ticks on it, with a configuration port that takes a
//! fixed number of bits per tick.
//!
//! - `words.rt`: its arguments. `prepare.rt`: preparing a job. `play.rt`: playing it. `job.rt`: the command.
#![tactic(auto)]

mod job;
mod play;
mod prepare;
mod words;

pub use job::pace_job;
pub use words::{PaceWords, pace_name, read_pace_words};
