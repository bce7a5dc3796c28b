//! The commands `run` and `gen`: they map a source circuit and play the events of a script on its LUTs.
//!
//! A *job* is a source circuit, the template to which it is mapped, and the events of a script. All the memory that its
//! events need is allocated before the first byte is written: then the job is *ready*. `gen` plays a generated case, whose
//! texts are read like the files of `run`: its walk is that of `run` over them.
//!
//! - `run/` and `gen_command/` are the commands: the arguments, the preparation and the playing of each.
//!
//! The folders of `specs/` are the same.
#![tactic(auto)]

mod gen_command;
mod run;

pub use gen_command::job::gen_job;
pub use gen_command::words::{GenWords, read_gen};
pub use run::job::run_job;
pub use run::words::{PortCounts, RunWords, file_name as run_name, read_run};
