//! The command line. [`tlut_by`] runs the command given by its arguments with a rule that chooses cuts, and [`tlut`] does so
//! with the rule of the fewest leaves.
//!
//! Each command is in another crate, with its arguments, its walk and its job; `cmd_base` has what they share. This crate
//! only chooses among them, and states what a call says about itself, whatever the command.
//!
//! - `call.rt` has both calls, and the choice of a command's job.
//! - `command.rt` parses the arguments of all commands, and writes the fault line.
//! - `outputs.rt` says which files a call writes, and how many ports it uses.
//!
//! `specs/Commands.antt` has the forms and the walk of each command, `specs/Outputs.antt` what each one writes, and
//! `specs/Call.antt` how a call ends. `specs/Meaning.antt` says what each status means, one field for each clause. A new command
//! adds an entry to `command.rt`, to `outputs.rt` and to their `specs/`, and to the choice in `call.rt` with its answer.
#![tactic(auto)]

mod call;
mod command;
mod outputs;

pub use call::{tlut, tlut_by};
pub use cmd_base::{File, Outcome, Status};
pub use command::report;
pub use cover_pick::Rule;
pub use outputs::{Outputs, outputs_of};
