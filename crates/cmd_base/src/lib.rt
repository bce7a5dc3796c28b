//! What all commands share: how a call ends, and what its arguments and files call for.
//!
//! A *command* is its arguments and the files that they name. It works through them in order, and refuses a file before it
//! reaches the next one. The way it ends is an *outcome*: done, a refusal of a file with the details of its fault line, or an
//! external fault. The outcome that the arguments and files call for is the *verdict*, defined independently of the code: a
//! *walk* (`specs/Walk.antt`), which each command defines, and what each outcome says about it.
//!
//! - `outcome.rt` has [`Outcome`] and [`File`], `status.rt` the [`Status`] of each, and `refusals.rt` the refusal of any
//!   file.
//! - `fault_line.rt` writes the line of an outcome to stderr.
#![tactic(auto)]

mod fault_line;
mod outcome;
mod refusals;
mod status;

pub use fault_line::report;
pub use outcome::{File, Outcome};
pub use refusals::too_long;
pub use status::Status;
