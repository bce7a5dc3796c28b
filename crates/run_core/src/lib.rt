//! The script machine: a mapped circuit whose host changes parameters while its clock ticks.
//!
//! A [`Host`] plays the events of the host over a pack: it changes parameters, upsets bits, scrubs them, and prints the
//! configuration. A [`Machine`] is a host together with the circuit of LUTs that the clock plays under the host's
//! configuration. The events of both come in one order, that of the script.
//!
//! A step plays its event, then sends its writes to a bank of configuration ports, and then writes its line. So the state is
//! the one after the event, whatever the step returns. If a port fault ended the step, no byte of the line was written; if a
//! write fault ended it, the whole send was made and a prefix of the line was written.
//!
//! `specs/Events.antt` has the effect of an event on the state and its line, and `specs/Ends.antt` what it sends and how a
//! step ends. No event allocates memory.
#![tactic(auto)]

mod host;
mod script_machine;
mod step_err;

pub use host::Host;
pub use script_machine::Machine;
pub use step_err::StepErr;
