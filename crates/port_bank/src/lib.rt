//! Ports that serve the regions of a configuration, with spares.
//!
//! A [`Bank`] has boxed ports in four groups: those that serve, the spares, others that are never called, and those that
//! failed. The addresses of a configuration are divided into regions of equal width: the number of bits divided by the number
//! of serving ports, rounded up. Each serving port has the region of its place. [`PortBank::load`] writes the whole
//! configuration, and [`PortBank::send`] the writes of an event, each to the port of its region.
//!
//! A port whose write fails moves to the end of the failed ones and is never called again. The first spare replaces it. The
//! spare is written its whole region from the configuration after the event, so the other writes of the event to that region
//! are not sent again. A spare that fails during this load is replaced in the same way. If no spare is left, the call returns
//! [`PortFault`].
//!
//! - `specs/Bank.antt` has the groups and the effect of one port call on them, `specs/Regions.antt` the regions.
//! - `specs/Send.antt` defines which calls a send makes, given what these calls return; `proofs/Examples.antt` has an example.
//! - `specs/Image.antt` defines what the log of a port shows, and which configuration a bank holds.
//! - `specs/Moves.antt` defines which ports a send moves, each with its cause.
//!
//! The bank is generic in the type of its ports, since a contract about a box can say only what the clauses of the trait say.
//! Nothing is assumed about the counts of a port that was never called.
#![tactic(auto)]

mod bank;
mod boxes;
mod regions;

pub use bank::{Bank, PortBank, PortFault};
