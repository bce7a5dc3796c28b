//! Flattens a hierarchy of models.
//!
//! [`flatten`] returns the flat circuit of a library of models, or the library's refusal.
//!
//! The crate `netlist` defines instances, nets, their drivers, the cycle relation (`specs/Cycle.antt`) and sound libraries
//! (`specs/Sound.antt`), and the types of a library and of a flat circuit. A library is checked in five stages
//! (`specs/Faults.antt`): the walk of its models, the weight, the drivers, the clocks, and the loops of covers. The first
//! refusal counts. A library has at most one, and a library without one is sound. Clauses of `flatten` say all this. `specs`
//! has the definitions for public clauses, and `specs/Bodies` those that only function bodies are compared with.
//!
//! `call.rt` has `flatten`. It consists of four steps, each with an exact contract. No walk recurses: each keeps its stack in
//! memory.
//!
//! `model/checks.rt` checks the models:
//! - `walk.rt` walks the models depth first from the main one. `line_check.rt` checks a `.subckt` line.
//! - `weight.rt` computes the weight of the main model.
//! - `drivers.rt` finds names that are driven twice or not at all. `driven.rt` holds the driven names.
//! - `ports.rt` finds names, ports and models by their hashes.
//!
//! `circuit/connect.rt` creates the circuit:
//! - `instances.rt` lists the instances in flat order with their covers and latches, and finds an instance's command.
//! - `nets.rt` is the table of the nets of all names. `net_table.rt` fills it.
//!
//! `clock/clock_check.rt` finds the clock nets, and those that are used as data:
//! - `controls.rt` finds the net of the latch controls. `clocks.rt` marks the inputs that are clock nets.
//! - `wiring.rt` is the input of these searches.
//!
//! `field/assemble.rt` creates the flat circuit:
//! - `flat_gates.rt` creates the covers and the latches, and `flat_ports.rt` the ports.
//! - `loops.rt` orders the covers or finds a loop. `written.rt` writes the names of nets in refusals.
//!
//! `flat_err.rt` has the refusals.
#![tactic(auto)]

mod call;
mod circuit;
mod clock;
mod field;
mod flat_err;
mod model;

pub use call::flatten;
pub use flat_err::FlatErr;
pub use netlist::{Flat, FlatCover, FlatLatch, FlatNet, OutPort};
pub use tl_fault::Names;
