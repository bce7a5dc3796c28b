//! Netlists: their types and their meaning.
//!
//! A [`Library`] is a list of models, as in a netlist in the Berkeley Logic Interchange Format (BLIF, manual of July 1992). A
//! model has ports and *commands*, which are covers, latches and subcircuits. A cover is a single-output function, given by
//! rows of cells (`specs/CoverValue.antt` defines its value).
//!
//! An *instance* is an occurrence of a model, identified by a path of `.subckt` ordinals from the main model. A *net* is a set
//! of connected names: a formal and its actual belong to one net. It is identified by its *driver*, which is a main input, a
//! latch or a cover. The *cycle relation* (`specs/Cycle.antt`) says which values of all names of all instances fit given
//! values of the inputs and the latches. It doesn't flatten or evaluate anything. In a *sound* library (`specs/Sound.antt`) no
//! cover's value depends on itself through covers. Then such values exist, and the values of driven names are unique:
//! [`cycle_law`].
//!
//! A [`Flat`] circuit is a library's circuit without hierarchy. Its nets are numbered by their drivers. Its fields are defined
//! by the library's hierarchical names (`specs/Flat.antt`), so a sound library has at most one. Evaluating its covers in its
//! order gives the values of the cycle relation (`specs/FlatCycle.antt`): [`flat_law`].
//!
//! `blif_read` reads a library from a text, and `blif_flat` flattens one.
//!
//! - `library.rt`, `command.rt`, `cover.rt`, `row.rt`, `cell.rt`, `latch.rt` and `subckt.rt` define the types of a library.
//! - `flat.rt` defines the types of a flat circuit.
//! - `law.rt` states the laws.
#![tactic(auto)]

mod cell;
mod command;
mod cover;
mod flat;
mod latch;
mod law;
mod library;
mod row;
mod subckt;

pub use cell::Cell;
pub use command::{Body, Command};
pub use cover::Cover;
pub use flat::{Flat, FlatCover, FlatLatch, FlatNet, OutPort};
pub use latch::Latch;
pub use law::{cycle_law, flat_law};
pub use library::{BlifModel, Library};
pub use row::Row;
pub use subckt::{Connection, Subckt};
