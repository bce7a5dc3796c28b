//! Reads netlists in the Berkeley Logic Interchange Format (BLIF, manual of July 1992).
//!
//! [`read`] returns the [`Library`] of models that a text denotes, or the text's first refusal. A *statement* is a logical
//! line: its keyword (`.model`, `.inputs`, ..) and its arguments. The lines from one `.model` up to the next are a model. It
//! has ports and *commands*, which are covers (`.names` and the rows directly after it), latches and subcircuits.
//!
//! A cover is the single-output function of a `.names` command, given by rows of cells, one cell per input. A row matches
//! input values if each of its cells is `-` or equals its input. All rows of a cover have the same output character. With
//! `1` the rows are the on-set: the cover is 1 exactly when some row matches. With `0` they are the off-set: the cover is 1
//! exactly when no row matches.
//!
//! What a text denotes is a relation that doesn't depend on an order of reading (`specs/Denotes.antt`). The refusal is the
//! first one of a table (`specs/LineFault.antt`, `specs/ReadFault.antt`). A text has a library or a refusal, never both. It
//! denotes at most one library, which is well formed (`netlist/specs/WellFormed.antt`).
//!
//! - `read_text.rt` has `read`, `reader.rt` the pass over the lines, and `open_model.rt` the model that is being read.
//! - `statement.rt`, `row_line.rt`, `latch_line.rt`, `connections.rt` and `port_list.rt` each read one kind of line.
//! - `blif_err.rt` and `keyword.rt` have the refusals and the first tokens of lines.
//!
//! `netlist` defines the types of a library and their meaning.
#![tactic(auto)]

mod blif_err;
mod connections;
mod keyword;
mod latch_line;
mod open_cover;
mod open_model;
mod port_list;
mod read_text;
mod reader;
mod row_line;
mod statement;

pub use blif_err::BlifErr;
pub use netlist::{BlifModel, Body, Cell, Command, Connection, Cover, Latch, Library, Row, Subckt};
pub use read_text::read;
