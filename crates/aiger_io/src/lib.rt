//! Sequential circuits in the AIGER ASCII format.
//!
//! An AIGER circuit has inputs, latches, outputs and AND gates. Each input, latch and gate has a *variable*, which is a
//! number. A *literal* is twice a variable, plus one for the complement. Variable 0 is the constant 0.
//!
//! A text begins with the header `aag M I L O A`: the greatest variable, and the numbers of inputs, latches, outputs and
//! gates. Then come I lines with the literal of an input; L lines `lhs next` or `lhs next init`; O lines with the literal of
//! an output; A lines `lhs rhs0 rhs1`; symbols, which are lines of `i`, `l` or `o` with an ordinal, a blank, and a name; and,
//! after a line `c`, a comment. A latch starts at 1 if and only if its init is `1`.
//!
//! `specs/AigerText.antt` defines which circuit a text is, from the writer's side: its header, items, symbols and names of
//! ports. The first refusal of a text is in `specs/Refused.antt`. The behaviour of the circuit is defined by its lines alone, in `specs/Run.antt`.
//! `proofs/TextExample.antt` has some texts.
//!
//! [`read_aag`] reads a text as a netlist library (`specs/CircuitLibrary.antt`), whose cycles and runs are those of the
//! circuit. [`put_aag`] writes the circuit of a graph (`specs/GraphCircuit.antt`), with a symbol for each input and each
//! output (`specs/WrittenText.antt`). Its cycles and runs are those of the library from which the graph was built: see
//! [`graph_law`].
//!
//! - `read_text.rt` has `read_aag`, and `aag_err.rt` the refusals.
//! - `rows.rt` and `number.rt` have a text's lines, their words, and numbers; `header.rt` has the header.
//! - `item.rt` and `item_line.rt` read one line of an input, a latch, an output or a gate, and `items.rt` all of them.
//! - `symbol.rt` and `symbols.rt` read the symbols, and `port_names.rt` finds names that occur twice.
//! - `own_name.rt`, `command.rt` and `model.rt` build the library.
//! - `law.rt` has the law.
//! - `written_text.rt` has `put_aag`, and `written_line.rt` the lines that it writes.
//!
//! # Source
//!
//! Biere, "The AIGER And-Inverter Graph (AIG) Format Version 20071012", and for the inits of latches Biere, Heljanko and
//! Wieringa, "AIGER 1.9 And Beyond", 2011.
#![tactic(auto)]

mod aag_err;
mod command;
mod header;
mod item;
mod item_line;
mod items;
mod law;
mod model;
mod number;
mod own_name;
mod port_names;
mod read_text;
mod rows;
mod symbol;
mod symbols;
mod written_line;
mod written_text;

pub use aag_err::AagErr;
pub use law::graph_law;
pub use read_text::read_aag;
pub use written_text::put_aag;
