//! Mapped netlists as text in the Berkeley Logic Interchange Format (BLIF), according to its manual of July 1992.
//!
//! [`specialised`] writes the netlist whose LUTs have fixed bits. [`template`] writes the one in which each bit of a LUT is
//! an input. Both have one model, with a cover for each LUT and for each output whose name isn't that of its root.
//!
//! The text is defined in two steps: a netlist without hierarchy and its lines (`specs/PlainNetlist.antt`), and the two
//! netlists of LUTs (`specs/Netlists.antt`) with the names in them (`specs/OwnNames.antt`). `proofs/WrittenExamples.antt`
//! works out four.
//!
//! The meaning of the text is given by the definition of BLIF, not by a reader (`specs/Meaning.antt`): it denotes one model,
//! which is sound, and whose cycles are those of the LUTs. `tl_text/proofs/WrittenLineLemmas.antt` reads the lines again, and
//! `DenoteLemmas.antt` the model. `PlainSoundLemmas.antt` and `PlainCycleLemmas.antt` are about a library of one model
//! without subcircuits. `OrderlyLemmas.antt` shows that the netlists of LUTs are in order, and `TableCycleLemmas.antt` that
//! their cycles are those of the LUTs.
//!
//! - `names.rt` and `words.rt` have the names. The bytes wait in a `WriteBuffer` of `tl_piece`.
//! - `rows.rt` and `tables.rt` have the LUTs, `latches.rt` and `wires.rt` the other commands, `writing.rt` the whole netlist.
#![tactic(auto)]

mod latches;
mod names;
mod rows;
mod tables;
mod wires;
mod words;
mod writing;

pub use writing::{specialised, template};
