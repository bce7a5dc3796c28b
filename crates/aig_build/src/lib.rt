//! Netlists as graphs of AND nodes.
//!
//! [`build_within`] turns a flat circuit into an `aig_core` graph with at most so many AND nodes, and [`build`] into one with
//! at most [`MOST_NODES`]. Its sources are the regular inputs, the parameters and the latches; its roots are the outputs and
//! the next states of the latches. A cover, which is a list of rows of cells, becomes AND nodes. Products of many literals
//! are balanced: a list is halved until one literal is left, so a product of k literals has the least possible depth. A row
//! is the balanced AND of the literals that its cells require. A cover is 1 unless all its rows fail. So it is the complement
//! of the balanced AND of the complements of its rows, complemented once more if its rows are its off-set.
//!
//! `specs/NetlistGraph.antt` defines the graph of a netlist without any memory: a signal is built over its inputs, each of
//! which is built before it, from left to right, and again at every use. Building it again adds no node, since no AND is
//! created twice (`proofs/CoverLemmas.antt`). So the code builds each cover once, in the flat circuit's order, and remembers
//! its literal. `proofs/SignalLemmas.antt` shows that this gives the same nodes with the same indices: the order is the
//! depth-first postorder from the roots, in which the signals first meet the covers.
//!
//! `specs/CoverNodes.antt` has products, rows and covers as relations between the nodes before, the nodes after and a
//! literal. `specs/CoverMade.antt` has them as functions, and `proofs/OnlyLemmas.antt` shows that both are the same.
//! `proofs/CoverLemmas.antt` shows that the literal has the value of the cover. `proofs/NetValueLemmas.antt` shows that the
//! literal of each net has the value which evaluating the flat circuit gives it, so the roots have the outputs and the next
//! states of the source circuit's cycle (`specs/NetlistCycle.antt`). `proofs/NetlistExample.antt` works out a multiplexer.
#![tactic(auto)]

mod balanced;
mod build_err;
mod building;
mod cover;
mod net_lits;

pub use build_err::BuildErr;
pub use building::{build, build_within};

/// The maximal number of AND nodes in the graph that [`build`] gives.
pub const MOST_NODES: u32 = 131_072;
