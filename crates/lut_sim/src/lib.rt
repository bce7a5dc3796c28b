//! Simulates the LUTs of a mapped circuit, cycle by cycle, under any configuration.
//!
//! # The idea
//!
//! A mapped circuit has no gates left. Each LUT looks up one configuration bit, at the address given by the values of its
//! leaves. So the configuration determines what the circuit does, and a configuration in which a fault has flipped a bit is
//! one like any other. A cycle is a relation between the values of all literals, without an order (`specs/Cycle.antt`). Since
//! each LUT reads from below its own node, one pass over the LUTs in ascending order finds these values.
//!
//! # Terms
//!
//! - A *literal* is twice the index of a node, plus one for its complement. Index 0 is the constant. The *sources* follow:
//!   the regular inputs, the parameters, the latches. Regular inputs and latches are the *regular sources*. A [`Shape`] has
//!   the number of each.
//! - A *LUT* belongs to a literal and has leaves, which are regular sources or nodes with LUTs of their own. A LUT of m
//!   leaves has 2^m bits of the *configuration*, which begin at its *base*. Its *address* is the base plus the number whose
//!   binary digits are the values of its leaves, where leaf 0 is the lowest digit.
//! - *Playing* a LUT gives the bit at its address to its literal. The positive literal of a regular source is a wire: it
//!   always has the value of the source.
//! - A *root* is an output or the next state of a latch. Its value is that of its literal.
//! - Values of the literals *fit* the LUTs if each regular source has its input or state, and each LUT its bit.
//!
//! # What is kept
//!
//! The circuit in a [`Sim`] is *playable* (`specs/Playable.antt`): the LUTs ascend by their literals; their bases are the
//! sums of the bits before; a leaf that isn't a regular source is above all sources, below the node of its LUT, and has a LUT
//! itself. So exactly one value of each literal fits: a cycle is that of the relation (`IsTableCycle`), and the roots have
//! the same values whatever values fit (`IsOnlyTableCycle`). A template that maps a graph can be played in the shape of the
//! graph's sources (`specs/GraphShape.antt`; the clause `playable` of `Shape::new`).
//!
//! # The files
//!
//! `shape` has the sources, `play` a cycle on a list of values, `board` the circuit with this list, and `sim` the public
//! type.
#![tactic(auto)]

mod board;
mod play;
mod shape;
mod sim;

pub use shape::{Shape, is_plain};
pub use sim::Sim;
