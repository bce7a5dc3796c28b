//! Incremental specialisation: a change of parameters evaluates only the nodes that it must.
//!
//! A specialiser keeps the value of each node of a pack's graph for the current values of the parameters. A change gives new
//! values to some parameters and marks the AND nodes that read them. Then it takes the least marked node, evaluates it, and
//! marks its readers if its value has changed, until no mark is left. An AND node is above its fan-ins, so each marked node
//! is read once, when everything that it depends on has its new value; and only nodes with a changed fan-in are read
//! (`specs/Touched.antt`). The addresses whose literals changed are marked too, and taken in order: these are the
//! configuration bits to rewrite (Bruneel, Heirman, Stroobandt, 2011, write the bits that change; here they are found without
//! evaluating the others).
//!
//! `specs/Events.antt` has the events of the host as relations over configurations specialised from scratch. In the middle of
//! a sweep the nodes below the current one have their new values and the others their old ones, and the marks are exactly the
//! nodes with a fan-in that has changed so far (`specs/Sweep.antt`). `proofs/EventsExample.antt` works out the events of a
//! multiplexer.
//!
//! The pairs of the pack are read only by counted calls (`dirty_idx`), so all reads of a change are steps of the counter that
//! is passed in. A [`Changer`] shows only the changes of a specialiser.
//!
//! No call after `Specialiser::make` allocates memory or can fail.
#![tactic(auto)]

mod changer;
mod device;
mod evaluation;
mod specialiser;

pub use changer::Changer;
pub use specialiser::Specialiser;
