//! Depth-first walks over numbered nodes.
//!
//! A graph implements [`Successors`]: it lists the edges of each node, from left to right. An edge leads to a node, is a
//! stop, or is ignored. A [`Walk`] goes from a start along the edges, depth first. Either it reaches an *end*, which is a
//! stop or a node that is already on the current path; or it lists all that the start reaches in *postorder*, each node after
//! its successors. Later walks skip nodes that are done, until the walk is cleared, so many walks share one vector of marks.
//! The stack is in memory, and no call recurses.
//!
//! `specs/DepthFirst.antt` defines the walk as a recursion without memory, by relations: which end it reaches, and the
//! postorder. It also defines a walk that skips the nodes entered before, which reaches the same end or lists the nodes in
//! this order. `specs/Order.antt` has orders in which each node is after its successors, `specs/Reach.antt` what a node
//! reaches, `specs/Edges.antt` edges and the nodes of a graph, and `specs/Walk.antt` what the calls say with them. Lists of
//! nodes there have their last node first: the head is the node that was left last, or entered last. `proofs/Examples.antt`
//! works out a diamond, a loop and a stop. `proofs/FallLemmas.antt` shows that a walk along edges to lower nodes reaches no
//! end.
//!
//! `edge.rt` has the edges and the trait, `frames.rt` the marks and the stack, `run.rt` the walk from one start, and
//! `walk.rt` the public type.
#![tactic(auto)]

mod edge;
mod frames;
mod run;
mod walk;

pub use edge::{Edge, End, Successors};
pub use walk::Walk;
