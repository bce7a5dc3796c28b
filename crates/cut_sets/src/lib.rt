//! Definitions of LUT mapping: cuts of a node, covers of a graph by cuts, their depth, and labels; and how cuts are stored.
//!
//! # Cuts
//! A set of nodes *blocks* a node in three cases: the node is in the set; it is the constant or a parameter; or it is an AND
//! node whose two fan-ins the set blocks. So the values of the set and of the parameters determine the value of the node. A
//! *cut* of an AND node is an ascending list of at most k regular sources and AND nodes, all below the node, that blocks it.
//! Its members are the *leaves*; a k-input LUT over them can compute the node. A cut is *minimal* if no proper part of it is
//! a cut (`specs/Cuts.antt`). Cuts are ordered by the number of leaves and then lexicographically (`specs/Sets.antt`, and
//! [`comes_before`]).
//!
//! # Covers
//! A *cover* assigns cuts to AND nodes. It contains every AND node of a root and every AND leaf of its cuts. Its depth, and
//! the least depth of any cover, are in `specs/Covers.antt`.
//!
//! # Labels
//! The *height* of a cut is 0 if it is empty, otherwise one more than the greatest label of its leaves. The *label* of an AND
//! node is the least height of its cuts, and that of a source is 0 (`AreLeastHeights` of `specs/Labels.antt`). No cover has a
//! node at a lower depth than its label. [`NodeLabels`] holds a label for each node.
//!
//! # Storage
//! A [`FlatCut`] is a cut as plain data, with its signature. [`CutRows`] holds a row of cuts for each node, with all leaves in
//! one vector.
//!
//! # Laws
//! `proofs/BlockLemmas.antt` shows that blocking is decidable, that each cut contains a minimal one, and that each list of at
//! most k nodes that blocks a node contains the node itself or a minimal cut (`EachContainsOne`).
//! `proofs/AscendingLemmas.antt` is about ascending lists that contain one another, and `proofs/OrderLemmas.antt` about the
//! order of cuts. `proofs/LeastHeightLemmas.antt` shows that least heights are least depths, and `proofs/PickLemmas.antt` that
//! more than k paths that share no low node leave no low cut of k leaves. Crate `cut_enum` finds the minimal cuts; its `proofs/Examples.antt` works out those of a small graph.
//!
//! # Source
//! Cong and Ding, "FlowMap: an optimal technology mapping algorithm for delay optimization in lookup-table based FPGA
//! designs", 1994, for cuts, covers and depth; Bruneel and Stroobandt, "Tuneable lookup tables", for parameters that cost
//! nothing.
#![tactic(auto)]

mod flat;
mod limits;
mod node_labels;
mod order;
mod rows;
mod signatures;

pub use flat::{FlatCut, before, is_part, is_subset, joined, joined_within};
pub use limits::{MOST_CUTS, MOST_LEAVES};
pub use node_labels::NodeLabels;
pub use order::comes_before;
pub use rows::CutRows;
pub use signatures::{leaf_bit, signature};
