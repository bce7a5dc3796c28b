//! The least depth of each node when a graph is covered by LUTs of at most K inputs.
//!
//! # The idea
//!
//! A cover assigns cuts to AND nodes, and each cut becomes a LUT. The depth of a node is 0 if it is a source or its cut is
//! empty; otherwise it is one more than the greatest depth in its cut. The least depth of a node follows from the least
//! depths below it: it is the least height of its cuts. So one pass up from the sources finds them all. This is the labelling
//! of FlowMap (Cong and Ding, 1994), with the cuts enumerated instead of found by flows (Cong, Wu and Ding, 1999). Minimal
//! cuts suffice, since a cut that contains another is no lower.
//!
//! # Terms
//!
//! - A *cut* of a node is a set of regular sources and AND nodes below it that blocks each path down to a regular source. The
//!   constant and the parameters always block (crate `cut_sets`, `specs/Cuts.antt`).
//! - The *height* of a cut is 0 if it is empty, otherwise one more than the greatest label of its leaves.
//! - The *label* of a source is 0. The label of an AND node is the least height of its minimal cuts.
//! - The *best cut* of an AND node has the least height; among these the fewest leaves; among these the lexicographically
//!   least list of leaves.
//!
//! `specs/Label.antt` defines these. `AreLabelled` is what `labels` returns. `AreLeastDepths` is what it means: no cover of
//! the graph, whatever its cuts, has a node at a lower depth than its label.
//!
//! # What the loop keeps
//!
//! The labels of the first n nodes are known (`specs/Fold.antt`, `AreLabelledTo`). Each is the height of the node's best cut.
//! No label is above the index of its node, so one more than a label still fits its type. The cuts of a row are in order,
//! those with fewer leaves first, so the first of the lowest cuts is the best one.
#![tactic(auto)]

mod labelling;
mod node_labels;

pub use labelling::labels;
pub use node_labels::Labels;
