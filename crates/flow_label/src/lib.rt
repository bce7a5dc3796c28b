//! Labels by flow: the least depth of each node, and a cut of that height, without any table of cuts.
//!
//! # The idea
//!
//! The label of an AND node is p or p + 1, where p is the greatest label of its fan-ins: no cut is lower than the label of a
//! fan-in, and the fan-ins themselves are a cut of height p + 1. It is p if some cut of at most K leaves has only labels below
//! p. FlowMap (Cong and Ding, 1994) decides this by a flow of K + 1. Here it takes three steps, of which the first mostly
//! suffices:
//!
//! - The *join*: a fan-in with a label below p gives itself, and one with label p its own low cut. If the union has at most K
//!   leaves, it is such a cut.
//! - The *walk*: down from the node through nodes of label p. The nodes of lower labels that are read there are the *ends*. At
//!   most K ends are such a cut.
//! - The *search*: for up to K + 1 paths from regular sources that share no node of a label below p. With K + 1 paths there is
//!   no such cut, and the label is p + 1. Otherwise what the last search met and did not pass is such a cut.
//!
//! A node is *free* if no regular source is at or below it: its label is 0, its cut is empty, and no other cut needs it.
//!
//! # Paths as a matching
//!
//! Consider a node and a height of at least 2, here p + 1. Another node is *low* if its label is below the height minus one,
//! and otherwise *deep*.
//!
//! - Labels don't fall on the way up, so the deep nodes are at the top. The walk gives each node that it meets a *reader*, from
//!   which it was met first. The low nodes that it meets are the ends.
//! - At most one path may pass a low node. So each low AND node chooses one of its fan-ins, or itself if no path passes it;
//!   and the node chooses an end for each path. No low node is chosen twice. `owner` is the node that has chosen it. One more
//!   path is one more pair of this matching.
//! - A search begins at the ends, and goes on from what it met last. A node without an owner, which is a regular source, ends
//!   it. If an inner node owns the node, the search *passes* that inner node: it continues with it and its fan-ins, first with
//!   the one that is nearer to a source. Finally the owners along the search are changed, from its last node back.
//! - A search that meets no such node has met few low nodes that block the node: without those that it passed at most as many
//!   as there are paths.
//! - The paths are read upwards from their starts: from owner to owner, and from an end on from reader to reader.
//!
//! # What is proved
//!
//! [`labels_by_flow`]: labels are least heights over all cuts of at most K leaves (`AreLeastHeights` in crate `cut_sets`), so no
//! cover has a node at a lower depth; each low cut is a cut of its node with the label as its height; a graph has one label
//! for each node. `AreLowsOf` says which of the cuts of that height is the low cut: the live fan-ins, the join, the ends or, of
//! all least cuts, the one that is nearest to the node. A graph has one such cut for each node.
//!
//! [`paths_to`]: K + 1 paths (`ArePathsTo`) to a node, each cut of which has a given height at least, given the labels below.
//!
//! # Where what is
//!
//! - `specs/Lows.antt` (which cut the low cut is), `Value.antt` (what is used of the labels below), `Net.antt` (readers and
//!   ends), `Links.antt` (the matching and the paths), `Search.antt`, `Memory.antt`, `Walks.antt`, `Barriers.antt` (low cuts), `Parts.antt`
//!   (what fan-ins give), `Labelled.antt` and `LowCuts.antt` (labels and low cuts node by node), `Stamps.antt`.
//! - A node (`node.rt`): the join, and the question (`question.rt`) with the walk (`walk.rt`), the search (`search.rt`), the path
//!   that it adds (`augment.rt`, `links.rt`), the cut (`barrier.rt`), and the paths as lists (`ways.rt`), all for one `Site`
//!   (`site.rt`).
//! - The working memory is allocated once (`scratch.rt`), and cleared in one step (`stamped.rt`). So the cost of a node is that
//!   of its walk and its searches, and doesn't depend on the size of the graph.
//!
//! # Source
//!
//! Cong and Ding, "FlowMap: an optimal technology mapping algorithm for delay optimization in lookup-table based FPGA
//! designs", 1994.
#![tactic(auto)]

mod augment;
mod barrier;
mod flow_labels;
mod labelling;
mod links;
mod live;
mod node;
mod question;
mod scratch;
mod search;
mod site;
mod stamped;
mod steps;
mod tight;
mod trunks;
mod walk;
mod ways;

pub use flow_labels::FlowLabels;
pub use labelling::labels_by_flow;
pub use live::is_live;
pub use question::paths_to;
pub use scratch::{Scratch, new_scratch};
pub use stamped::Stamped;
