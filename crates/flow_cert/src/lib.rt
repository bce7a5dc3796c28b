//! Creates certificates of least depth.
//!
//! # The idea
//!
//! The label of an AND node is its least depth in any cover (crates `depth_label` and `flow_label`). A certificate shows it by
//! paths (crate `cert_check`): a label of 1 by one path from a regular source, and a label H of 2 or more by K + 1 paths that
//! share no node with a label below H - 1. By Menger's theorem there are such paths if no cut of at most K leaves has the
//! height H - 1. What FlowMap (Cong and Ding, 1994) finds by a flow of K + 1 is found by the search of crate `flow_label`.
//!
//! A claim is made only if it is needed: for the node of the first root that needs the depth, and for each node that is on
//! two paths of a step above it. So the nodes are visited in descending order, with marks.
//!
//! # Terms
//!
//! - `specs/Needed.antt`: each claim is the label of its node, and exactly the needed nodes are claimed, so that only the
//!   paths are free. `proofs/NeededExample.antt` works some out.
//! - `specs/Marks.antt`, `Steps.antt`, `Target.antt` say what the bodies keep.
//!
//! # The calls
//!
//! - [`certify_by_flow`] creates the certificate from labels that are least heights, [`certify`] from those of a table of cuts
//!   (`certifying.rt`): the depth of the roots (`target.rt`), and the steps of the marked nodes from above (`steps.rt`,
//!   `marks.rt`).
//! - A step (`step.rt`) has one path down (`down.rt`), or K + 1 paths (`paths.rt`).
//! - The working memory is allocated once (`memory.rt`). So the cost of a node is that of its walk and its searches, and
//!   doesn't depend on the size of the graph.
//!
//! # Source
//!
//! Cong and Ding, "FlowMap: an optimal technology mapping algorithm for delay optimization in lookup-table based FPGA
//! designs", 1994.
#![tactic(auto)]

mod certifying;
mod down;
mod marks;
mod memory;
mod paths;
mod step;
mod steps;
mod target;

pub use certifying::{certify, certify_by_flow};
