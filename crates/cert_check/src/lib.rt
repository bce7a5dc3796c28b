//! Certificates of least depth, and a checker that trusts nobody.
//!
//! # The idea
//!
//! A cover assigns to AND nodes of a graph cuts of at most K leaves, each of which becomes a LUT. One can show that no cover
//! has a depth below D without looking at any cut. A certificate claims depths for AND nodes, one after another, and shows
//! each claim by paths from regular sources, fan-in by fan-in, up to the node:
//!
//! - A claim of 1 has one path. So the empty set isn't a cut of the node, and the node needs a LUT.
//! - A claim H of 2 or more has K + 1 paths, which share only nodes with a claim of H - 1 or more. Each cut of the node has a
//!   node of each path as a leaf, and at most K leaves. So two paths share a leaf, whose claim, and so whose depth in any
//!   cover, is H - 1 or more.
//!
//! This is the half of FlowMap (Cong and Ding, 1994) that shows that there is no better cut: by Menger's theorem there are K
//! + 1 disjoint paths if no cut has K nodes.
//!
//! # Terms
//!
//! `specs/Valid.antt` defines when a certificate is valid, and what a valid one shows (`IsLowerBound`), in terms of the
//! paths, covers and depths of crate `cut_sets` (`specs/Paths.antt`, `specs/Covers.antt`).
//! `specs/Faults.antt` has the fault of an invalid certificate: the first rule that it breaks. `proofs/CertExample.antt`
//! works out a certificate of depth 2.
//!
//! The text of a certificate is the line `depth D`, and for each step a line `claim NODE H` and a line `path NODE NODE ..`
//! for each path. `specs/CertText.antt` defines which text is that of which certificate, and the first malformed line;
//! `specs/WrittenText.antt` defines the text that is written. `proofs/CertExample.antt` reads some.
//!
//! # The calls
//!
//! - [`check`] returns `Ok` if and only if a certificate is valid, and otherwise its first fault (`checking.rt`;
//!   `step_check.rt` has the check of a step, `path_check.rt` that of a path, and `sharing.rt` that of shared nodes). It uses
//!   no cuts and no labels.
//! - [`read_cert`] reads a text (`cert_text.rt`, its lines in `cert_lines.rt` and `saying.rt`).
//! - [`put_cert`] writes one (`written.rt`). Reading it gives the same certificate, except for the line numbers.
//!
//! # Source
//!
//! Cong and Ding, "FlowMap: an optimal technology mapping algorithm for delay optimization in lookup-table based FPGA
//! designs", 1994, for the cuts, and the flow that the paths represent.
#![tactic(auto)]

mod cert_err;
mod cert_lines;
mod cert_text;
mod certificate;
mod checking;
mod path_check;
mod saying;
mod sharing;
mod step_check;
mod written;

pub use cert_err::CertErr;
pub use cert_text::read_cert;
pub use certificate::{Certificate, NodePath, Step};
pub use checking::check;
pub use written::put_cert;
