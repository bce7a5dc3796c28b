//! The minimal cuts of each AND node of a graph, in which parameters cost nothing.
//!
//! A *cut* of an AND node is an ascending list of at most k nodes below it, its *leaves*, each of which is a regular
//! source or an AND node. It blocks the node: if the values of the leaves and of the parameters are known, so is the
//! value of the node. The definitions are in crate `cut_sets` (`specs/Cuts.antt`), with covers made of cuts.
//!
//! # Algorithm
//! `enumerate` visits the nodes in order, so it knows the cuts of both fan-ins of a node. A fan-in passes on a list of
//! cuts:
//!
//! - an AND node passes on the cut of itself alone and its own minimal cuts, or only the empty cut if it has that one;
//! - a regular source passes on the cut of itself alone;
//! - the constant and a parameter pass on the empty cut.
//!
//! The least unions of a cut of either list, of at most k leaves, are the node's minimal cuts. No minimal cut is lost.
//! A set that blocks the node and doesn't contain it blocks both fan-ins. Hence it contains a cut that each fan-in
//! passes on, and their union. And a minimal cut contains no other cut. The proof needs one law of the fan-ins' cuts
//! (`EachContainsOne`): each list of at most k nodes that blocks a node contains the node itself or one of its minimal
//! cuts. It holds since it can be decided whether a list blocks a node, and since members can be removed from a cut
//! until it is minimal (`proofs/BlockLemmas.antt` of `cut_sets`).
//!
//! Unions are taken by size, the smallest first (`least.rt`). So a cut that is kept is never removed, and a node with
//! too many cuts is known as soon as it has one more than the limit. While unions of one size are taken, only a kept
//! cut of fewer leaves can be contained in a union. If none is, a binary search finds the union's place among those of
//! its own size (`level.rt`). If a cut contains all leaves of its union with another cut, it is that union. It is kept
//! if it contains a cut of the other list. No smaller union is contained in it, since no cut of a list contains another
//! cut of that list. Only two cuts that both have fewer leaves than the union are joined.
//!
//! # Signatures
//! The signature of a cut is a word of 64 bits in which bit (leaf mod 64) is set for each leaf. If a cut's signature has
//! a bit that another's lacks, the other cut doesn't contain it. If two signatures together have more than k bits, the
//! union of the cuts has more than k leaves. Both tests are proved to change no result (`cut_sets/proofs/SignatureLemmas.antt`),
//! and save most comparisons of leaves.
//!
//! Each cut in the table stores its signature. A union's signature is the OR of the two cuts' signatures. While the cuts
//! of a node are computed, their signatures are in a vector of their own, one after another (`signed.rt`). In a list of
//! 32 or more, each eight in a row are a group. A group is skipped if the tested cut's signature lacks a bit that all
//! eight have, or if each of the eight has a bit that it lacks.
//!
//! # Table
//! All leaves are in one vector, first those of the first node's first cut (`CutRows` of `cut_sets`). The cuts of a node are
//! sorted by the number of leaves and then lexicographically. Each cut has its place in the vector and its signature. A node has at most
//! `MOST_OF_A_NODE` cuts and the table at most `MOST_OF_A_TABLE`. A graph that has more is refused at the first node
//! that exceeds a limit. A graph either has a table or exceeds a limit, and only one limit is reported.
//!
//! `proofs/Examples.antt` has the table of a small graph.
//!
//! Sources: Cong and Ding, "FlowMap", 1994, for cuts and labels; Cong, Wu and Ding, "Cut ranking and pruning",
//! 1999, for merging cuts; Bruneel and Stroobandt, "Tuneable lookup tables", for parameters that cost nothing.
#![tactic(auto)]

mod cut;
mod least;
mod level;
mod limits;
mod row;
mod signed;
mod table;

pub use cut::{Cut, merge, within};
pub use cut_sets::MOST_LEAVES;
pub use table::{CutErr, CutTable, enumerate};
