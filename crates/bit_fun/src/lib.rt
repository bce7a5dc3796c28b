//! The bits of tunable LUTs as functions of the parameters.
//!
//! # The idea
//!
//! The circuit is mapped to LUTs with some inputs, the parameters, left open. These are no leaves, so the bits of a LUT are
//! functions of them (Bruneel, Heirman, Stroobandt, 2011). All these functions are over one AND graph whose sources are the
//! parameters, a pack, so bits share common parts.
//!
//! # Terms
//!
//! - A *LUT* belongs to a literal, which is twice the index of a node, plus one for its complement, and has *leaves*. With m
//!   leaves it has 2^m bits, which begin at its *base*. Its *cone* is the part of the graph between its node and its leaves.
//! - The *values of the parameters* are a list with one bit for each parameter, in the order of the graph's sources
//!   (`specs/Parameters.antt`).
//! - The *bit* at address b of a LUT is the value of its literal under these values: leaf j has the binary digit j of b minus
//!   the base, a parameter has its value, the constant is 0, and an AND node is the product of its two fan-ins
//!   (`specs/BitFunction.antt`).
//! - The *configuration* has the bit of each address (`specs/Configuration.antt`).
//!
//! # What is proved
//!
//! If the LUTs map the graph, the leaves of each LUT block its node: each path down ends at a leaf, a parameter or the
//! constant. So there is exactly one bit at each address, and exactly one configuration for each list of values of the
//! parameters (`bit`, `configuration`): both are functions of the values of the parameters alone. The law of the
//! configuration follows (`IsLawful` of `specs/Configuration.antt`): whatever values the regular sources have, the values of the graph's literals
//! fit the LUTs under it. So a cycle of the LUTs is a cycle of the graph.
//!
//! [`functions`] builds these functions: all bits as literals of one graph over the parameters, a pack. The function of a
//! node for the digits of v is built by recursion (`specs/PackOf.antt`): a leaf is a constant, a parameter is its source, and
//! an AND node is the product of its fan-ins, the lower one built first. Building it again adds nothing. So one pass over the
//! postorder of a LUT's cone gives the same, with one lookup for each node and address (`proofs/ConeMakesLemmas.antt`).
//! A *free* node is above no leaf of a LUT: it is the constant, a parameter, or an AND node that is no leaf and whose fan-ins
//! are free. Its function is the same for all LUTs and digits (`proofs/FreeLemmas.antt`). So its literal is kept once it is
//! made, and later passes stop at it: that making it again adds nothing is what keeps the pack's nodes and their order.
//! A pack has room for all nodes if the work of the LUTs by either rule is within the limit: the nodes of a LUT's own are made
//! once for each of its addresses, and the free nodes that the rule counts once are made once (`proofs/RoomLemmas.antt`).
//! Exactly one such pack exists (`one`), and its configurations are those of the template, lawful for all values of the
//! parameters (`conf`).
//!
//! `proofs/BitExample.antt` works out the LUT of a multiplexer, and `proofs/PackExample.antt` its pack.
//!
//! # The files
//!
//! `cone_graph` has the cone of a LUT as a graph for a walk, `marks` the marks of nodes whose literals are kept, `cone_functions` the
//! functions of a cone's nodes, and `template_functions` those of all LUTs, the pack.
#![tactic(auto)]

mod cone_functions;
mod cone_graph;
mod marks;
mod template_functions;

pub use template_functions::functions;
