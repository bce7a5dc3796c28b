//! Packs: the bits of a configuration as functions of the parameters, all over one graph.
//!
//! # The idea
//!
//! Each configuration bit of a tunable LUT is a Boolean function of the parameters (Bruneel, Heirman, Stroobandt, 2011). A
//! *pack* has all these functions as literals of one AND graph whose sources are the parameters, so bits share common parts.
//! One evaluation of the graph for given values of the parameters gives the whole configuration.
//!
//! # What every pack keeps
//!
//! The sources of the graph are the parameters, in their order. There are at most 65,535 of them, each with a unique clean
//! name of at most 65,535 bytes. There are at most 2^25 nodes and 2^25 bits. Each bit is a literal of the graph
//! (`specs/Pack.antt`).
//!
//! A configuration is defined as a relation: its bits are the values of the pack's literals under the values that fit the
//! graph (`IsConf`). For any values of the parameters exactly one configuration exists (`HasOneConf`).
//! `proofs/PackExample.antt` works out two packs.
#![tactic(auto)]

mod pack;

pub use pack::{MOST_PACK_BITS, MOST_PACK_BYTES, MOST_PACK_NODES, Pack, PackParam};
pub use tl_text::{MOST_NAME_BYTES, MOST_PARAMETERS};
