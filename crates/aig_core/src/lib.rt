//! And-inverter graphs with structural hashing.
//!
//! Every Boolean function can be built from two-input ANDs and complements. A graph has the ANDs as nodes and the complements
//! on its edges, and contains no AND twice (Kuehlmann, Paruthi, Krohm and Ganai 2002).
//!
//! Each node has an index. Index 0 is the constant 0; the sources follow, and then the AND nodes in the order of creation. A
//! source is regular or a parameter. A literal is twice an index, plus one for the complement of that node. An AND node is
//! the pair of the two literals that it multiplies, its fan-ins.
//!
//! What every graph keeps (`specs/Keeps.antt`): the fan-ins of an AND node are literals of two different nodes, both below it
//! and neither the constant, in ascending order; no pair occurs twice. The pairs are in one hashed set that keeps their
//! order. So a node can be found by its pair, and a pair by its node.
//!
//! `specs/Aig.antt` defines the graph, and `specs/And.antt` the product of two literals. `specs/Value.antt` has the values of
//! the nodes, as a relation: a list of values *fits* a graph if the constant is 0, each source has its value, and each AND
//! node is the product of the values of its fan-ins. For any values of the sources exactly one list fits.
//! `proofs/ProductLemmas.antt` shows that the product has the value of an AND, `proofs/GrowthLemmas.antt` that creating it
//! again adds nothing. `proofs/ValueExample.antt` works out a multiplexer.
#![tactic(auto)]

mod graph;
mod lit;
mod steps;

pub use graph::{AigErr, Graph};
pub use lit::{Kind, Lit, Pair, Roots, lit_value};
pub use steps::Steps;
