//! Bounded sets: for each AND node at most 2k + 4 cuts of at most k leaves, of which one is as low as the node's label.
//!
//! # The idea
//!
//! A table of all minimal cuts is too large for 6 leaves and large graphs. A mapper can do without most of them: it needs a
//! cut of the least height for each node on a critical path, and a few cuts of low cost for the other nodes. Labels by flow
//! (crate `flow_label`) give the least height and a cut of that height, the *low cut*, without any table. So a set of few cuts
//! a node suffices, and the depth is as low as with all cuts.
//!
//! The sets are made in ascending order of the nodes, each from the sets of the two fan-ins:
//!
//! - What a node *hands on* to its readers: the cut of itself alone, and then its set. A node that depends on parameters
//!   alone hands on the empty cut, and a regular source only itself.
//! - The *candidates* of a node: the unions of at most k leaves of what its fan-ins hand on, in the order of pairs. If none of
//!   them is as low as the label, the low cut is the last one.
//! - A candidate that contains another one is never in the set. Of equal candidates only the first counts.
//! - The set has at most 2k + 4 *places*. Three *takings* fill them. Half of the places go to candidates of the least height,
//!   the cheapest first; a quarter to those of the fewest leaves; the rest to what costs least if *favoured* nodes cost
//!   nothing. Ties are broken by a second number, then by the order of the candidates.
//!
//! # Costs
//!
//! The *flow* of a node is the least cost of its cuts, divided by how many readers are counted of it, and 0 at a source. A cut
//! costs a LUT (`TABLE_PRICE` and its bits) and the flows of its leaves. There are two flows: over all cuts of a set, and over
//! those that are as low as the label. A flow is at most `MOST_FLOW`, so a cost is below 2^43. This is the area flow of
//! Manohararajah, Brown and Vranesic (2006).
//!
//! A candidate's cost, its number of leaves and its place fit one word, the candidate's *key*. A taking compares keys.
//!
//! # What is proved
//!
//! [`bounded_sets`] returns sets as they are defined (`AreSets`): the candidates, the order of each taking, and the flows. Each
//! cut of a row is a cut of its node, and one has the label as its height (`AreServing`). [`set_laws`] says that this holds of all
//! sets, and that there is one such list of rows for the same graph, labels, low cuts, counts and favoured nodes.
//!
//! # Where what is
//!
//! - `specs/Flow.antt` (costs and flows), `Candidates.antt`, `Sets.antt` (places, takings, rows) are what the public clauses
//!   say; `Taking.antt`, `Worths.antt` and `Making.antt` are the states of the loops.
//! - `worths.rt`: what nodes count as leaves, one record for each node, so that a cut is priced in one walk over its leaves.
//!   `price.rt`: the costs of a cut. `candidates.rt`: the candidates of a node. `taking.rt`: one taking by its order, with the
//!   least key next. `places.rt`: the three takings. `sets.rt`: the cuts at the places, and their least flows. `making.rt`:
//!   node after node. `laws.rt`: what holds of all sets.
//! - Working memory is allocated once for all nodes.
//!
//! # Source
//!
//! Manohararajah, Brown and Vranesic, "Heuristics for area minimization in LUT-based FPGA technology mapping", 2006.
#![tactic(auto)]

mod candidates;
mod laws;
mod limits;
mod making;
mod places;
mod price;
mod scope;
mod sets;
mod taking;
mod worths;

pub use laws::set_laws;
pub use limits::{MOST_FLOW, TABLE_PRICE};
pub use making::{Wanted, bounded_sets};
pub use scope::Scope;
