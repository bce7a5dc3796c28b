//! The LUTs to which a graph is mapped: a cover of the least depth, with few bits or few LUTs off the critical path.
//!
//! # The idea
//!
//! The labels (crate `depth_label`) give the least depth of each node. The *target*, the greatest label over the roots, is
//! the least depth of any cover. Off the critical path such a cover has a choice. A node with slack may be deeper: it can
//! take a cut of fewer leaves, whose LUT has fewer bits, or a cut whose leaves are needed anyway, which saves LUTs. So each
//! needed node gets a *required depth*, from the roots down, and a *rule* chooses one of its cuts within that depth. The
//! labelling is FlowMap's (Cong and Ding, 1994). The area recovery by required depths is that of later mappers, such as `if`
//! of ABC.
//!
//! # Terms
//!
//! - A *cover* assigns to AND nodes cuts of at most K leaves. It contains every AND node of a root and every AND leaf of its
//!   cuts. Its depth is the greatest over the roots; a root that is a complemented regular source counts 1.
//! - A *literal* is twice the index of a node, plus one for its complement. The *needed* literals are the roots, in their
//!   phase, and the positive literals of the leaves of the chosen cuts.
//! - A *LUT* belongs to a needed literal. Its inputs are the leaves of the chosen cut; the source itself for a complemented
//!   regular source; and none for a constant or a parameter. A positive regular source is a wire and has no LUT. A LUT of m
//!   leaves has 2^m bits, which begin at its *base*.
//! - The *cone* of a LUT is the AND nodes that it computes: those reached from its node without passing a leaf.
//! - A *free* node is above no leaf of a LUT and above no regular source: only parameters and constants are below it. Its
//!   function is the same in all LUTs and at all their addresses.
//! - The *work* of the LUTs is the sum over them of their bits times one more than their *own* nodes, plus 1 for each node
//!   that is counted once. By the fewest leaves a LUT owns its whole cone, and no node is counted once. By the least cost the
//!   free nodes of the cones are counted once for all LUTs, and each LUT owns the rest of its cone.
//!
//! # The steps, one file each
//!
//! 1. `target`: the target of the roots.
//! 2. `rule`, `choice`: the rules, and the choice of a cut for a required depth. Each rule is one definition: `IsChosen` of
//!    `specs/Choice.antt` for the fewest leaves, and `IsCheapest` of `specs/Sharing.antt` for the least cost, over the flows
//!    of crate `bounded_cuts`. `Chooses` of `specs/Planned.antt` is all that the theorem needs of a rule.
//! 3. `flow`, `cost`: the flows over some counts, in one pass up, and the cheapest cut of a node.
//! 4. `required`: the required depths and the choices, each once, in one pass down from the last AND node.
//! 5. `cuts`: the chosen cuts, each by its place among its node's cuts.
//! 6. `uses`, `rounds`, `makings`: how often a cover uses each node, what the cover costs, and the cover of the least cost. The
//!    flows of a round are over the uses in the cover of the round before it. Bounded sets of cuts (crate `bounded_cuts`) are
//!    made twice, the second time over what the best cover so far uses.
//! 7. `needed`, `tables`: the needed literals and their LUTs, in ascending order.
//! 8. `free`: the free nodes, in one pass up.
//! 9. `cone`, `work`, `light`: the own nodes of a LUT, each visited once, and the limit on the work. The walk of a cone stops at
//!    the nodes that are counted once and marks them as met. One pass down counts those that were met and all below them.
//!
//! # What is proved
//!
//! The contracts of `pick` and `pick_compact` say three things about their LUTs: the rule chooses them (`specs/Template.antt`, `IsTemplate`),
//! they map the graph (`specs/Mapping.antt`, `IsMapping`), and no cover of the graph is less deep (`IsLeast`, same file). The
//! rule is defined by relations alone, independently of the pass that finds the answer: required depths and chosen cuts by
//! `IsPlan` (`specs/Rounds.antt`), the LUTs by `AreTables`, and the work by sets of nodes (`specs/Work.antt`).
//! `IsPlan` is `IsPlanBy` some flows (`specs/Schedule.antt`), and `specs/Rounds.antt` says which flows these are for the least
//! cost. The least depth holds of every plan by flows. A graph with its labels, roots and table of cuts, or low cuts, has
//! exactly one plan, one template and one work. So too much work is always reported.
//!
//! `proofs/Examples.antt` has the plan, the LUT and the work of a small graph, and two rounds over another one.
//! `proofs/WorkExample.antt` has the work of two LUTs that share a free node, by both rules.
#![tactic(auto)]

mod choice;
mod choices;
mod cone;
mod cost;
mod cuts;
mod flow;
mod free;
mod light;
mod limits;
mod lut;
mod makings;
mod needed;
mod required;
mod rounds;
mod rule;
mod tables;
mod target;
mod template;
mod uses;
mod work;

pub use free::free_nodes;
pub use lut::{Lut, PickErr};
pub use rule::Rule;
pub use template::{Template, pick, pick_compact};
