//! How many AND nodes a graph may have.
ghost use Rattle.std.specs.Prelude.{◌≡◌, ◌≤◌};
ghost use Rattle.cmd_stations.specs.Mapped.{most_nodes};

use aig_build::MOST_NODES;
use cover_pick::Rule;

/// The number of AND nodes for which each graph has room, whatever the rule. It is the limit under the rule of the least cost.
pub const GRAPH_ROOM: u32 = 1_048_576;

/// The maximal number of AND nodes in the graph of a source circuit, under the rule that chooses cuts of its nodes.
pub fn most_nodes(rule: Rule) -> u32
    ensures value { result ≡ most_nodes rule }
    ensures room { result ≤ GRAPH_ROOM }
{
    match rule {
        Rule::FewestLeaves => MOST_NODES,
        Rule::LeastCost => GRAPH_ROOM,
    }
}
