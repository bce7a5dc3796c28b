//! The check of a path.
ghost use Rattle.std.specs.Prelude.{◌≡◌, ◌<◌, ◌≤◌, ℕ, true, false, length};
ghost use Rattle.aig_core.specs.Aig.{first_and, node_count, IsAnd, IsSource, AreNormal};
ghost use Rattle.aig_core.specs.declared.lit.Kind.TheVariants.{Regular};
ghost use Rattle.list_laws.specs.Members.{In};
ghost use Rattle.cut_sets.specs.Paths.{IsFanIn, IsPath};

use aig_core::{Graph, Kind};

/// Whether this is an AND node of the graph.
pub(crate) fn is_and(graph: &Graph, n: u32) -> bool
    ensures yes { result ≡ true → IsAnd graph.now n }
    ensures no { result ≡ false → IsAnd graph.now n → ⊥ }
{
    n > graph.sources() && n < graph.len()
}

/// Whether this is a regular source of the graph.
pub(crate) fn is_regular(graph: &Graph, m: u32) -> bool
    ensures yes { result ≡ true → IsSource graph.now Regular m }
    ensures no { result ≡ false → IsSource graph.now Regular m → ⊥ }
    ensures normal { AreNormal (first_and graph.now) graph.now.pairs }
{
    if m > graph.sources() || m == 0 {
        return false;
    }
    match graph.kind(m) {
        Kind::Regular => true,
        Kind::Parameter => false,
    }
}

// Whether m is a fan-in node of n.
fn is_fan_in(graph: &Graph, m: u32, n: u32) -> bool
    ensures yes { result ≡ true → IsFanIn graph.now m n }
    ensures no { result ≡ false → IsFanIn graph.now m n → ⊥ }
{
    if !is_and(graph, n) {
        return false;
    }
    let pair = graph.pair_at(n);
    if pair.x.0 / 2 == m {
        return true;
    }
    pair.y.0 / 2 == m
}

/// Whether the nodes are a path to n. If so, none of them is above n. Time is linear in their number.
pub(crate) fn is_path(graph: &Graph, nodes: &[u32], n: u32) -> bool
    ensures yes { result ≡ true → IsPath graph.now n nodes.now }
    ensures no { result ≡ false → IsPath graph.now n nodes.now → ⊥ }
    ensures below { result ≡ true → (m : ℕ) → In nodes.now m → m ≤ n }
{
    if nodes.is_empty() {
        return false;
    }
    if !is_regular(graph, nodes[0]) {
        return false;
    }
    for i in 1..nodes.len() {
        if !is_fan_in(graph, nodes[i - 1], nodes[i]) {
            return false;
        }
    }
    nodes[nodes.len() - 1] == n
}
