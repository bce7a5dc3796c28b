//! The target depth of the roots.
ghost use Rattle.std.specs.Prelude.{◌≡◌, ℕ, ◌/◌, ◌<◌};
ghost use Rattle.aig_core.specs.Aig.{first_and};
ghost use Rattle.aig_core.specs.Roots.{lits_of};
ghost use Rattle.cut_sets.specs.Labels.{label_at};
ghost use Rattle.cover_pick.specs.Target.{source_level as the_source_level, root_level as the_root_level, target as the_target};

use aig_core::{Graph, Kind, Lit};
use cut_sets::NodeLabels;

// The level of a root that is a source.
fn source_level(graph: &Graph, root: Lit) -> u32
    requires { root.0 / 2 < first_and graph.now }
    ensures { result ≡ the_source_level graph.now root.0 }
{
    let n = root.0 / 2;
    if n == 0 {
        return 0;
    }
    match graph.kind(n) {
        Kind::Regular => root.0 % 2,
        Kind::Parameter => 0,
    }
}

// The level of a root.
fn root_level(graph: &Graph, labels: &NodeLabels, root: Lit) -> u32
    ensures { result ≡ the_root_level graph.now (label_at labels.now) root.0 }
{
    if root.0 / 2 <= graph.sources() {
        return source_level(graph, root);
    }
    labels.label(root.0 / 2)
}

// The greatest level of the roots.
pub fn target(graph: &Graph, labels: &NodeLabels, roots: &[Lit]) -> u32
    ensures { result ≡ the_target graph.now (label_at labels.now) (lits_of roots.now) }
{
    let mut most = 0;
    for root in roots {
        most = most.max(root_level(graph, labels, *root));
    }
    most
}
