//! The depth of the roots.
ghost use Rattle.std.specs.Prelude.{◌≡◌, ◌<◌, ◌≤◌, ◌^◌};
ghost use Rattle.aig_core.specs.Aig.{IsLit};
ghost use Rattle.aig_core.specs.Roots.{lits_of, AreRoots};
ghost use Rattle.cut_sets.specs.Labels.{label_at};
ghost use Rattle.flow_cert.specs.Target.{IsLevel, IsTarget, IsDeeper};

use aig_core::{Graph, Kind, Lit};
use cut_sets::NodeLabels;

/// The depth, and the AND node of the first root that needs it; 0 if no root does, or if it is the complement of a source.
#[derive(Clone, Copy)]
pub struct Target {
    pub depth: u32,
    pub begin: u32,
}

// The depth that a root needs.
fn level(graph: &Graph, labels: &NodeLabels, root: Lit) -> u32
    requires { IsLit graph.now root.0 }
    ensures { IsLevel graph.now (label_at labels.now) root.0 result }
{
    let n = root.0 / 2;
    if n == 0 {
        return 0;
    }
    if n > graph.sources() {
        return labels.label(n);
    }
    match graph.kind(n) {
        Kind::Regular => root.0 % 2,
        Kind::Parameter => 0,
    }
}

// The deeper of the target so far and one more root; the target so far if both are equally deep.
fn deeper(graph: &Graph, labels: &NodeLabels, best: Target, root: Lit) -> Target
    requires { IsLit graph.now root.0 }
    ensures { IsDeeper graph.now (label_at labels.now) root.0 best.depth best.begin result.depth result.begin }
{
    let depth = level(graph, labels, root);
    if depth <= best.depth {
        return best;
    }
    if root.0 / 2 > graph.sources() {
        return Target {
            depth,
            begin: root.0 / 2,
        };
    }
    Target { depth, begin: 0 }
}

/// The depth that the roots need, and the first node of their certificate.
pub fn target_of(graph: &Graph, labels: &NodeLabels, roots: &[Lit]) -> Target
    requires { AreRoots graph.now (lits_of roots.now) }
    ensures { IsTarget graph.now (label_at labels.now) (lits_of roots.now) result.depth result.begin }
{
    let mut best = Target { depth: 0, begin: 0 };
    for root in roots {
        best = deeper(graph, labels, best, *root);
    }
    best
}
